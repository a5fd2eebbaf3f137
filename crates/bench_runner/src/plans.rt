//! How a case is planned: the nearest plan, settled at once or searched and then settled.
ghost use Rattle.std.specs.Prelude.{OnOk};
ghost use Rattle.chain_rules.specs.Legality.{IsLegal};
ghost use Rattle.order_search.specs.Searches.{AreSearchable};

use crate::cases::{Case, Layout, case_of};
use anyhow::{Result, bail, ensure};
use chain_rules::{Plan, Rules};
use order_search::plain::length_of;
use order_search::{Effort, are_searchable, nearest_plan, settle_order_counted};
use partition_moves::settle_all;
use plan_search::{Quiet, shorten};
use std::alloc::{Alloc, Global};
use std::io;
use std::rt::Clock;
use std::time::Instant;
use wire_cost::Ends;

/// The case of some words.
pub(crate) fn case_named(layout: &str, units: u32, chains: u32, letters: &str) -> Case {
    let layout = match layout {
        "generated" => Layout::Generated,
        "middle" => Layout::Middle,
        "random" => Layout::Random,
        "opposed" => Layout::Opposed,
        "square" => Layout::Square,
        _ => Layout::Across,
    };
    let letters = letters.as_bytes();
    Case {
        layout,
        units: units.max(1),
        chains: chains.max(1).min(units.max(1)),
        is_apart: letters.contains(&b'e'),
        is_tight: letters.contains(&b't'),
        is_uneven: letters.contains(&b'b'),
        is_ordered: letters.contains(&b'o'),
    }
}

/// Prints the length to which a part came, and how long it took from its start where times are asked for.
fn print_part(
    rt: &(impl Clock + Print),
    part: &str,
    length: i64,
    start: Instant,
    is_timed: bool,
) -> io::Result<()> {
    let took = start.elapsed(rt)?;
    if is_timed {
        println!(rt; "{part} {length} in {took:?}")
    } else {
        println!(rt; "{part} {length}")
    }
}

/// Settles the orders of a plan by reversals, and prints their number too.
fn time_reversals(
    rt: &(impl Clock + Print + Alloc<A = Global>),
    rules: &Rules,
    ends: &Ends,
    plan: &mut Plan,
    part: &str,
    is_timed: bool,
) -> Result<()>
    requires searchable { AreSearchable rules.now ends.now }
    requires legal { IsLegal rules.now plan.old }
    ensures legal { OnOk result (IsLegal rules.now plan.new) }
{
    let start = Instant::now(rt)?;
    let Ok(taken) = settle_order_counted(rt.alloc(), rules, ends, plan) else {
        bail!("no memory");
    };
    print_part(rt, part, length_of(rules, ends, plan), start, is_timed)?;
    println!(rt; "passes {} steps {}", taken.passes, taken.steps)?;
    Ok(())
}

/// Settles the nearest orders by reversals, and where times are asked for once more.
fn time_settling(
    rt: &(impl Clock + Print + Alloc<A = Global>),
    rules: &Rules,
    ends: &Ends,
    is_timed: bool,
) -> Result<()> {
    ensure!(are_searchable(rules, ends), "not searchable");
    let start = Instant::now(rt)?;
    let Ok(mut plan) = nearest_plan(rt.alloc(), rules, ends) else {
        bail!("no memory");
    };
    let length = length_of(rules, ends, &plan);
    print_part(rt, "nearest", length, start, is_timed)?;
    time_reversals(rt, rules, ends, &mut plan, "settled", is_timed)?;
    if is_timed {
        time_reversals(rt, rules, ends, &mut plan, "again", true)?;
    }
    Ok(())
}

/// Searches a plan, and settles it.
fn time_search(
    rt: &(impl Clock + Print + Alloc<A = Global>),
    rules: &Rules,
    ends: &Ends,
    is_timed: bool,
) -> Result<()> {
    ensure!(are_searchable(rules, ends), "not searchable");
    let start = Instant::now(rt)?;
    let Ok(mut plan) = nearest_plan(rt.alloc(), rules, ends) else {
        bail!("no memory");
    };
    print_part(
        rt,
        "nearest",
        length_of(rules, ends, &plan),
        start,
        is_timed,
    )?;
    let start = Instant::now(rt)?;
    let Ok(()) = shorten(rt.alloc(), rules, ends, Effort::Full, &mut plan, &Quiet) else {
        bail!("no memory");
    };
    if is_timed {
        print_part(
            rt,
            "searched",
            length_of(rules, ends, &plan),
            start,
            is_timed,
        )?;
    }
    let start = Instant::now(rt)?;
    let Ok(()) = settle_all(rt.alloc(), rules, ends, &mut plan) else {
        bail!("no memory");
    };
    print_part(
        rt,
        "settled",
        length_of(rules, ends, &plan),
        start,
        is_timed,
    )?;
    Ok(())
}

/// Settles the orders of a case, or searches plans for it.
pub(crate) fn run_case(
    rt: &(impl Clock + Print + Alloc<A = Global>),
    case: Case,
    is_searched: bool,
    is_timed: bool,
) -> Result<()> {
    let Ok((rules, ends)) = case_of(rt.alloc(), case) else {
        bail!("no memory");
    };
    if is_searched {
        time_search(rt, &rules, &ends, is_timed)
    } else {
        time_settling(rt, &rules, &ends, is_timed)
    }
}
