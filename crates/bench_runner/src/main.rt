//! Times parts of the program on made inputs: the first word says which part, further words how much of it.
//!
//! `lanes` times the kernels, `tokens` and `netlist` with a number of megabytes the reading of Verilog, `retarget` with numbers of cells
//! and of calls the retargeting, `chains` with a number of chains the reading of their rules. `settling` with a number of units times
//! the nearest order of one chain and its reversals, `plans` with the name of a layout, a number of units, a number of chains and letters
//! the search: e for units left beside their entry, t for tight bounds, b for units of several bits, o for some units of several bits that
//! are left far away. Without a word each part runs on little, and what is printed is the same on every machine.
//!
//! Floor: benches, on lane_kernels, cell_table, netlist_core, chain_trace, verilog_syntax, verilog_reader, stil_types,
//! stil_tester, retarget, chain_rules, wire_cost, order_search, partition_moves, plan_search, base_types and `anyhow`.
#![tactic(auto)]

mod calls;
mod cases;
mod chains;
mod dice;
mod lanes;
mod netlists;
mod plans;
mod retargeting;

use anyhow::{Result, bail};
use chains::run_chains;
use netlists::{run_reading, run_tokens};
use plans::{case_named, run_case};
use std::alloc::{Alloc, Global};
use std::env;
use std::rt::Clock;

const MEGABYTE: usize = 1_000_000;

/// The word at a place, or none.
fn word(words: &[String], place: usize) -> &str {
    words.get(place).map_or("", |word| word.as_str())
}

/// The number at a place of the words, or another one.
fn number(words: &[String], place: usize, none: u32) -> u32 {
    word(words, place).parse().unwrap_or(none)
}

/// Runs each part on little.
fn run_small(rt: &(impl Alloc<A = Global> + Clock + Print)) -> Result<()> {
    lanes::run(rt, false)?;
    run_tokens(rt, 100_000, false)?;
    run_reading(rt, 10_000, false)?;
    retargeting::run(rt, 1000, 8, false)?;
    run_chains(rt, 100, false)?;
    run_case(rt, case_named("square", 60, 1, ""), false, false)?;
    run_case(rt, case_named("random", 60, 3, "t"), true, false)
}

/// Times the part that the words name.
fn run_words(
    rt: &(impl Alloc<A = Global> + Clock + Print),
    part: &str,
    words: &[String],
) -> Result<()> {
    let count = number(words, 1, 16_384);
    let size = (count as usize).saturating_mul(MEGABYTE);
    match part {
        "lanes" => lanes::run(rt, true)?,
        "tokens" => run_tokens(rt, size, true)?,
        "netlist" => run_reading(rt, size, true)?,
        "retarget" => retargeting::run(rt, count, number(words, 2, 1000) as usize, true)?,
        "chains" => run_chains(rt, count, true)?,
        "settling" => run_case(rt, case_named("square", count, 1, ""), false, true)?,
        "plans" => {
            let (units, chains) = (number(words, 2, 16_384), number(words, 3, 8));
            let case = case_named(word(words, 1), units, chains, word(words, 4));
            run_case(rt, case, true, true)?
        }
        _ => bail!("no such part"),
    }
    Ok(())
}

fn main(rt: HostRuntime) -> Result<()> {
    let mut words = Vec::new(rt.alloc());
    for word in env::args(&rt)?.skip(1) {
        words.push(word)?;
    }
    match words.first() {
        Some(part) => run_words(&rt, part.as_str(), words.as_slice()),
        None => run_small(&rt),
    }
}
