//! The chains of a design with the units of a plan.
ghost use Rattle.std.specs.Prelude.{◌≡◌, ◌++◌, ◌∷◌, [], map, length, IfOk, OnOk};
ghost use Rattle.std.specs.List.{flat_map, range_with_len};
ghost use Rattle.chain_rules.specs.Legality.{chain_at};
ghost use Rattle.def_writer.specs.PlanChains.{floating_elements, ordered_elements, plan_chain, plan_chains};

use crate::elements::{put_elements, start_pin, stop_pin};
use crate::listing::Listing;
use crate::traced::Traced;
use crate::units::{has_ordered, listed_steps};
use base_types::{NoMemory, Rows};
use cell_table::CellTable;
use chain_rules::{ChainSpec, Plan, Rules};
use chain_trace::Path;
use def_edit::{NewChain, NewElement};
use netlist_core::Netlist;
use std::alloc::Global;

/// What chains are written from.
#[derive(Drop)]
struct Sources<'d> {
    netlist: &'d Netlist,
    table: &'d CellTable,
    rules: &'d Rules,
    listing: Listing<'d>,
    traced: Traced<'d>,
}

/// Puts the elements of a unit behind others: floating ones behind the floating ones, those of an ordered list as a list of their own.
fn put_unit<'d>(
    alloc: Global,
    from: &Sources<'d>,
    floating: &mut Rows<NewElement<'d>>,
    ordered: &mut Rows<Rows<NewElement<'d>>>,
    unit: u32,
) -> Result<(), NoMemory>
    ensures floating { OnOk result (floating.new ≡ floating.old ++ floating_elements from.now.netlist.now from.now.table.now from.now.listing from.now.traced from.now.rules.now unit) }
    ensures ordered { OnOk result (ordered.new ≡ ordered.old ++ ordered_elements from.now.netlist.now from.now.table.now from.now.listing from.now.traced from.now.rules.now unit) }
{
    let steps = listed_steps(alloc, &from.listing, from.traced.paths(), from.rules, unit)?;
    if has_ordered(&from.listing, steps.as_slice()) {
        let mut list = Rows::new(alloc);
        put_elements(&mut list, from.netlist, from.table, steps.as_slice())?;
        return ordered.push(list);
    }
    put_elements(floating, from.netlist, from.table, steps.as_slice())
}

/// A chain with these units.
fn plan_chain<'d>(
    alloc: Global,
    from: &Sources<'d>,
    chain: &ChainSpec,
    units: &[u32],
) -> Result<NewChain<'d>, NoMemory>
    ensures value { IfOk result (λ new. new ≡ plan_chain from.now.netlist.now from.now.table.now from.now.listing from.now.traced from.now.rules.now chain.now units.now) }
{
    let mut floating = Rows::new(alloc);
    let mut ordered = Rows::new(alloc);
    for unit in units {
        put_unit(alloc, from, &mut floating, &mut ordered, *unit)?;
    }
    Ok(NewChain {
        start: start_pin(from.netlist, from.table, &from.traced, chain.start),
        stop: stop_pin(from.netlist, from.table, chain.stop),
        floating,
        ordered,
    })
}

/// The units of the chain of a number; none where there is no such chain.
fn units_of(plan: &Plan, chain: usize) -> &[u32]
    ensures value { result.now ≡ chain_at plan.now chain }
{
    if chain < plan.len() {
        return plan.chain(chain);
    }
    &[]
}

/// The chains with their units in a plan.
pub(crate) fn plan_chains<'d>(
    alloc: Global,
    netlist: &'d Netlist,
    table: &'d CellTable,
    chains: &'d [ChainSpec],
    paths: &'d [Path],
    rules: &'d Rules,
    plan: &Plan,
) -> Result<Vec<NewChain<'d>>, NoMemory>
    ensures value { IfOk result (λ news. news.items ≡ plan_chains netlist.now table.now chains.now paths.now rules.now plan.now) }
{
    let from = Sources {
        netlist,
        table,
        rules,
        listing: Listing::of(alloc, chains)?,
        traced: Traced::of(alloc, paths)?,
    };
    let mut news = Vec::with_capacity(alloc, chains.len())?;
    for (number, chain) in chains.iter().enumerate() {
        news.push(plan_chain(alloc, &from, chain, units_of(plan, number))?)?;
    }
    Ok(news)
}
