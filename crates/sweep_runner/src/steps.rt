//! Which plans are legal, and which steps leave them so, by hand.
//!
//! A row of `steps.toml` names the paths and chains that are `given`, and has a `plan`, the units of its chains, and
//! whether it is `legal`; its `moves` of a unit to a place and its `swaps` of two units, which are legal, and `no_moves`
//! and `no_swaps`, which aren't. A step is the chain and the place of a unit, and those that it is moved to or exchanged
//! with.
ghost use Rattle.std.specs.Prelude.{IsTrue};
ghost use Rattle.chain_rules.specs.Legality.{IsIn, IsLegal, IsOpen, taken_out};

use crate::rows::{list, place_of, text, truth};
use crate::rules::rules_of;
use base_types::NoMemory;
use chain_rules::{Plan, Position, Rules, can_move, can_swap, is_legal};
use row_forms::{Cases, items_of};
use std::alloc::Global;
use toml::{Table, Value};

/// Puts the chain of a word behind others. What is no number is a unit that there isn't.
fn put_chain(alloc: Global, lists: &mut Vec<Vec<u32>>, text: &str) -> Result<(), NoMemory> {
    let mut units = Vec::new(alloc);
    for word in text.split_whitespace() {
        units.push(word.parse().unwrap_or(u32::MAX))?;
    }
    lists.push(units)?;
    Ok(())
}

/// The plan of a text, whose chains stand with commas between them.
pub(crate) fn plan_of(alloc: Global, text: &str) -> Result<Plan, NoMemory> {
    let mut lists = Vec::new(alloc);
    for chain in text.split(',') {
        put_chain(alloc, &mut lists, chain)?;
    }
    Ok(Plan::of(lists))
}

/// Whether a plan has a unit there.
fn is_in(plan: &Plan, at: Position) -> bool
    ensures { IsTrue result → IsIn plan.now at }
{
    let chain = at.chain as usize;
    chain < plan.len() && (at.place as usize) < plan.chain(chain).len()
}

/// Whether a unit can be put there once the one at `from` is taken out.
fn is_open(plan: &Plan, from: Position, to: Position) -> bool
    requires { IsIn plan.now from }
    ensures { IsTrue result → IsOpen (taken_out plan.now from) to }
{
    let chain = to.chain as usize;
    if chain >= plan.len() {
        return false;
    }
    let units = plan.chain(chain).len();
    let left = if to.chain == from.chain {
        units - 1
    } else {
        units
    };
    to.place as usize <= left
}

fn shown(legal: bool) -> &'static str {
    if legal { "Ok(true)" } else { "Ok(false)" }
}

/// Whether a unit can be moved, or why that can't be asked.
fn moves(rules: &Rules, plan: &Plan, from: Position, to: Position) -> &'static str
    requires { IsLegal rules.now plan.now }
{
    if !is_in(plan, from) {
        return "Err(\"no unit is there\")";
    }
    if !is_open(plan, from, to) {
        return "Err(\"no unit can be put there\")";
    }
    shown(can_move(rules, plan, from, to))
}

/// Whether two units can be exchanged, which is so in both directions, or why that can't be asked.
fn swaps(rules: &Rules, plan: &Plan, a: Position, b: Position) -> &'static str
    requires { IsLegal rules.now plan.now }
{
    if !is_in(plan, a) || !is_in(plan, b) {
        return "Err(\"no unit is there\")";
    }
    let one_way = can_swap(rules, plan, a, b);
    if can_swap(rules, plan, b, a) != one_way {
        return "Err(\"in one direction alone\")";
    }
    shown(one_way)
}

/// The number at a place of a step.
fn number_at(step: &[Value], at: usize) -> u32 {
    match step.get(at) {
        Some(value) => place_of(value),
        None => u32::MAX,
    }
}

/// Tries the steps at a key, which are all legal or all not.
fn try_steps(
    cases: &mut Cases,
    row: &Value,
    rules: &Rules,
    plan: &Plan,
    key: &str,
    swap: bool,
    legal: bool,
) -> Result<(), NoMemory>
    requires { IsLegal rules.now plan.now }
{
    for step in list(row, key) {
        let step = items_of(step);
        let from = Position {
            chain: number_at(step, 0),
            place: number_at(step, 1),
        };
        let to = Position {
            chain: number_at(step, 2),
            place: number_at(step, 3),
        };
        let came = if swap {
            swaps(rules, plan, from, to)
        } else {
            moves(rules, plan, from, to)
        };
        cases.compare(text(row, "name"), came, shown(legal))?;
    }
    Ok(())
}

/// Tries the plan of a row, and its steps where it is legal.
fn try_plan(cases: &mut Cases, row: &Value, rules: &Rules, plan: &Plan) -> Result<(), NoMemory> {
    let wanted = if truth(row, "legal") {
        "legal"
    } else {
        "not legal"
    };
    if !is_legal(rules, plan) {
        return cases.compare(text(row, "name"), "not legal", wanted);
    }
    cases.compare(text(row, "name"), "legal", wanted)?;
    try_steps(cases, row, rules, plan, "no_moves", false, false)?;
    try_steps(cases, row, rules, plan, "moves", false, true)?;
    try_steps(cases, row, rules, plan, "no_swaps", true, false)?;
    try_steps(cases, row, rules, plan, "swaps", true, true)
}

/// Tries a row by the rules of what is given.
fn try_given(cases: &mut Cases, row: &Value, rules: &Rules) -> Result<(), NoMemory> {
    let plan = plan_of(cases.alloc, text(row, "plan"))?;
    try_plan(cases, row, rules, &plan)
}

/// What a row names as given.
fn given_of<'t>(file: &'t Table, row: &Value) -> Option<&'t Value> {
    file.get("given")?.get(text(row, "given"))
}

pub(crate) fn try_row(cases: &mut Cases, file: &Table, row: &Value) -> Result<(), NoMemory> {
    let Some(given) = given_of(file, row) else {
        return cases.compare(text(row, "name"), "not given", "given");
    };
    match &rules_of(cases.alloc, given) {
        Ok(Some(rules)) => try_given(cases, row, rules),
        _ => cases.compare(text(row, "name"), "refused", "rules"),
    }
}
