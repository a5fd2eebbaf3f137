//! What fills the places of a path after a plan.
ghost use Rattle.std.specs.Prelude.{◌≡◌, ◌++◌, map, length, IfOk, OnOk};
ghost use Rattle.std.specs.List.{range_with_len};
ghost use Rattle.chain_rules.specs.Legality.{rule_at};
ghost use Rattle.plan_paths.specs.NewPaths.{chain_on, filling, new_places, step_in};

use crate::runs::{put_chain, step_in};
use base_types::{NoMemory, Rows};
use chain_rules::{Plan, Rules};
use chain_trace::{Path, Step};
use std::alloc::Global;

/// The first place of a chain on its path; 0 where there is no such chain.
fn first_of(rules: &Rules, chain: usize) -> usize
    ensures value { result ≡ (rule_at rules.now chain).first }
{
    match rules.chains.as_slice().get(chain) {
        Some(rule) => rule.first as usize,
        None => 0,
    }
}

/// Puts what fills a place behind the steps, where the place lies in this chain.
fn put_filling(
    steps: &mut Rows<Step>,
    paths: &[Path],
    rules: &Rules,
    plan: &Plan,
    path: usize,
    place: usize,
    chain: Option<usize>,
) -> Result<(), NoMemory>
    ensures value { OnOk result (steps.new ≡ steps.old ++ map (step_in paths.now) (filling rules.now plan.now path place chain)) }
{
    match chain {
        Some(chain) => {
            if first_of(rules, chain) == place {
                return put_chain(steps, paths, rules, plan, chain);
            }
            Ok(())
        }
        None => steps.push(step_in(paths, path, place)),
    }
}

/// The steps of the new path of a number, where `chains` has of each place of the read one the chain in which it lies.
pub(crate) fn new_steps(
    alloc: Global,
    paths: &[Path],
    rules: &Rules,
    plan: &Plan,
    path: usize,
    chains: &[Option<usize>],
) -> Result<Rows<Step>, NoMemory>
    requires chains { chains.now ≡ map (chain_on rules.now path) (range_with_len 0 (length chains.now)) }
    ensures value { IfOk result (λ steps. steps ≡ map (step_in paths.now) (new_places rules.now plan.now path (length chains.now))) }
{
    let mut steps = Rows::with_room(alloc, chains.len())?;
    for (place, chain) in chains.iter().enumerate() {
        put_filling(&mut steps, paths, rules, plan, path, place, *chain)?;
    }
    Ok(steps)
}
