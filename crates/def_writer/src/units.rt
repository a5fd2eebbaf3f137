//! The listed steps of units.
ghost use Rattle.std.specs.Prelude.{◌≡◌, map, filter, IfOk};
ghost use Rattle.std.specs.List.{list_any};
ghost use Rattle.chain_rules.specs.Legality.{unit_at};
ghost use Rattle.plan_paths.specs.NewPaths.{run_places, step_in};
ghost use Rattle.def_writer.specs.PlanChains.{is_listed, is_ordered, listed_steps};

use crate::listing::Listing;
use base_types::NoMemory;
use chain_rules::{Rules, Unit};
use chain_trace::{Path, Step};
use std::alloc::Global;

/// The step at a place of a path; where there is none, one of zeros.
fn step_in(paths: &[Path], path: usize, place: usize) -> Step
    ensures value { result ≡ step_in paths.now (path, place) }
{
    let absent = Step {
        instance: 0,
        path: 0,
        out: 0,
    };
    match paths.get(path) {
        Some(path) => match path.steps.as_slice().get(place) {
            Some(step) => *step,
            None => absent,
        },
        None => absent,
    }
}

/// The unit of a number; where there is none, one of zeros.
fn unit_at(rules: &Rules, unit: u32) -> Unit
    ensures value { result ≡ unit_at rules.now unit }
{
    match rules.units.as_slice().get(unit as usize) {
        Some(unit) => *unit,
        None => Unit {
            path: 0,
            first: 0,
            last: 0,
            bits: 0,
            pinned: false,
        },
    }
}

fn run_steps(alloc: Global, paths: &[Path], unit: Unit) -> Result<Vec<Step>, NoMemory>
    ensures value { IfOk result (λ steps. steps.items ≡ map (step_in paths.now) (run_places unit)) }
{
    let mut steps = Vec::new(alloc);
    let end = unit.last as usize + 1;
    for place in unit.first as usize..end {
        steps.push(step_in(paths, unit.path as usize, place))?;
    }
    Ok(steps)
}

fn listed_in(alloc: Global, listing: &Listing<'_>, steps: &[Step]) -> Result<Vec<Step>, NoMemory>
    ensures value { IfOk result (λ listed. listed.items ≡ filter (is_listed listing.now) steps.now) }
{
    let mut listed = Vec::new(alloc);
    for step in steps {
        if listing.lists(*step) {
            listed.push(*step)?;
        }
    }
    Ok(listed)
}

/// The listed steps of a unit, as read.
pub(crate) fn listed_steps(
    alloc: Global,
    listing: &Listing<'_>,
    paths: &[Path],
    rules: &Rules,
    unit: u32,
) -> Result<Vec<Step>, NoMemory>
    ensures value { IfOk result (λ steps. steps.items ≡ listed_steps listing.now paths.now rules.now unit) }
{
    let run = run_steps(alloc, paths, unit_at(rules, unit))?;
    listed_in(alloc, listing, run.as_slice())
}

/// Whether one of the steps is in an ordered list.
pub(crate) fn has_ordered(listing: &Listing<'_>, steps: &[Step]) -> bool
    ensures value { result ≡ list_any (is_ordered listing.now) steps.now }
{
    steps.iter().any(|step| listing.orders(*step))
}
