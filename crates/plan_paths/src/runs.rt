//! The steps of units, one run after the other.
ghost use Rattle.std.specs.Prelude.{◌≡◌, ◌++◌, map, OnOk};
ghost use Rattle.chain_rules.specs.Legality.{unit_at, chain_at};
ghost use Rattle.plan_paths.specs.NewPaths.{run_places, runs_places, step_in};

use base_types::{NoMemory, Rows};
use chain_rules::{Plan, Rules, Unit};
use chain_trace::{Path, Step};

/// The step at a place of a path; where there is none, one of zeros.
pub(crate) fn step_in(paths: &[Path], path: usize, place: usize) -> Step
    ensures value { result ≡ step_in paths.now (path, place) }
{
    let absent = Step {
        instance: 0,
        path: 0,
        out: 0,
    };
    match paths.get(path) {
        Some(path) => match path.steps.as_slice().get(place) {
            Some(step) => *step,
            None => absent,
        },
        None => absent,
    }
}

/// The unit of a number; where there is none, one of zeros.
fn unit_at(rules: &Rules, unit: u32) -> Unit
    ensures value { result ≡ unit_at rules.now unit }
{
    match rules.units.as_slice().get(unit as usize) {
        Some(unit) => *unit,
        None => Unit {
            path: 0,
            first: 0,
            last: 0,
            bits: 0,
            pinned: false,
        },
    }
}

fn put_run(steps: &mut Rows<Step>, paths: &[Path], unit: Unit) -> Result<(), NoMemory>
    ensures value { OnOk result (steps.new ≡ steps.old ++ map (step_in paths.now) (run_places unit)) }
{
    let end = unit.last as usize + 1;
    for place in unit.first as usize..end {
        steps.push(step_in(paths, unit.path as usize, place))?;
    }
    Ok(())
}

fn put_units(
    steps: &mut Rows<Step>,
    paths: &[Path],
    rules: &Rules,
    units: &[u32],
) -> Result<(), NoMemory>
    ensures value { OnOk result (steps.new ≡ steps.old ++ map (step_in paths.now) (runs_places rules.now units.now)) }
{
    for unit in units {
        put_run(steps, paths, unit_at(rules, *unit))?;
    }
    Ok(())
}

/// Puts the units of a chain of the plan behind the steps.
pub(crate) fn put_chain(
    steps: &mut Rows<Step>,
    paths: &[Path],
    rules: &Rules,
    plan: &Plan,
    chain: usize,
) -> Result<(), NoMemory>
    ensures value { OnOk result (steps.new ≡ steps.old ++ map (step_in paths.now) (runs_places rules.now (chain_at plan.now chain))) }
{
    if chain < plan.len() {
        return put_units(steps, paths, rules, plan.chain(chain));
    }
    Ok(())
}
