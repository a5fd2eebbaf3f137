//! Paths with their steps by scan paths.
ghost use Rattle.std.specs.Prelude.{◌≡◌, ℕ, Some, None, if◌then◌else◌, option_map, IfOk, OnOk};
ghost use Rattle.std.specs.HashMap.{get};
ghost use Rattle.std.specs.List.{find};
ghost use Rattle.std.specs.Option.{option_or};
ghost use Rattle.chain_trace.specs.Drivers.{same_place};
ghost use Rattle.traced_paths.specs.Traced.{steps_of};
ghost use Rattle.def_writer.specs.PlanChains.{is_at};
ghost use Rattle.def_writer.specs.Seen.{AreTraced};

use base_types::NoMemory;
use chain_trace::{Path, Step};
use std::alloc::Global;
use std::collections::HashMap;
use std::marker::Model;

/// Paths with their steps, of those of one scan path the first. Contracts see the paths.
#[derive(Drop)]
pub(crate) struct Traced<'d> {
    paths: &'d [Path],
    steps: HashMap<(u32, u32), Step>,
}

impl<'d> Model for Traced<'d> {
    ghost use Rattle.std.specs.Prelude.{List};
    ghost use Rattle.chain_trace.specs.declared.path.Path.{Path};
    ghost use Rattle.def_writer.specs.Seen.{AreTraced};

    ghost Value = { List Path };

    ghost view = { λ t. t.paths.now };

    ghost invariant = { λ t. AreTraced t.paths.now t.steps };
}

/// Notes a step, unless one of its scan path is noted.
fn put_step(steps: &mut HashMap<(u32, u32), Step>, step: Step) -> Result<(), NoMemory>
    ensures value { OnOk result ((q : ℕ × ℕ) → get same_place steps.new q ≡ option_or (get same_place steps.old q) (if is_at q.0 q.1 step then Some step else None)) }
{
    let key = (step.instance, step.path);
    match steps.insert(key, step)? {
        Some(first) => {
            steps.insert(key, first)?;
            Ok(())
        }
        None => Ok(()),
    }
}

fn put_steps(steps: &mut HashMap<(u32, u32), Step>, more: &[Step]) -> Result<(), NoMemory>
    ensures value { OnOk result ((q : ℕ × ℕ) → get same_place steps.new q ≡ option_or (get same_place steps.old q) (find (is_at q.0 q.1) more.now)) }
{
    for step in more {
        put_step(steps, *step)?;
    }
    Ok(())
}

fn first_steps(alloc: Global, paths: &[Path]) -> Result<HashMap<(u32, u32), Step>, NoMemory>
    ensures value { IfOk result (AreTraced paths.now) }
{
    let mut steps = HashMap::new(alloc);
    for path in paths {
        put_steps(&mut steps, path.steps.as_slice())?;
    }
    Ok(steps)
}

impl<'d> Traced<'d> {
    /// The paths to look steps up in.
    pub(crate) fn of(alloc: Global, paths: &'d [Path]) -> Result<Traced<'d>, NoMemory>
        ensures value { IfOk result (λ traced. traced ≡ paths.now) }
    {
        Ok(Traced {
            paths,
            steps: first_steps(alloc, paths)?,
        })
    }

    /// The paths.
    pub(crate) fn paths(&self) -> &'d [Path]
        ensures value { result.now ≡ self.now }
    {
        self.paths
    }

    /// The first step of a scan path of an instance.
    pub(crate) fn step(&self, instance: u32, path: u32) -> Option<Step>
        ensures value { result ≡ find (is_at instance path) (steps_of self.now) }
    {
        match self.steps.get(&(instance, path)) {
            Some(step) => Some(*step),
            None => None,
        }
    }
}
