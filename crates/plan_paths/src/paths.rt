//! The paths after a plan.
ghost use Rattle.std.specs.Prelude.{◌≡◌, IfOk};
ghost use Rattle.plan_paths.specs.NewPaths.{new_paths};

use crate::filling::new_steps;
use crate::owners::owners_of;
use base_types::NoMemory;
use chain_rules::{Plan, Rules};
use chain_trace::Path;
use std::alloc::Global;

/// The paths after a plan of the rules of chains on these paths (LEF/DEF 5.8, SCANCHAINS), or want of memory. In each path, for each
/// chain on it, the run from its first step to its last is replaced by the runs of its units in the plan, one after the other; all else
/// of the path stays, and so does the order of the paths. Takes time of the order of the steps.
pub fn new_paths(
    alloc: Global,
    paths: &[Path],
    rules: &Rules,
    plan: &Plan,
) -> Result<Vec<Path>, NoMemory>
    ensures value { IfOk result (λ new. new.items ≡ new_paths paths.now rules.now plan.now) }
{
    let owners = owners_of(alloc, paths, rules.chains.as_slice())?;
    let mut new = Vec::with_capacity(alloc, paths.len())?;
    for (number, path) in paths.iter().enumerate() {
        let steps = new_steps(alloc, paths, rules, plan, number, owners[number].as_slice())?;
        new.push(Path {
            input: path.input,
            output: path.output,
            steps,
        })?;
    }
    Ok(new)
}
