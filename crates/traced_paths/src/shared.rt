//! Scan paths of instances that stand on two paths.
ghost use Rattle.std.specs.Prelude.{◌≡◌, ◌++◌, List, IfOk, OnOk};
ghost use Rattle.chain_trace.specs.declared.path.Step.{Step as Lists};
ghost use Rattle.chain_trace.specs.Drivers.{AreMarks};
ghost use Rattle.list_laws.specs.Leasts.{IsLeast};
ghost use Rattle.traced_paths.specs.Steps.{is_marked, IsMarked, StandsAgain};

use base_types::NoMemory;
use chain_trace::{Path, Sink, Step, sink_line};
use list_laws::{lesser, line_if};
use netlist_core::Netlist;
use std::alloc::Global;
use std::collections::HashSet;

fn is_marked(marks: &HashSet<(u32, u32)>, step: Step) -> bool
    ensures value { result ≡ is_marked marks.now step }
{
    marks.contains(&(step.instance, step.path))
}

/// The least line of an instance whose scan path stands here and is marked.
fn least_marked(netlist: &Netlist, marks: &HashSet<(u32, u32)>, steps: &[Step]) -> Option<u64>
    ensures value { IsLeast (IsMarked netlist.now marks.now steps.now) result }
{
    let mut least = None;
    for step in steps {
        let sink = Sink::In {
            instance: step.instance,
            path: step.path,
        };
        let line = sink_line(netlist, sink);
        least = lesser(least, line_if(is_marked(marks, *step), line));
    }
    least
}

fn mark_all(marks: &mut HashSet<(u32, u32)>, steps: &[Step]) -> Result<(), NoMemory>
    ensures value { OnOk result ((before : List Lists) → AreMarks before marks.old → AreMarks (before ++ steps.now) marks.new) }
{
    for step in steps {
        marks.insert((step.instance, step.path))?;
    }
    Ok(())
}

/// The least line of an instance of which a scan path stands on a path and on one before it.
pub(crate) fn least_shared(
    alloc: Global,
    netlist: &Netlist,
    paths: &[Path],
) -> Result<Option<u64>, NoMemory>
    ensures value { IfOk result (IsLeast (StandsAgain netlist.now paths.now)) }
{
    let mut marks = HashSet::new(alloc);
    let mut least = None;
    for path in paths {
        let steps = path.steps.as_slice();
        least = lesser(least, least_marked(netlist, &marks, steps));
        mark_all(&mut marks, steps)?;
    }
    Ok(least)
}
