//! The paths of some outputs, or the first fault that is met.
ghost use Rattle.std.specs.Prelude.{◌≡◌, ◌++◌, ◌∷◌, [], List, All, IsTrue, IfOk, OnOk};
ghost use Rattle.base_types.specs.FirstFault.{IfFault, IsFirstFault};
ghost use Rattle.netlist_core.specs.declared.netlist.NetId.{NetId as Net};
ghost use Rattle.chain_trace.specs.Paths.{is_driven, has_port};
ghost use Rattle.traced_paths.specs.Steps.{line_of, precedes, earlier, IsMetFrom, AreTraced, AreTracedSoFar};

use base_types::{Fault, NoMemory, ReadFault, Spot};
use chain_trace::{Path, Tracer};
use netlist_core::NetId;
use std::alloc::Global;

fn line_of(spot: &Spot) -> u64
    ensures value { result ≡ line_of spot.now }
{
    match spot {
        Spot::Line(line) => *line,
        _ => 0,
    }
}

/// Of two faults of one file, whether the first is of the lesser kind, or of this kind at the lesser line.
fn precedes(a: &Fault, b: &Fault) -> bool
    ensures value { result ≡ precedes a.now b.now }
{
    let kind = a.kind.number();
    let other = b.kind.number();
    kind < other || (kind == other && line_of(&a.spot) < line_of(&b.spot))
}

/// The fault that comes first.
fn earlier(first: Option<Fault>, fault: Fault) -> Fault
    ensures value { result ≡ earlier first fault }
{
    match first {
        Some(first) => {
            if precedes(&fault, &first) {
                fault
            } else {
                first
            }
        }
        None => fault,
    }
}

/// Traces one output more. Where a fault is met, the others are traced all the same, for lesser ones.
fn trace_one(
    alloc: Global,
    tracer: &Tracer<'_>,
    net: NetId,
    paths: &mut Vec<Path>,
    first: Option<Fault>,
) -> Result<Option<Fault>, NoMemory>
    requires output { IsTrue (has_port is_driven tracer.now.netlist net) }
    ensures more { IfOk result (λ next. (before : List Net) → AreTracedSoFar tracer.now.netlist tracer.now.cells before paths.old.items first → AreTracedSoFar tracer.now.netlist tracer.now.cells (before ++ net ∷ []) paths.new.items next) }
{
    match tracer.trace(alloc, net) {
        Ok(path) => {
            paths.push(path)?;
            Ok(first)
        }
        Err(ReadFault::Fault(fault)) => Ok(Some(earlier(first, fault))),
        Err(ReadFault::NoMemory) => Err(NoMemory),
    }
}

/// The paths of the outputs, in order, or the first of the faults that are met.
pub(crate) fn trace_all(
    alloc: Global,
    tracer: &Tracer<'_>,
    nets: &[NetId],
) -> Result<Vec<Path>, ReadFault>
    requires outputs { All (λ net. IsTrue (has_port is_driven tracer.now.netlist net)) nets.now }
    ensures value { IfOk result (λ paths. AreTraced tracer.now.netlist tracer.now.cells nets.now paths.items) }
    ensures fault { IfFault result (IsFirstFault (IsMetFrom tracer.now.netlist tracer.now.cells nets.now)) }
{
    let mut paths = Vec::new(alloc);
    let mut first = None;
    for net in nets {
        first = trace_one(alloc, tracer, *net, &mut paths, first)?;
    }
    match first {
        Some(fault) => Err(ReadFault::Fault(fault)),
        None => Ok(paths),
    }
}
