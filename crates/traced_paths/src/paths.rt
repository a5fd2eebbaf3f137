//! The paths that are asked for.
ghost use Rattle.std.specs.Prelude.{◌≡◌, ◌≤◌, List, length, map, IfOk, OnOk};
ghost use Rattle.base_types.specs.Faults.{at_line};
ghost use Rattle.base_types.specs.declared.fault.Fault.{Fault as ghost_fault};
ghost use Rattle.base_types.specs.declared.fault.ReadFault.TheVariants.{Fault as refused};
ghost use Rattle.base_types.specs.FirstFault.{IfFault, IsFirstFault};
ghost use Rattle.netlist_core.specs.Netlists.{IsNetlist};
ghost use Rattle.netlist_core.specs.Joining.{AreClassesOf};
ghost use Rattle.chain_trace.specs.declared.path.Path.{Path as ghost_path};
ghost use Rattle.traced_paths.specs.Asked.{told};
ghost use Rattle.traced_paths.specs.Traced.{ArePathsOf, HoldsInPaths, NameEntries};

use crate::asks::Ask;
use crate::outputs::outputs_of;
use crate::ports::least_lacking;
use crate::shared::least_shared;
use crate::tracing::trace_all;
use base_types::{Fault, FileKind, Kind, ReadFault};
use cell_table::CellTable;
use chain_trace::{Path, Tracer};
use netlist_core::{Classes, Netlist, Ports};
use std::alloc::Global;

fn refused(kind: Kind, file: FileKind, line: u64) -> ReadFault
    ensures value { result ≡ refused (at_line kind file line) }
{
    ReadFault::Fault(Fault::at_line(kind, file, line))
}

/// The paths of the outputs that are asked for, in order, each port once.
///
/// Refused by the first fault, of the least kind and of these at the least line: NoPort, where an input that is asked for is no bit of
/// an input or inout port, or an output none of an output or inout port, and TooManyPaths, at the chain that asks for the 257th path,
/// both in the file that asks; NoDriver, TwoDrivers or Loop, where going backward from an output such a fault is met; SharedCell, where
/// a scan path of an instance stands on two of the paths, at the instance's line.
///
/// It goes over the netlist once for all paths; a chain takes constant time, and a step of a path too.
pub fn trace_asked(
    alloc: Global,
    netlist: &Netlist,
    classes: &Classes,
    table: &CellTable,
    asks: &[Ask<'_>],
    file: FileKind,
) -> Result<Vec<Path>, ReadFault>
    requires netlist { IsNetlist netlist.now }
    requires classes { AreClassesOf netlist.now classes.now }
    ensures paths { IfOk result (λ paths. ArePathsOf netlist.now table.now (map told asks.now) paths.items) }
    ensures only { IfOk result (λ paths. (other : List ghost_path) → ArePathsOf netlist.now table.now (map told asks.now) other → other ≡ paths.items) }
    // So their bits can be told.
    ensures entries { IfOk result (λ paths. NameEntries netlist.now table.now paths.items) }
    ensures few { IfOk result (λ paths. length paths.items ≤ 256) }
    ensures fault { IfFault result (IsFirstFault (HoldsInPaths netlist.now table.now file (map told asks.now))) }
    ensures no_fault { OnOk result ((fault : ghost_fault) → HoldsInPaths netlist.now table.now file (map told asks.now) fault → ⊥) }
{
    let ports = Ports::of(alloc, netlist)?;
    if let Some(line) = least_lacking(&ports, asks) {
        return Err(refused(Kind::NoPort, file, line));
    }
    let nets = outputs_of(alloc, &ports, asks, file)?;
    let tracer = Tracer::of(alloc, netlist, classes, table)?;
    let paths = trace_all(alloc, &tracer, nets.as_slice())?;
    if let Some(line) = least_shared(alloc, netlist, paths.as_slice())? {
        return Err(refused(Kind::SharedCell, FileKind::Verilog, line));
    }
    Ok(paths)
}
