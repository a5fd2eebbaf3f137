//! The path of a scan output.
ghost use Rattle.std.specs.Prelude.{◌≡◌, All, IfOk, IsTrue};
ghost use Rattle.netlist_core.specs.Netlists.{IsNetlist};
ghost use Rattle.netlist_core.specs.Joining.{AreClassesOf};
ghost use Rattle.chain_trace.specs.declared.path.Path.{Path};
ghost use Rattle.chain_trace.specs.Paths.{is_driven, has_port, IsScanPath};
ghost use Rattle.base_types.specs.FirstFault.{IfFault};
ghost use Rattle.chain_trace.specs.Faults.{IsTraceFault};
ghost use Rattle.chain_trace.specs.Parities.{NamesEntry};

use crate::path::Path;
use crate::tracer::Tracer;
use base_types::ReadFault;
use cell_table::CellTable;
use netlist_core::{Classes, NetId, Netlist};
use std::alloc::Global;

/// The path of a scan output, an output or inout port bit, or the first fault that is met going backward from it:
/// NoDriver or TwoDrivers where a sink has no source or several, at the line of its instance or of the port's direction
/// statement; Loop where a scan path of an instance is met a second time, at the instance's line. For several outputs of one
/// netlist make a `Tracer` once.
pub fn trace(
    alloc: Global,
    netlist: &Netlist,
    classes: &Classes,
    table: &CellTable,
    scan_out: NetId,
) -> Result<Path, ReadFault>
    requires netlist { IsNetlist netlist.now }
    requires classes { AreClassesOf netlist.now classes.now }
    requires output { IsTrue (has_port is_driven netlist.now scan_out) }
    ensures path { IfOk result (IsScanPath netlist.now table.now scan_out) }
    ensures only { IfOk result (λ path. (other : Path) → IsScanPath netlist.now table.now scan_out other → other ≡ path) }
    // So its bits can be told by `bits_of`.
    ensures entries { IfOk result (λ path. All (NamesEntry netlist.now table.now) path.steps) }
    ensures fault { IfFault result (IsTraceFault netlist.now table.now scan_out) }
    ensures none { IfFault result (λ _. (path : Path) → ¬ IsScanPath netlist.now table.now scan_out path) }
{
    Tracer::of(alloc, netlist, classes, table)?.trace(alloc, scan_out)
}
