//! The contracts of `chain_trace`.
ghost use Rattle.base_types.specs.FirstFault.{IfFault};
ghost use Rattle.base_types.specs.declared.fault.Fault.{Fault};
ghost use Rattle.cell_table.specs.Cells.{Cells};
ghost use Rattle.chain_trace.specs.Faults.{IsTraceFault};
ghost use Rattle.chain_trace.specs.Named.{IsPortNamed, NamesLaw};
ghost use Rattle.chain_trace.specs.Parities.{AreBitsOf, NamesEntry, ParityLaw};
ghost use Rattle.chain_trace.specs.Paths.{IsScanPath, drives, has_port, is_driven};
ghost use Rattle.chain_trace.specs.declared.path.Path.{Path};
ghost use Rattle.netlist_core.specs.Joining.{AreClassesOf};
ghost use Rattle.netlist_core.specs.Netlists.{IsNetlist};
ghost use Rattle.netlist_core.specs.declared.netlist.NetId.{NetId};
ghost use Rattle.netlist_core.specs.declared.netlist.Netlist.{Netlist};
ghost use Rattle.std.specs.Prelude.{All, IfOk, IsTrue, MatchOption, ◌≡◌};

use base_types::{NoMemory, ReadFault};
use cell_table::CellTable;
use chain_trace::{Path, PathBits, Tracer};
use netlist_core::{Classes, NetId, Netlist};
use std::alloc::Global;

/// As `chain_trace::trace`.
pub fn trace(
    alloc: Global,
    netlist: &Netlist,
    classes: &Classes,
    table: &CellTable,
    scan_out: NetId,
) -> Result<Path, ReadFault>
    requires netlist { IsNetlist netlist.now }
    requires classes { AreClassesOf netlist.now classes.now }
    requires output { IsTrue (has_port is_driven netlist.now scan_out) }
    ensures path { IfOk result (IsScanPath netlist.now table.now scan_out) }
    ensures only { IfOk result (λ path. (other : Path) → IsScanPath netlist.now table.now scan_out other → other ≡ path) }
    // So its bits can be told by `bits_of`.
    ensures entries { IfOk result (λ path. All (NamesEntry netlist.now table.now) path.steps) }
    ensures fault { IfFault result (IsTraceFault netlist.now table.now scan_out) }
    ensures none { IfFault result (λ _. (path : Path) → ¬ IsScanPath netlist.now table.now scan_out path) }
{
    chain_trace::trace(alloc, netlist, classes, table, scan_out)
}

/// As `chain_trace::Tracer::trace`.
pub fn tracer_trace<'a>(
    tracer: &Tracer<'a>,
    alloc: Global,
    scan_out: NetId,
) -> Result<Path, ReadFault>
    requires output { IsTrue (has_port is_driven tracer.now.netlist scan_out) }
    ensures path { IfOk result (IsScanPath tracer.now.netlist tracer.now.cells scan_out) }
    ensures only { IfOk result (λ path. (other : Path) → IsScanPath tracer.now.netlist tracer.now.cells scan_out other → other ≡ path) }
    // So its bits can be told by `bits_of`.
    ensures entries { IfOk result (λ path. All (NamesEntry tracer.now.netlist tracer.now.cells) path.steps) }
    ensures fault { IfFault result (IsTraceFault tracer.now.netlist tracer.now.cells scan_out) }
    ensures none { IfFault result (λ _. (path : Path) → ¬ IsScanPath tracer.now.netlist tracer.now.cells scan_out path) }
{
    tracer.trace(alloc, scan_out)
}

/// As `chain_trace::path_law`.
pub fn path_law()
    ensures only { (n : Netlist) (cells : Cells) (output : NetId) (p q : Path) → IsScanPath n cells output p → IsScanPath n cells output q → p ≡ q }
    ensures no_fault { (n : Netlist) (cells : Cells) (output : NetId) (fault : Fault) → IsTraceFault n cells output fault → (p : Path) → IsScanPath n cells output p → ⊥ }
    ensures one_fault { (n : Netlist) (cells : Cells) (output : NetId) (f g : Fault) → IsTraceFault n cells output f → IsTraceFault n cells output g → f ≡ g }
{
    chain_trace::path_law()
}

/// As `chain_trace::bits_of`.
pub fn bits_of(
    alloc: Global,
    netlist: &Netlist,
    table: &CellTable,
    path: &Path,
) -> Result<PathBits, NoMemory>
    requires entries { All (NamesEntry netlist.now table.now) path.now.steps }
    ensures value { IfOk result (AreBitsOf netlist.now table.now path.now.steps) }
{
    chain_trace::bits_of(alloc, netlist, table, path)
}

/// As `chain_trace::parity_law`.
pub fn parity_law()
    ensures sum { ParityLaw }
{
    chain_trace::parity_law()
}

/// As `chain_trace::names_law`.
pub fn names_law()
    ensures same { NamesLaw }
{
    chain_trace::names_law()
}

/// As `chain_trace::output_named`.
pub fn output_named(netlist: &Netlist, name: &[u8]) -> Option<NetId>
    ensures value { MatchOption result ((net : NetId) → IsPortNamed is_driven netlist.now name.now net → ⊥) (IsPortNamed is_driven netlist.now name.now) }
{
    chain_trace::output_named(netlist, name)
}

/// As `chain_trace::input_named`.
pub fn input_named(netlist: &Netlist, name: &[u8]) -> Option<NetId>
    ensures value { MatchOption result ((net : NetId) → IsPortNamed drives netlist.now name.now net → ⊥) (IsPortNamed drives netlist.now name.now) }
{
    chain_trace::input_named(netlist, name)
}
