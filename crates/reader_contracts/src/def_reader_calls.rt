//! The contracts of `def_reader`.
ghost use Rattle.base_types.specs.FirstFault.{IfFault, IsFirstFault};
ghost use Rattle.base_types.specs.declared.fault.Fault.{Fault as ghost_fault};
ghost use Rattle.def_reader.specs.Agreement.{Agree, HoldsInAgreement};
ghost use Rattle.def_reader.specs.Denoted.{DenotesDesign};
ghost use Rattle.def_reader.specs.Faults.{HoldsInDesign};
ghost use Rattle.def_reader.specs.Sound.{IsSound};
ghost use Rattle.def_reader.specs.declared.design.Design.{Design as ghost_design};
ghost use Rattle.netlist_core.specs.Joining.{AreClassesOf};
ghost use Rattle.netlist_core.specs.Netlists.{IsNetlist};
ghost use Rattle.std.specs.Prelude.{IfOk, OnOk, length, ◌<◌, ◌^◌, ◌≡◌};

use base_types::ReadFault;
use cell_table::CellTable;
use def_reader::Design;
use netlist_core::{Classes, Netlist};
use std::alloc::Global;

/// As `def_reader::read_design`.
pub fn read_design(alloc: Global, bytes: &[u8], table: &CellTable) -> Result<Design, ReadFault>
    requires size { length bytes.now < 2 ^ 32 }
    ensures design { IfOk result (DenotesDesign bytes.now table.now) }
    // Its numbers are within their limits, and each chain has a list with an element.
    ensures sound { IfOk result IsSound }
    ensures only { IfOk result (λ d. (other : ghost_design) → DenotesDesign bytes.now table.now other → other ≡ d) }
    ensures fault { IfFault result (IsFirstFault (HoldsInDesign bytes.now)) }
    ensures no_fault { OnOk result ((fault : ghost_fault) → HoldsInDesign bytes.now fault → ⊥) }
{
    def_reader::read_design(alloc, bytes, table)
}

/// As `def_reader::agree`.
pub fn agree(
    alloc: Global,
    netlist: &Netlist,
    classes: &Classes,
    design: &Design,
) -> Result<(), ReadFault>
    requires netlist { IsNetlist netlist.now }
    requires classes { AreClassesOf netlist.now classes.now }
    ensures agree { OnOk result (Agree netlist.now design.now) }
    ensures no_fault { OnOk result ((fault : ghost_fault) → HoldsInAgreement netlist.now design.now fault → ⊥) }
    ensures fault { IfFault result (IsFirstFault (HoldsInAgreement netlist.now design.now)) }
    ensures differ { IfFault result (λ _. Agree netlist.now design.now → ⊥) }
{
    def_reader::agree(alloc, netlist, classes, design)
}
