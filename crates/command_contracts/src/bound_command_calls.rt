//! The contracts of `bound_command`.
ghost use Rattle.base_types.specs.FirstFault.{IfFault};
ghost use Rattle.base_types.specs.declared.fault.Fault.{Fault};
ghost use Rattle.bound_command.specs.Bounds.{IsBoundText};
ghost use Rattle.design_files.specs.Faults.{HoldsInFiles, IsFilesFault};
ghost use Rattle.design_files.specs.Files.{texts_of};
ghost use Rattle.std.specs.Prelude.{IfOk, OnOk, length, ◌<◌, ◌^◌};

use base_types::{ReadFault, Text};
use std::alloc::Global;

/// As `bound_command::bound_text`.
pub fn bound_text(
    alloc: Global,
    table: &[u8],
    lef: &[u8],
    verilog: &[u8],
    def: &[u8],
    rounds: Option<u32>,
) -> Result<Text, ReadFault>
    requires lef { length lef.now < 2 ^ 32 }
    requires verilog { length verilog.now < 2 ^ 32 }
    requires def { length def.now < 2 ^ 32 }
    ensures text { IfOk result (IsBoundText (texts_of table.now lef.now verilog.now def.now) rounds) }
    ensures fault { IfFault result (IsFilesFault (texts_of table.now lef.now verilog.now def.now)) }
    ensures no_fault { OnOk result ((fault : Fault) → HoldsInFiles (texts_of table.now lef.now verilog.now def.now) fault → ⊥) }
{
    bound_command::bound_text(alloc, table, lef, verilog, def, rounds)
}
