//! The contracts of `check_command`.
ghost use Rattle.base_types.specs.FirstFault.{IfFault};
ghost use Rattle.base_types.specs.declared.fault.Fault.{Fault};
ghost use Rattle.check_command.specs.Checks.{IsCheckText};
ghost use Rattle.design_files.specs.Faults.{HoldsInFiles, IsFilesFault};
ghost use Rattle.design_files.specs.Files.{texts_of};
ghost use Rattle.std.specs.Prelude.{IfOk, OnOk, length, ◌<◌, ◌^◌};

use base_types::{ReadFault, Text};
use std::alloc::Global;

/// As `check_command::check_text`.
pub fn check_text(
    alloc: Global,
    table: &[u8],
    lef: &[u8],
    verilog: &[u8],
    def: &[u8],
) -> Result<Text, ReadFault>
    requires lef { length lef.now < 2 ^ 32 }
    requires verilog { length verilog.now < 2 ^ 32 }
    requires def { length def.now < 2 ^ 32 }
    ensures text { IfOk result (IsCheckText (texts_of table.now lef.now verilog.now def.now)) }
    ensures fault { IfFault result (IsFilesFault (texts_of table.now lef.now verilog.now def.now)) }
    ensures no_fault { OnOk result ((fault : Fault) → HoldsInFiles (texts_of table.now lef.now verilog.now def.now) fault → ⊥) }
{
    check_command::check_text(alloc, table, lef, verilog, def)
}
