//! The contracts of `trace_command`.
ghost use Rattle.base_types.specs.FirstFault.{IfFault, IsFirstFault};
ghost use Rattle.base_types.specs.declared.fault.Fault.{Fault};
ghost use Rattle.std.specs.Prelude.{IfOk, OnOk, length, ◌<◌, ◌^◌};
ghost use Rattle.trace_command.specs.Reports.{HoldsInTrace, IsPathText};

use base_types::{ReadFault, Text};
use std::alloc::Global;

/// As `trace_command::path_text`.
pub fn path_text(
    alloc: Global,
    table: &[u8],
    verilog: &[u8],
    output: &[u8],
) -> Result<Text, ReadFault>
    requires size { length verilog.now < 2 ^ 32 }
    ensures text { IfOk result (IsPathText table.now verilog.now output.now) }
    ensures fault { IfFault result (IsFirstFault (HoldsInTrace table.now verilog.now output.now)) }
    ensures no_fault { OnOk result ((fault : Fault) → HoldsInTrace table.now verilog.now output.now fault → ⊥) }
{
    trace_command::path_text(alloc, table, verilog, output)
}
