//! The contracts of `failmap_command`.
ghost use Rattle.base_types.specs.FirstFault.{IfFault, IsFirstFault};
ghost use Rattle.base_types.specs.declared.fault.Fault.{Fault as ghost_fault};
ghost use Rattle.failmap_command.specs.Faults.{HoldsInFailmap};
ghost use Rattle.failmap_command.specs.Texts.{IsFailmapText};
ghost use Rattle.std.specs.Prelude.{IfOk, OnOk, length, ◌<◌, ◌^◌, ◌≤◌};

use base_types::{ReadFault, Text};
use std::alloc::Global;

/// As `failmap_command::failmap_text`.
pub fn failmap_text(
    alloc: Global,
    table: &[u8],
    verilog: &[u8],
    stil: &[u8],
    new_verilog: &[u8],
    new_stil: &[u8],
    log: &[u8],
) -> Result<Text, ReadFault>
    requires small { length verilog.now < 2 ^ 32 }
    requires small_stil { length stil.now ≤ 67108864 }
    requires small_new { length new_verilog.now < 2 ^ 32 }
    requires small_new_stil { length new_stil.now ≤ 67108864 }
    requires small_log { length log.now ≤ 67108864 }
    ensures text { IfOk result (IsFailmapText table.now verilog.now stil.now new_verilog.now new_stil.now log.now) }
    ensures fault { IfFault result (IsFirstFault (HoldsInFailmap table.now verilog.now stil.now new_verilog.now new_stil.now log.now)) }
    ensures no_fault { OnOk result ((fault : ghost_fault) → HoldsInFailmap table.now verilog.now stil.now new_verilog.now new_stil.now log.now fault → ⊥) }
{
    failmap_command::failmap_text(alloc, table, verilog, stil, new_verilog, new_stil, log)
}
