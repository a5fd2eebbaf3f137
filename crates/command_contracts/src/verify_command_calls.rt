//! The contracts of `verify_command`.
ghost use Rattle.base_types.specs.FirstFault.{IfFault, IsFirstFault};
ghost use Rattle.base_types.specs.declared.fault.Fault.{Fault as ghost_fault};
ghost use Rattle.same_files.specs.Same.{AreSameFiles};
ghost use Rattle.std.specs.Prelude.{IfOk, OnOk, length, ◌<◌, ◌^◌, ◌↔◌, ◌≡◌, ◌≤◌};
ghost use Rattle.verify_command.specs.Faults.{HoldsInVerify};
ghost use Rattle.verify_command.specs.Texts.{IsVerifyText, same_text};

use base_types::{ReadFault, Text};
use std::alloc::Global;

/// As `verify_command::verify_text`.
pub fn verify_text(
    alloc: Global,
    table: &[u8],
    verilog: &[u8],
    stil: &[u8],
    new_verilog: &[u8],
    new_stil: &[u8],
) -> Result<Text, ReadFault>
    requires small { length verilog.now < 2 ^ 32 }
    requires small_stil { length stil.now ≤ 67108864 }
    requires small_new { length new_verilog.now < 2 ^ 32 }
    requires small_new_stil { length new_stil.now ≤ 67108864 }
    ensures text { IfOk result (IsVerifyText table.now verilog.now stil.now new_verilog.now new_stil.now) }
    // What it is worth.
    ensures same { IfOk result (λ text. (text ≡ same_text) ↔ AreSameFiles table.now verilog.now stil.now new_verilog.now new_stil.now) }
    ensures fault { IfFault result (IsFirstFault (HoldsInVerify table.now verilog.now stil.now new_verilog.now new_stil.now)) }
    ensures no_fault { OnOk result ((fault : ghost_fault) → HoldsInVerify table.now verilog.now stil.now new_verilog.now new_stil.now fault → ⊥) }
{
    verify_command::verify_text(alloc, table, verilog, stil, new_verilog, new_stil)
}
