//! The netlist of a text.
ghost use Rattle.std.specs.Prelude.{◌<◌, ◌^◌, length, IfOk, OnOk};
ghost use Rattle.base_types.specs.declared.fault.Fault.{Fault};
ghost use Rattle.base_types.specs.FirstFault.{IfFault, IsFirstFault};
ghost use Rattle.verilog_checks.specs.Faults.{HoldsInVerilog};
ghost use Rattle.verilog_reader.specs.Denoted.{DenotesNetlist};

use crate::fold::netlist_of;
use base_types::ReadFault;
use netlist_core::Netlist;
use std::alloc::Global;
use verilog_checks::{check_number, check_select, check_twice};
use verilog_names::NameState;
use verilog_syntax::read_statements;

/// The netlist of a Verilog text of less than 4 GiB, or its first fault: VerilogSyntax at the first statement that matches no
/// form, or where the module isn't closed; SecondModule; then VerilogNumber, VerilogTwice and BadSelect, each at the first
/// statement that has it; or want of memory (IEEE 1364-2005, in this profile).
pub fn read_netlist(alloc: Global, bytes: &[u8]) -> Result<Netlist, ReadFault>
    requires size { length bytes.now < 2 ^ 32 }
    ensures value { IfOk result (DenotesNetlist bytes.now) }
    ensures fault { IfFault result (IsFirstFault (HoldsInVerilog bytes.now)) }
    ensures no_fault { OnOk result ((fault : Fault) → HoldsInVerilog bytes.now fault → ⊥) }
{
    let statements = read_statements(alloc, bytes)?;
    let hashing = NameState::of(bytes);
    check_number(alloc, hashing, statements.as_slice())?;
    let names = check_twice(alloc, hashing, statements.as_slice())?;
    check_select(alloc, hashing, &names, statements.as_slice())?;
    Ok(netlist_of(alloc, names, statements)?)
}
