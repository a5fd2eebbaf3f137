//! The contracts of `verilog_reader`.
ghost use Rattle.base_types.specs.FirstFault.{IfFault, IsFirstFault};
ghost use Rattle.base_types.specs.declared.fault.Fault.{Fault};
ghost use Rattle.std.specs.Prelude.{IfOk, OnOk, length, ◌<◌, ◌^◌};
ghost use Rattle.verilog_checks.specs.Faults.{HoldsInVerilog};
ghost use Rattle.verilog_reader.specs.Denoted.{DenotesNetlist, OneDeclaredLaw, OneNetlistLaw};

use base_types::ReadFault;
use netlist_core::Netlist;
use std::alloc::Global;

/// As `verilog_reader::read_netlist`.
pub fn read_netlist(alloc: Global, bytes: &[u8]) -> Result<Netlist, ReadFault>
    requires size { length bytes.now < 2 ^ 32 }
    ensures value { IfOk result (DenotesNetlist bytes.now) }
    ensures fault { IfFault result (IsFirstFault (HoldsInVerilog bytes.now)) }
    ensures no_fault { OnOk result ((fault : Fault) → HoldsInVerilog bytes.now fault → ⊥) }
{
    verilog_reader::read_netlist(alloc, bytes)
}

/// As `verilog_reader::netlist_law`.
pub fn netlist_law()
    ensures one { OneNetlistLaw }
    ensures declared { OneDeclaredLaw }
{
    verilog_reader::netlist_law()
}
