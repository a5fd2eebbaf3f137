//! The contracts of `verilog_writer`.
ghost use Rattle.chain_trace.specs.declared.path.Path.{Path as one_path};
ghost use Rattle.net_edit.specs.Rearranged.{AreRearranged};
ghost use Rattle.net_edit.specs.Tails.{AreTailNames, freed_between, rewired};
ghost use Rattle.net_edit.specs.Wires.{AreEditsFor, names_of};
ghost use Rattle.std.specs.Prelude.{IfOk, List, length, ◌<◌, ◌^◌};
ghost use Rattle.verilog_reader.specs.Denoted.{DenotesNetlist};
ghost use Rattle.verilog_writer.specs.Inserted.{InsertedLaw};
ghost use Rattle.verilog_writer.specs.NetTexts.{BitLaw, NetsLaw};
ghost use Rattle.verilog_writer.specs.VerilogText.{WrittenLaw};
ghost use Rattle.verilog_writer.specs.Wired.{AreEditsBetween, DeclareBehind, IsWiredText};
ghost use Rattle.verilog_writer.specs.Written.{DenotesAlike};

use base_types::{NoMemory, Text};
use cell_table::CellTable;
use net_edit::Edits;
use netlist_core::Netlist;
use std::alloc::Global;

/// As `verilog_writer::verilog_text`.
pub fn verilog_text(
    alloc: Global,
    text: &[u8],
    netlist: &Netlist,
    table: &CellTable,
    edits: &Edits,
) -> Result<Text, NoMemory>
    requires small { length text.now < 2 ^ 32 }
    requires read { DenotesNetlist text.now netlist.now }
    requires edits { AreEditsBetween netlist.now table.now edits.now }
    ensures value { IfOk result (IsWiredText text.now netlist.now table.now edits.now) }
    // It denotes the netlist with the edits, where these are those between some paths and their tails have names,
    ensures denoted { (old new : List one_path) → AreEditsFor netlist.now table.now old new edits.now → AreRearranged netlist.now table.now old new → AreTailNames netlist.now (freed_between netlist.now table.now old new) (names_of edits.now)
        → IfOk result (λ written. DenotesAlike written (rewired netlist.now table.now (names_of edits.now) old new) (names_of edits.now)) }
    // and declares the tails, and then what the read text declares.
    ensures declared { (old new : List one_path) → AreEditsFor netlist.now table.now old new edits.now → AreRearranged netlist.now table.now old new → AreTailNames netlist.now (freed_between netlist.now table.now old new) (names_of edits.now)
        → IfOk result (DeclareBehind text.now (names_of edits.now)) }
{
    verilog_writer::verilog_text(alloc, text, netlist, table, edits)
}

/// As `verilog_writer::written_law`.
pub fn written_law()
    ensures written { WrittenLaw }
{
    verilog_writer::written_law()
}

/// As `verilog_writer::inserted_law`.
pub fn inserted_law()
    ensures inserted { InsertedLaw }
{
    verilog_writer::inserted_law()
}

/// As `verilog_writer::net_text_law`.
pub fn net_text_law()
    ensures nets { NetsLaw }
    ensures bit { BitLaw }
{
    verilog_writer::net_text_law()
}
