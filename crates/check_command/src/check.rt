//! The text of `check`, from the texts of its files.
ghost use Rattle.std.specs.Prelude.{◌<◌, ◌^◌, length, IfOk, OnOk};
ghost use Rattle.base_types.specs.declared.fault.Fault.{Fault};
ghost use Rattle.base_types.specs.FirstFault.{IfFault};
ghost use Rattle.design_files.specs.Files.{texts_of};
ghost use Rattle.design_files.specs.Faults.{HoldsInFiles, IsFilesFault};
ghost use Rattle.check_command.specs.Checks.{IsCheckText};

use crate::report::report_of;
use base_types::{NoMemory, ReadFault, Text};
use design_files::read_design_files;
use std::alloc::Global;

/// What `check` says of a placed design, its scan chains and its netlist, from the texts of the cell table, the LEF, the Verilog and the DEF:
/// for each chain of the design `chain NAME units U bits B length L`, as read, and `length L` of all, in half database units.
///
/// Refused by the first fault, that of the least kind and of these at the least line: of the table (TableSyntax, TableShape), of the LEF
/// (LefSyntax, LefNumber, LefTwice), of the Verilog (VerilogSyntax, SecondModule, VerilogNumber, VerilogTwice, BadSelect), of the DEF
/// (DefSyntax, DefNumber, DefTwice), of its elements (ElementUnknown to TooManyElements), of its agreement with the netlist (InstanceMissing,
/// CellDiffers, NetDiffers), of its paths (NoPort, TooManyPaths, NoDriver, TwoDrivers, Loop, SharedCell, TooManyBits, PinMissing), of its
/// chains beside these (NotAStretch, UnlistedBits, OrderBroken, OverMaxBits, TooManyUnits) and of the places of their cells (PlaceUnknown).
pub fn check_text(
    alloc: Global,
    table: &[u8],
    lef: &[u8],
    verilog: &[u8],
    def: &[u8],
) -> Result<Text, ReadFault>
    requires lef { length lef.now < 2 ^ 32 }
    requires verilog { length verilog.now < 2 ^ 32 }
    requires def { length def.now < 2 ^ 32 }
    ensures text { IfOk result (IsCheckText (texts_of table.now lef.now verilog.now def.now)) }
    ensures fault { IfFault result (IsFilesFault (texts_of table.now lef.now verilog.now def.now)) }
    ensures no_fault { OnOk result ((fault : Fault) → HoldsInFiles (texts_of table.now lef.now verilog.now def.now) fault → ⊥) }
{
    let files = read_design_files(alloc, table, lef, verilog, def, None)?;
    match report_of(alloc, &files.design, &files.rules, &files.ends) {
        Ok(text) => Ok(text),
        Err(NoMemory) => Err(ReadFault::NoMemory),
    }
}
