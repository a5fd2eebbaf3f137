//! The text of `bound`, from the texts of its files.
ghost use Rattle.std.specs.Prelude.{◌≡◌, ℕ, ◌<◌, ◌^◌, length, IfOk, OnOk};
ghost use Rattle.base_types.specs.declared.fault.Fault.{Fault};
ghost use Rattle.base_types.specs.FirstFault.{IfFault};
ghost use Rattle.chain_rules.specs.Legality.{chain_at};
ghost use Rattle.wire_cost.specs.Lengths.{ArePlaced, IsPlanAt};
ghost use Rattle.design_files.specs.Files.{texts_of};
ghost use Rattle.design_files.specs.Faults.{HoldsInFiles, IsFilesFault};
ghost use Rattle.bound_command.specs.Bounds.{IsBoundText, IsChainsText};

use crate::chains::bounds_of;
use crate::report::report_of;
use base_types::{NoMemory, ReadFault, Text};
use chain_rules::Rules;
use def_reader::ScanChainText;
use design_files::read_design_files;
use std::alloc::Global;
use wire_cost::Ends;

/// What is said of chains, as they were read.
fn text_of(
    alloc: Global,
    chains: &[ScanChainText],
    rules: &Rules,
    ends: &Ends,
    rounds: Option<u32>,
) -> Result<Text, NoMemory>
    requires placed { ArePlaced ends.now }
    requires plan { IsPlanAt ends.now rules.now.read }
    requires some { (c : ℕ) → c < length rules.now.read.chains → 0 < length (chain_at rules.now.read c) }
    requires count { length chains.now ≡ length rules.now.read.chains }
    ensures text { IfOk result (IsChainsText rounds chains.now rules.now ends.now) }
{
    let bounds = bounds_of(alloc, rules, ends, rounds)?;
    report_of(alloc, rounds, chains, bounds.as_slice())
}

/// What `bound` says of a placed design, from the texts of the cell table, the LEF, the Verilog and the DEF: for each chain of the design
/// `chain NAME length L bound B`, its length as read and the value of a certificate, which no order of its units goes below; `leave` and
/// the certificate's numbers for the start and each unit as read; `enter` and those for each unit and the stop. Then `length L bound B` of
/// all. Lengths are in half database units.
///
/// With rounds, behind these lines for each chain `chain NAME tree T gap G`, a bound by trees over its places that comes nearer, and what the
/// length as read is above it in thousandths of T, rounded up; where T is 0 a thousand times the length. Then `tree T gap G` of all. The time
/// of a round grows as the square of the units of a chain.
///
/// Refused by the first fault, that of the least kind and of these at the least line: of the table (TableSyntax, TableShape), of the LEF
/// (LefSyntax, LefNumber, LefTwice), of the Verilog (VerilogSyntax, SecondModule, VerilogNumber, VerilogTwice, BadSelect), of the DEF
/// (DefSyntax, DefNumber, DefTwice), of its elements (ElementUnknown to TooManyElements), of its agreement with the netlist (InstanceMissing,
/// CellDiffers, NetDiffers), of its paths (NoPort, TooManyPaths, NoDriver, TwoDrivers, Loop, SharedCell, TooManyBits, PinMissing), of its
/// chains beside these (NotAStretch, UnlistedBits, OrderBroken, OverMaxBits, TooManyUnits) and of the places of their cells (PlaceUnknown).
pub fn bound_text(
    alloc: Global,
    table: &[u8],
    lef: &[u8],
    verilog: &[u8],
    def: &[u8],
    rounds: Option<u32>,
) -> Result<Text, ReadFault>
    requires lef { length lef.now < 2 ^ 32 }
    requires verilog { length verilog.now < 2 ^ 32 }
    requires def { length def.now < 2 ^ 32 }
    ensures text { IfOk result (IsBoundText (texts_of table.now lef.now verilog.now def.now) rounds) }
    ensures fault { IfFault result (IsFilesFault (texts_of table.now lef.now verilog.now def.now)) }
    ensures no_fault { OnOk result ((fault : Fault) → HoldsInFiles (texts_of table.now lef.now verilog.now def.now) fault → ⊥) }
{
    let files = read_design_files(alloc, table, lef, verilog, def, None)?;
    let chains = files.design.chains.as_slice();
    match text_of(alloc, chains, &files.rules, &files.ends, rounds) {
        Ok(text) => Ok(text),
        Err(NoMemory) => Err(ReadFault::NoMemory),
    }
}
