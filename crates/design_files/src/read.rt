//! The files of a placed design and the head of its patterns, read and checked.
ghost use Rattle.std.specs.Prelude.{◌<◌, ◌^◌, length, option_map, IfOk, IfSome, OnOk};
ghost use Rattle.base_types.specs.declared.fault.Fault.{Fault};
ghost use Rattle.base_types.specs.FirstFault.{IfFault};
ghost use Rattle.design_files.specs.Files.{texts_with};
ghost use Rattle.design_files.specs.Faults.{HoldsInFiles, IsFilesFault};
ghost use Rattle.design_files.specs.Stages.{AreChecked};

use crate::files::read_files;
use crate::head::head_in;
use crate::ruled::ruled_in;
use crate::traced::{Traced, agreed_in, paths_in};
use base_types::ReadFault;
use cell_table::CellTable;
use chain_rules::{ChainSpec, Rules};
use chain_trace::Path;
use def_reader::Design;
use lef_pins::Macros;
use netlist_core::Netlist;
use std::alloc::Global;
use stil_types::StilHead;
use wire_cost::Ends;

/// What the files of a placed design denote, and what was found by checking them beside each other.
pub struct DesignFiles {
    pub table: CellTable,
    pub macros: Macros,
    pub netlist: Netlist,
    pub design: Design,
    /// What the head of the patterns declares, where there are some.
    pub head: Option<StilHead>,
    /// The chains of the design as numbers.
    pub chains: Vec<ChainSpec>,
    /// The paths of the declared ScanOuts, or where there is no head those of the ports at which chains stop.
    pub paths: Vec<Path>,
    /// What the chains may hold on these paths.
    pub rules: Rules,
    /// Where the units and the chains begin and end, in half database units.
    pub ends: Ends,
}

// By hand, so that it is proved here and not again wherever one is dropped.
impl Drop for DesignFiles {
    fn drop(self) {
        let DesignFiles {
            table: _table,
            macros: _macros,
            netlist: _netlist,
            design: _design,
            head: _head,
            chains: _chains,
            paths: _paths,
            rules: _rules,
            ends: _ends,
        } = self;
    }
}

/// What the texts of a cell table, a LEF, a Verilog and a DEF denote together, and where there are patterns the text of their head, of less
/// than 4 GiB: the scan paths that the head asks for by its ScanChain blocks (IEEE 1450-1999, ScanStructures), or else the chains of the
/// design by their ports, the rules of the chains on them, and their places.
///
/// Refused by the first fault, that of the least kind and of these at the least line: of the table (TableSyntax, TableShape), of the LEF
/// (LefSyntax, LefNumber, LefTwice), of the Verilog (VerilogSyntax, SecondModule, VerilogNumber, VerilogTwice, BadSelect), of the DEF
/// (DefSyntax, DefNumber, DefTwice), of its elements (ElementUnknown to TooManyElements), of its agreement with the netlist (InstanceMissing,
/// CellDiffers, NetDiffers), of the head (StilSyntax, StilTwice, Unsupported), of the ports of the chains beside it (ChainUndeclared), of the
/// paths (NoPort and TooManyPaths, in the file that asks; NoDriver, TwoDrivers, Loop, SharedCell), of the head's declarations beside these
/// (WrongPort, LengthDiffers, InversionDiffers, CellsDiffer), of the paths in the design (TooManyBits, PinMissing), of the chains beside them
/// (NotAStretch, UnlistedBits, OrderBroken, OverMaxBits, TooManyUnits) and of the places of their cells (PlaceUnknown).
pub fn read_design_files(
    alloc: Global,
    table: &[u8],
    lef: &[u8],
    verilog: &[u8],
    def: &[u8],
    head: Option<&[u8]>,
) -> Result<DesignFiles, ReadFault>
    requires lef { length lef.now < 2 ^ 32 }
    requires verilog { length verilog.now < 2 ^ 32 }
    requires def { length def.now < 2 ^ 32 }
    requires head { IfSome head (λ text. length text.now < 2 ^ 32) }
    ensures files { IfOk result (AreChecked (texts_with table.now lef.now verilog.now def.now (option_map (λ text. text.now) head.entry))) }
    ensures fault { IfFault result (IsFilesFault (texts_with table.now lef.now verilog.now def.now (option_map (λ text. text.now) head.entry))) }
    ensures no_fault { OnOk result ((fault : Fault) → HoldsInFiles (texts_with table.now lef.now verilog.now def.now (option_map (λ text. text.now) head.entry)) fault → ⊥) }
{
    let files = read_files(alloc, table, lef, verilog, def)?;
    let agreed = agreed_in(alloc, &files)?;
    let head = head_in(alloc, &files, head)?;
    let paths = paths_in(alloc, &files, &agreed.classes, &head)?;
    let traced = Traced {
        chains: agreed.chains,
        head,
        paths,
    };
    let ruled = ruled_in(alloc, &files, &traced)?;
    Ok(DesignFiles {
        table: files.table,
        macros: files.macros,
        netlist: files.netlist,
        design: files.design,
        head: traced.head,
        chains: traced.chains,
        paths: traced.paths,
        rules: ruled.rules,
        ends: ruled.ends,
    })
}
