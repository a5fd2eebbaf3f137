//! The files of a placed design, as they are read.
ghost use Rattle.std.specs.Prelude.{ℕ, ◌<◌, ◌^◌, List, length, Option, IfOk};
ghost use Rattle.base_types.specs.FirstFault.{IfFault};
ghost use Rattle.design_files.specs.Files.{texts_with};
ghost use Rattle.design_files.specs.Faults.{IsFilesFault};
ghost use Rattle.design_files.specs.Stages.{AreKnown, AreSound};

use base_types::ReadFault;
use cell_table::{CellTable, read_table};
use def_reader::{Design, read_design};
use lef_pins::{Macros, read_macros};
use netlist_core::Netlist;
use std::alloc::Global;
use verilog_reader::read_netlist;

/// What the files denote.
#[derive(Drop)]
pub(crate) struct Files {
    pub(crate) table: CellTable,
    pub(crate) macros: Macros,
    pub(crate) netlist: Netlist,
    pub(crate) design: Design,
}

/// Reads the files, or answers their first fault, which is that of any patterns' head beside them too.
pub(crate) fn read_files(
    alloc: Global,
    table: &[u8],
    lef: &[u8],
    verilog: &[u8],
    def: &[u8],
) -> Result<Files, ReadFault>
    requires lef { length lef.now < 2 ^ 32 }
    requires verilog { length verilog.now < 2 ^ 32 }
    requires def { length def.now < 2 ^ 32 }
    ensures known { IfOk result (λ f. (head : Option (List ℕ)) → AreKnown (texts_with table.now lef.now verilog.now def.now head) f.table f.macros f.netlist f.design) }
    ensures sound { IfOk result (λ f. AreSound f.macros f.netlist f.design) }
    ensures fault { IfFault result (λ fault. (head : Option (List ℕ)) → IsFilesFault (texts_with table.now lef.now verilog.now def.now head) fault) }
{
    let table = read_table(alloc, table)?;
    let macros = read_macros(alloc, lef)?;
    let netlist = read_netlist(alloc, verilog)?;
    let design = read_design(alloc, def, &table)?;
    Ok(Files {
        table,
        macros,
        netlist,
        design,
    })
}
