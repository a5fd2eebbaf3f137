//! The picture of `draw`, from the texts of its files.
ghost use Rattle.std.specs.Prelude.{◌≡◌, ◌<◌, ◌^◌, codes, length, All, IfOk, OnOk};
ghost use Rattle.base_types.specs.declared.fault.Fault.{Fault};
ghost use Rattle.base_types.specs.FirstFault.{IfFault};
ghost use Rattle.design_files.specs.Files.{texts_of};
ghost use Rattle.design_files.specs.Faults.{HoldsInFiles, IsFilesFault};
ghost use Rattle.lef_pins.specs.Denoted.{AreMeasured};
ghost use Rattle.def_reader.specs.Sound.{IsSound};
ghost use Rattle.wire_cost.specs.Lengths.{ArePlaced, IsPlanAt};
ghost use Rattle.chain_picture.specs.Xml.{IsPlainByte, count_of};
ghost use Rattle.draw_command.specs.Files.{IsPicture, IsPictureOf};

use crate::drawn::drawn_of;
use base_types::{NoMemory, ReadFault, Text};
use chain_picture::{link_count, svg_of};
use design_files::{DesignFiles, read_design_files};
use std::alloc::Global;

/// A picture.
#[derive(Drop)]
pub struct Picture {
    /// Its text in SVG, of printable ASCII and line feeds.
    pub svg: Text,
    /// How many links are drawn, of all chains.
    pub links: u128,
}

/// What the files' chains look like.
fn picture_of(alloc: Global, files: &DesignFiles) -> Result<Picture, NoMemory>
    requires sound { IsSound files.now.design }
    requires measured { AreMeasured files.now.macros }
    requires placed { ArePlaced files.now.ends }
    requires plan { IsPlanAt files.now.ends files.now.rules.read }
    requires count { length files.now.design.chains ≡ length files.now.rules.read.chains }
    ensures picture { IfOk result (IsPictureOf files.now.macros files.now.design files.now.rules files.now.ends) }
    ensures plain { IfOk result (λ picture. All IsPlainByte picture.svg) }
    ensures lines { IfOk result (λ picture. count_of (codes "<line ") picture.svg ≡ picture.links) }
{
    let drawn = drawn_of(
        alloc,
        &files.macros,
        &files.design,
        &files.rules,
        &files.ends,
    )?;
    let units = files.design.units.unsigned_abs();
    Ok(Picture {
        svg: svg_of(alloc, units, drawn.as_slice())?,
        links: link_count(drawn.as_slice()),
    })
}

/// The picture of a placed design's scan chains in SVG, from the texts of the cell table, the LEF, the Verilog and the DEF: the cells of the
/// elements, the links that count in the chains' lengths, each one `line`, the starts and stops, and a legend with a scale.
///
/// Refused by the first fault, that of the least kind and of these at the least line: of the table (TableSyntax, TableShape), of the LEF
/// (LefSyntax, LefNumber, LefTwice), of the Verilog (VerilogSyntax, SecondModule, VerilogNumber, VerilogTwice, BadSelect), of the DEF
/// (DefSyntax, DefNumber, DefTwice), of its elements (ElementUnknown to TooManyElements), of its agreement with the netlist (InstanceMissing,
/// CellDiffers, NetDiffers), of its paths (NoPort, TooManyPaths, NoDriver, TwoDrivers, Loop, SharedCell, TooManyBits, PinMissing), of its
/// chains beside these (NotAStretch, UnlistedBits, OrderBroken, OverMaxBits, TooManyUnits) and of the places of their cells (PlaceUnknown).
pub fn draw_text(
    alloc: Global,
    table: &[u8],
    lef: &[u8],
    verilog: &[u8],
    def: &[u8],
) -> Result<Picture, ReadFault>
    requires lef { length lef.now < 2 ^ 32 }
    requires verilog { length verilog.now < 2 ^ 32 }
    requires def { length def.now < 2 ^ 32 }
    ensures picture { IfOk result (IsPicture (texts_of table.now lef.now verilog.now def.now)) }
    ensures plain { IfOk result (λ picture. All IsPlainByte picture.svg) }
    ensures lines { IfOk result (λ picture. count_of (codes "<line ") picture.svg ≡ picture.links) }
    ensures fault { IfFault result (IsFilesFault (texts_of table.now lef.now verilog.now def.now)) }
    ensures no_fault { OnOk result ((fault : Fault) → HoldsInFiles (texts_of table.now lef.now verilog.now def.now) fault → ⊥) }
{
    let files = read_design_files(alloc, table, lef, verilog, def, None)?;
    match picture_of(alloc, &files) {
        Ok(picture) => Ok(picture),
        Err(NoMemory) => Err(ReadFault::NoMemory),
    }
}
