//! The contracts of `draw_command`.
ghost use Rattle.base_types.specs.FirstFault.{IfFault};
ghost use Rattle.base_types.specs.declared.fault.Fault.{Fault};
ghost use Rattle.chain_picture.specs.Xml.{IsPlainByte, count_of};
ghost use Rattle.design_files.specs.Faults.{HoldsInFiles, IsFilesFault};
ghost use Rattle.design_files.specs.Files.{texts_of};
ghost use Rattle.draw_command.specs.Files.{IsPicture};
ghost use Rattle.std.specs.Prelude.{All, IfOk, OnOk, codes, length, ◌<◌, ◌^◌, ◌≡◌};

use base_types::ReadFault;
use draw_command::Picture;
use std::alloc::Global;

/// As `draw_command::draw_text`.
pub fn draw_text(
    alloc: Global,
    table: &[u8],
    lef: &[u8],
    verilog: &[u8],
    def: &[u8],
) -> Result<Picture, ReadFault>
    requires lef { length lef.now < 2 ^ 32 }
    requires verilog { length verilog.now < 2 ^ 32 }
    requires def { length def.now < 2 ^ 32 }
    ensures picture { IfOk result (IsPicture (texts_of table.now lef.now verilog.now def.now)) }
    ensures plain { IfOk result (λ picture. All IsPlainByte picture.svg) }
    ensures lines { IfOk result (λ picture. count_of (codes "<line ") picture.svg ≡ picture.links) }
    ensures fault { IfFault result (IsFilesFault (texts_of table.now lef.now verilog.now def.now)) }
    ensures no_fault { OnOk result ((fault : Fault) → HoldsInFiles (texts_of table.now lef.now verilog.now def.now) fault → ⊥) }
{
    draw_command::draw_text(alloc, table, lef, verilog, def)
}
