//! The contracts of `reorder_command`.
ghost use Rattle.base_types.specs.FirstFault.{IfFault};
ghost use Rattle.base_types.specs.declared.fault.Fault.{Fault};
ghost use Rattle.design_files.specs.Faults.{HoldsInFiles, IsFilesFault};
ghost use Rattle.design_files.specs.Files.{texts_with};
ghost use Rattle.reorder_command.specs.PatternPlans.{IsReorderedWith};
ghost use Rattle.std.specs.Prelude.{IfOk, IfSome, OnOk, length, option_map, ◌<◌, ◌^◌};

use base_types::ReadFault;
use plan_search::Progress;
use reorder_command::{Goal, Reordered};
use std::alloc::Global;

/// As `reorder_command::reorder_texts`.
pub fn reorder_texts<P: Progress>(
    alloc: Global,
    table: &[u8],
    lef: &[u8],
    verilog: &[u8],
    def: &[u8],
    head: Option<&[u8]>,
    goal: Goal,
    progress: &P,
) -> Result<Reordered, ReadFault>
    requires lef { length lef.now < 2 ^ 32 }
    requires verilog { length verilog.now < 2 ^ 32 }
    requires def { length def.now < 2 ^ 32 }
    requires head { IfSome head (λ text. length text.now < 2 ^ 32) }
    ensures reordered { IfOk result (λ made. IsReorderedWith goal (texts_with table.now lef.now verilog.now def.now (option_map (λ text. text.now) head.entry)) made.verilog made.def made.figures made.patterns) }
    ensures fault { IfFault result (IsFilesFault (texts_with table.now lef.now verilog.now def.now (option_map (λ text. text.now) head.entry))) }
    ensures no_fault { OnOk result ((fault : Fault) → HoldsInFiles (texts_with table.now lef.now verilog.now def.now (option_map (λ text. text.now) head.entry)) fault → ⊥) }
{
    reorder_command::reorder_texts(alloc, table, lef, verilog, def, head, goal, progress)
}
