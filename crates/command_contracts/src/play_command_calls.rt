//! The contracts of `play_command`.
ghost use Rattle.base_types.specs.FirstFault.{IfFault, IsFirstFault};
ghost use Rattle.base_types.specs.declared.fault.Fault.{Fault};
ghost use Rattle.declared_chains.specs.Faults.{HoldsBeforePatterns};
ghost use Rattle.play_command.specs.Progress.{IsSetUp, ProgressLaw, after_saying, finished};
ghost use Rattle.std.specs.Prelude.{IfOk, OnOk, length, ◌<◌, ◌^◌, ◌≡◌};
ghost use Rattle.stil_calls.specs.Statements.{AreAccepted};
ghost use Rattle.stil_reader.specs.Sayings.{Stated};
ghost use Rattle.stil_types.specs.Statements.{IsPlaced};

use base_types::{NoMemory, ReadFault, Text};
use play_command::{DeviceKind, Playing};
use std::alloc::Global;
use stil_reader::PatternStatement;

/// As `play_command::Playing::new`.
pub fn playing_new(
    alloc: Global,
    table: &[u8],
    verilog: &[u8],
    head: &[u8],
    device: DeviceKind,
) -> Result<Playing, ReadFault>
    requires small { length verilog.now < 2 ^ 32 }
    requires small_head { length head.now < 2 ^ 32 }
    ensures set_up { IfOk result (IsSetUp table.now verilog.now head.now device) }
    ensures fault { IfFault result (IsFirstFault (HoldsBeforePatterns table.now verilog.now head.now)) }
    ensures no_fault { OnOk result ((fault : Fault) → HoldsBeforePatterns table.now verilog.now head.now fault → ⊥) }
{
    play_command::Playing::new(alloc, table, verilog, head, device)
}

/// As `play_command::Playing::play`.
pub fn playing_play(playing: &mut Playing, statement: &PatternStatement) -> Result<(), NoMemory>
    requires accepted { AreAccepted playing.old.head statement.now }
    requires placed { IsPlaced statement.now }
    ensures value { OnOk result (playing.new ≡ after_saying (Stated statement.now) playing.old) }
{
    playing.play(statement)
}

/// As `play_command::Playing::finish`.
pub fn playing_finish(playing: Playing) -> Result<Text, NoMemory>
    ensures value { IfOk result (λ text. text ≡ finished playing) }
{
    playing.finish()
}

/// As `play_command::progress_law`.
pub fn progress_law()
    ensures law { ProgressLaw }
{
    play_command::progress_law()
}
