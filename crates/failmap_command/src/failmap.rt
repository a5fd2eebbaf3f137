//! A log of fails carried back from one set of files to another.
ghost use Rattle.std.specs.Prelude.{◌≡◌, ◌≤◌, ◌<◌, ◌^◌, length, IfOk, OnOk};
ghost use Rattle.base_types.specs.declared.fault.Fault.{Fault as ghost_fault};
ghost use Rattle.base_types.specs.FirstFault.{IfFault, IsFirstFault};
ghost use Rattle.failmap_command.specs.Faults.{HoldsInFailmap};
ghost use Rattle.failmap_command.specs.Texts.{IsFailmapText};

use crate::pairs::mapped_lines;
use crate::text::log_text;
use base_types::{Fault, FileKind, Kind, ReadFault, Text};
use fail_map::read_log;
use same_files::read_set;
use std::alloc::Global;
use verify_command::{are_same_sets, read_new};

/// The log of fails that the first set of files would give, where this is a log of the second set
/// and both mean the same by the cells of one table: as many lines in rising order, each of which
/// fails exactly where the line fails that it stands for. Each Verilog is of less than 4 GiB, each
/// STIL and the log of at most 67108864 bytes.
///
/// Refused by the first fault of the first set, as `play` has it; where there is none, by that of
/// the second set, at its files; by NotSame where the sets don't mean the same; by LogSyntax at the
/// first line of another form; by LogPlace at the first line that names no comparison of the second
/// set's patterns; or by LogTwice at the first line that stood before.
pub fn failmap_text(
    alloc: Global,
    table: &[u8],
    verilog: &[u8],
    stil: &[u8],
    new_verilog: &[u8],
    new_stil: &[u8],
    log: &[u8],
) -> Result<Text, ReadFault>
    requires small { length verilog.now < 2 ^ 32 }
    requires small_stil { length stil.now ≤ 67108864 }
    requires small_new { length new_verilog.now < 2 ^ 32 }
    requires small_new_stil { length new_stil.now ≤ 67108864 }
    requires small_log { length log.now ≤ 67108864 }
    ensures text { IfOk result (IsFailmapText table.now verilog.now stil.now new_verilog.now new_stil.now log.now) }
    ensures fault { IfFault result (IsFirstFault (HoldsInFailmap table.now verilog.now stil.now new_verilog.now new_stil.now log.now)) }
    ensures no_fault { OnOk result ((fault : ghost_fault) → HoldsInFailmap table.now verilog.now stil.now new_verilog.now new_stil.now log.now fault → ⊥) }
{
    let old = read_set(alloc, table, verilog, stil)?;
    let new = read_new(alloc, table, new_verilog, new_stil)?;
    if !are_same_sets(alloc, &old, stil, &new, new_stil)? {
        return Err(ReadFault::Fault(Fault::at_line(Kind::NotSame, FileKind::NewStil, 0)));
    }
    let lines = read_log(alloc, log)?;
    let mapped = mapped_lines(alloc, &old, stil, &new, new_stil, lines.as_slice())?;
    Ok(log_text(alloc, mapped.as_slice())?)
}
