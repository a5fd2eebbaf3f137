//! The lines of a log, carried back over two texts of patterns that are the same.
ghost use Rattle.std.specs.Prelude.{◌≡◌, ◌<◌, ◌^◌, List, [], length, None, IfOk, OnOk};
ghost use Rattle.base_types.specs.declared.fault.Fault.{Fault};
ghost use Rattle.base_types.specs.FirstFault.{IfFault, IsFirstFault};
ghost use Rattle.stil_tester.specs.Meaning.{AllAlike, AllShowSame};
ghost use Rattle.stil_written.specs.Readings.{reading};
ghost use Rattle.declared_chains.specs.Files.{Fits};
ghost use Rattle.same_files.specs.Sets.{ArePatternsOf, meant_by};
ghost use Rattle.verify_command.specs.Steps.{AreSameSets};
ghost use Rattle.fail_map.specs.declared.line.LogLine.{LogLine as GhostLine};
ghost use Rattle.fail_map.specs.Progress.{AreMappedSoFar};
ghost use Rattle.fail_map.specs.Mapped.{IsMappedLog, HoldsInLines};

use base_types::{NoMemory, ReadFault};
use fail_map::{LogLine, LogMapping};
use retarget::{Map, map_of};
use same_files::PatternSet;
use std::alloc::Global;
use stil_reader::PatternCursor;
use verify_command::next_statement;

/// Passes the statements that are left of two texts, pair by pair; each two are the same. One
/// statement of each is held at a time.
fn pass_pairs(
    alloc: Global,
    map: &Map,
    old: &mut PatternCursor,
    new: &mut PatternCursor,
    mapping: &mut LogMapping,
) -> Result<(), NoMemory>
    requires old_sound { old.old.fault ≡ None }
    requires new_sound { new.old.fault ≡ None }
    requires old_fits { Fits old.old.head map.now.0 }
    requires new_fits { Fits new.old.head map.now.1 }
    requires alike { AllAlike reading old.old.statements new.old.statements }
    requires show_same { AllShowSame map.now.0 map.now.1 old.old.statements new.old.statements }
    ensures passed { OnOk result ((log : List GhostLine) → AreMappedSoFar map.now.0 map.now.1 [] [] log mapping.old → AreMappedSoFar map.now.0 map.now.1 old.old.statements new.old.statements log mapping.new) }
{
    while let Some(a) = next_statement(alloc, old)? {
        let Some(b) = next_statement(alloc, new)? else {
            unreachable!()
        };
        mapping.pass(alloc, map, &a, &b)?;
    }
    Ok(())
}

/// The log of the patterns of a first set that a log of those of a second set stands for; the sets
/// are the same.
///
/// Refused by LogPlace at the first line that names no comparison of the second set's patterns, or
/// by LogTwice at the first line that stood before.
pub(crate) fn mapped_lines(
    alloc: Global,
    old: &PatternSet,
    stil: &[u8],
    new: &PatternSet,
    new_stil: &[u8],
    lines: &[LogLine],
) -> Result<Vec<LogLine>, ReadFault>
    requires size { length stil.now < 2 ^ 32 }
    requires new_size { length new_stil.now < 2 ^ 32 }
    requires old_patterns { ArePatternsOf stil.now old.now }
    requires new_patterns { ArePatternsOf new_stil.now new.now }
    requires same { AreSameSets old.now stil.now new.now new_stil.now }
    ensures value { IfOk result (λ mapped. IsMappedLog (meant_by old.now stil.now).played (meant_by new.now new_stil.now).played lines.now mapped.items) }
    ensures fault { IfFault result (IsFirstFault (HoldsInLines (meant_by new.now new_stil.now).played lines.now)) }
    ensures no_fault { OnOk result ((fault : Fault) → HoldsInLines (meant_by new.now new_stil.now).played lines.now fault → ⊥) }
{
    let map = map_of(alloc, old.chains(), new.chains())?;
    let mut first = PatternCursor::behind_head(stil, old.head());
    let mut second = PatternCursor::behind_head(new_stil, new.head());
    let mut mapping = LogMapping::new(alloc, lines)?;
    pass_pairs(alloc, &map, &mut first, &mut second, &mut mapping)?;
    mapping.finish(alloc)
}
