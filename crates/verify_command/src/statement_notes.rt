//! Which statements of two sets differ first, in words for a user.
ghost use Rattle.std.specs.Prelude.{◌≡◌, ◌<◌, ◌^◌, length, None, IfOk};
ghost use Rattle.declared_chains.specs.Files.{Fits};
ghost use Rattle.same_files.specs.Sets.{ArePatternsOf};
ghost use Rattle.verify_command.specs.Steps.{AreReady};

use crate::items::next_statement;
use crate::notes::SetNames;
use crate::pair_notes::{Sets, Spots, pair_note};
use crate::places::is_same_place;
use base_types::{NoMemory, line_of};
use retarget::{Map, map_of};
use same_files::PatternSet;
use std::alloc::Global;
use stil_reader::PatternCursor;
use stil_types::PatternStatement;

/// The statements that differ first, where there are such ones.
#[derive(Drop)]
pub struct Unlike {
    pub old: Option<PatternStatement>,
    pub new: Option<PatternStatement>,
}

/// The first statements of those that are left of two texts that aren't the same.
fn first_unlike(
    alloc: Global,
    map: &Map,
    old: &mut PatternCursor,
    new: &mut PatternCursor,
) -> Result<Unlike, NoMemory>
    requires old_sound { old.old.fault ≡ None }
    requires new_sound { new.old.fault ≡ None }
    requires old_fits { Fits old.old.head map.now.0 }
    requires new_fits { Fits new.old.head map.now.1 }
    ensures ready { IfOk result (AreReady map.now.0 map.now.1) }
{
    while let Some(a) = next_statement(alloc, old)? {
        let b = next_statement(alloc, new)?;
        if !is_same_place(alloc, map, &a, &b)? {
            return Ok(Unlike {
                old: Some(a),
                new: b,
            });
        }
    }
    Ok(Unlike {
        old: None,
        new: next_statement(alloc, new)?,
    })
}

/// The bytes of a statement.
fn text_of(statement: &PatternStatement) -> &[u8] {
    match statement {
        PatternStatement::Scan { text, .. } => text.bytes(),
        PatternStatement::Other { text, .. } => text.bytes(),
        PatternStatement::Loop { text, .. } => text.bytes(),
    }
}

/// The line of a statement of a text, of which so many bytes are left behind it; of the last line where there is none.
fn line_of_statement(stil: &[u8], left: usize, statement: &Option<PatternStatement>) -> u64 {
    let len = match statement {
        Some(statement) => text_of(statement).len(),
        None => 0,
    };
    line_of(stil, stil.len().saturating_sub(left).saturating_sub(len))
}

/// A statement at a line of one file that the other doesn't have.
fn more_note(alloc: Global, more: &str, line: u64, less: &str) -> Result<Option<String>, NoMemory> {
    let note = format!(in alloc; "note: {more}:{line} has a statement more than {less}")?;
    Ok(Some(note))
}

/// The statements of two sets that differ first, whose heads, names and scan cells are the same; None where none do.
pub(crate) fn statement_note(
    alloc: Global,
    old: &PatternSet,
    stil: &[u8],
    new: &PatternSet,
    new_stil: &[u8],
    names: SetNames<'_>,
) -> Result<Option<String>, NoMemory>
    requires size { length stil.now < 2 ^ 32 }
    requires new_size { length new_stil.now < 2 ^ 32 }
    requires old_patterns { ArePatternsOf stil.now old.now }
    requires new_patterns { ArePatternsOf new_stil.now new.now }
    requires chains { length new.now.chains.chains ≡ length old.now.chains.chains }
    requires cells { new.now.chains.cells ≡ old.now.chains.cells }
{
    let map = map_of(alloc, old.chains(), new.chains())?;
    let mut first = PatternCursor::behind_head(stil, old.head());
    let mut second = PatternCursor::behind_head(new_stil, new.head());
    let unlike = first_unlike(alloc, &map, &mut first, &mut second)?;
    let spots = Spots {
        stil: names.stil,
        line: line_of_statement(stil, first.left(), &unlike.old),
        new_stil: names.new_stil,
        new_line: line_of_statement(new_stil, second.left(), &unlike.new),
    };
    match &unlike.old {
        Some(a) => match &unlike.new {
            Some(b) => pair_note(alloc, &map, Sets { old, new }, a, b, spots),
            None => more_note(alloc, spots.stil, spots.line, spots.new_stil),
        },
        None => match &unlike.new {
            Some(_more) => more_note(alloc, spots.new_stil, spots.new_line, spots.stil),
            None => Ok(None),
        },
    }
}
