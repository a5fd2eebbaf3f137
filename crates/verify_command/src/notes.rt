//! What differs first between two sets of files, in words for a user. No clause speaks of these.
ghost use Rattle.std.specs.Prelude.{◌≡◌, ◌<◌, ◌≤◌, ◌^◌, length};
ghost use Rattle.same_files.specs.Sets.{ArePatternsOf};

use crate::head_notes::head_note;
use crate::statement_notes::statement_note;
use crate::text::head_text;
use crate::verify::read_new;
use base_types::{Name, NoMemory, ReadFault};
use same_files::{CellPair, PatternSet, ScanCell, first_other_cell, have_same_cells, read_set};
use scan_verify::have_same_names;
use std::alloc::Global;

/// The names by which a user knows two sets of files: those of their patterns.
#[derive(Clone, Copy)]
pub struct SetNames<'a> {
    pub stil: &'a str,
    pub new_stil: &'a str,
}

/// A name's bytes as a user reads them.
pub(crate) fn shown(alloc: Global, bytes: &[u8]) -> Result<String, NoMemory> {
    Ok(String::from_utf8_lossy(alloc, bytes)?)
}

/// A cell as a user reads it.
pub(crate) fn cell_shown(alloc: Global, cell: ScanCell<'_>) -> Result<String, NoMemory> {
    let instance = shown(alloc, cell.instance)?;
    let ScanCell { path, bit, .. } = cell;
    Ok(format!(in alloc; "{instance} (scan path {path}, bit {bit})")?)
}

/// Scan cells of which one set has none, or that stand on other cells of the table.
fn cell_note(alloc: Global, pair: CellPair<'_>, names: SetNames<'_>) -> Result<String, NoMemory> {
    let SetNames {
        stil: first,
        new_stil: second,
    } = names;
    match pair {
        CellPair {
            old: Some(a),
            new: Some(b),
        } => {
            let cell = cell_shown(alloc, a)?;
            let kind = shown(alloc, a.cell)?;
            let other = shown(alloc, b.cell)?;
            Ok(format!(in alloc;
                "note: cell {cell} is a {kind} for {first}, and a {other} for {second}"
            )?)
        }
        CellPair {
            old: Some(a),
            new: None,
        } => {
            let cell = cell_shown(alloc, a)?;
            Ok(format!(in alloc; "note: cell {cell} stands in the chains of {first} alone")?)
        }
        CellPair { old: None, new } => match new {
            Some(b) => {
                let cell = cell_shown(alloc, b)?;
                Ok(format!(in alloc; "note: cell {cell} stands in the chains of {second} alone")?)
            }
            None => Ok(format!(in alloc; "note: the cells differ")?),
        },
    }
}

/// The place of the first name that two lists don't both have there.
fn first_other_name(a: &[Name], b: &[Name]) -> usize
    ensures within { result ≤ length a.now }
{
    let both = a.len().min(b.len());
    for index in 0..both {
        if a[index].bytes() != b[index].bytes() {
            return index;
        }
    }
    both
}

/// Patterns of other names, or of another number.
fn names_note(
    alloc: Global,
    a: &[Name],
    b: &[Name],
    names: SetNames<'_>,
) -> Result<String, NoMemory> {
    let SetNames { stil, new_stil } = names;
    let at = first_other_name(a, b);
    let place = at.saturating_add(1);
    match (a.get(at), b.get(at)) {
        (Some(one), Some(other)) => {
            let one = shown(alloc, one.bytes())?;
            let other = shown(alloc, other.bytes())?;
            Ok(format!(in alloc;
                "note: Pattern {place} is {one} in {stil}, and {other} in {new_stil}"
            )?)
        }
        _ => {
            let count = a.len();
            let others = b.len();
            Ok(format!(in alloc; "note: {stil} has {count} Patterns, {new_stil} has {others}")?)
        }
    }
}

/// What differs first between two sets that are read; None where nothing does.
fn note_of(
    alloc: Global,
    old: &PatternSet,
    stil: &[u8],
    new: &PatternSet,
    new_stil: &[u8],
    names: SetNames<'_>,
) -> Result<Option<String>, NoMemory>
    requires size { length stil.now < 2 ^ 32 }
    requires new_size { length new_stil.now < 2 ^ 32 }
    requires old_patterns { ArePatternsOf stil.now old.now }
    requires new_patterns { ArePatternsOf new_stil.now new.now }
{
    let text = head_text(stil, old);
    let other = head_text(new_stil, new);
    if let Some(note) = head_note(alloc, text, other, names)? {
        return Ok(Some(note));
    }
    if !have_same_cells(alloc, old, new)? {
        return match first_other_cell(alloc, old, new)? {
            Some(pair) => Ok(Some(cell_note(alloc, pair, names)?)),
            None => Ok(None),
        };
    }
    if !have_same_names(old.names(), new.names()) {
        let note = names_note(alloc, old.names(), new.names(), names)?;
        return Ok(Some(note));
    }
    statement_note(alloc, old, stil, new, new_stil, names)
}

/// What differs first between two sets of files, as `verify_text` compares them, in a line for a user without its end: a token of the
/// heads, a scan cell, the names of the Patterns, or a statement, and of a scan the cell to which it doesn't do the same. None where
/// nothing differs. Each Verilog is of less than 4 GiB, each STIL of at most 67108864 bytes.
///
/// Refused as `verify_text` is.
pub fn difference_note(
    alloc: Global,
    table: &[u8],
    verilog: &[u8],
    stil: &[u8],
    new_verilog: &[u8],
    new_stil: &[u8],
    names: SetNames<'_>,
) -> Result<Option<String>, ReadFault>
    requires small { length verilog.now < 2 ^ 32 }
    requires small_stil { length stil.now ≤ 67108864 }
    requires small_new { length new_verilog.now < 2 ^ 32 }
    requires small_new_stil { length new_stil.now ≤ 67108864 }
{
    let old = read_set(alloc, table, verilog, stil)?;
    let new = read_new(alloc, table, new_verilog, new_stil)?;
    Ok(note_of(alloc, &old, stil, &new, new_stil, names)?)
}
