//! The first place at which two texts of patterns differ.
ghost use Rattle.std.specs.Prelude.{◌≡◌, ◌↔◌, ◌+◌, ◌<◌, ◌^◌, if◌then◌else◌, Some, None, nat_eq, length, take, count_by, IfOk, IfSome, IsTrue};
ghost use Rattle.scan_verify.specs.Patterns.{IsReady, IsSamePlace, differing, pattern_of};
ghost use Rattle.declared_chains.specs.Files.{Fits};
ghost use Rattle.same_files.specs.Sets.{ArePatternsOf, meant_by};
ghost use Rattle.verify_command.specs.Steps.{IsFound, IsPlaceOf};

use crate::items::next_statement;
use base_types::NoMemory;
use retarget::{Map, map_of};
use same_files::PatternSet;
use scan_verify::same_statement;
use std::alloc::Global;
use stil_reader::PatternCursor;
use stil_types::PatternStatement;

/// Where statements first differ: how many stand before that, and the number of the Pattern that differs there.
#[derive(Clone, Copy)]
struct Difference {
    at: u64,
    pattern: u32,
}

/// The same place in its Pattern: the number of this, and how many of its statements stand before.
#[derive(Clone, Copy)]
pub(crate) struct Place {
    pub(crate) pattern: u32,
    pub(crate) before: u64,
}

/// The number of a statement's Pattern.
pub(crate) fn pattern_of(statement: &PatternStatement) -> u32
    ensures value { result ≡ pattern_of statement.now }
{
    match statement {
        PatternStatement::Scan { pattern, .. } => *pattern,
        PatternStatement::Other { pattern, .. } => *pattern,
        PatternStatement::Loop { pattern, .. } => *pattern,
    }
}

/// The Pattern that differs where the one list has this statement and the other that one, or none.
fn differing(a: &PatternStatement, b: &Option<PatternStatement>) -> u32
    ensures value { result ≡ differing (Some a.now) b.now }
{
    match b {
        Some(b) => pattern_of(a).min(pattern_of(b)),
        None => pattern_of(a),
    }
}

/// Whether the statement of the one list is the same as that of the other, where this has one.
pub(crate) fn is_same_place(
    alloc: Global,
    map: &Map,
    a: &PatternStatement,
    b: &Option<PatternStatement>,
) -> Result<bool, NoMemory>
    requires old { IsReady map.now.0 a.now }
    requires new { IfSome b.now (IsReady map.now.1) }
    ensures value { IfOk result (λ same. IsTrue same ↔ IsSamePlace map.now.0 map.now.1 (Some a.now) b.now) }
{
    match b {
        Some(b) => same_statement(alloc, map, a, b),
        None => Ok(false),
    }
}

/// One more. A number of 2^64 or more counts as want of memory.
pub(crate) fn one_more(count: u64) -> Result<u64, NoMemory>
    ensures value { IfOk result (λ next. next ≡ count + 1) }
{
    match count.checked_add(1) {
        Some(next) => Ok(next),
        None => Err(NoMemory),
    }
}

/// The first place at which the statements that are left of two texts differ: aren't alike, have calls that don't do the same, or stand
/// in one text alone. One statement of each is held at a time.
fn first_difference(
    alloc: Global,
    map: &Map,
    old: &mut PatternCursor,
    new: &mut PatternCursor,
) -> Result<Option<Difference>, NoMemory>
    requires old_sound { old.old.fault ≡ None }
    requires new_sound { new.old.fault ≡ None }
    requires old_fits { Fits old.old.head map.now.0 }
    requires new_fits { Fits new.old.head map.now.1 }
    ensures value { IfOk result (IsFound map.now.0 map.now.1 old.old.statements new.old.statements) }
{
    let mut at = 0;
    while let Some(a) = next_statement(alloc, old)? {
        let b = next_statement(alloc, new)?;
        if !is_same_place(alloc, map, &a, &b)? {
            let pattern = differing(&a, &b);
            return Ok(Some(Difference { at, pattern }));
        }
        at = one_more(at)?;
    }
    match next_statement(alloc, new)? {
        Some(b) => Ok(Some(Difference {
            at,
            pattern: pattern_of(&b),
        })),
        None => Ok(None),
    }
}

/// One more, where a statement is of a Pattern.
fn counted(count: u64, pattern: u32, statement: &PatternStatement) -> Result<u64, NoMemory>
    ensures value { IfOk result (λ next. next ≡ if nat_eq pattern (pattern_of statement.now) then count + 1 else count) }
{
    if pattern == pattern_of(statement) {
        return one_more(count);
    }
    Ok(count)
}

/// How many of the first statements are of a Pattern.
fn count_in(
    alloc: Global,
    patterns: &mut PatternCursor,
    at: u64,
    pattern: u32,
) -> Result<u64, NoMemory>
    requires sound { patterns.old.fault ≡ None }
    ensures value { IfOk result (λ count. count ≡ count_by (λ s. nat_eq pattern (pattern_of s)) (take at patterns.old.statements)) }
{
    let mut count = 0;
    for _done in 0..at {
        let Some(statement) = next_statement(alloc, patterns)? else {
            return Ok(count);
        };
        count = counted(count, pattern, &statement)?;
    }
    Ok(count)
}

/// Where the patterns of two sets first differ, if they do; their heads, names and scan cells are the same. One statement of each is held
/// at a time, and the first patterns are passed a second time up to there.
pub(crate) fn first_place(
    alloc: Global,
    old: &PatternSet,
    stil: &[u8],
    new: &PatternSet,
    new_stil: &[u8],
) -> Result<Option<Place>, NoMemory>
    requires size { length stil.now < 2 ^ 32 }
    requires new_size { length new_stil.now < 2 ^ 32 }
    requires old_patterns { ArePatternsOf stil.now old.now }
    requires new_patterns { ArePatternsOf new_stil.now new.now }
    requires chains { length new.now.chains.chains ≡ length old.now.chains.chains }
    requires cells { new.now.chains.cells ≡ old.now.chains.cells }
    ensures value { IfOk result (IsPlaceOf (meant_by old.now stil.now).played (meant_by new.now new_stil.now).played) }
{
    let map = map_of(alloc, old.chains(), new.chains())?;
    let mut first = PatternCursor::behind_head(stil, old.head());
    let mut second = PatternCursor::behind_head(new_stil, new.head());
    let Some(found) = first_difference(alloc, &map, &mut first, &mut second)? else {
        return Ok(None);
    };
    let mut again = PatternCursor::behind_head(stil, old.head());
    let before = count_in(alloc, &mut again, found.at, found.pattern)?;
    Ok(Some(Place {
        pattern: found.pattern,
        before,
    }))
}
