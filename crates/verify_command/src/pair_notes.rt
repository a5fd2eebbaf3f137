//! What differs between two statements that stand at one place of their patterns, in words for a user.
ghost use Rattle.std.specs.Prelude.{◌<◌, ◌^◌, length, Some, All};
ghost use Rattle.stil_types.specs.Statements.{IsPlacedIn};
ghost use Rattle.stil_tester.specs.Shifting.{IsCallFor};
ghost use Rattle.scan_verify.specs.Patterns.{IsReady, IsReadyCall};

use crate::notes::{cell_shown, shown};
use crate::places::pattern_of;
use base_types::{Name, NoMemory};
use retarget::{Home, Map};
use same_files::PatternSet;
use scan_verify::{expected_by, first_difference, have_same_heading, have_same_tokens, loaded_by};
use std::alloc::Global;
use stil_tester::{Expect, Symbol};
use stil_tokens::stil_lexer;
use stil_types::{BodyStatement, PatternStatement, ScanCall, StilHead};
use token_forms::Lexeme;

/// Two sets of files that are read.
#[derive(Clone, Copy)]
pub(crate) struct Sets<'a> {
    pub(crate) old: &'a PatternSet,
    pub(crate) new: &'a PatternSet,
}

/// Where two statements stand: the file and the line of each.
#[derive(Clone, Copy)]
pub(crate) struct Spots<'a> {
    pub(crate) stil: &'a str,
    pub(crate) line: u64,
    pub(crate) new_stil: &'a str,
    pub(crate) new_line: u64,
}

/// What is said of two statements that stand there.
fn said(alloc: Global, spots: Spots<'_>, what: &str) -> Result<Option<String>, NoMemory> {
    let Spots {
        stil,
        line,
        new_stil,
        new_line,
    } = spots;
    let note = format!(in alloc; "note: {stil}:{line} and {new_stil}:{new_line}: {what}")?;
    Ok(Some(note))
}

/// One of them is a scan.
fn kinds_note(alloc: Global, spots: Spots<'_>) -> Result<Option<String>, NoMemory> {
    said(
        alloc,
        spots,
        "one of them is a scan, or a Loop with scans, and the other isn't",
    )
}

/// Their labels differ, or what they call.
fn heading_note(alloc: Global, spots: Spots<'_>) -> Result<Option<String>, NoMemory> {
    said(alloc, spots, "labels differ, or what is called")
}

/// The name of the Pattern of a number, as a user reads it.
fn pattern_shown(alloc: Global, names: &[Name], pattern: u32) -> Result<String, NoMemory> {
    match names.get(pattern as usize) {
        Some(name) => shown(alloc, name.bytes()),
        None => Ok(format!(in alloc; "{pattern}")?),
    }
}

/// Statements of different Patterns.
fn patterns_note(
    alloc: Global,
    sets: Sets<'_>,
    a: u32,
    b: u32,
    spots: Spots<'_>,
) -> Result<Option<String>, NoMemory> {
    let one = pattern_shown(alloc, sets.old.names(), a)?;
    let two = pattern_shown(alloc, sets.new.names(), b)?;
    let what = format!(in alloc; "they stand in different Patterns, {one} and {two}")?;
    said(alloc, spots, what.as_str())
}

/// A token as a user reads it.
fn token_shown(alloc: Global, token: &Option<Lexeme<'_>>) -> Result<String, NoMemory> {
    match token {
        Some(token) => shown(alloc, token.text),
        None => Ok(format!(in alloc; "the end")?),
    }
}

/// Statements that pass unread, by their first tokens that differ.
fn tokens_note(
    alloc: Global,
    text: &[u8],
    other: &[u8],
    spots: Spots<'_>,
) -> Result<Option<String>, NoMemory>
    requires first { length text.now < 2 ^ 32 }
    requires second { length other.now < 2 ^ 32 }
{
    let mut a = stil_lexer(text);
    let mut b = stil_lexer(other);
    while let Some(token) = a.next() {
        let beside = b.next();
        let same = match &beside {
            Some(beside) => token.text == beside.text,
            None => false,
        };
        if !same {
            let one = token_shown(alloc, &Some(token))?;
            let two = token_shown(alloc, &beside)?;
            let what = format!(in alloc; "the one has {one}, the other {two}")?;
            return said(alloc, spots, what.as_str());
        }
    }
    said(alloc, spots, "the other goes on")
}

/// The letter of what is loaded.
fn load_letter(symbol: Symbol) -> &'static str {
    match symbol {
        Symbol::Zero => "0",
        Symbol::One => "1",
        Symbol::Unknown => "N",
    }
}

/// The letter of what is expected.
fn expect_letter(expect: Expect) -> &'static str {
    match expect {
        Expect::Low => "L",
        Expect::High => "H",
        Expect::Any => "X",
    }
}

/// What calls do to a cell, as a user reads it.
fn effects_shown(
    alloc: Global,
    a: &ScanCall,
    b: &ScanCall,
    old: Home,
    new: Home,
) -> Result<String, NoMemory>
    requires old_load { old.chain < length a.now.loads }
    requires old_compare { old.chain < length a.now.compares }
    requires new_load { new.chain < length b.now.loads }
    requires new_compare { new.chain < length b.now.compares }
{
    let one = load_letter(loaded_by(a, old));
    let two = load_letter(loaded_by(b, new));
    if one != two {
        return Ok(format!(in alloc; "is loaded with {one} and with {two}")?);
    }
    let one = expect_letter(expected_by(a, old));
    let two = expect_letter(expected_by(b, new));
    Ok(format!(in alloc; "is compared with {one} and with {two}")?)
}

/// A place in a chain, as a user reads it: the chain's name, and the index from the scan output.
fn place_shown(alloc: Global, head: &StilHead, home: Home) -> Result<String, NoMemory> {
    let index = home.exit;
    match head.chains.as_slice().get(home.chain as usize) {
        Some(chain) => {
            let name = shown(alloc, chain.name.bytes())?;
            Ok(format!(in alloc; "{name} index {index}")?)
        }
        None => Ok(format!(in alloc; "index {index}")?),
    }
}

/// A cell to which two calls don't do the same.
fn cell_note(
    alloc: Global,
    sets: Sets<'_>,
    old: Home,
    new: Home,
    effects: &str,
    spots: Spots<'_>,
) -> Result<Option<String>, NoMemory> {
    let name = match sets.old.scan_cell(old.chain, old.place) {
        Some(cell) => cell_shown(alloc, cell)?,
        None => String::new(alloc),
    };
    let one = place_shown(alloc, sets.old.head(), old)?;
    let two = place_shown(alloc, sets.new.head(), new)?;
    let what = format!(in alloc; "cell {name}, at {one} and at {two}, {effects}")?;
    said(alloc, spots, what.as_str())
}

/// Two scan calls with one heading; None where they do the same.
fn calls_note(
    alloc: Global,
    map: &Map,
    sets: Sets<'_>,
    a: &ScanCall,
    b: &ScanCall,
    spots: Spots<'_>,
) -> Result<Option<String>, NoMemory>
    requires old { IsCallFor map.now.0 a.now }
    requires new { IsCallFor map.now.1 b.now }
{
    let Some(cell) = first_difference(map, a, b) else {
        return Ok(None);
    };
    if (a.shifts == 0) != (b.shifts == 0) {
        return said(alloc, spots, "one of them shifts, the other doesn't");
    }
    if cell >= map.new_chains().cells {
        return Ok(None);
    }
    let old = map.old_home(cell);
    let new = map.new_home(cell);
    let effects = effects_shown(alloc, a, b, old, new)?;
    cell_note(alloc, sets, old, new, effects.as_str(), spots)
}

/// Two scan calls with their texts; None where they do the same.
fn scans_note(
    alloc: Global,
    map: &Map,
    sets: Sets<'_>,
    a: &ScanCall,
    text: &[u8],
    b: &ScanCall,
    other: &[u8],
    spots: Spots<'_>,
) -> Result<Option<String>, NoMemory>
    requires first { length text.now < 2 ^ 32 }
    requires second { length other.now < 2 ^ 32 }
    requires old { IsReadyCall map.now.0 (Some a.now) }
    requires new { IsReadyCall map.now.1 (Some b.now) }
{
    if !have_same_heading(alloc, text, other)? {
        return heading_note(alloc, spots);
    }
    calls_note(alloc, map, sets, a, b, spots)
}

/// Two statements that may be scans; None where they are the same.
fn runs_note(
    alloc: Global,
    map: &Map,
    sets: Sets<'_>,
    a: &Option<ScanCall>,
    text: &[u8],
    b: &Option<ScanCall>,
    other: &[u8],
    spots: Spots<'_>,
) -> Result<Option<String>, NoMemory>
    requires first { length text.now < 2 ^ 32 }
    requires second { length other.now < 2 ^ 32 }
    requires old { IsReadyCall map.now.0 a.now }
    requires new { IsReadyCall map.now.1 b.now }
{
    match a {
        Some(a) => match b {
            Some(b) => scans_note(alloc, map, sets, a, text, b, other, spots),
            None => kinds_note(alloc, spots),
        },
        None => match b {
            Some(_call) => kinds_note(alloc, spots),
            None if have_same_tokens(text, other) => Ok(None),
            None => tokens_note(alloc, text, other, spots),
        },
    }
}

/// Statements in the blocks of two Loops of these texts; None where they are the same.
fn inner_note(
    alloc: Global,
    map: &Map,
    sets: Sets<'_>,
    text: &[u8],
    a: &BodyStatement,
    other: &[u8],
    b: &BodyStatement,
    spots: Spots<'_>,
) -> Result<Option<String>, NoMemory>
    requires first { length text.now < 2 ^ 32 }
    requires second { length other.now < 2 ^ 32 }
    requires old_place { IsPlacedIn text.now a.now }
    requires new_place { IsPlacedIn other.now b.now }
    requires old { IsReadyCall map.now.0 a.now.call }
    requires new { IsReadyCall map.now.1 b.now.call }
{
    let one = &text[a.start as usize..a.end as usize];
    let two = &other[b.start as usize..b.end as usize];
    let inner = Spots {
        line: a.line,
        new_line: b.line,
        stil: spots.stil,
        new_stil: spots.new_stil,
    };
    runs_note(alloc, map, sets, &a.call, one, &b.call, two, inner)
}

/// The blocks of two Loops of these texts; None where they are the same.
fn blocks_note(
    alloc: Global,
    map: &Map,
    sets: Sets<'_>,
    text: &[u8],
    body: &[BodyStatement],
    other: &[u8],
    block: &[BodyStatement],
    spots: Spots<'_>,
) -> Result<Option<String>, NoMemory>
    requires first { length text.now < 2 ^ 32 }
    requires second { length other.now < 2 ^ 32 }
    requires old_places { All (IsPlacedIn text.now) body.now }
    requires new_places { All (IsPlacedIn other.now) block.now }
    requires old { All (λ s. IsReadyCall map.now.0 s.call) body.now }
    requires new { All (λ s. IsReadyCall map.now.1 s.call) block.now }
{
    if body.len() != block.len() {
        return said(alloc, spots, "their blocks don't have as many statements");
    }
    for index in 0..body.len() {
        let note = inner_note(
            alloc,
            map,
            sets,
            text,
            &body[index],
            other,
            &block[index],
            spots,
        )?;
        if note.is_some() {
            return Ok(note);
        }
    }
    Ok(None)
}

/// A Loop, and a statement that isn't the same.
fn loop_note(
    alloc: Global,
    map: &Map,
    sets: Sets<'_>,
    a: &PatternStatement,
    b: &PatternStatement,
    spots: Spots<'_>,
) -> Result<Option<String>, NoMemory>
    requires old { IsReady map.now.0 a.now }
    requires new { IsReady map.now.1 b.now }
{
    let PatternStatement::Loop {
        text,
        times,
        body,
        ..
    } = a
    else {
        return kinds_note(alloc, spots);
    };
    let PatternStatement::Loop {
        text: other,
        times: often,
        body: block,
        ..
    } = b
    else {
        return kinds_note(alloc, spots);
    };
    if times != often {
        let what = format!(in alloc; "the one runs {times} times, the other {often}")?;
        return said(alloc, spots, what.as_str());
    }
    if !have_same_heading(alloc, text.bytes(), other.bytes())? {
        return heading_note(alloc, spots);
    }
    let body = body.as_slice();
    let block = block.as_slice();
    blocks_note(
        alloc,
        map,
        sets,
        text.bytes(),
        body,
        other.bytes(),
        block,
        spots,
    )
}

/// What differs between two statements at one place of their patterns; None where they are the same.
pub(crate) fn pair_note(
    alloc: Global,
    map: &Map,
    sets: Sets<'_>,
    a: &PatternStatement,
    b: &PatternStatement,
    spots: Spots<'_>,
) -> Result<Option<String>, NoMemory>
    requires old { IsReady map.now.0 a.now }
    requires new { IsReady map.now.1 b.now }
{
    if pattern_of(a) != pattern_of(b) {
        return patterns_note(alloc, sets, pattern_of(a), pattern_of(b), spots);
    }
    match a {
        PatternStatement::Scan { text, call, .. } => match b {
            PatternStatement::Scan {
                text: other,
                call: written,
                ..
            } => scans_note(
                alloc,
                map,
                sets,
                call,
                text.bytes(),
                written,
                other.bytes(),
                spots,
            ),
            _ => kinds_note(alloc, spots),
        },
        PatternStatement::Other { text, .. } => match b {
            PatternStatement::Other { text: other, .. } => {
                tokens_note(alloc, text.bytes(), other.bytes(), spots)
            }
            _ => kinds_note(alloc, spots),
        },
        PatternStatement::Loop { .. } => loop_note(alloc, map, sets, a, b, spots),
    }
}
