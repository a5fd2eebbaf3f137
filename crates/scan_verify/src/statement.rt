//! Whether two statements of patterns are alike and do the same.
ghost use Rattle.std.specs.Prelude.{◌≡◌, ◌≤◌, ◌<◌, ◌^◌, ◌↔◌, length, IsTrue, IfOk, All};
ghost use Rattle.stil_types.specs.Statements.{IsPlacedIn};
ghost use Rattle.stil_tester.specs.Runs.{bytes_in};
ghost use Rattle.stil_tester.specs.Meaning.{ReadAlike, BlocksAlike, CallsShowSame, BlocksShowSame, ShowSame};
ghost use Rattle.stil_written.specs.Readings.{reading};
ghost use Rattle.scan_verify.specs.Patterns.{IsReadyCall, IsReady, AreSameStatements, pattern_of};

use crate::call::same_call;
use crate::{have_same_heading, have_same_tokens};
use base_types::NoMemory;
use retarget::Map;
use std::alloc::Global;
use stil_types::{BodyStatement, PatternStatement, ScanCall};

/// Whether two Scans of these bytes have the same heading, and calls that do the same.
fn are_same_scans(
    alloc: Global,
    map: &Map,
    a: &ScanCall,
    text: &[u8],
    b: &ScanCall,
    other: &[u8],
) -> Result<bool, NoMemory>
    requires first { length text.now < 2 ^ 32 }
    requires second { length other.now < 2 ^ 32 }
    requires old { IsReadyCall map.now.0 (Some a.now) }
    requires new { IsReadyCall map.now.1 (Some b.now) }
    ensures value { IfOk result (λ same. IsTrue same ↔ ((reading.heading text.now ≡ reading.heading other.now) × ShowSame map.now.0 map.now.1 a.now b.now)) }
{
    if !have_same_heading(alloc, text, other)? {
        return Ok(false);
    }
    Ok(same_call(map, a, b))
}

/// The same of two statements that may be Scans.
fn are_same_runs(
    alloc: Global,
    map: &Map,
    a: &Option<ScanCall>,
    text: &[u8],
    b: &Option<ScanCall>,
    other: &[u8],
) -> Result<bool, NoMemory>
    requires first { length text.now < 2 ^ 32 }
    requires second { length other.now < 2 ^ 32 }
    requires old { IsReadyCall map.now.0 a.now }
    requires new { IsReadyCall map.now.1 b.now }
    ensures value { IfOk result (λ same. IsTrue same ↔ (ReadAlike reading a.now text.now b.now other.now × CallsShowSame map.now.0 map.now.1 a.now b.now)) }
{
    match a {
        Some(a) => match b {
            Some(b) => are_same_scans(alloc, map, a, text, b, other),
            None => Ok(false),
        },
        None => match b {
            Some(_) => Ok(false),
            None => Ok(have_same_tokens(text, other)),
        },
    }
}

/// The same of two statements in the blocks of Loops of these texts.
fn are_same_in_blocks(
    alloc: Global,
    map: &Map,
    text: &[u8],
    a: &BodyStatement,
    other: &[u8],
    b: &BodyStatement,
) -> Result<bool, NoMemory>
    requires first { length text.now < 2 ^ 32 }
    requires second { length other.now < 2 ^ 32 }
    requires old_place { IsPlacedIn text.now a.now }
    requires new_place { IsPlacedIn other.now b.now }
    requires old { IsReadyCall map.now.0 a.now.call }
    requires new { IsReadyCall map.now.1 b.now.call }
    ensures value { IfOk result (λ same. IsTrue same ↔ (ReadAlike reading a.now.call (bytes_in text.now a.now) b.now.call (bytes_in other.now b.now) × CallsShowSame map.now.0 map.now.1 a.now.call b.now.call)) }
{
    let one = &text[a.start as usize..a.end as usize];
    let two = &other[b.start as usize..b.end as usize];
    are_same_runs(alloc, map, &a.call, one, &b.call, two)
}

/// The same of all statements in the blocks of two Loops.
fn are_same_blocks(
    alloc: Global,
    map: &Map,
    text: &[u8],
    body: &[BodyStatement],
    other: &[u8],
    block: &[BodyStatement],
) -> Result<bool, NoMemory>
    requires first { length text.now < 2 ^ 32 }
    requires second { length other.now < 2 ^ 32 }
    requires old_places { All (IsPlacedIn text.now) body.now }
    requires new_places { All (IsPlacedIn other.now) block.now }
    requires old { All (λ s. IsReadyCall map.now.0 s.call) body.now }
    requires new { All (λ s. IsReadyCall map.now.1 s.call) block.now }
    ensures value { IfOk result (λ same. IsTrue same ↔ (BlocksAlike reading text.now other.now body.now block.now × BlocksShowSame map.now.0 map.now.1 body.now block.now)) }
{
    if body.len() != block.len() {
        return Ok(false);
    }
    for index in 0..body.len() {
        if !are_same_in_blocks(alloc, map, text, &body[index], other, &block[index])? {
            return Ok(false);
        }
    }
    Ok(true)
}

/// The same of two Loops, each of so many rounds, with its bytes and the statements in its block.
fn are_same_loops(
    alloc: Global,
    map: &Map,
    a: (u32, &[u8], &[BodyStatement]),
    b: (u32, &[u8], &[BodyStatement]),
) -> Result<bool, NoMemory>
    requires first { length a.1.now < 2 ^ 32 }
    requires second { length b.1.now < 2 ^ 32 }
    requires old_places { All (IsPlacedIn a.1.now) a.2.now }
    requires new_places { All (IsPlacedIn b.1.now) b.2.now }
    requires old { All (λ s. IsReadyCall map.now.0 s.call) a.2.now }
    requires new { All (λ s. IsReadyCall map.now.1 s.call) b.2.now }
    ensures value { IfOk result (λ same. IsTrue same ↔ ((a.entry.0 ≡ b.entry.0) × (reading.heading a.entry.1.now ≡ reading.heading b.entry.1.now)
        × BlocksAlike reading a.entry.1.now b.entry.1.now a.entry.2.now b.entry.2.now × BlocksShowSame map.now.0 map.now.1 a.entry.2.now b.entry.2.now)) }
{
    let (times, text, body) = a;
    let (often, other, block) = b;
    if times != often || !have_same_heading(alloc, text, other)? {
        return Ok(false);
    }
    are_same_blocks(alloc, map, text, body, other, block)
}

/// The number of a statement's Pattern.
pub fn pattern_of(statement: &PatternStatement) -> u32
    ensures value { result ≡ pattern_of statement.now }
{
    match statement {
        PatternStatement::Scan { pattern, .. } => *pattern,
        PatternStatement::Other { pattern, .. } => *pattern,
        PatternStatement::Loop { pattern, .. } => *pattern,
    }
}

/// Whether two statements, one on old chains and one on new chains, are alike, and their scan calls do the same: of one Pattern,
/// with equal tokens but for the data of the calls (IEEE 1450-1999, Pattern statements). Want of memory is the only refusal.
pub fn same_statement(
    alloc: Global,
    map: &Map,
    a: &PatternStatement,
    b: &PatternStatement,
) -> Result<bool, NoMemory>
    requires old { IsReady map.now.0 a.now }
    requires new { IsReady map.now.1 b.now }
    ensures value { IfOk result (λ same. IsTrue same ↔ AreSameStatements map.now.0 map.now.1 a.now b.now) }
{
    if pattern_of(a) != pattern_of(b) {
        return Ok(false);
    }
    match a {
        PatternStatement::Scan { text, call, .. } => match b {
            PatternStatement::Scan {
                text: other,
                call: written,
                ..
            } => are_same_scans(alloc, map, call, text.bytes(), written, other.bytes()),
            _ => Ok(false),
        },
        PatternStatement::Other { text, .. } => match b {
            PatternStatement::Other { text: other, .. } => {
                Ok(have_same_tokens(text.bytes(), other.bytes()))
            }
            _ => Ok(false),
        },
        PatternStatement::Loop {
            text,
            times,
            body,
            ..
        } => match b {
            PatternStatement::Loop {
                text: other,
                times: often,
                body: block,
                ..
            } => {
                let one = (*times, text.bytes(), body.as_slice());
                let two = (*often, other.bytes(), block.as_slice());
                are_same_loops(alloc, map, one, two)
            }
            _ => Ok(false),
        },
    }
}
