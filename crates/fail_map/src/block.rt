//! The scan calls that a statement runs.
ghost use Rattle.std.specs.Prelude.{◌≡◌, ℕ, ◌<◌, ◌≤◌, length, IfOk};
ghost use Rattle.scan_verify.specs.Patterns.{pattern_of};
ghost use Rattle.fail_map.specs.Blocks.{calls_among, read_calls, round_calls, times_of};

use base_types::NoMemory;
use std::alloc::Global;
use stil_types::{BodyStatement, PatternStatement, ScanCall};

/// The number of a statement's Pattern.
pub(crate) fn pattern_of(statement: &PatternStatement) -> u32
    ensures value { result ≡ pattern_of statement.now }
{
    match statement {
        PatternStatement::Scan { pattern, .. } => *pattern,
        PatternStatement::Other { pattern, .. } => *pattern,
        PatternStatement::Loop { pattern, .. } => *pattern,
    }
}

/// How many rounds a statement runs.
pub(crate) fn times_of(statement: &PatternStatement) -> u32
    ensures value { result ≡ times_of statement.now }
{
    match statement {
        PatternStatement::Scan { .. } => 1,
        PatternStatement::Other { .. } => 1,
        PatternStatement::Loop { times, .. } => *times,
    }
}

/// How many scan calls stand in the block of a Loop.
fn count_among(body: &[BodyStatement]) -> usize
    ensures value { result ≡ length (calls_among body.now) }
    ensures within { result ≤ length body.now }
{
    let mut count = 0;
    for statement in body {
        if statement.call.is_some() {
            count += 1;
        }
    }
    count
}

/// How many scan calls a statement runs in one round.
pub(crate) fn count_of(statement: &PatternStatement) -> usize
    ensures value { result ≡ length (round_calls statement.now) }
{
    match statement {
        PatternStatement::Scan { .. } => 1,
        PatternStatement::Other { .. } => 0,
        PatternStatement::Loop { body, .. } => count_among(body.as_slice()),
    }
}

/// The scan calls in the block of a Loop.
fn calls_among<'a>(alloc: Global, body: &'a [BodyStatement]) -> Result<Vec<&'a ScanCall>, NoMemory>
    ensures value { IfOk result (λ calls. read_calls calls.items ≡ calls_among body.now) }
{
    let mut calls = Vec::new(alloc);
    for statement in body {
        if let Some(call) = &statement.call {
            calls.push(call)?;
        }
    }
    Ok(calls)
}

/// The scan calls that a statement runs in one round.
pub(crate) fn calls_of<'a>(
    alloc: Global,
    statement: &'a PatternStatement,
) -> Result<Vec<&'a ScanCall>, NoMemory>
    ensures value { IfOk result (λ calls. read_calls calls.items ≡ round_calls statement.now) }
{
    match statement {
        PatternStatement::Scan { call, .. } => {
            let mut calls = Vec::new(alloc);
            calls.push(call)?;
            Ok(calls)
        }
        PatternStatement::Other { .. } => Ok(Vec::new(alloc)),
        PatternStatement::Loop { body, .. } => calls_among(alloc, body.as_slice()),
    }
}
