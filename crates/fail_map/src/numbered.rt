//! The lines of a log in the order of their places.
ghost use Rattle.std.specs.Prelude.{◌≡◌, ℕ, ◌<◌, ◌≤◌, length, IsTrue, ◌↔◌, IfOk, MatchOption};
ghost use Rattle.fail_map.specs.Numbered.{AreLinesOf, AreInOrder, IsEarlier, IsLeastNumber, IsRepeated, IsUnmapped, is_earlier, lesser, line_at};

use crate::line::LogLine;
use base_types::NoMemory;
use std::alloc::Global;

/// The lines of a log, each with its number from 0, in the order of their places.
pub(crate) fn lines_of(alloc: Global, log: &[LogLine]) -> Result<Vec<(LogLine, usize)>, NoMemory>
    ensures value { IfOk result (λ lines. AreLinesOf log.now lines.items) }
{
    let mut lines = Vec::with_capacity(alloc, log.len())?;
    for (number, line) in log.iter().enumerate() {
        lines.push((*line, number))?;
    }
    lines.sort_unstable();
    Ok(lines)
}

/// Whether a line is one of an earlier scan call.
fn is_earlier(line: &LogLine, pattern: u64, scan: u64) -> bool
    ensures value { result ≡ is_earlier pattern scan line.now }
{
    line.pattern < pattern || line.pattern == pattern && line.scan < scan
}

/// How many lines are of earlier scan calls than that of a number in a Pattern, both from 1.
pub(crate) fn lines_before(lines: &[(LogLine, usize)], pattern: u64, scan: u64) -> usize
    requires in_order { AreInOrder lines.now }
    ensures within { result ≤ length lines.now }
    ensures before { (k : ℕ) → k < result → IsEarlier pattern scan (line_at lines.now k) }
    ensures behind { (k : ℕ) → result ≤ k → k < length lines.now → IsEarlier pattern scan (line_at lines.now k) → ⊥ }
{
    lines.partition_point(|line| is_earlier(&line.0, pattern, scan))
}

/// The lesser of two numbers, of which the first may be missing.
fn lesser(least: Option<usize>, number: usize) -> usize
    ensures value { result ≡ lesser least number }
{
    match least {
        None => number,
        Some(least) => least.min(number),
    }
}

/// The least number of the lines for which nothing was found.
pub(crate) fn first_unmapped(
    lines: &[(LogLine, usize)],
    mapped: &[Option<LogLine>],
) -> Option<usize>
    requires long { length mapped.now ≡ length lines.now }
    ensures value { MatchOption result ((k : ℕ) → k < length lines.now → IsUnmapped mapped.now k → ⊥) (IsLeastNumber (IsUnmapped mapped.now) lines.now (length lines.now)) }
{
    let mut least = None;
    for at in 0..lines.len() {
        if mapped[at].is_none() {
            least = Some(lesser(least, lines[at].1));
        }
    }
    least
}

/// Whether a line is equal to the one before it.
fn is_repeated(lines: &[(LogLine, usize)], at: usize) -> bool
    requires within { at < length lines.now }
    ensures value { IsTrue result ↔ IsRepeated lines.now at }
{
    if at == 0 {
        return false;
    }
    lines[at - 1].0 == lines[at].0
}

/// The least number of the lines that are equal to the one before them.
pub(crate) fn first_repeated(lines: &[(LogLine, usize)]) -> Option<usize>
    ensures value { MatchOption result ((k : ℕ) → k < length lines.now → IsRepeated lines.now k → ⊥) (IsLeastNumber (IsRepeated lines.now) lines.now (length lines.now)) }
{
    let mut least = None;
    for at in 0..lines.len() {
        if is_repeated(lines, at) {
            least = Some(lesser(least, lines[at].1));
        }
    }
    least
}
