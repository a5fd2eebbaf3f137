//! The text of a log of fails.
ghost use Rattle.std.specs.Prelude.{◌≡◌, ℕ, ◌+◌, ◌-◌, ◌<◌, ◌≤◌, ◌^◌, length, take, drop, MatchOption, IfOk, OnOk, IsTrue, ◌↔◌, slice_index_or, true, false, ⊤};
ghost use Rattle.std.specs.Str.{all_ascii_digits};
ghost use Rattle.base_types.specs.declared.fault.Fault.{Fault as GhostFault};
ghost use Rattle.base_types.specs.FirstFault.{IfFault, IsFirstFault};
ghost use Rattle.fail_map.specs.Logs.{most_number, IsBlank, IsLogText, HoldsInLog};
ghost use Rattle.fail_map.specs.Rows.{value_of, StopsDigits, HasNumber, HasNumberBehind, IsNumberAt, IsNumberBehind, HasRow, IsRowAt};

use crate::line::LogLine;
use base_types::{Fault, FileKind, Kind, ReadFault};
use std::alloc::Global;

/// The greatest number that may stand in a log.
const MOST: u64 = 9223372036854775807;

/// The end of the digits that stand from a place on.
fn digits_end(bytes: &[u8], at: usize) -> usize
    requires within { at ≤ length bytes.now }
    ensures behind { at ≤ result }
    ensures within { result ≤ length bytes.now }
    ensures digits { all_ascii_digits (take (result - at) (drop at bytes.now)) ≡ true }
    ensures stops { StopsDigits (drop result bytes.now) }
{
    let mut end = at;
    while end < bytes.len() && bytes[end].is_ascii_digit() {
        end += 1;
    }
    end
}

/// The number that digits say; None where it is too great.
fn value_of(digits: &[u8]) -> Option<u64>
    requires digits { all_ascii_digits digits.now ≡ true }
    ensures value { MatchOption result (most_number < value_of digits.now) (λ number. number ≡ value_of digits.now) }
    ensures small { MatchOption result ⊤ (λ number. number ≤ most_number) }
{
    let mut value = 0;
    for digit in digits {
        if value > MOST / 10 {
            return None;
        }
        value = value * 10 + (*digit - b'0') as u64;
        if value > MOST {
            return None;
        }
    }
    Some(value)
}

/// Whether digits are a decimal: some, and no 0 in front of others.
fn is_decimal(digits: &[u8]) -> bool
    ensures some { IsTrue result → 0 < length digits.now }
    ensures first { IsTrue result → slice_index_or digits.now 0 0 ≡ 48 → length digits.now ≡ 1 }
    ensures other { (result ≡ false) → 0 < length digits.now → (slice_index_or digits.now 0 0 ≡ 48) × (1 < length digits.now) }
{
    if digits.is_empty() {
        return false;
    }
    if digits.len() == 1 {
        return true;
    }
    digits[0] != b'0'
}

/// The decimal that stands at a place, and where it ends.
fn number_at(bytes: &[u8], at: usize) -> Option<(u64, usize)>
    requires within { at ≤ length bytes.now }
    ensures value { MatchOption result (HasNumber (drop at bytes.now) → ⊥) (λ read. IsNumberAt bytes.now at read.0 read.1) }
{
    let end = digits_end(bytes, at);
    let digits = &bytes[at..end];
    if !is_decimal(digits) {
        return None;
    }
    let number = value_of(digits)?;
    Some((number, end))
}

/// Whether a byte may part two numbers: a space or a tab.
fn is_blank(byte: u8) -> bool
    ensures value { IsTrue result ↔ IsBlank byte }
{
    byte == b' ' || byte == b'\t'
}

/// The decimal behind a blank that stands at a place, and where it ends.
fn number_behind(bytes: &[u8], at: usize) -> Option<(u64, usize)>
    requires within { at ≤ length bytes.now }
    ensures value { MatchOption result (HasNumberBehind (drop at bytes.now) → ⊥) (λ read. IsNumberBehind bytes.now at read.0 read.1) }
{
    if at < bytes.len() && is_blank(bytes[at]) {
        number_at(bytes, at + 1)
    } else {
        None
    }
}

/// The line that stands at a place, and where it ends: at its line feed or at the end of the text.
fn row_at(bytes: &[u8], at: usize) -> Option<(LogLine, usize)>
    requires within { at < length bytes.now }
    ensures value { MatchOption result (HasRow (drop at bytes.now) → ⊥) (λ read. IsRowAt bytes.now at read.0 read.1) }
{
    let (pattern, at) = number_at(bytes, at)?;
    let (scan, at) = number_behind(bytes, at)?;
    let (chain, at) = number_behind(bytes, at)?;
    let (index, at) = number_behind(bytes, at)?;
    if at < bytes.len() && bytes[at] != b'\n' {
        return None;
    }
    let line = LogLine {
        pattern,
        scan,
        chain,
        index,
    };
    Some((line, at))
}

/// The lines that the text of a log says; or its first fault: LogSyntax at the first line that
/// isn't four decimals without a sign or a leading zero, of at most 2^63 - 1, with one space or tab
/// between two; or want of memory. The last line may lack its line feed. The text is passed once.
pub fn read_log(alloc: Global, bytes: &[u8]) -> Result<Vec<LogLine>, ReadFault>
    requires small { length bytes.now < 2 ^ 32 }
    ensures value { IfOk result (λ log. IsLogText bytes.now log.items) }
    ensures fault { IfFault result (IsFirstFault (HoldsInLog bytes.now)) }
    ensures no_fault { OnOk result ((fault : GhostFault) → HoldsInLog bytes.now fault → ⊥) }
{
    let mut log = Vec::new(alloc);
    let mut at = 0;
    while at < bytes.len() {
        let Some((line, end)) = row_at(bytes, at) else {
            let fault = Fault::at_line(Kind::LogSyntax, FileKind::Log, log.len() as u64 + 1);
            return Err(ReadFault::Fault(fault));
        };
        log.push(line)?;
        at = end + 1;
    }
    Ok(log)
}
