//! The text of a Loop with other data in its scan calls.
ghost use Rattle.std.specs.Prelude.{◌≡◌, ◌<◌, ◌≤◌, ◌-◌, ◌^◌, ◌++◌, length, take, drop, IfOk, OnOk};
ghost use Rattle.stil_writer.specs.Loops.{written_part, calls_left, written_loop};

use crate::statement::stil_statement;
use base_types::{NoMemory, Text};
use std::alloc::Global;
use stil_types::{BodyStatement, ScanCall, StilHead};

/// The bytes from one place up to another, as far as there are any.
fn between(text: &[u8], from: usize, to: usize) -> &[u8]
    ensures value { result.now ≡ take (to - from) (drop from text.now) }
    ensures within { length result.now ≤ length text.now }
{
    let end = if to < text.len() { to } else { text.len() };
    if from < end {
        &text[from..end]
    } else {
        &text[..0]
    }
}

/// Appends a statement of the block, with the first of the calls that are left where it is a scan call; the result are those behind it.
fn put_part<'a>(
    alloc: Global,
    out: &mut Vec<u8>,
    text: &[u8],
    head: &StilHead,
    call: &Option<ScanCall>,
    calls: &'a [ScanCall],
) -> Result<&'a [ScanCall], NoMemory>
    requires size { length text.now < 2 ^ 32 }
    ensures value { OnOk result (out.new.items ≡ out.old.items ++ written_part head.now.chains text.now call.now calls.now) }
    ensures left { IfOk result (λ left. left.now ≡ calls_left call.now calls.now) }
{
    match call {
        None => {
            out.extend_from_slice(text)?;
            Ok(calls)
        }
        Some(_read) => match calls.split_first() {
            None => {
                out.extend_from_slice(text)?;
                Ok(calls)
            }
            Some((call, left)) => {
                let written = stil_statement(alloc, text, head, call)?;
                out.extend_from_slice(written.bytes())?;
                Ok(left)
            }
        },
    }
}

/// The bytes of a Loop (IEEE 1450-1999, Loop), which are given with its body, with other data in its scan calls, one call for each of them
/// in order; all other bytes are as they were. It refuses nothing but memory.
pub fn stil_loop(
    alloc: Global,
    text: &[u8],
    head: &StilHead,
    body: &[BodyStatement],
    calls: &[ScanCall],
) -> Result<Text, NoMemory>
    requires size { length text.now < 2 ^ 32 }
    ensures value { IfOk result (λ new. new ≡ written_loop head.now.chains text.now body.now calls.now) }
{
    let mut out = Vec::with_capacity(alloc, text.len())?;
    let mut at = 0;
    let mut left = calls;
    let mut rest = body;
    while let Some((statement, others)) = rest.split_first() {
        out.extend_from_slice(between(text, at, statement.start as usize))?;
        let bytes = between(text, statement.start as usize, statement.end as usize);
        left = put_part(alloc, &mut out, bytes, head, &statement.call, left)?;
        at = statement.end as usize;
        rest = others;
    }
    out.extend_from_slice(between(text, at, text.len()))?;
    Ok(Text::of(out))
}
