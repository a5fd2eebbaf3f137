//! The first fault of a statement.
ghost use Rattle.std.specs.Prelude.{◌≡◌, ◌<◌, ◌+◌, ◌^◌, length, IfOk};
ghost use Rattle.stil_calls.specs.Faults.{line_in, fault_or, body_fault, inner_fault, shape_fault, fault_by};
ghost use Rattle.stil_syntax.specs.Shapes.{body_statements};

use crate::judging::Judging;
use crate::kinds::kind_of;
use base_types::{Kind, Lines, NoMemory};
use std::alloc::Global;
use stil_parts::PartFault;
use stil_syntax::{Shape, Stretch, body_statement, shape_of};
use stil_tokens::stil_tokens;
use stil_types::StilHead;

/// The line of a place of a text whose first line is this one.
pub(crate) fn line_in(lines: &mut Lines<'_>, line: u64, at: u32) -> u64
    requires room { line + length lines.old < 2 ^ 64 }
    ensures value { result ≡ line_in line lines.old at }
    ensures same { lines.new ≡ lines.old }
{
    line + (lines.line_of(at as usize) - 1)
}

/// A fault of this kind, if there is one.
pub(crate) fn fault_or(kind: Option<Kind>, line: u64, more: Option<PartFault>) -> Option<PartFault>
    ensures value { result ≡ fault_or kind line more }
{
    match kind {
        Some(kind) => Some(PartFault { kind, line }),
        None => more,
    }
}

/// The first fault of the statements in the block of a Loop.
fn body_fault(
    alloc: Global,
    judging: Judging,
    head: &StilHead,
    line: u64,
    text: &[u8],
    body: &Stretch<'_, '_>,
) -> Result<Option<PartFault>, NoMemory>
    requires room { line + length text.now < 2 ^ 64 }
    ensures value { IfOk result (λ found. found ≡ body_fault judging head.now line text.now (body_statements body.now)) }
{
    let mut lines = Lines::of(text);
    let mut rest = body.again();
    while let Some(statement) = body_statement(&mut rest) {
        let shape = shape_of(alloc, head, true, &statement)?;
        if let Some(kind) = kind_of(alloc, judging, head, &shape)? {
            let line = line_in(&mut lines, line, statement.place().start);
            return Ok(Some(PartFault { kind, line }));
        }
    }
    Ok(None)
}

/// The first fault of a statement: its own, and then those in its block.
pub(crate) fn shape_fault(
    alloc: Global,
    judging: Judging,
    head: &StilHead,
    line: u64,
    text: &[u8],
    shape: &Shape<'_, '_>,
) -> Result<Option<PartFault>, NoMemory>
    requires room { line + length text.now < 2 ^ 64 }
    ensures value { IfOk result (λ found. found ≡ shape_fault judging head.now line text.now shape.now) }
{
    match shape {
        Shape::Loop(_times, body) => body_fault(alloc, judging, head, line, text, body),
        _ => Ok(fault_or(kind_of(alloc, judging, head, shape)?, line, None)),
    }
}

/// The first fault of a statement of these bytes.
#[tactic(auto, unfolding(crate::specs::Faults::fault_by))]
pub(crate) fn fault_by(
    alloc: Global,
    judging: Judging,
    head: &StilHead,
    line: u64,
    text: &[u8],
) -> Result<Option<PartFault>, NoMemory>
    requires size { length text.now < 2 ^ 32 }
    requires room { line + length text.now < 2 ^ 64 }
    ensures value { IfOk result (λ found. found ≡ fault_by judging head.now line text.now) }
{
    let spans = stil_tokens(alloc, text)?;
    let shape = shape_of(alloc, head, false, &Stretch::of(text, &spans))?;
    shape_fault(alloc, judging, head, line, text, &shape)
}
