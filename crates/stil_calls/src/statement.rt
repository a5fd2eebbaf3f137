//! The statements of a Pattern.
ghost use Rattle.std.specs.Prelude.{◌≡◌, ◌<◌, ◌+◌, ◌^◌, true, false, length, map, IfOk, Some};
ghost use Rattle.std.specs.List.{list_any};
ghost use Rattle.base_types.specs.FirstFault.{IfFault, IsFirstFault};
ghost use Rattle.token_forms.specs.Tokens.{place_of};
ghost use Rattle.stil_calls.specs.Statements.{call_in, body_of, is_read, statement_of, DenotesBy, DenotesStatement, HoldsBy, HoldsInStatement, AreAcceptedBy, AreAccepted};
ghost use Rattle.stil_calls.specs.Faults.{is_pattern_syntax};
ghost use Rattle.stil_calls.specs.Given.{names_twice};
ghost use Rattle.stil_syntax.specs.Shapes.{shape_of, body_statements};
ghost use Rattle.stil_types.specs.Statements.{IsPlaced};

use crate::faults::{line_in, shape_fault};
use crate::judging::Judging;
use crate::strings::call_of;
use base_types::{Fault, FileKind, Lines, NoMemory, ReadFault, Rows, Text};
use std::alloc::Global;
use stil_syntax::{Shape, Stretch, body_statement, shape_of};
use stil_tokens::stil_tokens;
use stil_types::{BodyStatement, PatternStatement, ScanCall, StilHead};

/// What a statement shifts in and compares, where it is a scan call.
fn call_in(
    alloc: Global,
    head: &StilHead,
    shape: &Shape<'_, '_>,
) -> Result<Option<ScanCall>, NoMemory>
    requires once { is_pattern_syntax shape.now ≡ false }
    ensures value { IfOk result (λ call. call ≡ call_in head.now shape.now) }
{
    match shape {
        Shape::Scan(items) => Ok(Some(call_of(alloc, head.chains.as_slice(), items.as_slice())?)),
        _ => Ok(None),
    }
}

/// A statement in the block of a Loop, whose text has these lines, the first of them this one.
fn body_of(
    alloc: Global,
    head: &StilHead,
    lines: &mut Lines<'_>,
    line: u64,
    statement: &Stretch<'_, '_>,
) -> Result<BodyStatement, NoMemory>
    requires room { line + length lines.old < 2 ^ 64 }
    requires once { is_pattern_syntax (shape_of head.now true statement.now) ≡ false }
    ensures value { IfOk result (λ s. s ≡ body_of head.now line lines.old statement.now) }
    ensures same { lines.new ≡ lines.old }
{
    let place = statement.place();
    let shape = shape_of(alloc, head, true, statement)?;
    let call = call_in(alloc, head, &shape)?;
    Ok(BodyStatement {
        start: place.start,
        end: place.end,
        line: line_in(lines, line, place.start),
        call,
    })
}

/// The statements in the block of a Loop.
fn body_of_all(
    alloc: Global,
    head: &StilHead,
    line: u64,
    text: &[u8],
    body: &Stretch<'_, '_>,
) -> Result<Rows<BodyStatement>, NoMemory>
    requires room { line + length text.now < 2 ^ 64 }
    requires once { list_any (λ s. is_pattern_syntax (shape_of head.now true s)) (body_statements body.now) ≡ false }
    ensures value { IfOk result (λ rows. rows ≡ map (body_of head.now line text.now) (body_statements body.now)) }
{
    let mut lines = Lines::of(text);
    let mut rest = body.again();
    let mut rows = Vec::new(alloc);
    while let Some(statement) = body_statement(&mut rest) {
        let row = body_of(alloc, head, &mut lines, line, &statement)?;
        rows.push(row)?;
    }
    rows.shrink_to_fit();
    Ok(Rows::of(rows))
}

/// What a statement denotes whose form is read.
fn statement_of(
    alloc: Global,
    head: &StilHead,
    pattern: u32,
    line: u64,
    text: &[u8],
    shape: &Shape<'_, '_>,
) -> Result<PatternStatement, NoMemory>
    requires room { line + length text.now < 2 ^ 64 }
    requires read { is_read shape.now ≡ true }
    requires once { names_twice head.now shape.now ≡ false }
    ensures value { IfOk result (λ s. statement_of head.now pattern line text.now shape.now ≡ Some s) }
{
    let copy = Text::copy(alloc, text)?;
    match shape {
        Shape::Scan(items) => Ok(PatternStatement::Scan {
            pattern,
            text: copy,
            call: call_of(alloc, head.chains.as_slice(), items.as_slice())?,
            line,
        }),
        Shape::Other => Ok(PatternStatement::Other {
            pattern,
            text: copy,
        }),
        Shape::Loop(times, body) => Ok(PatternStatement::Loop {
            pattern,
            text: copy,
            times: *times,
            body: body_of_all(alloc, head, line, text, body)?,
            line,
        }),
        Shape::NoForm => unreachable!(),
        Shape::Unsupported => unreachable!(),
    }
}

/// The statement of a Pattern that these bytes are, or its first fault of those that count.
pub fn read_statement_by(
    alloc: Global,
    judging: Judging,
    head: &StilHead,
    pattern: u32,
    line: u64,
    text: &[u8],
) -> Result<PatternStatement, ReadFault>
    requires size { length text.now < 2 ^ 32 }
    requires room { line + length text.now < 2 ^ 64 }
    ensures value { IfOk result (λ s. DenotesBy judging head.now pattern line text.now s) }
    ensures first { IfFault result (IsFirstFault (HoldsBy judging head.now line text.now)) }
    ensures accepted { IfOk result (λ s. AreAcceptedBy judging head.now s) }
    ensures placed { IfOk result IsPlaced }
{
    let spans = stil_tokens(alloc, text)?;
    let shape = shape_of(alloc, head, false, &Stretch::of(text, &spans))?;
    match shape_fault(alloc, judging, head, line, text, &shape)? {
        Some(found) => Err(ReadFault::Fault(Fault::at_line(
            found.kind,
            FileKind::Stil,
            found.line,
        ))),
        None => Ok(statement_of(alloc, head, pattern, line, text, &shape)?),
    }
}

/// The statement of a Pattern that these bytes are, from the first byte of its first token to its end, beside the head; or
/// its first fault: PatternSyntax where it matches no form or a scan call gives one name twice, PatternUnsupported for a form
/// that isn't read, ScanCharacter for another character or escape in scan data, ForeignData for data given to a name that is
/// no chain's ScanIn or ScanOut, ShortLoad where the call shifts and not as often as the longest chain has bits, LongCompare
/// for an `L` or `H` behind a chain's bits, TooManyShifts for a string of more than 524288 characters. The least of these
/// counts; a Loop's own comes before those of the statements in its block, which come in order, each at its own line. `line`
/// is the line of the statement's first byte. No character is written out before all are judged.
pub fn read_statement(
    alloc: Global,
    head: &StilHead,
    pattern: u32,
    line: u64,
    text: &[u8],
) -> Result<PatternStatement, ReadFault>
    requires size { length text.now < 2 ^ 32 }
    requires room { line + length text.now < 2 ^ 64 }
    ensures value { IfOk result (λ s. DenotesStatement head.now pattern line text.now s) }
    ensures first { IfFault result (IsFirstFault (HoldsInStatement head.now line text.now)) }
    ensures accepted { IfOk result (λ s. AreAccepted head.now s) }
    ensures placed { IfOk result IsPlaced }
{
    read_statement_by(alloc, Judging::Lengths, head, pattern, line, text)
}
