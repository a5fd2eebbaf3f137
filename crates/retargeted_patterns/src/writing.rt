//! Statements of patterns with the scan calls of the new chains.
ghost use Rattle.std.specs.Prelude.{◌≡◌, ◌<◌, ◌^◌, All, length, IfOk};
ghost use Rattle.stil_calls.specs.declared.judging.Judging.TheVariants.{Lengths};
ghost use Rattle.stil_calls.specs.Scans.{bits_of};
ghost use Rattle.stil_calls.specs.Statements.{AreAccepted, IsAcceptedBy, IsAcceptedIn};
ghost use Rattle.stil_tester.specs.Shifting.{bit_counts};
ghost use Rattle.stil_writer.specs.Calls.{written_scan};
ghost use Rattle.stil_writer.specs.Loops.{calls_moved, written_loop, written_with};
ghost use Rattle.retarget.specs.Moved.{moved_call};
ghost use Rattle.retargeted_patterns.specs.Figures.{times, call_figures, body_figures, statement_figures};

use crate::figures::PatternFigures;
use crate::moving::{move_body, move_call};
use base_types::{NoMemory, Text};
use retarget::Map;
use std::alloc::Global;
use stil_types::{BodyStatement, PatternStatement, ScanCall, StilHead};
use stil_writer::{stil_loop, stil_statement};

/// A statement as it is written, and what is counted of it.
#[derive(Drop)]
pub(crate) struct Rewritten {
    pub text: Text,
    pub figures: PatternFigures,
}

/// The bytes of a statement, whose places have 32 bits; no reader hands out a longer one.
fn placed_bytes(text: &Text) -> Result<&[u8], NoMemory>
    ensures value { IfOk result (λ bytes. bytes.now ≡ text.now) }
    ensures small { IfOk result (λ bytes. length bytes.now < 2 ^ 32) }
{
    let bytes = text.bytes();
    if bytes.len() > u32::MAX as usize {
        return Err(NoMemory);
    }
    Ok(bytes)
}

/// A scan call.
fn write_scan(
    alloc: Global,
    head: &StilHead,
    map: &Map,
    text: &Text,
    call: &ScanCall,
) -> Result<Rewritten, NoMemory>
    requires fits { bit_counts map.now.0 ≡ bits_of head.now.chains }
    requires accepted { IsAcceptedBy Lengths head.now call.now }
    ensures text { IfOk result (λ new. new.text ≡ written_scan head.now.chains text.now (moved_call map.now.0 map.now.1 call.now)) }
    ensures figures { IfOk result (λ new. new.figures ≡ call_figures map.now.0 map.now.1 call.now) }
{
    let bytes = placed_bytes(text)?;
    let moved = move_call(alloc, head, map, call)?;
    let new = stil_statement(alloc, bytes, head, &moved.call)?;
    Ok(Rewritten {
        text: new,
        figures: moved.figures,
    })
}

/// A Loop, by its block and how often it runs.
fn write_loop(
    alloc: Global,
    head: &StilHead,
    map: &Map,
    text: &Text,
    count: u32,
    body: &[BodyStatement],
) -> Result<Rewritten, NoMemory>
    requires fits { bit_counts map.now.0 ≡ bits_of head.now.chains }
    requires accepted { All (λ statement. IsAcceptedIn Lengths head.now statement.call) body.now }
    ensures text { IfOk result (λ new. new.text ≡ written_loop head.now.chains text.now body.now (calls_moved (moved_call map.now.0 map.now.1) body.now)) }
    ensures figures { IfOk result (λ new. new.figures ≡ times count (body_figures map.now.0 map.now.1 body.now)) }
{
    let bytes = placed_bytes(text)?;
    let moved = move_body(alloc, head, map, body)?;
    let new = stil_loop(alloc, bytes, head, body, moved.calls.as_slice())?;
    let figures = moved.figures.times(count)?;
    Ok(Rewritten { text: new, figures })
}

/// Any statement that was read beside the head.
pub(crate) fn write_statement(
    alloc: Global,
    head: &StilHead,
    map: &Map,
    statement: &PatternStatement,
) -> Result<Rewritten, NoMemory>
    requires fits { bit_counts map.now.0 ≡ bits_of head.now.chains }
    requires accepted { AreAccepted head.now statement.now }
    ensures text { IfOk result (λ new. new.text ≡ written_with head.now.chains (moved_call map.now.0 map.now.1) statement.now) }
    ensures figures { IfOk result (λ new. new.figures ≡ statement_figures map.now.0 map.now.1 statement.now) }
{
    match statement {
        PatternStatement::Scan { text, call, .. } => write_scan(alloc, head, map, text, call),
        PatternStatement::Other { text, .. } => Ok(Rewritten {
            text: Text::copy(alloc, text.bytes())?,
            figures: PatternFigures::nothing(),
        }),
        PatternStatement::Loop {
            text,
            times,
            body,
            ..
        } => write_loop(alloc, head, map, text, *times, body.as_slice()),
    }
}
