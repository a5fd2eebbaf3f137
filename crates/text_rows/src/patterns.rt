//! The patterns of STIL texts: statements, whole texts, and texts in pieces.
ghost use Rattle.std.specs.Prelude.{◌<◌, ◌^◌, length};

use base_types::{Name, NoMemory, ReadFault, Text};
use row_forms::{Part, fault_text, put};
use std::alloc::Global;
use stil_calls::read_statement;
use stil_reader::{read_head, read_judged, read_stil};
use stil_stream::{HeadNext, Next, StilStream};
use stil_types::{BodyStatement, PatternStatement, ScanCall, StilHead};

/// One chain, a scan procedure and another, a scan macro, and a word of the user: the head beside which statements are read.
const HEAD: &[u8] = b"STIL 1.0;
ScanStructures { ScanChain ch1 { ScanLength 3; ScanIn si; ScanOut so; } }
Procedures { load_unload { Shift { V { si=#; so=#; } } } capture { V { clk=P; } } }
MacroDefs { load { Shift { V { si=#; } } } }
UserKeywords Goto;
";

fn string_of(string: Option<&Option<Text>>) -> Part<'_> {
    match string {
        Some(Some(text)) => Part::Word(text.bytes()),
        _ => Part::Text("-"),
    }
}

/// How often a call shifts, and what it loads and compares in the first chain.
fn push_call(text: &mut String, call: &ScanCall) -> Result<(), NoMemory> {
    let blank = Part::Text(" ");
    let load = string_of(call.loads.as_slice().first());
    let compare = string_of(call.compares.as_slice().first());
    put(
        text,
        &[
            blank,
            Part::Number(call.shifts as u64),
            blank,
            load,
            blank,
            compare,
        ],
    )
}

/// What a statement is, and the number of its Pattern.
fn push_kind<'t>(text: &mut String, kind: &'t str, pattern: u32) -> Result<(), NoMemory> {
    put(text, &[Part::Text(kind), Part::Number(u64::from(pattern))])
}

/// The statements in the block of a Loop: where they stand, and what they do.
fn push_body(text: &mut String, body: &[BodyStatement]) -> Result<(), NoMemory> {
    for inner in body {
        let (start, end) = (
            Part::Number(u64::from(inner.start)),
            Part::Number(u64::from(inner.end)),
        );
        let blank = Part::Text(" ");
        put(
            text,
            &[
                blank,
                start,
                Part::Text(".."),
                end,
                blank,
                Part::Number(inner.line),
            ],
        )?;
        if let Some(call) = &inner.call {
            push_call(text, call)?;
        }
    }
    Ok(())
}

/// A statement in brackets: its kind, the number of its Pattern, its line and what it does.
fn push_statement(text: &mut String, statement: &PatternStatement) -> Result<(), NoMemory> {
    let blank = Part::Text(" ");
    match statement {
        PatternStatement::Scan {
            pattern,
            call,
            line,
            ..
        } => {
            push_kind(text, "[Scan ", *pattern)?;
            put(text, &[blank, Part::Number(*line)])?;
            push_call(text, call)?;
        }
        PatternStatement::Other { pattern, .. } => push_kind(text, "[Other ", *pattern)?,
        PatternStatement::Loop {
            pattern,
            times,
            body,
            line,
            ..
        } => {
            push_kind(text, "[Loop ", *pattern)?;
            let times = Part::Number(u64::from(*times));
            put(text, &[blank, Part::Number(*line), blank, times])?;
            push_body(text, body.as_slice())?;
        }
    }
    put(text, &[Part::Text("]")])
}

/// A statement of the first Pattern that begins on line 14, beside a head of one chain.
pub(crate) fn statement(alloc: Global, source: &[u8]) -> Result<String, ReadFault>
    requires { length source.now < 2 ^ 32 }
{
    let head = read_head(alloc, HEAD)?;
    let statement = read_statement(alloc, &head, 0, 14, source)?;
    let mut text = String::new(alloc);
    push_statement(&mut text, &statement)?;
    Ok(text)
}

fn push_names(text: &mut String, names: &[Name]) -> Result<(), NoMemory> {
    for name in names {
        put(text, &[Part::Text(" "), Part::Word(name.bytes())])?;
    }
    Ok(())
}

/// Gaps, statements and the Patterns' names of a text, each call judged by the chains' lengths.
pub(crate) fn judged(alloc: Global, source: &[u8]) -> Result<String, ReadFault>
    requires { length source.now < 2 ^ 32 }
{
    let head = read_head(alloc, source)?;
    let judged = read_judged(alloc, source, &head)?;
    let statements = judged.stil.statements.as_slice();
    let mut text = String::new(alloc);
    for (k, gap) in judged.gaps.as_slice().iter().enumerate() {
        put(&mut text, &[Part::Word(gap.bytes())])?;
        if let Some(statement) = statements.get(k) {
            push_statement(&mut text, statement)?;
        }
    }
    push_names(&mut text, judged.stil.patterns.as_slice())?;
    Ok(text)
}

/// Statements and the Patterns' names of a text.
pub(crate) fn formed(alloc: Global, source: &[u8]) -> Result<String, ReadFault>
    requires { length source.now < 2 ^ 32 }
{
    let stil = read_stil(alloc, source)?;
    let mut text = String::new(alloc);
    for statement in stil.statements.as_slice() {
        push_statement(&mut text, statement)?;
    }
    push_names(&mut text, stil.patterns.as_slice())?;
    Ok(text)
}

/// What a stream did.
enum Heard {
    Told,
    Wanted,
    Ended,
}

/// Tells what comes next: a head in angles, a gap as it stands and the name of the Pattern that opens behind it in angles, a
/// statement; a point at the end.
fn push_next(
    alloc: Global,
    text: &mut String,
    head: &StilHead,
    stream: &mut StilStream,
) -> Result<Heard, ReadFault> {
    if stream.is_before_head() {
        let HeadNext::Head { text: own } = stream.next_head(alloc)? else {
            return Ok(Heard::Wanted);
        };
        put(
            text,
            &[Part::Text("<"), Part::Word(own.bytes()), Part::Text(">")],
        )?;
        return Ok(Heard::Told);
    }
    match stream.next_statement(alloc, head)? {
        Next::Want => return Ok(Heard::Wanted),
        Next::Gap { text: gap, pattern } => {
            put(text, &[Part::Word(gap.bytes())])?;
            if let Some(name) = pattern {
                put(
                    text,
                    &[Part::Text("<"), Part::Word(name.bytes()), Part::Text(">")],
                )?;
            }
        }
        Next::Statement { statement } => push_statement(text, &statement)?,
        Next::End => {
            put(text, &[Part::Text(".")])?;
            return Ok(Heard::Ended);
        }
    }
    Ok(Heard::Told)
}

/// All that is told of a text whose first piece has one size and the others another, up to its end or its fault.
fn told(
    alloc: Global,
    head: &StilHead,
    source: &[u8],
    first: usize,
    size: usize,
) -> Result<String, NoMemory> {
    let mut stream = StilStream::new(alloc);
    let mut text = String::new(alloc);
    let (mut rest, mut next) = (source, first);
    for _turn in 0..4096u32 {
        match push_next(alloc, &mut text, head, &mut stream) {
            Ok(Heard::Told) => {}
            Ok(Heard::Ended) => return Ok(text),
            Ok(Heard::Wanted) => {
                let (piece, after) = rest.split_at(next.min(rest.len()));
                if piece.is_empty() {
                    stream.end_input();
                } else if stream.is_hungry() && piece.len() <= 65536 {
                    stream.feed(piece)?;
                }
                (rest, next) = (after, size);
            }
            Err(ReadFault::NoMemory) => return Err(NoMemory),
            Err(ReadFault::Fault(fault)) => {
                let fault = fault_text(alloc, &fault)?;
                put(&mut text, &[Part::Text("!"), Part::Text(fault.as_str())])?;
                return Ok(text);
            }
        }
    }
    put(&mut text, &[Part::Text(" and no end")])?;
    Ok(text)
}

/// What came otherwise of a text in other pieces, behind the size of the first.
fn other_text(alloc: Global, first: usize, other: &str) -> Result<String, NoMemory> {
    let mut text = String::new(alloc);
    put(
        &mut text,
        &[
            Part::Number(first as u64),
            Part::Text(": "),
            Part::Text(other),
        ],
    )?;
    Ok(text)
}

/// What a stream tells of a text in one piece, where it tells the same in small pieces and cut at every byte.
pub(crate) fn pieces(alloc: Global, source: &[u8]) -> Result<String, ReadFault> {
    let head = read_head(alloc, HEAD)?;
    let whole = told(alloc, &head, source, source.len(), 4096)?;
    for size in [1usize, 2, 3, 7, 4096] {
        let other = told(alloc, &head, source, size, size)?;
        if other != whole {
            return Ok(other_text(alloc, size, other.as_str())?);
        }
    }
    for at in 1..source.len() {
        let other = told(alloc, &head, source, at, 4096)?;
        if other != whole {
            return Ok(other_text(alloc, at, other.as_str())?);
        }
    }
    Ok(whole)
}
