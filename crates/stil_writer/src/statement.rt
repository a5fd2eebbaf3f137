//! The text of a scan call with other data.
ghost use Rattle.std.specs.Prelude.{◌≡◌, ◌<◌, ◌^◌, ◌++◌, length, take, IfOk, OnOk, MatchOption, None, Some};
ghost use Rattle.stil_tokens.specs.StilTokens.{tokens_in};
ghost use Rattle.stil_writer.specs.Calls.{brace_end, item_line, side_line, item_lines, written_scan};

use base_types::{NoMemory, Text};
use std::alloc::Global;
use stil_tokens::stil_lexer;
use stil_types::{ScanCall, ScanChainDecl, StilHead};

/// Appends the line of a string.
fn put_line(out: &mut Vec<u8>, port: &[u8], given: &[u8]) -> Result<(), NoMemory>
    ensures value { OnOk result (out.new.items ≡ out.old.items ++ item_line port.now given.now) }
{
    out.extend_from_slice(b"    \"")?;
    out.extend_from_slice(port)?;
    out.extend_from_slice(b"\"=")?;
    out.extend_from_slice(given)?;
    out.extend_from_slice(b";\n")?;
    Ok(())
}

/// Appends the line of a string, where it is written.
fn put_side(out: &mut Vec<u8>, port: &[u8], string: &Option<Text>) -> Result<(), NoMemory>
    ensures value { OnOk result (out.new.items ≡ out.old.items ++ side_line port.now string.now) }
{
    match string {
        Some(given) => put_line(out, port, given.bytes()),
        None => Ok(()),
    }
}

/// Appends for each chain the line of its load and then that of its compare.
fn put_lines(
    out: &mut Vec<u8>,
    chains: &[ScanChainDecl],
    loads: &[Option<Text>],
    compares: &[Option<Text>],
) -> Result<(), NoMemory>
    ensures value { OnOk result (out.new.items ≡ out.old.items ++ item_lines chains.now loads.now compares.now) }
{
    let Some((chain, chains)) = chains.split_first() else {
        return Ok(());
    };
    let Some((load, loads)) = loads.split_first() else {
        return Ok(());
    };
    let Some((compare, compares)) = compares.split_first() else {
        return Ok(());
    };
    put_side(out, chain.scan_in.bytes(), load)?;
    put_side(out, chain.scan_out.bytes(), compare)?;
    put_lines(out, chains, loads, compares)
}

/// The first so many bytes, or all.
fn front(text: &[u8], end: usize) -> &[u8]
    ensures value { result.now ≡ take end text.now }
{
    if end < text.len() { &text[..end] } else { text }
}

/// The place behind the first brace that opens a block. What stands behind it isn't looked at.
fn brace_end(text: &[u8]) -> Option<u32>
    requires size { length text.now < 2 ^ 32 }
    ensures value { MatchOption result (brace_end (tokens_in text.now) ≡ None) (λ n. brace_end (tokens_in text.now) ≡ Some n) }
{
    let mut tokens = stil_lexer(text);
    while let Some(token) = tokens.next() {
        if token.text == b"{".as_slice() {
            return Some(token.span.end);
        }
    }
    None
}

/// The bytes of a scan call (IEEE 1450-1999, Call and Macro), which are given, with other data: those up to and with the brace that opens
/// its block as they are, and then a line for each string. One that doesn't shift is as it was. It refuses nothing but memory.
pub fn stil_statement(
    alloc: Global,
    text: &[u8],
    head: &StilHead,
    call: &ScanCall,
) -> Result<Text, NoMemory>
    requires size { length text.now < 2 ^ 32 }
    ensures value { IfOk result (λ new. new ≡ written_scan head.now.chains text.now call.now) }
{
    if call.shifts == 0 {
        return Text::copy(alloc, text);
    }
    let Some(end) = brace_end(text) else {
        return Text::copy(alloc, text);
    };
    let mut out = Vec::with_capacity(alloc, text.len())?;
    out.extend_from_slice(front(text, end as usize))?;
    out.push(b'\n')?;
    put_lines(
        &mut out,
        head.chains.as_slice(),
        call.loads.as_slice(),
        call.compares.as_slice(),
    )?;
    out.extend_from_slice(b"  }")?;
    Ok(Text::of(out))
}
