//! Tokens, statements, numbers and lines of texts.
ghost use Rattle.std.specs.Prelude.{◌<◌, ◌^◌, length};

use base_types::{Lines, NoMemory, line_of};
use def_tokens::{def_statements, def_tokens, is_decimal, is_integer, read_decimal, read_integer};
use row_forms::{Part, barred, push_size, put};
use std::alloc::Global;
use stil_tokens::{stil_statements, stil_tokens};
use verilog_syntax::verilog_tokens;

/// The tokens of a Verilog text, a bar behind each.
pub(crate) fn of_verilog(alloc: Global, text: &[u8]) -> Result<String, NoMemory>
    requires { length text.now < 2 ^ 32 }
{
    barred(alloc, text, &verilog_tokens(alloc, text)?)
}

/// The tokens of a DEF text, a bar behind each.
pub(crate) fn of_def(alloc: Global, text: &[u8]) -> Result<String, NoMemory>
    requires { length text.now < 2 ^ 32 }
{
    barred(alloc, text, &def_tokens(alloc, text)?)
}

/// The tokens of a STIL text, a bar behind each.
pub(crate) fn of_stil(alloc: Global, text: &[u8]) -> Result<String, NoMemory>
    requires { length text.now < 2 ^ 32 }
{
    barred(alloc, text, &stil_tokens(alloc, text)?)
}

/// How many tokens each statement of a DEF text has, and behind one without its end a question mark.
pub(crate) fn def_sizes(alloc: Global, text: &[u8]) -> Result<String, NoMemory>
    requires { length text.now < 2 ^ 32 }
{
    let mut sizes = String::new(alloc);
    for statement in def_statements(alloc, text)?.as_slice() {
        push_size(&mut sizes, statement.tokens.as_slice(), statement.closed)?;
    }
    Ok(sizes)
}

/// The same of a STIL text.
pub(crate) fn stil_sizes(alloc: Global, text: &[u8]) -> Result<String, NoMemory>
    requires { length text.now < 2 ^ 32 }
{
    let mut sizes = String::new(alloc);
    for statement in stil_statements(alloc, text)?.as_slice() {
        push_size(&mut sizes, statement.tokens.as_slice(), statement.closed)?;
    }
    Ok(sizes)
}

/// The value of an integer, or of a decimal in millionths.
pub(crate) fn number(alloc: Global, text: &[u8], decimal: bool) -> Result<String, NoMemory> {
    let (form, value) = if decimal {
        (is_decimal(text), read_decimal(text))
    } else {
        (is_integer(text), read_integer(text))
    };
    let mut told = String::new(alloc);
    put(
        &mut told,
        &[Part::Text(match (form, value) {
            (true, Some(_)) => "",
            (true, None) => "out of range",
            (false, None) => "no number",
            (false, Some(_)) => "no number, but ",
        })],
    )?;
    if let Some(value) = value {
        put(&mut told, &[Part::Signed(value)])?;
    }
    Ok(told)
}

/// The lines of places of a text, from its beginning to its end and then from there backwards.
pub(crate) fn lines(alloc: Global, text: &[u8]) -> Result<String, NoMemory> {
    let mut lines = Lines::of(text);
    let mut told = String::new(alloc);
    for place in [0, 1, 2, 3, 6, 7, 2, 100] {
        let line = lines.line_of(place);
        let alone = line_of(text, place.min(text.len()));
        let mark = if line == alone { "" } else { "?" };
        put(
            &mut told,
            &[Part::Number(line), Part::Text(mark), Part::Text(" ")],
        )?;
    }
    Ok(told)
}
