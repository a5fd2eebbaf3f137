//! Names as words of DEF.
ghost use Rattle.std.specs.Prelude.{◌≡◌, ◌≤◌, not, ◌==◌, length, IfOk};
ghost use Rattle.std.specs.List.{prefix_len, list_all};
ghost use Rattle.token_forms.specs.Classes.{is_among};
ghost use Rattle.def_tokens.specs.DefTokens.{is_blank, is_black, has_end};
ghost use Rattle.def_syntax.specs.Words.{marks};
ghost use Rattle.def_layout.specs.Words.{is_quoted, is_run};
ghost use Rattle.def_layout.specs.SectionForms.{is_name};
ghost use Rattle.def_edit.specs.Words.{escaped, word_for, ends_escaping, is_cut_off, goes_on_with, word_before};

use base_types::{Name, NoMemory};
use std::alloc::Global;

fn is_blank(b: u8) -> bool
    ensures value { result ≡ is_blank b }
{
    b == b' ' || b == b'\t' || b == b'\n' || b == b'\r'
}

fn are_black(bytes: &[u8]) -> bool
    ensures value { result ≡ list_all is_black bytes.now }
{
    bytes.iter().all(|b| !is_blank(*b))
}

/// How many bytes stand before the first quote.
fn before_quote(bytes: &[u8]) -> usize
    ensures value { result ≡ prefix_len (λ c. not (c == 34)) bytes.now }
    ensures within { result ≤ length bytes.now }
{
    bytes.iter().take_while(|b| **b != b'"').count()
}

/// Whether a word is a text in quotes.
fn is_quoted(word: &[u8]) -> bool
    ensures value { result ≡ is_quoted word.now }
{
    match word {
        [b'"', text @ ..] => before_quote(text) + 1 == text.len(),
        _ => false,
    }
}

/// Whether a word is bytes that aren't blanks, and begins neither a comment nor a text in quotes.
fn is_run(word: &[u8]) -> bool
    ensures value { result ≡ is_run word.now }
{
    match word {
        [b'#', ..] | [b'"', ..] | [] => false,
        _ => are_black(word),
    }
}

/// Whether a run ends with a semicolon that is a token of its own.
fn has_end(run: &[u8]) -> bool
    ensures value { result ≡ has_end run.now }
{
    match run {
        [.., before, b';'] => *before != b'\\',
        _ => false,
    }
}

fn is_mark(word: &[u8]) -> bool
    ensures value { result ≡ is_among marks word.now }
{
    match word {
        [b'('] | [b')'] | [b'+'] | [b';'] => true,
        _ => false,
    }
}

/// Whether the bytes are one name of DEF.
fn is_name(word: &[u8]) -> bool
    ensures value { result ≡ is_name word.now }
{
    (is_quoted(word) || (is_run(word) && !has_end(word))) && !is_mark(word)
}

/// The bytes, with a backslash before each.
fn escaped(alloc: Global, name: &[u8]) -> Result<Name, NoMemory>
    ensures value { IfOk result (λ word. word ≡ escaped name.now) }
{
    if name.is_empty() {
        return Name::copy(alloc, b"\\");
    }
    let mut word = Vec::new(alloc);
    for b in name {
        word.extend_from_slice(&[b'\\', *b])?;
    }
    Ok(Name::of(word))
}

/// A word that is read as a plain name.
pub(crate) fn word_for(alloc: Global, name: &[u8]) -> Result<Name, NoMemory>
    ensures value { IfOk result (λ word. word ≡ word_for name.now) }
{
    if is_name(name) {
        Name::copy(alloc, name)
    } else {
        escaped(alloc, name)
    }
}

fn ends_escaping(word: &[u8]) -> bool
    ensures value { result ≡ ends_escaping word.now }
{
    match word {
        [.., b'\\'] => true,
        _ => false,
    }
}

/// Whether a semicolon ends the run of this byte and those behind it.
fn is_cut_off(b: u8, behind: &[u8]) -> bool
    ensures value { result ≡ is_cut_off b behind.now }
{
    match behind {
        [] => b == b';',
        [c, ..] => b == b';' && is_blank(*c),
    }
}

/// Whether the bytes behind a word would go on with it.
fn goes_on_with(word: &[u8], behind: &[u8]) -> bool
    ensures value { result ≡ goes_on_with word.now behind.now }
{
    match behind {
        [] => false,
        [b, rest @ ..] => !is_blank(*b) && (ends_escaping(word) || !is_cut_off(*b, rest)),
    }
}

/// A word as it is written before these bytes.
pub(crate) fn word_before(alloc: Global, word: &[u8], behind: &[u8]) -> Result<Name, NoMemory>
    ensures value { IfOk result (λ text. text ≡ word_before word.now behind.now) }
{
    let mut text = Vec::from_slice(alloc, word)?;
    if goes_on_with(word, behind) {
        text.push(b' ')?;
    }
    Ok(Name::of(text))
}
