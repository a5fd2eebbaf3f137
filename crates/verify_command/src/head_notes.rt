//! Where two heads differ, in words for a user.
ghost use Rattle.std.specs.Prelude.{◌<◌, ◌^◌, length};

use crate::notes::{SetNames, shown};
use base_types::{NoMemory, line_of};
use scan_verify::StayingTokens;
use std::alloc::Global;
use token_forms::Lexeme;

/// What stands at a place of a head, as a user reads it: the file, the line, and the token; or that the head ends.
fn token_shown(
    alloc: Global,
    file: &str,
    text: &[u8],
    token: &Option<Lexeme<'_>>,
) -> Result<String, NoMemory> {
    match token {
        Some(token) => {
            let place = (token.span.start as usize).min(text.len());
            let line = line_of(text, place);
            let token = shown(alloc, token.text)?;
            Ok(format!(in alloc; "{token} at {file}:{line}")?)
        }
        None => Ok(format!(in alloc; "the end of the head of {file}")?),
    }
}

/// Whether there are two tokens with one text, or none.
fn are_same(a: &Option<Lexeme<'_>>, b: &Option<Lexeme<'_>>) -> bool {
    match a {
        Some(a) => match b {
            Some(b) => a.text == b.text,
            None => false,
        },
        None => b.is_none(),
    }
}

/// The first tokens of two heads that differ, but for the lengths, inversions and cells of the chains; None where none do.
pub(crate) fn head_note(
    alloc: Global,
    text: &[u8],
    new_text: &[u8],
    names: SetNames<'_>,
) -> Result<Option<String>, NoMemory>
    requires small { length text.now < 2 ^ 32 }
    requires new_small { length new_text.now < 2 ^ 32 }
{
    let mut old = StayingTokens::of(text);
    let mut new = StayingTokens::of(new_text);
    while let Some(token) = old.next() {
        let token = Some(token);
        let other = new.next();
        if !are_same(&token, &other) {
            return differing(alloc, text, token, new_text, other, names);
        }
    }
    match new.next() {
        Some(other) => differing(alloc, text, None, new_text, Some(other), names),
        None => Ok(None),
    }
}

/// What is said of two tokens.
fn differing(
    alloc: Global,
    text: &[u8],
    token: Option<Lexeme<'_>>,
    new_text: &[u8],
    other: Option<Lexeme<'_>>,
    names: SetNames<'_>,
) -> Result<Option<String>, NoMemory> {
    let one = token_shown(alloc, names.stil, text, &token)?;
    let two = token_shown(alloc, names.new_stil, new_text, &other)?;
    Ok(Some(format!(in alloc; "note: {one} differs from {two}")?))
}
