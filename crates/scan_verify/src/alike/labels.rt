//! The labels of statements, their words, and what they call.
ghost use Rattle.std.specs.Prelude.{◌≡◌, ◌↔◌, ◌<◌, ◌^◌, ◌++◌, ◌∷◌, [], length, IsTrue, Some, None, IfOk, IfSome, OnOk, MatchOption};
ghost use Rattle.base_types.specs.Names.{plain_name};
ghost use Rattle.stil_syntax.specs.Names.{name_at};
ghost use Rattle.stil_syntax.specs.Shapes.{is_call, label_at, behind_labels};
ghost use Rattle.stil_written.specs.Readings.{name_there, label_names, word_and_name, reading};

use crate::alike::names::have_same_names;
use base_types::{Name, NoMemory, Rows};
use std::alloc::Global;
use stil_syntax::{NameText, Stretch};
use stil_tokens::stil_tokens;

/// Takes the label at the front, and gives its name. Where none stands there, the tokens are as before.
#[tactic(auto, unfolding(stil_syntax::specs::Shapes::label_at))]
fn take_label<'a>(tokens: &mut Stretch<'a, '_>) -> Option<NameText<'a>>
    ensures label { MatchOption result ((label_at tokens.old ≡ None) × (tokens.new ≡ tokens.old)) (λ n. label_at tokens.old ≡ Some tokens.new) }
    ensures name { IfSome result (λ n. name_there (name_at tokens.old) ≡ plain_name n ∷ []) }
{
    let mut rest = tokens.again();
    let name = rest.name()?;
    let colon = rest.next()?;
    if colon.text == b":".as_slice() {
        *tokens = rest;
        Some(name)
    } else {
        None
    }
}

/// Puts the plain names in the labels behind others, and takes the labels.
#[tactic(auto, unfolding(stil_written::specs::Readings::label_names, stil_syntax::specs::Shapes::behind_within))]
fn put_labels(
    alloc: Global,
    names: &mut Rows<Name>,
    tokens: &mut Stretch<'_, '_>,
) -> Result<(), NoMemory>
    ensures names { OnOk result (names.new ≡ names.old ++ label_names (length tokens.old) tokens.old) }
    ensures behind { OnOk result (tokens.new ≡ behind_labels tokens.old) }
{
    let mut left = tokens.len();
    while 0 < left {
        let Some(name) = take_label(tokens) else {
            return Ok(());
        };
        names.push(name.to_plain_name(alloc)?)?;
        left -= 1;
    }
    Ok(())
}

/// `Call` or `Macro`.
fn is_call(word: &[u8]) -> bool
    ensures value { result ≡ is_call word.now }
{
    word == b"Call".as_slice() || word == b"Macro".as_slice()
}

/// Puts the word behind other names, and the plain name of what a Call or a Macro calls.
fn put_word(alloc: Global, names: &mut Rows<Name>, tokens: &Stretch<'_, '_>) -> Result<(), NoMemory>
    ensures value { OnOk result (names.new ≡ names.old ++ word_and_name tokens.now) }
{
    let mut rest = tokens.again();
    let Some(word) = rest.next() else {
        return Ok(());
    };
    names.push(Name::copy(alloc, word.text)?)?;
    if !is_call(word.text) {
        return Ok(());
    }
    let Some(name) = rest.name() else {
        return Ok(());
    };
    names.push(name.to_plain_name(alloc)?)?;
    Ok(())
}

/// The names in the labels of a statement, its word, and the name of what a Call or a Macro calls.
fn heading_of(alloc: Global, text: &[u8]) -> Result<Rows<Name>, NoMemory>
    requires small { length text.now < 2 ^ 32 }
    ensures value { IfOk result (λ names. names ≡ reading.heading text.now) }
{
    let spans = stil_tokens(alloc, text)?;
    let mut tokens = Stretch::of(text, spans.as_slice());
    let mut names = Rows::new(alloc);
    put_labels(alloc, &mut names, &mut tokens)?;
    put_word(alloc, &mut names, &tokens)?;
    Ok(names)
}

/// Whether two statements of less than 4 GiB have labels of the same names and the same word, and where this is Call or Macro,
/// call the same (IEEE 1450-1999, Pattern statements). Want of memory is the only refusal.
pub fn have_same_heading(alloc: Global, a: &[u8], b: &[u8]) -> Result<bool, NoMemory>
    requires first { length a.now < 2 ^ 32 }
    requires second { length b.now < 2 ^ 32 }
    ensures value { IfOk result (λ same. IsTrue same ↔ reading.heading a.now ≡ reading.heading b.now) }
{
    let old = heading_of(alloc, a)?;
    let new = heading_of(alloc, b)?;
    Ok(have_same_names(old.as_slice(), new.as_slice()))
}
