//! The names of STIL.
ghost use Rattle.std.specs.Prelude.{◌≡◌, ◌<◌, ◌≤◌, ◌-◌, ◌++◌, length, drop, Some, None, MatchOption, IfSome, IfOk};
ghost use Rattle.std.specs.Str.{bytes_eq};
ghost use Rattle.base_types.specs.Names.{plain_name};
ghost use Rattle.token_forms.specs.Tokens.{Token};
ghost use Rattle.stil_syntax.specs.Names.{name, name_at, string_at};

use crate::words::{NoMark, inner, is_string, is_word};
use base_types::{Name, NoMemory, Stop, plain_name};
use std::alloc::Global;
use std::marker::Model;
use token_forms::{Lexeme, Parser, Read, Tokens};

/// A name: a run, or a text in `"` without its quotes, or such a text and a run right behind it. Contracts see it as its
/// bytes.
#[derive(Drop)]
pub struct NameText<'a> {
    front: &'a [u8],
    back: &'a [u8],
}

impl<'a> Model for NameText<'a> {
    ghost use Rattle.std.specs.Prelude.{List, ℕ, ◌++◌};

    ghost Value = { List ℕ };

    ghost view = { λ n. n.front.now ++ n.back.now };
}

/// Whether two pieces are these bytes.
fn is_joined(front: &[u8], back: &[u8], bytes: &[u8]) -> bool
    ensures value { result ≡ bytes_eq (front.now ++ back.now) bytes.now }
{
    if bytes.len() < front.len() {
        return false;
    }
    let (begin, end) = bytes.split_at(front.len());
    front == begin && back == end
}

impl<'a> NameText<'a> {
    fn of(front: &'a [u8], back: &'a [u8]) -> NameText<'a>
        ensures value { result ≡ front.now ++ back.now }
    {
        NameText { front, back }
    }

    /// Whether it has these bytes.
    pub fn is(&self, bytes: &[u8]) -> bool
        ensures value { result ≡ bytes_eq self.now bytes.now }
    {
        is_joined(self.front, self.back, bytes)
    }

    /// The name as a value of its own.
    pub fn to_name(&self, alloc: Global) -> Result<Name, NoMemory>
        ensures value { IfOk result (λ name. name ≡ self.now) }
    {
        let mut bytes = Vec::from_slice(alloc, self.front)?;
        bytes.extend_from_slice(self.back)?;
        Ok(Name::of(bytes))
    }

    /// The name without its backslashes, as a value of its own. One that is short and has none takes no memory.
    #[tactic(auto, using(crate::proofs::NameTexts::plain_front))]
    pub fn to_plain_name(&self, alloc: Global) -> Result<Name, NoMemory>
        ensures value { IfOk result (λ name. name ≡ plain_name self.now) }
    {
        if self.back.is_empty() && !self.front.contains(&b'\\') {
            return Ok(Name::copy(alloc, self.front)?);
        }
        let read = self.to_name(alloc)?;
        plain_name(alloc, read.bytes())
    }
}

/// Takes the first token, where there is one.
fn skip(tokens: &mut Tokens<'_, '_>)
    ensures value { tokens.new ≡ drop 1 tokens.old }
{
    let _ = tokens.next();
}

/// The name that begins with a text in `"`.
fn string_at<'a>(first: Lexeme<'a>, tokens: &mut Tokens<'a, '_>) -> NameText<'a>
    ensures value { (result, tokens.new) ≡ string_at (record { text = first.entry.text.now; start = first.entry.span.start; end = first.entry.span.end }) tokens.old }
    ensures shorter { length tokens.new ≤ length tokens.old }
{
    let text = inner(first.text);
    if let Some(next) = tokens.first() {
        if is_word(next.text) && next.span.start == first.span.end {
            skip(tokens);
            return NameText::of(text, next.text);
        }
    }
    NameText::of(text, b"".as_slice())
}

/// Takes the name at the front. Where none stands there, the tokens may have changed. Takes no memory.
#[tactic(auto, unfolding(crate::specs::Names::name_at))]
pub(crate) fn name_at<'a>(tokens: &mut Tokens<'a, '_>) -> Option<NameText<'a>>
    ensures value { MatchOption result (name_at tokens.old ≡ None) (λ n. name_at tokens.old ≡ Some (n, tokens.new)) }
    ensures shorter { IfSome result (λ n. length tokens.new < length tokens.old) }
{
    let first = tokens.next()?;
    if is_word(first.text) {
        return Some(NameText::of(first.text, b"".as_slice()));
    }
    if !is_string(first.text) {
        return None;
    }
    Some(string_at(first, tokens))
}

impl<'a> Read<'a> for NameText<'a> {
    ghost form = { name };

    fn begins(parser: &Parser<'a, '_>) -> bool {
        parser.begins_text::<NoMark>()
    }

    fn read(parser: &mut Parser<'a, '_>) -> Result<NameText<'a>, Stop> {
        name_at(&mut parser.tokens).ok_or(Stop::NoForm)
    }
}
