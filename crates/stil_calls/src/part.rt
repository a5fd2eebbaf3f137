//! The judge of the parts of a STIL text.
ghost use Rattle.std.specs.Prelude.{◌≡◌, ◌<◌, ◌+◌, ◌^◌, length, IfOk};
ghost use Rattle.stil_syntax.specs.Names.{name_at};
ghost use Rattle.stil_calls.specs.Parts.{opened_name, opens_by, opening_kind, opened_in, passing_kind, top_kind, passing_in, judge_by};

use crate::faults::{fault_by, fault_or};
use crate::judging::Judging;
use base_types::{Kind, Name, NoMemory};
use std::alloc::Global;
use stil_parts::{Part, PartFault, Point};
use stil_syntax::{NameText, Stretch, behind_labels, closes_nothing, is_word};
use stil_tokens::stil_tokens;
use stil_types::StilHead;

/// The name of a Pattern by what stands behind its word.
fn name_before<'a>(tokens: &Stretch<'a, '_>) -> Option<NameText<'a>>
    ensures value { result ≡ opened_name (name_at tokens.now) }
{
    let mut rest = tokens.again();
    let name = rest.name()?;
    let brace = rest.next()?;
    if rest.len() == 0 && brace.text == b"{".as_slice() {
        Some(name)
    } else {
        None
    }
}

/// The name of the Pattern that labels, `Pattern`, a name and `{` open; None where the tokens aren't these.
fn opens_by<'a>(tokens: &Stretch<'a, '_>) -> Option<NameText<'a>>
    ensures value { result ≡ opens_by tokens.now }
{
    let mut rest = tokens.again();
    let word = rest.next()?;
    if word.text == b"Pattern".as_slice() {
        name_before(&rest)
    } else {
        None
    }
}

/// The plain name of the Pattern that these bytes open, up to and with their `{`; None where they aren't labels, the word `Pattern`,
/// one name and `{`. Or want of memory.
#[tactic(auto, unfolding(crate::specs::Parts::opened_in))]
pub fn opened_name(alloc: Global, text: &[u8]) -> Result<Option<Name>, NoMemory>
    requires size { length text.now < 2 ^ 32 }
    ensures value { IfOk result (λ name. name ≡ opened_in text.now) }
{
    let spans = stil_tokens(alloc, text)?;
    match opens_by(&behind_labels(&Stretch::of(text, &spans))) {
        Some(name) => Ok(Some(name.to_plain_name(alloc)?)),
        None => Ok(None),
    }
}

/// What is wrong with a statement outside a Pattern by what stands behind its labels.
fn passing_kind(tokens: &Stretch<'_, '_>) -> Option<Kind>
    ensures value { result ≡ passing_kind tokens.now }
{
    let mut rest = tokens.again();
    let Some(word) = rest.next() else {
        return Some(Kind::PatternSyntax);
    };
    if !is_word(word.text) || word.text == b"Pattern".as_slice() {
        return Some(Kind::PatternSyntax);
    }
    if word.text == b"Ann".as_slice() {
        None
    } else {
        Some(Kind::PatternUnsupported)
    }
}

/// What is wrong with a statement outside a Pattern.
#[tactic(auto, unfolding(crate::specs::Parts::passing_in))]
fn passing_in(alloc: Global, text: &[u8]) -> Result<Option<Kind>, NoMemory>
    requires size { length text.now < 2 ^ 32 }
    ensures value { IfOk result (λ kind. kind ≡ passing_in text.now) }
{
    let spans = stil_tokens(alloc, text)?;
    let tokens = Stretch::of(text, &spans);
    if !tokens.is_closed() || closes_nothing(&tokens) {
        return Ok(Some(Kind::PatternSyntax));
    }
    Ok(passing_kind(&behind_labels(&tokens)))
}

/// Whether bytes open a Pattern as they should.
fn opening_kind(alloc: Global, text: &[u8]) -> Result<Option<Kind>, NoMemory>
    requires size { length text.now < 2 ^ 32 }
    ensures value { IfOk result (λ kind. kind ≡ opening_kind (opened_in text.now)) }
{
    match opened_name(alloc, text)? {
        Some(_name) => Ok(None),
        None => Ok(Some(Kind::PatternSyntax)),
    }
}

/// What is wrong with a part of these bytes at a point of the text, if anything is: with a statement in a Pattern, with what
/// opens a Pattern, or with a statement outside, of which only `Ann` passes. Or want of memory.
#[tactic(auto, unfolding(crate::specs::Parts::judge_by))]
pub fn judge_part(
    alloc: Global,
    judging: Judging,
    head: &StilHead,
    point: Point,
    part: Part,
    text: &[u8],
) -> Result<Option<PartFault>, NoMemory>
    requires size { length text.now < 2 ^ 32 }
    requires room { point.line + length text.now < 2 ^ 64 }
    ensures value { IfOk result (λ found. found ≡ judge_by judging head.now point part text.now) }
{
    match part {
        Part::Whole(_len) => fault_by(alloc, judging, head, point.line, text),
        Part::Opens(_len) => Ok(fault_or(opening_kind(alloc, text)?, point.line, None)),
        Part::Passes(_len) => Ok(fault_or(passing_in(alloc, text)?, point.line, None)),
    }
}
