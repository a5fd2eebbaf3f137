//! What form a statement has.
ghost use Rattle.std.specs.Prelude.{◌≡◌, IfOk, true, false};
ghost use Rattle.base_types.specs.Names.{plain_name};
ghost use Rattle.token_forms.specs.Classes.{is_among};
ghost use Rattle.stil_types.specs.Callees.{is_known};
ghost use Rattle.stil_syntax.specs.Grammar.{call_end};
ghost use Rattle.stil_syntax.specs.Names.{name_at};
ghost use Rattle.stil_syntax.specs.Shapes.{other_words, passes_unread, other_shape, scan_shape, callee_shape, call_shape, loop_shape, word_shape, unlabelled_shape, shape_of};

use crate::callee::{callee_of, holds_scan, is_call};
use crate::item::Items;
use crate::labels::{behind_labels, closes_nothing};
use crate::loops::loop_shape;
use crate::stretch::Stretch;
use crate::words::is_word;
use base_types::{NoMemory, Stop, plain_name};
use std::alloc::Global;
use stil_types::StilHead;
use token_forms::{Parser, Read};

/// What a statement is, by its tokens and by the head.
#[derive(Drop)]
pub enum Shape<'a, 's> {
    /// It matches no form.
    NoForm,
    /// A form that isn't supported in a Pattern.
    Unsupported,
    /// It passes unread.
    Other,
    /// A scan call, with its items.
    Scan(Items),
    /// A Loop with a scan call directly in its block: how often it runs, and the tokens in the block.
    Loop(u32, Stretch<'a, 's>),
}

/// One of the words whose statements pass unread.
fn is_other_word(word: &[u8]) -> bool
    ensures value { result ≡ is_among other_words word.now }
{
    word == b"W".as_slice()
        || word == b"WaveformTable".as_slice()
        || word == b"V".as_slice()
        || word == b"Vector".as_slice()
        || word == b"C".as_slice()
        || word == b"Condition".as_slice()
        || word == b"F".as_slice()
        || word == b"Fixed".as_slice()
        || word == b"Ann".as_slice()
        || word == b"IddqTestPoint".as_slice()
        || word == b"IDDQTestPoint".as_slice()
        || word == b"BreakPoint".as_slice()
        || word == b"Stop".as_slice()
}

/// Whether the word is listed in a UserKeywords statement.
fn is_keyword(alloc: Global, head: &StilHead, word: &[u8]) -> Result<bool, NoMemory>
    ensures value { IfOk result (λ is. is ≡ is_known head.now.keywords (plain_name word.now)) }
{
    let plain = plain_name(alloc, word)?;
    Ok(head.keywords.has(plain.bytes()))
}

/// Such a word, or one listed in a UserKeywords statement.
fn passes_unread(alloc: Global, head: &StilHead, word: &[u8]) -> Result<bool, NoMemory>
    ensures value { IfOk result (λ passes. passes ≡ passes_unread head.now word.now) }
{
    if is_other_word(word) {
        return Ok(true);
    }
    is_keyword(alloc, head, word)
}

/// A statement that passes unread, unless it holds a scan call.
pub(crate) fn other_shape<'a, 's>(
    alloc: Global,
    head: &StilHead,
    tokens: &Stretch<'_, '_>,
) -> Result<Shape<'a, 's>, NoMemory>
    ensures value { IfOk result (λ s. s ≡ other_shape head.now tokens.now) }
{
    if holds_scan(alloc, head, tokens)? {
        Ok(Shape::Unsupported)
    } else {
        Ok(Shape::Other)
    }
}

/// A scan call by what stands behind its name.
fn scan_shape<'a, 's>(alloc: Global, tokens: &Stretch<'a, 's>) -> Result<Shape<'a, 's>, NoMemory>
    ensures value { IfOk result (λ s. s ≡ scan_shape (call_end.reads tokens.now)) }
{
    let mut parser = Parser {
        alloc,
        tokens: tokens.tokens(),
    };
    match Items::read(&mut parser) {
        Ok(items) => {
            if parser.tokens.is_empty() {
                Ok(Shape::Scan(items))
            } else {
                Ok(Shape::NoForm)
            }
        }
        Err(Stop::NoForm) => Ok(Shape::NoForm),
        Err(Stop::NoMemory) => Err(NoMemory),
    }
}

/// A Call or a Macro by what it names.
fn callee_shape<'a, 's>(
    alloc: Global,
    head: &StilHead,
    tokens: &Stretch<'a, 's>,
    scan: Option<bool>,
) -> Result<Shape<'a, 's>, NoMemory>
    ensures value { IfOk result (λ s. s ≡ callee_shape head.now tokens.now scan) }
{
    match scan {
        None => Ok(Shape::Unsupported),
        Some(true) => scan_shape(alloc, tokens),
        Some(false) => other_shape(alloc, head, tokens),
    }
}

/// A Call or a Macro.
fn call_shape<'a, 's>(
    alloc: Global,
    head: &StilHead,
    word: &[u8],
    tokens: &Stretch<'a, 's>,
) -> Result<Shape<'a, 's>, NoMemory>
    ensures value { IfOk result (λ s. s ≡ call_shape head.now word.now (name_at tokens.now)) }
{
    let mut rest = tokens.again();
    match rest.name() {
        Some(name) => {
            let scan = callee_of(alloc, head, word, &name)?;
            callee_shape(alloc, head, &rest, scan)
        }
        None => Ok(Shape::NoForm),
    }
}

/// A statement by its word and what stands behind it.
fn word_shape<'a, 's>(
    alloc: Global,
    head: &StilHead,
    inside: bool,
    word: &[u8],
    tokens: &Stretch<'a, 's>,
) -> Result<Shape<'a, 's>, NoMemory>
    ensures value { IfOk result (λ s. s ≡ word_shape head.now inside word.now tokens.now) }
{
    if is_call(word) {
        return call_shape(alloc, head, word, tokens);
    }
    if word == b"Loop".as_slice() {
        if inside {
            return other_shape(alloc, head, tokens);
        }
        return loop_shape(alloc, head, tokens);
    }
    if passes_unread(alloc, head, word)? {
        other_shape(alloc, head, tokens)
    } else {
        Ok(Shape::Unsupported)
    }
}

fn unlabelled_shape<'a, 's>(
    alloc: Global,
    head: &StilHead,
    inside: bool,
    tokens: &Stretch<'a, 's>,
) -> Result<Shape<'a, 's>, NoMemory>
    ensures value { IfOk result (λ s. s ≡ unlabelled_shape head.now inside tokens.now) }
{
    let mut rest = tokens.again();
    match rest.next() {
        Some(word) if is_word(word.text) => word_shape(alloc, head, inside, word.text, &rest),
        _ => Ok(Shape::NoForm),
    }
}

/// What a statement is; `inside` tells whether it stands in the block of a Loop.
#[tactic(auto, unfolding(crate::specs::Shapes::shape_of))]
pub fn shape_of<'a, 's>(
    alloc: Global,
    head: &StilHead,
    inside: bool,
    tokens: &Stretch<'a, 's>,
) -> Result<Shape<'a, 's>, NoMemory>
    ensures value { IfOk result (λ s. s ≡ shape_of head.now inside tokens.now) }
{
    if !tokens.is_closed() || closes_nothing(tokens) {
        return Ok(Shape::NoForm);
    }
    unlabelled_shape(alloc, head, inside, &behind_labels(tokens))
}
