//! The word Loop and what stands behind it.
ghost use Rattle.std.specs.Prelude.{◌≡◌, ◌<◌, ◌≤◌, ◌∷◌, [], length, MatchOption, IfSome, IfOk};
ghost use Rattle.std.specs.List.{list_all, list_any};
ghost use Rattle.token_forms.specs.Tokens.{Token};
ghost use Rattle.stil_tokens.specs.StilStatements.{stil_statements};
ghost use Rattle.stil_syntax.specs.Digits.{is_digit};
ghost use Rattle.stil_syntax.specs.Shapes.{is_scan_call, before_block, behind_brace, in_block, is_empty, body_statements, times_of, loop_times, loop_by, loop_shape};

use crate::callee::is_scan_call;
use crate::digits::{count_from, is_digit};
use crate::shape::{Shape, other_shape};
use crate::stretch::Stretch;
use base_types::NoMemory;
use std::alloc::Global;
use stil_types::StilHead;

/// How many tokens stand before the first `{`.
fn before_len(tokens: &Stretch<'_, '_>) -> usize
    ensures value { result ≡ length (before_block tokens.now) }
    ensures within { result ≤ length tokens.now }
{
    let most = tokens.len();
    let mut rest = tokens.again();
    let mut count = 0;
    while let Some(token) = rest.next() {
        if token.text == b"{".as_slice() {
            return count;
        }
        count += 1;
    }
    count
}

/// The tokens before the first `{`.
fn before_block<'a, 's>(tokens: &Stretch<'a, 's>) -> Stretch<'a, 's>
    ensures value { result ≡ before_block tokens.now }
{
    tokens.front(before_len(tokens))
}

/// The tokens behind the first `{`.
fn behind_brace<'a, 's>(tokens: &Stretch<'a, 's>) -> Stretch<'a, 's>
    ensures value { result ≡ behind_brace tokens.now }
{
    let mut rest = tokens.again();
    while let Some(token) = rest.next() {
        if token.text == b"{".as_slice() {
            return rest;
        }
    }
    rest
}

/// The tokens in the first block: all behind its `{` but the last.
pub fn in_block<'a, 's>(tokens: &Stretch<'a, 's>) -> Stretch<'a, 's>
    ensures value { result ≡ in_block tokens.now }
{
    let behind = behind_brace(tokens);
    behind.front(behind.len().saturating_sub(1))
}

/// Whether a scan call stands directly among some statements.
fn has_scan_call(alloc: Global, head: &StilHead, tokens: &Stretch<'_, '_>) -> Result<bool, NoMemory>
    ensures value { IfOk result (λ has. has ≡ list_any (is_scan_call head.now) (stil_statements tokens.now)) }
{
    let mut rest = tokens.again();
    while let Some(statement) = rest.statement() {
        if is_scan_call(alloc, head, &statement)? {
            return Ok(true);
        }
    }
    Ok(false)
}

fn are_digits(text: &[u8]) -> bool
    ensures { result ≡ list_all is_digit text.now }
{
    text.iter().all(|b| is_digit(*b))
}

fn times_of(text: &[u8]) -> Option<u32>
    ensures value { result ≡ times_of text.now }
{
    if !are_digits(text) {
        return None;
    }
    let number = count_from(text);
    if 1 <= number && number <= 1000000 {
        Some(number as u32)
    } else {
        None
    }
}

fn loop_times(tokens: &Stretch<'_, '_>) -> Option<u32>
    ensures value { result ≡ loop_times tokens.now }
{
    let mut rest = tokens.again();
    let first = rest.next()?;
    match rest.next() {
        Some(_more) => None,
        None => times_of(first.text),
    }
}

/// A Loop by its number and its block, outside the block of another.
pub(crate) fn loop_shape<'a, 's>(
    alloc: Global,
    head: &StilHead,
    tokens: &Stretch<'a, 's>,
) -> Result<Shape<'a, 's>, NoMemory>
    ensures value { IfOk result (λ s. s ≡ loop_shape head.now tokens.now) }
{
    let body = in_block(tokens);
    if !has_scan_call(alloc, head, &body)? {
        return other_shape(alloc, head, tokens);
    }
    match loop_times(&before_block(tokens)) {
        Some(times) => Ok(Shape::Loop(times, body)),
        None => Ok(Shape::Unsupported),
    }
}

/// Takes the next statement in a block that isn't empty.
pub fn body_statement<'a, 's>(tokens: &mut Stretch<'a, 's>) -> Option<Stretch<'a, 's>>
    ensures value { MatchOption result (body_statements tokens.old ≡ []) (λ s. body_statements tokens.old ≡ s ∷ body_statements tokens.new) }
    ensures shorter { IfSome result (λ s. length tokens.new < length tokens.old) }
{
    while let Some(statement) = tokens.statement() {
        if !is_empty(&statement) {
            return Some(statement);
        }
    }
    None
}

/// Whether a statement is a lone `;`.
fn is_empty(tokens: &Stretch<'_, '_>) -> bool
    ensures value { result ≡ is_empty tokens.now }
{
    let mut rest = tokens.again();
    match rest.next() {
        Some(token) => token.text == b";".as_slice(),
        None => true,
    }
}
