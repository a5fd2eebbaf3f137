//! The statements in a ScanChain.
ghost use Rattle.std.specs.Prelude.{◌≡◌, if◌then◌else◌, IfOk};
ghost use Rattle.std.specs.List.{list_all};
ghost use Rattle.stil_syntax.specs.Digits.{is_digit};
ghost use Rattle.stil_blocks.specs.declared.clause.Clause.TheVariants.{In, Out, Cells};
ghost use Rattle.stil_blocks.specs.Statements.{token_at};
ghost use Rattle.stil_blocks.specs.Chains.{length_of, length_at, port_at, bit_of, inversion_at, further_clause, word_clause, unlabelled_clause, clause_of, clause_by, cells_at};

use crate::block::{is_end, is_whole};
use crate::cells::{CellList, cells_at};
use base_types::{Name, NoMemory, Span, plain_name};
use std::alloc::Global;
use stil_syntax::{Stretch, behind_labels, count_from, is_digit};
use token_forms::Lexeme;

/// What a statement in a ScanChain says.
#[derive(Drop)]
pub enum Clause {
    /// ScanLength, and where its number stands.
    Length(u32, Span),
    /// ScanIn.
    In(Name),
    /// ScanOut.
    Out(Name),
    /// ScanInversion, and where its number stands.
    Inversion(bool, Span),
    /// ScanCells, and the place between the word and the `;`.
    Cells(CellList, Span),
    /// ScanOutLength.
    OutLength,
    /// Another statement.
    Passed,
    /// It is not of the form of its word.
    NoForm,
}

/// Whether all bytes are digits.
fn are_digits(text: &[u8]) -> bool
    ensures value { result ≡ list_all is_digit text.now }
{
    text.iter().all(|b| is_digit(*b))
}

/// The number that digits write, from 1; one beyond 32 bits is the greatest of these.
fn length_of(text: &[u8]) -> Option<u32>
    ensures value { result ≡ length_of text.now }
{
    if !are_digits(text) {
        return None;
    }
    let number = count_from(text);
    if number < 1 {
        return None;
    }
    Some(number.min(u64::from(u32::MAX)) as u32)
}

/// `n ;`
fn length_at(tokens: &Stretch<'_, '_>) -> Option<(u32, Span)>
    ensures value { result ≡ length_at tokens.now }
{
    let mut rest = tokens.again();
    let token = rest.next()?;
    if !is_end(&rest) {
        return None;
    }
    let number = length_of(token.text)?;
    Some((number, token.span))
}

/// `name ;`
fn port_at(alloc: Global, tokens: &Stretch<'_, '_>) -> Result<Option<Name>, NoMemory>
    ensures value { IfOk result (λ port. port ≡ port_at tokens.now) }
{
    let mut rest = tokens.again();
    match rest.name() {
        Some(name) if is_end(&rest) => {
            let port = plain_name(alloc, name.to_name(alloc)?.bytes())?;
            Ok(Some(port))
        }
        _ => Ok(None),
    }
}

/// `0` or `1`.
fn bit_of(text: &[u8]) -> Option<bool>
    ensures value { result ≡ bit_of text.now }
{
    if text == b"0".as_slice() {
        Some(false)
    } else if text == b"1".as_slice() {
        Some(true)
    } else {
        None
    }
}

/// `0 ;` or `1 ;`
fn inversion_at(tokens: &Stretch<'_, '_>) -> Option<(bool, Span)>
    ensures value { result ≡ inversion_at tokens.now }
{
    let mut rest = tokens.again();
    let token = rest.next()?;
    if !is_end(&rest) {
        return None;
    }
    let bit = bit_of(token.text)?;
    Some((bit, token.span))
}

/// What stands behind `ScanCells`.
fn cells_clause(
    alloc: Global,
    word: &Lexeme<'_>,
    rest: &Stretch<'_, '_>,
) -> Result<Clause, NoMemory>
    ensures value { IfOk result (λ c. c ≡ clause_by (λ l. Cells l.0 (record { start = word.now.span.end; end = l.1 })) (cells_at rest.now)) }
{
    match cells_at(alloc, rest)? {
        Some((list, end)) => {
            let start = word.span.end;
            Ok(Clause::Cells(list, Span { start, end }))
        }
        None => Ok(Clause::NoForm),
    }
}

/// A statement that may be missing, by its word and what stands behind it.
fn further_clause(
    alloc: Global,
    word: &Lexeme<'_>,
    rest: &Stretch<'_, '_>,
) -> Result<Clause, NoMemory>
    ensures value { IfOk result (λ c. c ≡ further_clause (token_at word.now.text.now word.now.span) rest.now) }
{
    if word.text == b"ScanInversion".as_slice() {
        return Ok(match inversion_at(rest) {
            Some((bit, at)) => Clause::Inversion(bit, at),
            None => Clause::NoForm,
        });
    }
    if word.text == b"ScanCells".as_slice() {
        return cells_clause(alloc, word, rest);
    }
    if word.text == b"ScanOutLength".as_slice() {
        return Ok(Clause::OutLength);
    }
    Ok(Clause::Passed)
}

/// A port's name, as a statement that a word makes of it.
fn port_clause(alloc: Global, is_input: bool, rest: &Stretch<'_, '_>) -> Result<Clause, NoMemory>
    ensures value { IfOk result (λ c. c ≡ clause_by (λ port. if is_input then In port else Out port) (port_at rest.now)) }
{
    match port_at(alloc, rest)? {
        Some(port) if is_input => Ok(Clause::In(port)),
        Some(port) => Ok(Clause::Out(port)),
        None => Ok(Clause::NoForm),
    }
}

/// A statement by its word and what stands behind it.
fn word_clause(alloc: Global, word: &Lexeme<'_>, rest: &Stretch<'_, '_>) -> Result<Clause, NoMemory>
    ensures value { IfOk result (λ c. c ≡ word_clause (token_at word.now.text.now word.now.span) rest.now) }
{
    if word.text == b"ScanLength".as_slice() {
        return Ok(match length_at(rest) {
            Some((number, at)) => Clause::Length(number, at),
            None => Clause::NoForm,
        });
    }
    if word.text == b"ScanIn".as_slice() {
        return port_clause(alloc, true, rest);
    }
    if word.text == b"ScanOut".as_slice() {
        return port_clause(alloc, false, rest);
    }
    further_clause(alloc, word, rest)
}

/// A statement by what stands behind its labels.
fn unlabelled_clause(alloc: Global, tokens: &Stretch<'_, '_>) -> Result<Clause, NoMemory>
    ensures value { IfOk result (λ c. c ≡ unlabelled_clause tokens.now) }
{
    let mut rest = tokens.again();
    match rest.next() {
        Some(word) => word_clause(alloc, &word, &rest),
        None => Ok(Clause::Passed),
    }
}

/// What a statement in a ScanChain says.
#[tactic(auto, unfolding(crate::specs::Chains::clause_of))]
pub(crate) fn clause_of(alloc: Global, s: &Stretch<'_, '_>) -> Result<Clause, NoMemory>
    ensures value { IfOk result (λ c. c ≡ clause_of s.now) }
{
    if is_whole(s) {
        unlabelled_clause(alloc, &behind_labels(s))
    } else {
        Ok(Clause::NoForm)
    }
}
