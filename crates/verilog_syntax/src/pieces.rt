ghost use Rattle.std.specs.Prelude.{◌≡◌, ◌+◌, ◌<◌, ◌≤◌, ◌^◌, not, length, IfOk};
ghost use Rattle.std.specs.List.{prefix_len};
ghost use Rattle.token_forms.specs.Pieces.{piece_len};
ghost use Rattle.token_forms.specs.Tokens.{AreSpansOf};
ghost use Rattle.verilog_syntax.specs.VerilogSplit.{IsTokenSplit};
ghost use Rattle.verilog_syntax.specs.VerilogTokens.{is_blank, is_digit, is_word_start, is_word, closed_len, line_len, is_directive, number_len, slash_piece, open_piece, tick_piece, escaped_piece, piece_at, verilog_tokens};

use crate::bytes::{is_blank, is_digit, is_word, is_word_start};
use crate::lexer::Verilog;
use crate::number::number_len;
use base_types::{NoMemory, Span};
use std::alloc::Global;
use token_forms::{Piece, token_spans};

fn is_directive(word: &[u8]) -> bool
    ensures { result ≡ is_directive word.now }
{
    word == b"timescale".as_slice()
        || word == b"celldefine".as_slice()
        || word == b"endcelldefine".as_slice()
        || word == b"default_nettype".as_slice()
        || word == b"resetall".as_slice()
}

fn blank_len(bytes: &[u8]) -> usize
    ensures value { result ≡ prefix_len is_blank bytes.now }
    ensures within { result ≤ length bytes.now }
{
    bytes.iter().take_while(|b| is_blank(**b)).count()
}

fn word_len(bytes: &[u8]) -> usize
    ensures value { result ≡ prefix_len is_word bytes.now }
    ensures within { result ≤ length bytes.now }
{
    bytes.iter().take_while(|b| is_word(**b)).count()
}

fn line_len(bytes: &[u8]) -> usize
    ensures value { result ≡ line_len bytes.now }
    ensures within { result ≤ length bytes.now }
{
    bytes.iter().take_while(|b| **b != b'\n').count()
}

fn name_len(bytes: &[u8]) -> usize
    ensures value { result ≡ prefix_len (λ c. not (is_blank c)) bytes.now }
    ensures within { result ≤ length bytes.now }
{
    bytes.iter().take_while(|b| !is_blank(**b)).count()
}

/// The bytes up to and with the first `*` before this byte; all where there is none.
fn closed_len(closing: u8, bytes: &[u8]) -> usize
    ensures value { result ≡ closed_len closing bytes.now }
    ensures within { result ≤ length bytes.now }
{
    let mut n = 0;
    while n + 1 < bytes.len() {
        if bytes[n] == b'*' && bytes[n + 1] == closing {
            return n + 2;
        }
        n += 1;
    }
    bytes.len()
}

#[tactic(auto, unfolding(crate::specs::VerilogTokens::slash_piece))]
fn slash_piece(after: &[u8]) -> Piece
    ensures value { result ≡ slash_piece after.now }
    ensures some { 0 < piece_len result }
    ensures within { piece_len result ≤ 1 + length after.now }
{
    match after {
        [b'/', comment @ ..] => Piece::Blank(2 + line_len(comment)),
        [b'*', comment @ ..] => Piece::Blank(2 + closed_len(b'/', comment)),
        _ => Piece::Token(1),
    }
}

#[tactic(auto, unfolding(crate::specs::VerilogTokens::open_piece))]
fn open_piece(after: &[u8]) -> Piece
    ensures value { result ≡ open_piece after.now }
    ensures some { 0 < piece_len result }
    ensures within { piece_len result ≤ 1 + length after.now }
{
    match after {
        [b'*', attribute @ ..] => Piece::Blank(2 + closed_len(b')', attribute)),
        _ => Piece::Token(1),
    }
}

#[tactic(auto, unfolding(crate::specs::VerilogTokens::tick_piece))]
fn tick_piece(after: &[u8]) -> Piece
    ensures value { result ≡ tick_piece after.now }
    ensures some { 0 < piece_len result }
    ensures within { piece_len result ≤ 1 + length after.now }
{
    let (word, rest) = after.split_at(word_len(after));
    if is_directive(word) {
        Piece::Blank(1 + (word.len() + line_len(rest)))
    } else {
        Piece::Token(1)
    }
}

#[tactic(auto, unfolding(crate::specs::VerilogTokens::escaped_piece))]
fn escaped_piece(after: &[u8]) -> Piece
    ensures value { result ≡ escaped_piece after.now }
    ensures some { 0 < piece_len result }
    ensures within { piece_len result ≤ 1 + length after.now }
{
    match name_len(after) {
        0 => Piece::Token(1),
        n => Piece::Token(1 + after.len().min(n + 1)),
    }
}

#[inline(always)]
#[tactic(auto, unfolding(crate::specs::VerilogTokens::piece_at))]
pub(crate) fn piece_at(bytes: &[u8]) -> Piece
    ensures value { result ≡ piece_at bytes.now }
    ensures some { 0 < length bytes.now → 0 < piece_len result }
    ensures within { piece_len result ≤ length bytes.now }
{
    match bytes {
        [] => Piece::Blank(0),
        [b, after @ ..] if is_blank(*b) => Piece::Blank(1 + blank_len(after)),
        [b, after @ ..] if is_word_start(*b) => Piece::Token(1 + word_len(after)),
        [b, after @ ..] if is_digit(*b) => Piece::Token(1 + number_len(after)),
        [b'\\', after @ ..] => escaped_piece(after),
        [b'/', after @ ..] => slash_piece(after),
        [b'(', after @ ..] => open_piece(after),
        [b'`', after @ ..] => tick_piece(after),
        _ => Piece::Token(1),
    }
}

/// The tokens of a Verilog text of less than 4 GiB, or want of memory: identifiers, escaped identifiers with the blank
/// behind them, decimals, constants, and every other byte by itself. Blanks, comments, attributes and the five
/// directives stand between them (IEEE 1364-2005, section 3). A token takes nine bytes of memory.
pub fn verilog_tokens(alloc: Global, bytes: &[u8]) -> Result<Vec<Span>, NoMemory>
    requires { length bytes.now < 2 ^ 32 }
    // Each span is the longest token at its place, and only blanks stand around the spans.
    ensures split { IfOk result (λ spans. IsTokenSplit bytes.now spans.items) }
    ensures value { IfOk result (λ spans. spans.items ≡ verilog_tokens bytes.now) }
    ensures within { IfOk result (λ spans. AreSpansOf bytes.now spans.items) }
{
    token_spans::<Verilog>(alloc, bytes)
}
