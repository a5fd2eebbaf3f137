//! What stands at the front of a STIL text: a blank, a comment or a token.
ghost use Rattle.std.specs.Prelude.{◌≡◌, ◌+◌, ◌<◌, ◌≤◌, false, length};
ghost use Rattle.token_forms.specs.Pieces.{piece_len};
ghost use Rattle.stil_tokens.specs.StilTokens.{quoted_len, closed_len, line_len, brace_piece, slash_piece, piece_at};

use crate::bytes::{is_blank, is_mark, is_quote, run_len};
use memchr::memchr;
use token_forms::Piece;

fn line_len(bytes: &[u8]) -> usize
    ensures value { result ≡ line_len bytes.now }
    ensures within { result ≤ length bytes.now }
{
    bytes.iter().take_while(|b| **b != b'\n').count()
}

/// The bytes up to and with the next such quote; all where there is none.
fn quoted_len(quote: u8, bytes: &[u8]) -> usize
    ensures value { result ≡ quoted_len quote bytes.now }
    ensures within { result ≤ length bytes.now }
{
    match memchr(quote, bytes) {
        Some(before) => before + 1,
        None => bytes.len(),
    }
}

/// The bytes up to and with the first such byte behind a `*`; all where there is none.
fn closed_len(closing: u8, bytes: &[u8]) -> usize
    ensures value { result ≡ closed_len closing false bytes.now }
    ensures within { result ≤ length bytes.now }
{
    let mut star = false;
    let mut at = 0;
    while at < bytes.len() {
        let b = bytes[at];
        at += 1;
        if star && b == closing {
            return at;
        }
        star = b == b'*';
    }
    at
}

/// At an opening brace: an annotation, or the mark.
#[tactic(auto, unfolding(crate::specs::StilTokens::brace_piece))]
fn brace_piece(after: &[u8]) -> Piece
    ensures value { result ≡ brace_piece after.now }
    ensures some { 0 < piece_len result }
    ensures within { piece_len result ≤ 1 + length after.now }
{
    match after {
        [b'*', note @ ..] => Piece::Token(2 + closed_len(b'}', note)),
        _ => Piece::Token(1),
    }
}

/// At a slash: a comment, or a run.
#[tactic(auto, unfolding(crate::specs::StilTokens::slash_piece))]
fn slash_piece(after: &[u8]) -> Piece
    ensures value { result ≡ slash_piece after.now }
    ensures some { 0 < piece_len result }
    ensures within { piece_len result ≤ 1 + length after.now }
{
    match after {
        [] => Piece::Token(1),
        [b'/', comment @ ..] => Piece::Blank(2 + line_len(comment)),
        [b'*', comment @ ..] => Piece::Blank(2 + closed_len(b'/', comment)),
        _ => Piece::Token(1 + run_len(after)),
    }
}

#[inline(always)]
#[tactic(auto, unfolding(crate::specs::StilTokens::piece_at))]
pub(crate) fn piece_at(bytes: &[u8]) -> Piece
    ensures value { result ≡ piece_at bytes.now }
    ensures some { 0 < length bytes.now → 0 < piece_len result }
    ensures within { piece_len result ≤ length bytes.now }
{
    match bytes {
        [] => Piece::Blank(0),
        [b, ..] if is_blank(*b) => Piece::Blank(1),
        [b, after @ ..] if is_quote(*b) => Piece::Token(1 + quoted_len(*b, after)),
        [b'{', after @ ..] => brace_piece(after),
        [b, ..] if is_mark(*b) => Piece::Token(1),
        [b'/', after @ ..] => slash_piece(after),
        [_, after @ ..] => Piece::Token(1 + run_len(after)),
    }
}
