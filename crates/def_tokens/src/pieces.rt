//! What stands at the front of a LEF or DEF text: blanks, a comment or a token.
ghost use Rattle.std.specs.Prelude.{◌≡◌, ◌+◌, ◌<◌, ◌≤◌, length};
ghost use Rattle.std.specs.List.{prefix_len};
ghost use Rattle.token_forms.specs.Pieces.{piece_len};
ghost use Rattle.def_tokens.specs.DefTokens.{is_blank, is_black, len_with, has_end, run_piece, piece_at};

use memchr::memchr;
use token_forms::Piece;

/// A space, a tab, a line feed or a carriage return.
#[inline(always)]
fn is_blank(b: u8) -> bool
    ensures value { result ≡ is_blank b }
{
    b == b' ' || b == b'\t' || b == b'\n' || b == b'\r'
}

#[inline(always)]
fn blank_len(bytes: &[u8]) -> usize
    ensures value { result ≡ prefix_len is_blank bytes.now }
    ensures within { result ≤ length bytes.now }
{
    bytes.iter().take_while(|b| is_blank(**b)).count()
}

#[inline(always)]
fn black_len(bytes: &[u8]) -> usize
    ensures value { result ≡ prefix_len is_black bytes.now }
    ensures within { result ≤ length bytes.now }
{
    bytes.iter().take_while(|b| !is_blank(**b)).count()
}

/// The bytes up to and with the first such one; all where there is none.
fn len_with(byte: u8, bytes: &[u8]) -> usize
    ensures value { result ≡ len_with byte bytes.now }
    ensures within { result ≤ length bytes.now }
{
    match memchr(byte, bytes) {
        Some(before) => before + 1,
        None => bytes.len(),
    }
}

/// Whether a run ends with a semicolon that is a token of its own.
#[inline(always)]
fn has_end(run: &[u8]) -> bool
    ensures value { result ≡ has_end run.now }
{
    match run {
        [.., before, b';'] => *before != b'\\',
        _ => false,
    }
}

#[inline(always)]
#[tactic(auto, unfolding(crate::specs::DefTokens::piece_at))]
pub(crate) fn piece_at(bytes: &[u8]) -> Piece
    ensures value { result ≡ piece_at bytes.now }
    ensures some { 0 < length bytes.now → 0 < piece_len result }
    ensures within { piece_len result ≤ length bytes.now }
{
    match bytes {
        [] => Piece::Blank(0),
        [b, after @ ..] if is_blank(*b) => Piece::Blank(1 + blank_len(after)),
        [b'#', comment @ ..] => Piece::Blank(1 + len_with(b'\n', comment)),
        [b'"', text @ ..] => Piece::Token(1 + len_with(b'"', text)),
        [_, after @ ..] => run_piece(bytes, black_len(after)),
    }
}

/// The token that a run of so many bytes behind the first gives.
#[inline(always)]
fn run_piece(bytes: &[u8], len: usize) -> Piece
    requires within { len < length bytes.now }
    ensures value { result ≡ run_piece bytes.now len }
    ensures some { 0 < piece_len result }
    ensures short { piece_len result ≤ len + 1 }
{
    if has_end(&bytes[..len + 1]) {
        Piece::Token(len)
    } else {
        Piece::Token(len + 1)
    }
}
