//! The tokens of a Verilog text, one by one.
ghost use Rattle.std.specs.Prelude.{◌≡◌, ◌<◌, ◌^◌, length};
ghost use Rattle.verilog_syntax.specs.VerilogTokens.{piece_at, verilog_tokens};
ghost use Rattle.verilog_syntax.specs.VerilogSplit.{IsTokenSplit};

use crate::pieces::piece_at;
use token_forms::{Lexer, Piece, TokenForm};

/// The tokens of Verilog: identifiers, escaped identifiers with the blank behind them, decimals, constants, and every other
/// byte by itself. Blanks, comments, attributes and the five directives stand between them (IEEE 1364-2005, section 3).
pub struct Verilog {}

impl TokenForm for Verilog {
    ghost piece_at = { piece_at };

    #[inline(always)]
    fn piece(bytes: &[u8]) -> Piece {
        piece_at(bytes)
    }
}

/// The tokens of a Verilog text of less than 4 GiB.
pub fn verilog_lexer(text: &[u8]) -> Lexer<'_, Verilog>
    requires small { length text.now < 2 ^ 32 }
    // Each span is the longest token at its place, and only blanks stand around the spans.
    ensures split { IsTokenSplit text.now result.spans }
    ensures value { result ≡ record { source = text.now; spans = verilog_tokens text.now } }
{
    Lexer::of(text)
}
