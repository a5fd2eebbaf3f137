//! The tokens of a STIL text, one by one or all.
ghost use Rattle.std.specs.Prelude.{◌≡◌, ◌<◌, ◌^◌, length, IfOk};
ghost use Rattle.token_forms.specs.Tokens.{AreSpansOf};
ghost use Rattle.stil_tokens.specs.StilSplit.{IsTokenSplit};
ghost use Rattle.stil_tokens.specs.StilTokens.{piece_at, stil_tokens};

use crate::pieces::piece_at;
use base_types::{NoMemory, Span};
use std::alloc::Global;
use token_forms::{Lexer, Piece, TokenForm, token_spans};

/// The tokens of STIL: texts in `"` or `'`, annotations `{* *}`, the marks `{ } ; = : !`, and longest runs of other bytes.
/// Blanks and comments stand between them (IEEE 1450-1999, clause 6).
pub struct Stil {}

impl TokenForm for Stil {
    ghost piece_at = { piece_at };

    #[inline(always)]
    fn piece(bytes: &[u8]) -> Piece {
        piece_at(bytes)
    }
}

/// The tokens of a STIL text of less than 4 GiB.
pub fn stil_lexer(text: &[u8]) -> Lexer<'_, Stil>
    requires small { length text.now < 2 ^ 32 }
    // Each span is the token at its place, and only blanks and comments stand around the spans.
    ensures split { IsTokenSplit text.now result.spans }
    ensures value { result ≡ record { source = text.now; spans = stil_tokens text.now } }
{
    Lexer::of(text)
}

/// The tokens of a STIL text of less than 4 GiB, or want of memory: texts in `"` or `'`, annotations `{* *}`, the marks
/// `{ } ; = : !`, and longest runs of other bytes than blanks, quotes and marks. Comments `//` and `/* */` that begin where
/// a token would begin count as blanks. A comment, text or annotation without its end runs to the end of the text
/// (IEEE 1450-1999, clause 6). A token takes eight bytes of memory.
pub fn stil_tokens(alloc: Global, bytes: &[u8]) -> Result<Vec<Span>, NoMemory>
    requires small { length bytes.now < 2 ^ 32 }
    // Each span is the token at its place, and only blanks and comments stand around the spans.
    ensures split { IfOk result (λ spans. IsTokenSplit bytes.now spans.items) }
    ensures value { IfOk result (λ spans. spans.items ≡ stil_tokens bytes.now) }
    ensures within { IfOk result (λ spans. AreSpansOf bytes.now spans.items) }
{
    let mut spans = token_spans::<Stil>(alloc, bytes)?;
    spans.shrink_to_fit();
    Ok(spans)
}
