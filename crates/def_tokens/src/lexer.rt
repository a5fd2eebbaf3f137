//! The tokens of a LEF or DEF text, one by one or all.
ghost use Rattle.std.specs.Prelude.{◌≡◌, ◌<◌, ◌^◌, length, IfOk};
ghost use Rattle.token_forms.specs.Tokens.{AreSpansOf};
ghost use Rattle.def_tokens.specs.DefSplit.{IsTokenSplit};
ghost use Rattle.def_tokens.specs.DefTokens.{piece_at, def_tokens};

use crate::pieces::piece_at;
use base_types::{NoMemory, Span};
use std::alloc::Global;
use token_forms::{Lexer, Piece, TokenForm, token_spans};

/// The tokens of LEF and DEF: longest runs of bytes that aren't blanks, of which a `;` behind is cut off, and texts in
/// quotes. Blanks and comments stand between them (LEF/DEF 5.8).
pub struct Def {}

impl TokenForm for Def {
    ghost piece_at = { piece_at };

    #[inline(always)]
    fn piece(bytes: &[u8]) -> Piece {
        piece_at(bytes)
    }
}

/// The tokens of a LEF or DEF text of less than 4 GiB.
pub fn def_lexer(text: &[u8]) -> Lexer<'_, Def>
    requires small { length text.now < 2 ^ 32 }
    // Each span is the token at its place, and only blanks and comments stand around the spans.
    ensures split { IsTokenSplit text.now result.spans }
    ensures value { result ≡ record { source = text.now; spans = def_tokens text.now } }
{
    Lexer::of(text)
}

/// The tokens of a LEF or DEF text of less than 4 GiB, or want of memory: longest runs of bytes that aren't blanks, of
/// which a `;` behind is a token of its own where no backslash stands before it, and texts in quotes. Comments from a `#`,
/// where a token would begin, to the line's end count as blanks (LEF/DEF 5.8). A token takes eight bytes of memory.
pub fn def_tokens(alloc: Global, text: &[u8]) -> Result<Vec<Span>, NoMemory>
    requires small { length text.now < 2 ^ 32 }
    // Each span is the token at its place, and only blanks and comments stand around the spans.
    ensures split { IfOk result (λ spans. IsTokenSplit text.now spans.items) }
    ensures value { IfOk result (λ spans. spans.items ≡ def_tokens text.now) }
    ensures within { IfOk result (λ spans. AreSpansOf text.now spans.items) }
{
    let mut spans = token_spans::<Def>(alloc, text)?;
    spans.shrink_to_fit();
    Ok(spans)
}
