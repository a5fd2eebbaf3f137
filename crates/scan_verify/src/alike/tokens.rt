//! Texts with equal tokens.
ghost use Rattle.std.specs.Prelude.{◌≡◌, ◌↔◌, ◌<◌, ◌^◌, length, IsTrue};
ghost use Rattle.token_forms.specs.Tokens.{tokens_left};
ghost use Rattle.token_forms.specs.Parts.{token_texts};
ghost use Rattle.stil_written.specs.Readings.{reading};

use stil_tokens::{Stil, stil_lexer};
use token_forms::Lexer;

/// Whether the tokens that are still to come are equal.
fn are_equal(mut a: Lexer<'_, Stil>, mut b: Lexer<'_, Stil>) -> bool
    ensures value { IsTrue result ↔ token_texts (tokens_left a.entry) ≡ token_texts (tokens_left b.entry) }
{
    while let Some(token) = a.next() {
        let Some(other) = b.next() else {
            return false;
        };
        if token.text != other.text {
            return false;
        }
    }
    b.next().is_none()
}

/// Whether two statements of less than 4 GiB have equal tokens (IEEE 1450-1999, clause 6). Takes no memory.
pub fn have_same_tokens(a: &[u8], b: &[u8]) -> bool
    requires first { length a.now < 2 ^ 32 }
    requires second { length b.now < 2 ^ 32 }
    ensures value { IsTrue result ↔ reading.tokens a.now ≡ reading.tokens b.now }
{
    are_equal(stil_lexer(a), stil_lexer(b))
}
