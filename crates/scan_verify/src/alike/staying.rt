//! The tokens of a head but for those that tell how a chain stands.
ghost use Rattle.std.specs.Prelude.{◌≡◌, ◌<◌, ◌^◌, ◌∷◌, [], length, MatchOption};
ghost use Rattle.head_alike.specs.Erased.{head_tokens};

use crate::alike::standing::{Standing, pass_token};
use std::marker::Model;
use stil_tokens::{Stil, stil_lexer};
use token_forms::{Lexeme, Lexer};

/// The tokens of a head's text one by one, but for those that stand between ScanLength, ScanInversion or ScanCells and its `;`
/// in ScanStructures (IEEE 1450-1999, ScanStructures). Contracts see the bytes of those that are still to come. Takes no memory.
#[derive(Drop)]
pub struct StayingTokens<'a> {
    tokens: Lexer<'a, Stil>,
    standing: Standing,
}

impl<'a> Model for StayingTokens<'a> {
    ghost use Rattle.std.specs.Prelude.{List, ℕ, ◌<◌, ◌+◌, ◌^◌, length};
    ghost use Rattle.token_forms.specs.Tokens.{tokens_left};
    ghost use Rattle.scan_verify.specs.Staying.{left, depth_of};

    ghost Value = { List (List ℕ) };

    ghost view = { λ s. left s.standing (tokens_left s.tokens) };

    ghost invariant = { λ s. depth_of s.standing + length s.tokens.spans < 2 ^ 64 };
}

impl<'a> StayingTokens<'a> {
    /// The tokens of the text of a head, of less than 4 GiB.
    pub fn of(text: &'a [u8]) -> StayingTokens<'a>
        requires small { length text.now < 2 ^ 32 }
        ensures value { result ≡ head_tokens text.now }
    {
        StayingTokens {
            tokens: stil_lexer(text),
            standing: Standing::Front,
        }
    }

    /// Takes the next token.
    pub fn next(&mut self) -> Option<Lexeme<'a>>
        ensures value { MatchOption result ((self.old ≡ []) × (self.new ≡ [])) (λ t. self.old ≡ t.text.now ∷ self.new) }
    {
        while let Some(token) = self.tokens.next() {
            let passed = pass_token(self.standing, token);
            self.standing = passed.behind;
            if passed.stays {
                return Some(token);
            }
        }
        None
    }
}
