//! Tokens of a text that stand one behind the other.
ghost use Rattle.std.specs.Prelude.{◌≡◌, ◌≤◌, ◌==◌, length, take, drop};
ghost use Rattle.token_forms.specs.Tokens.{tokens_of, AreSpansOf};
ghost use Rattle.lef_pins.specs.Statements.{text_at, start_of};

use base_types::Span;
use std::marker::Model;
use token_forms::Tokens;

/// Some tokens of a text, which contracts see as their list.
#[derive(Drop)]
pub(crate) struct Stretch<'a, 's> {
    text: &'a [u8],
    spans: &'s [Span],
}

impl<'a, 's> Model for Stretch<'a, 's> {
    ghost use Rattle.std.specs.Prelude.{List};
    ghost use Rattle.token_forms.specs.Tokens.{Token, tokens_of, AreSpansOf};

    ghost Value = { List Token };

    ghost view = { λ t. tokens_of t.text.now t.spans.now };

    ghost invariant = { λ t. AreSpansOf t.text.now t.spans.now };
}

impl<'a, 's> Stretch<'a, 's> {
    /// The tokens at these spans of a text.
    pub(crate) fn of(text: &'a [u8], spans: &'s [Span]) -> Stretch<'a, 's>
        requires within { AreSpansOf text.now spans.now }
        ensures value { result ≡ tokens_of text.now spans.now }
    {
        Stretch { text, spans }
    }

    /// The same tokens, to be gone through.
    pub(crate) fn tokens(&self) -> Tokens<'a, 's>
        ensures value { result ≡ self.now }
    {
        Tokens::of(self.text, self.spans)
    }

    /// How many tokens they are.
    pub(crate) fn len(&self) -> usize
        ensures value { result ≡ length self.now }
    {
        self.spans.len()
    }

    /// The text of a token, counted from 0; no bytes where there is none.
    pub(crate) fn text(&self, at: usize) -> &'a [u8]
        ensures value { result.now ≡ text_at self.now at }
    {
        match self.spans.get(at) {
            Some(span) => &self.text[span.start as usize..span.end as usize],
            None => b"",
        }
    }

    /// Where the first token begins; 0 where there is none.
    pub(crate) fn start(&self) -> u32
        ensures value { result ≡ start_of self.now }
    {
        match self.spans.first() {
            Some(span) => span.start,
            None => 0,
        }
    }

    /// Takes so many tokens from the front.
    pub(crate) fn take(&mut self, count: usize) -> Stretch<'a, 's>
        requires within { count ≤ length self.old }
        ensures value { result ≡ take count self.old }
        ensures behind { self.new ≡ drop count self.old }
    {
        let (front, behind) = self.spans.split_at(count);
        self.spans = behind;
        Stretch {
            text: self.text,
            spans: front,
        }
    }

    /// Leaves out so many tokens at the front, or all.
    #[tactic(auto, using(std::proofs::lemmas::List::drop_min))]
    pub(crate) fn skip(&mut self, count: usize)
        ensures behind { self.new ≡ drop count self.old }
    {
        let (_front, behind) = self.spans.split_at(count.min(self.spans.len()));
        self.spans = behind;
    }
}
