//! Tokens one behind the other in a text.
ghost use Rattle.std.specs.Prelude.{◌≡◌, ◌-◌, ◌≤◌, ◌<◌, ◌∷◌, [], length, take, drop, MatchOption, IfSome, Some, None};
ghost use Rattle.token_forms.specs.Tokens.{tokens_of, place_of, AreSpansOf};
ghost use Rattle.stil_tokens.specs.StilStatements.{is_closed, stil_statements};
ghost use Rattle.stil_syntax.specs.Names.{name_at};

use crate::name::{NameText, name_at};
use base_types::Span;
use std::marker::Model;
use stil_tokens::{is_closed, statement_law, statement_len};
use token_forms::{Lexeme, Tokens};

/// The tokens at some spans of a text, which contracts see as their list.
#[derive(Drop)]
pub struct Stretch<'a, 's> {
    text: &'a [u8],
    spans: &'s [Span],
}

impl<'a, 's> Model for Stretch<'a, 's> {
    ghost use Rattle.std.specs.Prelude.{List};
    ghost use Rattle.token_forms.specs.Tokens.{Token, tokens_of, AreSpansOf};

    ghost Value = { List Token };

    ghost view = { λ s. tokens_of s.text.now s.spans.now };

    ghost invariant = { λ s. AreSpansOf s.text.now s.spans.now };
}

impl<'a, 's> Stretch<'a, 's> {
    /// The tokens at these spans.
    pub fn of(text: &'a [u8], spans: &'s [Span]) -> Stretch<'a, 's>
        requires within { AreSpansOf text.now spans.now }
        ensures value { result ≡ tokens_of text.now spans.now }
    {
        Stretch { text, spans }
    }

    /// The same tokens once more.
    pub fn again(&self) -> Stretch<'a, 's>
        ensures value { result ≡ self.now }
    {
        Stretch {
            text: self.text,
            spans: self.spans,
        }
    }

    /// The same tokens, to be read.
    pub(crate) fn tokens(&self) -> Tokens<'a, 's>
        ensures value { result ≡ self.now }
    {
        Tokens::of(self.text, self.spans)
    }

    /// How many there are.
    pub fn len(&self) -> usize
        ensures value { result ≡ length self.now }
    {
        self.spans.len()
    }

    /// The first so many.
    pub(crate) fn front(&self, count: usize) -> Stretch<'a, 's>
        requires within { count ≤ length self.now }
        ensures value { result ≡ take count self.now }
    {
        Stretch {
            text: self.text,
            spans: &self.spans[..count],
        }
    }

    /// All but the first so many.
    pub(crate) fn behind(&self, count: usize) -> Stretch<'a, 's>
        requires within { count ≤ length self.now }
        ensures value { result ≡ drop count self.now }
    {
        let (_front, behind) = self.spans.split_at(count);
        Stretch {
            text: self.text,
            spans: behind,
        }
    }

    /// From the first to the last of them.
    pub fn place(&self) -> Span
        ensures value { result ≡ place_of self.now }
    {
        self.tokens().place_before(0)
    }

    /// Takes the first.
    pub fn next(&mut self) -> Option<Lexeme<'a>>
        ensures value { MatchOption result ((self.old ≡ []) × (self.new ≡ []))
            (λ t. self.old ≡ record { text = t.text.now; start = t.span.start; end = t.span.end } ∷ self.new) }
    {
        let (span, rest) = self.spans.split_first()?;
        self.spans = rest;
        let text = &self.text[span.start as usize..span.end as usize];
        Some(Lexeme { text, span: *span })
    }

    /// Takes the name at the front. Where none stands there, the tokens are as before.
    pub fn name(&mut self) -> Option<NameText<'a>>
        ensures value { MatchOption result (name_at self.old ≡ None) (λ n. name_at self.old ≡ Some (n, self.new)) }
        ensures shorter { IfSome result (λ n. length self.new < length self.old) }
    {
        let mut tokens = self.tokens();
        let name = name_at(&mut tokens)?;
        *self = self.behind(self.len() - tokens.len());
        Some(name)
    }

    /// Whether a statement of these tokens has its end.
    pub fn is_closed(&self) -> bool
        ensures value { result ≡ is_closed self.now }
    {
        is_closed(&self.tokens())
    }

    /// Takes the first statement.
    pub(crate) fn statement(&mut self) -> Option<Stretch<'a, 's>>
        ensures value { MatchOption result (stil_statements self.old ≡ []) (λ s. stil_statements self.old ≡ s ∷ stil_statements self.new) }
        ensures shorter { IfSome result (λ s. length self.new < length self.old) }
    {
        statement_law();
        let len = statement_len(&self.tokens());
        if len == 0 {
            return None;
        }
        let first = self.front(len);
        *self = self.behind(len);
        Some(first)
    }
}
