//! What a text gives data to, by its tokens.
ghost use Rattle.std.specs.Prelude.{◌<◌, ◌≤◌, ◌^◌, length, IfSome};

use stil_tokens::{Stil, stil_lexer};
use token_forms::{Lexeme, Lexer};

/// An expression of signals to which data are given, as in `expression = data ;`.
#[derive(Clone, Copy)]
pub(crate) struct Given<'a> {
    pub(crate) expression: &'a [u8],
    /// The place of its first byte.
    pub(crate) start: usize,
    pub(crate) data: &'a [u8],
    /// Whether anything is compared: data of `X` alone compare nothing.
    pub(crate) compared: bool,
}

/// Takes what a text gives data to, one after the other, in whatever block it stands.
#[derive(Drop)]
pub(crate) struct Givens<'a> {
    text: &'a [u8],
    lexer: Lexer<'a, Stil>,
}

/// Whether a token of data compares nothing: it is of `X` alone, or a repeat of it.
fn is_masked(token: &[u8]) -> bool {
    let mut in_repeat = false;
    for b in token {
        in_repeat = match *b {
            b'\\' => true,
            b'r' | b'0'..=b'9' => in_repeat,
            _ => false,
        };
        if !in_repeat && *b != b'X' {
            return false;
        }
    }
    true
}

/// Whether data end with this token.
fn ends_data(token: &[u8]) -> bool {
    match token {
        [b';'] | [b'{'] | [b'}'] => true,
        _ => false,
    }
}

/// Where the name begins that ends with the second of two tokens: with the first, where that is in quotes and the second follows it
/// without a blank.
fn name_start(first: Option<Lexeme<'_>>, second: &Lexeme<'_>) -> usize {
    match first {
        Some(first) => {
            if first.text.first() == Some(&b'"') && first.span.end == second.span.start {
                first.span.start as usize
            } else {
                second.span.start as usize
            }
        }
        None => second.span.start as usize,
    }
}

/// The bytes between two places of a text.
fn between(text: &[u8], start: usize, end: usize) -> &[u8] {
    match text.get(start..end) {
        Some(bytes) => bytes,
        None => b"",
    }
}

impl<'a> Givens<'a> {
    /// What a text of less than 4 GiB gives data to.
    pub(crate) fn of(text: &'a [u8]) -> Givens<'a>
        requires small { length text.now < 2 ^ 32 }
    {
        Givens {
            text,
            lexer: stil_lexer(text),
        }
    }

    /// The data behind an `=`, up to their end.
    fn given(&mut self, start: usize, equals: &Lexeme<'_>) -> Given<'a>
        ensures left { length self.new.lexer.spans ≤ length self.old.lexer.spans }
    {
        let mut end = equals.span.end as usize;
        let mut compared = false;
        while let Some(token) = self.lexer.next() {
            if ends_data(token.text) {
                break;
            }
            end = token.span.end as usize;
            compared = compared || !is_masked(token.text);
        }
        Given {
            expression: between(self.text, start, equals.span.start as usize),
            start,
            data: between(self.text, equals.span.end as usize, end),
            compared,
        }
    }

    pub(crate) fn next(&mut self) -> Option<Given<'a>>
        ensures shorter { IfSome result (λ given. length self.new.lexer.spans < length self.old.lexer.spans) }
    {
        let mut before: Option<Lexeme<'a>> = None;
        let mut last: Option<Lexeme<'a>> = None;
        while let Some(token) = self.lexer.next() {
            if let Some(name) = last {
                if token.text == b"=".as_slice() {
                    return Some(self.given(name_start(before, &name), &token));
                }
            }
            before = last;
            last = Some(token);
        }
        None
    }
}
