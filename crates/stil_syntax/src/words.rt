//! What a token is, by its bytes.
ghost use Rattle.std.specs.Prelude.{◌≡◌};
ghost use Rattle.token_forms.specs.Classes.{is_among, But};
ghost use Rattle.stil_syntax.specs.Names.{marks, is_enclosed, is_word, is_string, inner};
ghost use Rattle.stil_syntax.specs.Grammar.{any, ends_data};

use token_forms::Word;

/// `{`, `}`, `;`, `=`, `:` or `!`.
#[inline(always)]
fn is_mark(text: &[u8]) -> bool
    ensures { result ≡ is_among marks text.now }
{
    match text {
        [b'{'] | [b'}'] | [b';'] | [b'='] | [b':'] | [b'!'] => true,
        _ => false,
    }
}

/// A text in quotes or an annotation.
#[inline(always)]
fn is_enclosed(text: &[u8]) -> bool
    ensures { result ≡ is_enclosed text.now }
{
    match text {
        [b'"', ..] | [b'\'', ..] | [b'{', ..] => true,
        _ => false,
    }
}

/// A run: a token that is no mark, no text in quotes and no annotation.
#[inline(always)]
pub fn is_word(text: &[u8]) -> bool
    ensures value { result ≡ is_word text.now }
{
    !is_mark(text) && !is_enclosed(text)
}

/// A text in `"`.
#[inline(always)]
pub(crate) fn is_string(text: &[u8]) -> bool
    ensures value { result ≡ is_string text.now }
{
    match text {
        [b'"', ..] => true,
        _ => false,
    }
}

/// A text without its quotes.
pub(crate) fn inner(text: &[u8]) -> &[u8]
    ensures value { result.now ≡ inner text.now }
{
    if text.len() < 2 {
        return b"".as_slice();
    }
    &text[1..text.len() - 1]
}

/// A token that isn't a mark.
pub(crate) struct NoMark {}

/// A token of data.
pub(crate) struct InData {}

impl Word for NoMark {
    ghost kind = { But marks };

    ghost test = { any };

    #[inline(always)]
    fn is_in(text: &[u8]) -> bool {
        !is_mark(text)
    }

    #[inline(always)]
    fn passes(_text: &[u8]) -> bool {
        true
    }
}

/// `;`, `{` or `}`.
#[inline(always)]
fn ends_data(text: &[u8]) -> bool
    ensures { result ≡ is_among ends_data text.now }
{
    match text {
        [b';'] | [b'{'] | [b'}'] => true,
        _ => false,
    }
}

impl Word for InData {
    ghost kind = { But ends_data };

    ghost test = { any };

    #[inline(always)]
    fn is_in(text: &[u8]) -> bool {
        !ends_data(text)
    }

    #[inline(always)]
    fn passes(_text: &[u8]) -> bool {
        true
    }
}
