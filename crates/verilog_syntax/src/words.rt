//! What a token is, by its bytes.
ghost use Rattle.std.specs.Prelude.{◌≡◌, ◌≤◌, length, not};
ghost use Rattle.std.specs.List.{list_all, prefix_len};
ghost use Rattle.verilog_syntax.specs.VerilogTokens.{is_blank, is_digit, is_digit_of, is_word_start, is_word};
ghost use Rattle.verilog_syntax.specs.VerilogSplit.{are_digits_of, is_based, is_escaped};
ghost use Rattle.verilog_syntax.specs.Seams.{is_identifier};
ghost use Rattle.token_forms.specs.Classes.{is_among};
ghost use Rattle.verilog_syntax.specs.Words.{kinds, no_operands, marks, is_reserved, is_name, is_decimal, is_constant, is_operand, begins_number};

use crate::{is_blank, is_digit, is_digit_of, is_word, is_word_start};

/// A word of the language that is no name.
#[inline(always)]
pub fn is_reserved(text: &[u8]) -> bool
    ensures value { result ≡ is_reserved text.now }
{
    match text {
        [b'a', ..] => text == b"assign".as_slice(),
        [b'e', ..] => text == b"endmodule".as_slice(),
        [b'i', ..] => text == b"input".as_slice() || text == b"inout".as_slice(),
        [b'm', ..] => text == b"module".as_slice(),
        [b'o', ..] => text == b"output".as_slice(),
        [b's', ..] => text == b"supply0".as_slice() || text == b"supply1".as_slice(),
        [b't', ..] => text == b"tri".as_slice(),
        [b'w', ..] => text == b"wire".as_slice(),
        _ => false,
    }
}

fn are_words(bytes: &[u8]) -> bool
    ensures value { result ≡ list_all is_word bytes.now }
{
    bytes.iter().all(|b| is_word(*b))
}

/// A letter or `_`, and then letters, digits, `_` and `$`.
#[inline(always)]
pub fn is_identifier(text: &[u8]) -> bool
    ensures value { result ≡ is_identifier text.now }
{
    match text {
        [first, rest @ ..] => is_word_start(*first) && are_words(rest),
        [] => false,
    }
}

fn name_len(bytes: &[u8]) -> usize
    ensures value { result ≡ prefix_len (λ c. not (is_blank c)) bytes.now }
    ensures within { result ≤ length bytes.now }
{
    bytes.iter().take_while(|b| !is_blank(**b)).count()
}

/// Behind a backslash: bytes that aren't blanks, and one blank or the end.
fn is_escaped(bytes: &[u8]) -> bool
    ensures value { result ≡ is_escaped bytes.now }
{
    let len = name_len(bytes);
    0 < len && bytes.len() <= len + 1
}

#[inline(always)]
#[tactic(auto, unfolding(crate::specs::Words::is_name))]
pub(crate) fn is_name(text: &[u8]) -> bool
    ensures value { result ≡ is_name text.now }
{
    match text {
        [b'\\', rest @ ..] => is_escaped(rest),
        _ => is_identifier(text) && !is_reserved(text),
    }
}

fn are_digits(bytes: &[u8]) -> bool
    ensures value { result ≡ list_all is_digit bytes.now }
{
    bytes.iter().all(|b| is_digit(*b))
}

#[tactic(auto, unfolding(crate::specs::Words::is_decimal))]
pub(crate) fn is_decimal(text: &[u8]) -> bool
    ensures value { result ≡ is_decimal text.now }
{
    match text {
        [first, rest @ ..] => is_digit(*first) && are_digits(rest),
        [] => false,
    }
}

/// Digits of this base, with `_` before any but the first, the last one no `_`.
fn are_digits_of(base: u8, digits: &[u8]) -> bool
    ensures value { result ≡ are_digits_of base digits.now }
{
    let mut ended = false;
    for digit in digits {
        ended = is_digit_of(base, *digit);
        if !ended && *digit != b'_' {
            return false;
        }
    }
    ended
}

/// A quote, a base letter and digits of the base, the first one no `_`.
fn is_based(text: &[u8]) -> bool
    ensures value { result ≡ is_based text.now }
{
    match text {
        [b'\'', base, rest @ ..] => match rest {
            [first, ..] => is_digit_of(*base, *first) && are_digits_of(*base, rest),
            [] => false,
        },
        _ => false,
    }
}

fn digit_len(bytes: &[u8]) -> usize
    ensures value { result ≡ prefix_len is_digit bytes.now }
    ensures within { result ≤ length bytes.now }
{
    bytes.iter().take_while(|b| is_digit(**b)).count()
}

#[tactic(auto, unfolding(crate::specs::Words::is_constant))]
pub(crate) fn is_constant(text: &[u8]) -> bool
    ensures value { result ≡ is_constant text.now }
{
    match text {
        [first, rest @ ..] => is_digit(*first) && is_based(&rest[digit_len(rest)..]),
        [] => false,
    }
}

#[inline(always)]
#[tactic(auto, unfolding(crate::specs::Words::is_operand))]
pub(crate) fn is_operand(text: &[u8]) -> bool
    ensures value { result ≡ is_operand text.now }
{
    is_name(text) || is_constant(text)
}

#[inline(always)]
pub(crate) fn begins_number(text: &[u8]) -> bool
    ensures value { result ≡ begins_number text.now }
{
    match text {
        [first, ..] => is_digit(*first),
        [] => false,
    }
}

/// A word that begins a declaration.
pub(crate) fn is_kind(text: &[u8]) -> bool
    ensures value { result ≡ is_among kinds text.now }
{
    match text {
        [b'i', ..] => text == b"input".as_slice() || text == b"inout".as_slice(),
        [b'o', ..] => text == b"output".as_slice(),
        [b's', ..] => text == b"supply0".as_slice() || text == b"supply1".as_slice(),
        [b't', ..] => text == b"tri".as_slice(),
        [b'w', ..] => text == b"wire".as_slice(),
        _ => false,
    }
}

#[inline(always)]
pub(crate) fn is_mark(text: &[u8]) -> bool
    ensures value { result ≡ is_among marks text.now }
{
    match text {
        [b'(']
        | [b')']
        | [b'[']
        | [b']']
        | [b'{']
        | [b'}']
        | [b',']
        | [b';']
        | [b':']
        | [b'.']
        | [b'='] => true,
        _ => false,
    }
}

/// A mark or a word of the language, which is no name and no number.
#[inline(always)]
pub(crate) fn is_no_operand(text: &[u8]) -> bool
    ensures value { result ≡ is_among no_operands text.now }
{
    is_mark(text) || is_reserved(text)
}
