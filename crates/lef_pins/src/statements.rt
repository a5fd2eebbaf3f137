//! The statements of a macro that are read: their forms and values.
ghost use Rattle.std.specs.Prelude.{◌≡◌, ◌+◌, ◌<◌};
ghost use Rattle.lef_pins.specs.Statements.{is_word_at, are_decimals, have_values, value_at, is_size, is_origin, is_masked, corner_place, is_read_rect, are_corners, is_rect, is_fit_rect, rect_values, begins_size, begins_origin, is_fit_size, is_fit_origin, size_values, origin_values, is_bad_rect, is_bad, is_far_rect, is_far};

use crate::stretch::Stretch;
use def_tokens::{is_decimal, is_integer, read_decimal};

fn is_word_at(s: &Stretch<'_, '_>, at: usize, word: &[u8]) -> bool
    ensures value { result ≡ is_word_at s.now at word.now }
{
    s.text(at) == word
}

fn are_decimals(s: &Stretch<'_, '_>, a: usize, b: usize) -> bool
    ensures value { result ≡ are_decimals s.now a b }
{
    is_decimal(s.text(a)) && is_decimal(s.text(b))
}

fn have_values(s: &Stretch<'_, '_>, a: usize, b: usize) -> bool
    ensures value { result ≡ have_values s.now a b }
{
    read_decimal(s.text(a)).is_some() && read_decimal(s.text(b)).is_some()
}

fn value_at(s: &Stretch<'_, '_>, at: usize) -> i64
    ensures value { result ≡ value_at s.now at }
{
    read_decimal(s.text(at)).unwrap_or(0)
}

#[tactic(auto, unfolding(crate::specs::Statements::begins_size))]
pub(crate) fn begins_size(s: &Stretch<'_, '_>) -> bool
    ensures value { result ≡ begins_size s.now }
{
    is_word_at(s, 0, b"SIZE")
}

#[tactic(auto, unfolding(crate::specs::Statements::begins_origin))]
pub(crate) fn begins_origin(s: &Stretch<'_, '_>) -> bool
    ensures value { result ≡ begins_origin s.now }
{
    is_word_at(s, 0, b"ORIGIN")
}

#[tactic(auto, unfolding(crate::specs::Statements::is_size))]
fn is_size(s: &Stretch<'_, '_>) -> bool
    ensures value { result ≡ is_size s.now }
{
    (s.len() == 5 && are_decimals(s, 1, 3)) && (is_word_at(s, 2, b"BY") && is_word_at(s, 4, b";"))
}

#[tactic(auto, unfolding(crate::specs::Statements::is_origin))]
fn is_origin(s: &Stretch<'_, '_>) -> bool
    ensures value { result ≡ is_origin s.now }
{
    (s.len() == 4 && are_decimals(s, 1, 2)) && is_word_at(s, 3, b";")
}

#[tactic(auto, unfolding(crate::specs::Statements::is_fit_size))]
fn is_fit_size(s: &Stretch<'_, '_>) -> bool
    ensures value { result ≡ is_fit_size s.now }
{
    have_values(s, 1, 3)
}

#[tactic(auto, unfolding(crate::specs::Statements::is_fit_origin))]
fn is_fit_origin(s: &Stretch<'_, '_>) -> bool
    ensures value { result ≡ is_fit_origin s.now }
{
    have_values(s, 1, 2)
}

/// The width and the height of a SIZE, in millionths of a micron.
#[tactic(auto, unfolding(crate::specs::Statements::size_values))]
pub(crate) fn size_values(s: &Stretch<'_, '_>) -> (i64, i64)
    ensures value { result ≡ size_values s.now }
{
    (value_at(s, 1), value_at(s, 3))
}

/// The numbers of an ORIGIN, in millionths of a micron.
#[tactic(auto, unfolding(crate::specs::Statements::origin_values))]
pub(crate) fn origin_values(s: &Stretch<'_, '_>) -> (i64, i64)
    ensures value { result ≡ origin_values s.now }
{
    (value_at(s, 1), value_at(s, 2))
}

fn is_masked(s: &Stretch<'_, '_>) -> bool
    ensures value { result ≡ is_masked s.now }
{
    is_word_at(s, 1, b"MASK")
}

/// The place of the first of the four numbers of a RECT.
fn corner_place(s: &Stretch<'_, '_>) -> usize
    ensures value { result ≡ corner_place s.now }
    ensures small { result < 4 }
{
    if is_masked(s) { 3 } else { 1 }
}

#[tactic(auto, unfolding(crate::specs::Statements::is_read_rect))]
pub(crate) fn is_read_rect(s: &Stretch<'_, '_>) -> bool
    ensures value { result ≡ is_read_rect s.now }
{
    is_word_at(s, 0, b"RECT") && !is_word_at(s, corner_place(s), b"ITERATE")
}

/// Whether four decimals and a `;` stand from a place up to the end.
fn are_corners(s: &Stretch<'_, '_>, at: usize) -> bool
    requires small { at < 4 }
    ensures value { result ≡ are_corners s.now at }
{
    (s.len() == at + 5 && is_word_at(s, at + 4, b";"))
        && (are_decimals(s, at, at + 1) && are_decimals(s, at + 2, at + 3))
}

#[tactic(auto, unfolding(crate::specs::Statements::is_rect))]
fn is_rect(s: &Stretch<'_, '_>) -> bool
    ensures value { result ≡ is_rect s.now }
{
    if is_masked(s) {
        is_integer(s.text(2)) && are_corners(s, 3)
    } else {
        are_corners(s, 1)
    }
}

#[tactic(auto, unfolding(crate::specs::Statements::is_fit_rect))]
fn is_fit_rect(s: &Stretch<'_, '_>) -> bool
    ensures value { result ≡ is_fit_rect s.now }
{
    let at = corner_place(s);
    have_values(s, at, at + 1) && have_values(s, at + 2, at + 3)
}

/// The numbers of a RECT, in millionths of a micron.
#[tactic(auto, unfolding(crate::specs::Statements::rect_values))]
pub(crate) fn rect_values(s: &Stretch<'_, '_>) -> [i64; 4]
    ensures value { result ≡ rect_values s.now }
{
    let at = corner_place(s);
    [
        value_at(s, at),
        value_at(s, at + 1),
        value_at(s, at + 2),
        value_at(s, at + 3),
    ]
}

/// Whether a RECT that is read is of no form.
pub(crate) fn is_bad_rect(s: &Stretch<'_, '_>) -> bool
    ensures value { result ≡ is_bad_rect s.now }
{
    is_read_rect(s) && !is_rect(s)
}

/// Whether a RECT of its form has a number without a value.
pub(crate) fn is_far_rect(s: &Stretch<'_, '_>) -> bool
    ensures value { result ≡ is_far_rect s.now }
{
    is_read_rect(s) && (is_rect(s) && !is_fit_rect(s))
}

/// Whether a SIZE or an ORIGIN is of no form, or the SIZE of a macro that has one.
pub(crate) fn is_bad(sized: bool, s: &Stretch<'_, '_>) -> bool
    ensures value { result ≡ is_bad sized s.now }
{
    if begins_size(s) {
        !is_size(s) || sized
    } else {
        begins_origin(s) && !is_origin(s)
    }
}

/// Whether a SIZE or an ORIGIN of its form has a number without a value.
pub(crate) fn is_far(s: &Stretch<'_, '_>) -> bool
    ensures value { result ≡ is_far s.now }
{
    if begins_size(s) {
        is_size(s) && !is_fit_size(s)
    } else {
        begins_origin(s) && (is_origin(s) && !is_fit_origin(s))
    }
}
