//! Where a `#` stands for data: in a run behind a `=`.
ghost use Rattle.std.specs.Prelude.{◌≡◌, ◌==◌, ◌&&◌, true, false};
ghost use Rattle.std.specs.List.{list_any};
ghost use Rattle.stil_head.specs.declared.shift.InShift.TheVariants.{Outside};
ghost use Rattle.stil_head.specs.Unsupported.{assigns_behind, is_mark, is_outside, has_mark, has_outer_mark};

use crate::shift::{InShift, is_outside, shift_at, shift_behind};
use stil_blocks::take_text;
use stil_syntax::{Stretch, begins_behind, is_word};

/// Whether a `=` stands behind the last `;` or brace, behind a token.
fn assigns_behind(assigns: bool, text: &[u8]) -> bool
    ensures value { result ≡ assigns_behind assigns text.now }
{
    match text {
        [b'='] => true,
        [b';'] | [b'{'] | [b'}'] => false,
        _ => assigns,
    }
}

/// Whether a byte is `#`.
fn has_hash(text: &[u8]) -> bool
    ensures value { result ≡ list_any (λ b. b == 35) text.now }
{
    text.iter().any(|b| *b == b'#')
}

/// A run with a `#`.
fn is_mark(text: &[u8]) -> bool
    ensures value { result ≡ is_mark text.now }
{
    is_word(text) && has_hash(text)
}

/// Whether a statement has a `#`.
pub(crate) fn has_mark(tokens: &Stretch<'_, '_>) -> bool
    ensures value { result ≡ has_mark false tokens.now }
{
    let mut rest = tokens.again();
    let mut assigns = false;
    while let Some(token) = rest.next() {
        if assigns && is_mark(token.text) {
            return true;
        }
        assigns = assigns_behind(assigns, token.text);
    }
    false
}

/// Whether a token behind a `=` or not is a `#` outside every Shift.
fn is_outer_mark(place: InShift, assigns: bool, text: &[u8]) -> bool
    ensures value { result ≡ (is_outside place && (assigns && is_mark text.now)) }
{
    is_outside(place) && assigns && is_mark(text)
}

/// Whether a statement of a procedure has a `#` outside every Shift.
pub(crate) fn has_outer_mark(tokens: &Stretch<'_, '_>) -> bool
    ensures value { result ≡ has_outer_mark Outside true false tokens.now }
{
    let mut rest = tokens.again();
    let mut place = InShift::Outside;
    let mut begins = true;
    let mut assigns = false;
    let most = tokens.len();
    while rest.len() != 0 {
        place = shift_at(place, begins, &rest);
        let text = take_text(&mut rest);
        if is_outer_mark(place, assigns, text) {
            return true;
        }
        place = shift_behind(place, text);
        begins = begins_behind(text);
        assigns = assigns_behind(assigns, text);
    }
    false
}
