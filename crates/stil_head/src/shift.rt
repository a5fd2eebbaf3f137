//! Where the Shifts of a procedure stand.
ghost use Rattle.std.specs.Prelude.{◌≡◌, ◌+◌, ◌<◌, ◌^◌, true, false, length};
ghost use Rattle.stil_syntax.specs.Shapes.{body_statements};
ghost use Rattle.stil_blocks.specs.Callees.{begins_shift};
ghost use Rattle.list_laws.specs.Leasts.{least_of};
ghost use Rattle.stil_head.specs.Unsupported.{shift_at, shift_behind, is_outside, later_shifts, places_at, inner_shifts, shift_depth};

use crate::truth::{both, either};
use list_laws::{found_if, lesser_place};
use stil_blocks::{shift_begins, start_of, take_text};
use stil_syntax::{Stretch, begins_behind, body_statement};

/// Where a token stands that may begin a Shift.
#[derive(Clone, Copy)]
pub enum InShift {
    /// Outside every Shift.
    Outside,
    /// In a Shift, in front of its block.
    Before,
    /// In the block of a Shift, in so many open blocks.
    Inside(usize),
}

/// Where the first of the tokens stands.
pub(crate) fn shift_at(place: InShift, begins: bool, tokens: &Stretch<'_, '_>) -> InShift
    ensures value { result ≡ shift_at place begins tokens.now }
{
    match place {
        InShift::Outside if shift_begins(begins, tokens) => InShift::Before,
        other => other,
    }
}

/// Where the next token stands.
pub(crate) fn shift_behind(place: InShift, text: &[u8]) -> InShift
    requires room { shift_depth place + 1 < 2 ^ 64 }
    ensures value { result ≡ shift_behind place text.now }
{
    match (place, text) {
        (InShift::Before, [b'{']) => InShift::Inside(1),
        (InShift::Inside(depth), [b'{']) => InShift::Inside(depth + 1),
        (InShift::Inside(depth), [b'}']) => {
            if depth <= 1 {
                InShift::Outside
            } else {
                InShift::Inside(depth - 1)
            }
        }
        _ => place,
    }
}

/// Whether no Shift is open.
pub(crate) fn is_outside(place: InShift) -> bool
    ensures value { result ≡ is_outside place }
{
    matches!(place, InShift::Outside)
}

/// The least place of a Shift behind the first one, at whatever depth.
pub(crate) fn later_shift(body: &Stretch<'_, '_>) -> Option<u32>
    ensures value { result ≡ least_of (later_shifts false true body.now) }
{
    let mut rest = body.again();
    let mut least = None;
    let mut seen = false;
    let mut begins = true;
    while rest.len() != 0 {
        let here = shift_begins(begins, &rest);
        least = lesser_place(least, found_if(both(seen, here), start_of(&rest)));
        seen = either(seen, here);
        begins = begins_behind(take_text(&mut rest));
    }
    least
}

/// The least place of a Shift in the blocks of a statement.
fn inner_shift(s: &Stretch<'_, '_>) -> Option<u32>
    ensures value { result ≡ least_of (places_at begins_shift false s.now) }
{
    let mut rest = s.again();
    let mut least = None;
    let mut begins = false;
    while rest.len() != 0 {
        least = lesser_place(
            least,
            found_if(shift_begins(begins, &rest), start_of(&rest)),
        );
        begins = begins_behind(take_text(&mut rest));
    }
    least
}

/// The least of these in a body.
pub(crate) fn inner_shifts(body: &Stretch<'_, '_>) -> Option<u32>
    ensures value { result ≡ least_of (inner_shifts (body_statements body.now)) }
{
    let mut rest = body.again();
    let mut least = None;
    while let Some(s) = body_statement(&mut rest) {
        least = lesser_place(least, inner_shift(&s));
    }
    least
}
