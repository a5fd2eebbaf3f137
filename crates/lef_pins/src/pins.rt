//! The pins of a macro.
ghost use Rattle.std.specs.Prelude.{◌≡◌, codes, drop, not, if◌then◌else◌, Some, None};
ghost use Rattle.lef_pins.specs.BlockReading.{inner_at, pin_item_at, found_at};
ghost use Rattle.lef_pins.specs.Blocks.{begins_with, ends_shapes, ends_named, inner_len};
ghost use Rattle.lef_pins.specs.Statements.{is_read_rect, rect_values};
ghost use Rattle.lef_pins.specs.Reading.{gathered, with_syntax, put_rect, put_pin_item};

use crate::cuts::inner_len;
use crate::ends::{begins_port, ends_named, ends_shapes, goes_on_named, goes_on_shapes};
use crate::least::Least;
use crate::statements::{is_bad_rect, is_far_rect, is_read_rect, rect_values};
use crate::stretch::Stretch;

/// What is read of a pin: the least places of faults so far, also of what stands before the pin, and its first RECT.
#[derive(Clone, Copy)]
pub(crate) struct PinReading {
    pub(crate) least: Least,
    pub(crate) rect: Option<[i64; 4]>,
}

/// The numbers of a RECT that is read.
fn rect_of(s: &Stretch<'_, '_>) -> Option<[i64; 4]>
    ensures value { result ≡ if is_read_rect s.now then Some (rect_values s.now) else None }
{
    if is_read_rect(s) {
        Some(rect_values(s))
    } else {
        None
    }
}

impl PinReading {
    /// Adds a statement of a port.
    #[tactic(auto, unfolding(crate::specs::Reading::put_rect))]
    fn put_rect(&mut self, s: &Stretch<'_, '_>)
        ensures value { self.new ≡ put_rect self.old s.now }
    {
        let place = s.start();
        self.least = self
            .least
            .with_syntax(is_bad_rect(s), place)
            .with_number(is_far_rect(s), place);
        self.rect = self.rect.or(rect_of(s));
    }

    /// Adds a port's END that is missing.
    fn put_end(&mut self, closed: bool, place: u32)
        ensures value { self.new ≡ record { least = with_syntax self.old.least (not closed) place; rect = self.old.rect } }
    {
        self.least = self.least.with_syntax(!closed, place);
    }
}

/// Takes the statement at the front of a block.
pub(crate) fn take_statement<'a, 's>(rest: &mut Stretch<'a, 's>) -> Stretch<'a, 's>
    ensures statement { result ≡ (inner_at rest.old).0 }
    ensures rest { rest.new ≡ (inner_at rest.old).1 }
{
    let count = inner_len(rest);
    rest.take(count)
}

/// Takes what stands in a port, with its END, and tells whether the END stands there.
fn read_port(rest: &mut Stretch<'_, '_>, pin: &mut PinReading) -> bool
    ensures pin { pin.new ≡ gathered put_rect pin.old (found_at ends_shapes inner_at rest.old).0 }
    ensures closed { result ≡ ends_shapes (found_at ends_shapes inner_at rest.old).1 }
    ensures rest { rest.new ≡ drop 1 (found_at ends_shapes inner_at rest.old).1 }
{
    while goes_on_shapes(rest) {
        let statement = take_statement(rest);
        pin.put_rect(&statement);
    }
    let closed = ends_shapes(rest);
    rest.skip(1);
    closed
}

/// Takes what stands in an OBS or a DENSITY, with its END, and tells whether the END stands there.
pub(crate) fn pass_shapes(rest: &mut Stretch<'_, '_>) -> bool
    ensures closed { result ≡ ends_shapes (found_at ends_shapes inner_at rest.old).1 }
    ensures rest { rest.new ≡ drop 1 (found_at ends_shapes inner_at rest.old).1 }
{
    while goes_on_shapes(rest) {
        rest.skip(inner_len(rest));
    }
    let closed = ends_shapes(rest);
    rest.skip(1);
    closed
}

/// Takes the port or the statement at the front of a pin.
fn read_pin_item(rest: &mut Stretch<'_, '_>, pin: &mut PinReading)
    ensures pin { pin.new ≡ put_pin_item pin.old (pin_item_at rest.old).0 }
    ensures rest { rest.new ≡ (pin_item_at rest.old).1 }
{
    if begins_port(rest) {
        let place = rest.start();
        rest.skip(1);
        let closed = read_port(rest, pin);
        pin.put_end(closed, place);
    } else {
        rest.skip(inner_len(rest));
    }
}

/// Takes what stands in a pin of a plain name, with its END, and tells whether the END stands there.
pub(crate) fn read_pin(rest: &mut Stretch<'_, '_>, name: &[u8], pin: &mut PinReading) -> bool
    ensures pin { pin.new ≡ gathered put_pin_item pin.old (found_at (ends_named name.now) pin_item_at rest.old).0 }
    ensures closed { result ≡ ends_named name.now (found_at (ends_named name.now) pin_item_at rest.old).1 }
    ensures rest { rest.new ≡ drop 2 (found_at (ends_named name.now) pin_item_at rest.old).1 }
{
    while goes_on_named(rest, name) {
        read_pin_item(rest, pin);
    }
    let closed = ends_named(rest, name);
    rest.skip(2);
    closed
}
