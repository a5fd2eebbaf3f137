//! Where a pin of a placed macro stands.
ghost use Rattle.std.specs.Prelude.{◌≡◌, ◌*◌, ◌^◌, pos, ◌+ℤ◌, ◌≤ℤ◌};
ghost use Rattle.lef_pins.specs.Places.{scaled, twice, rect_of, point_of, pin_place, IsWithin, IsLength, IsMeasured, IsMeasuredOrNone, IsPlaced, IsShort, IsShortPoint, IsNear};

use crate::macros::{Macro, MacroPin};
use crate::orient::turn;
use base_types::{Name, Point};
use def_tokens::Orient;

/// A length in millionths of a micron, in database units, of which there are so many a micron.
fn scaled(v: i64, units: i64) -> i64
    requires v { IsWithin (4 * 10 ^ 12) v }
    requires units { IsWithin (10 ^ 5) units }
    ensures value { result ≡ scaled v units }
    ensures within { IsWithin (4 * 10 ^ 11) result }
{
    (v * units).div_euclid(1_000_000)
}

/// Twice the middle of two lengths.
fn middle(a: i64, b: i64, units: i64) -> i64
    requires a { IsLength a }
    requires b { IsLength b }
    requires units { IsWithin (10 ^ 5) units }
    ensures value { result ≡ scaled (a +ℤ b) units }
    ensures within { IsWithin (4 * 10 ^ 11) result }
{
    scaled(a + b, units)
}

/// Twice the middle of two lengths and twice a third one.
fn middle_and(a: i64, b: i64, origin: i64, units: i64) -> i64
    requires a { IsLength a }
    requires b { IsLength b }
    requires origin { IsLength origin }
    requires units { IsWithin (10 ^ 5) units }
    ensures value { result ≡ scaled (a +ℤ b) units +ℤ twice origin units }
    ensures within { IsShort result }
{
    middle(a, b, units) + middle(origin, origin, units)
}

/// The first RECT of the pin with this name.
fn rect_of(pins: &[MacroPin], name: &Name) -> Option<[i64; 4]>
    ensures value { result ≡ rect_of pins.now name.now }
{
    for pin in pins {
        if pin.name.bytes() == name.bytes() {
            return pin.rect;
        }
    }
    None
}

/// A macro's pin in half database units, before it is turned.
fn point_of(m: &Macro, rect: Option<[i64; 4]>, units: i64) -> Point
    requires measured { IsMeasured m.now }
    requires rect { IsMeasuredOrNone rect }
    requires units { IsWithin (10 ^ 5) units }
    ensures value { result ≡ point_of m.now rect units }
    ensures short { IsShortPoint result }
{
    match rect {
        Some(r) => Point {
            x: middle_and(r[0], r[2], m.ox, units),
            y: middle_and(r[1], r[3], m.oy, units),
        },
        None => Point {
            x: scaled(m.w, units),
            y: scaled(m.h, units),
        },
    }
}

/// A coordinate, by twice another one further.
fn moved(x: i64, by: i64) -> i64
    requires x { IsWithin (15 * 10 ^ 11) x }
    requires by { IsWithin (2 ^ 31) by }
    ensures value { result ≡ x +ℤ (by +ℤ by) }
    ensures within { IsWithin (2 ^ 41) result }
{
    x + (by + by)
}

/// Where a pin of a macro stands that is placed at a point, in database units, with so many of these a micron: the centre
/// of its first RECT plus twice the macro's ORIGIN, or the macro's centre where there is no such pin or RECT, turned. In
/// half database units. Takes no memory.
pub fn pin_place(m: &Macro, pin: &Name, at: Point, orient: Orient, units: i64) -> Point
    requires measured { IsMeasured m.now }
    requires placed { IsPlaced at }
    requires units_some { pos 1 ≤ℤ units }
    requires units_most { units ≤ℤ pos (10 ^ 5) }
    ensures value { result ≡ pin_place m.now pin.now at orient units }
    ensures near { IsNear result }
{
    let point = point_of(m, rect_of(m.pins.as_slice(), pin), units);
    let w = middle(m.w, m.w, units);
    let h = middle(m.h, m.h, units);
    let turned = turn(orient, w, h, point);
    Point {
        x: moved(turned.x, at.x),
        y: moved(turned.y, at.y),
    }
}
