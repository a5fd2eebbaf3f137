//! Macros that are turned.
ghost use Rattle.std.specs.Prelude.{◌≡◌};
ghost use Rattle.lef_pins.specs.Places.{turn, IsShort, IsShortPoint, IsNear};

use base_types::Point;
use def_tokens::Orient;

/// Where a point of a macro of width `w` and height `h` stands once the macro is turned, from its lower left corner. Takes
/// no memory.
pub fn turn(orient: Orient, w: i64, h: i64, p: Point) -> Point
    requires w { IsShort w }
    requires h { IsShort h }
    requires p { IsShortPoint p }
    ensures value { result ≡ turn orient w h p }
    ensures near { IsNear result }
{
    match orient {
        Orient::N => p,
        Orient::W => Point { x: h - p.y, y: p.x },
        Orient::S => Point {
            x: w - p.x,
            y: h - p.y,
        },
        Orient::E => Point { x: p.y, y: w - p.x },
        Orient::FN => Point { x: w - p.x, y: p.y },
        Orient::FW => Point { x: p.y, y: p.x },
        Orient::FS => Point { x: p.x, y: h - p.y },
        Orient::FE => Point {
            x: h - p.y,
            y: w - p.x,
        },
    }
}
