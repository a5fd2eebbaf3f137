//! The contracts of `lef_pins`.
ghost use Rattle.base_types.specs.FirstFault.{IfFault, IsFirstFault};
ghost use Rattle.base_types.specs.declared.fault.Fault.{Fault as ghost_fault};
ghost use Rattle.lef_pins.specs.BlockReading.{LefLaw, OnlyLefLaw, OpenLaw, OuterLaw};
ghost use Rattle.lef_pins.specs.Blocks.{OneLefLaw};
ghost use Rattle.lef_pins.specs.Denoted.{AreMeasured, DenotesMacros};
ghost use Rattle.lef_pins.specs.Faults.{HoldsInLef};
ghost use Rattle.lef_pins.specs.Forms.{OriginLaw, RectLaw, SizeLaw};
ghost use Rattle.lef_pins.specs.Macros.{NamedMacros};
ghost use Rattle.lef_pins.specs.Places.{FloorLaw, IsMeasured, IsNear, IsPlaced, IsShort, IsShortPoint, pin_place, turn};
ghost use Rattle.std.specs.Prelude.{IfOk, OnOk, length, pos, ◌<◌, ◌^◌, ◌≡◌, ◌≤ℤ◌};

use base_types::{Name, Point, ReadFault};
use def_tokens::Orient;
use lef_pins::{Macro, Macros};
use std::alloc::Global;

/// As `lef_pins::read_macros`.
pub fn read_macros(alloc: Global, bytes: &[u8]) -> Result<Macros, ReadFault>
    requires size { length bytes.now < 2 ^ 32 }
    ensures macros { IfOk result (DenotesMacros bytes.now) }
    ensures only { IfOk result (λ m. (other : NamedMacros) → DenotesMacros bytes.now other → other ≡ m) }
    // So places can be told.
    ensures measured { IfOk result AreMeasured }
    ensures fault { IfFault result (IsFirstFault (HoldsInLef bytes.now)) }
    ensures no_fault { OnOk result ((fault : ghost_fault) → HoldsInLef bytes.now fault → ⊥) }
{
    lef_pins::read_macros(alloc, bytes)
}

/// As `lef_pins::lef_law`.
pub fn lef_law()
    ensures one { OneLefLaw }
    ensures lef { LefLaw }
    ensures only { OnlyLefLaw }
    ensures outer { OuterLaw }
    ensures rest { OpenLaw }
{
    lef_pins::lef_law()
}

/// As `lef_pins::form_law`.
pub fn form_law()
    ensures size { SizeLaw }
    ensures origin { OriginLaw }
    ensures rect { RectLaw }
{
    lef_pins::form_law()
}

/// As `lef_pins::pin_place`.
pub fn pin_place(m: &Macro, pin: &Name, at: Point, orient: Orient, units: i64) -> Point
    requires measured { IsMeasured m.now }
    requires placed { IsPlaced at }
    requires units_some { pos 1 ≤ℤ units }
    requires units_most { units ≤ℤ pos (10 ^ 5) }
    ensures value { result ≡ pin_place m.now pin.now at orient units }
    ensures near { IsNear result }
{
    lef_pins::pin_place(m, pin, at, orient, units)
}

/// As `lef_pins::turn`.
pub fn turn(orient: Orient, w: i64, h: i64, p: Point) -> Point
    requires w { IsShort w }
    requires h { IsShort h }
    requires p { IsShortPoint p }
    ensures value { result ≡ turn orient w h p }
    ensures near { IsNear result }
{
    lef_pins::turn(orient, w, h, p)
}

/// As `lef_pins::floor_law`.
pub fn floor_law()
    ensures floor { FloorLaw }
{
    lef_pins::floor_law()
}
