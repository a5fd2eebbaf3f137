//! Laws of the definitions, each carried by a contract.
ghost use Rattle.lef_pins.specs.Forms.{SizeLaw, OriginLaw, RectLaw};
ghost use Rattle.lef_pins.specs.BlockReading.{OuterLaw, OpenLaw, LefLaw, OnlyLefLaw};
ghost use Rattle.lef_pins.specs.Blocks.{OneLefLaw};
ghost use Rattle.lef_pins.specs.Places.{FloorLaw};

/// A length in half database units is the floor of an exact fraction. It does nothing; its contract is the law.
pub fn floor_law()
    ensures floor { FloorLaw }
{}

/// Each list of tokens has items, which are those that `lef_at` finds, and no others; and outside macros, plain tokens and extensions
/// pass over together with what ends them. It does nothing; its contract is the law.
pub fn lef_law()
    ensures one { OneLefLaw }
    ensures lef { LefLaw }
    ensures only { OnlyLefLaw }
    ensures outer { OuterLaw }
    ensures rest { OpenLaw }
{}

/// A statement that is read and is of its form has the form's texts, and these alone are of the form. It does nothing; its
/// contract is the law.
pub fn form_law()
    ensures size { SizeLaw }
    ensures origin { OriginLaw }
    ensures rect { RectLaw }
{}
