//! Laws of the definitions, each carried by a contract.
ghost use Rattle.def_syntax.specs.OptionLaw.{ComponentLaw, PinLaw, NetOptionsLaw};

/// The forms of components, of design pins and of a net's options spell what the plain words on tokens say, and only that. It does
/// nothing; its contract is the law.
pub fn options_law()
    ensures components { ComponentLaw }
    ensures pins { PinLaw }
    ensures nets { NetOptionsLaw }
{}
