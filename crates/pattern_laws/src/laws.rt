//! Laws of the definitions, each carried by a contract.
ghost use Rattle.pattern_laws.specs.Laws.{AllLaw, BlockLaw, HeadingLaw, LoopLaw, MovedFrontLaw, PortsLaw, RisingLaw, SamePortsLaw, ScanLaw, ShiftLaw, StillLaw, StillLoopLaw, SumsLaw};

/// A scan call that is written with data that show the same on other chains may stand for the read one, and has its heading; one that
/// shifts has a block, and one that doesn't stays. It does nothing; its contract is the law.
pub fn scan_law()
    ensures block { BlockLaw }
    ensures heading { HeadingLaw }
    ensures law { ScanLaw }
    ensures still { StillLaw }
{}

/// A Loop whose scan calls are moved to other chains is written so that it may stand for the read one, and one without a call that shifts
/// stays; the statements of its block stand in order, and the form of each doesn't hang on its place. It does nothing; its contract is the
/// law.
pub fn loop_law()
    ensures shift { ShiftLaw }
    ensures rising { RisingLaw }
    ensures law { LoopLaw }
    ensures still { StillLoopLaw }
{}

/// Patterns whose calls are moved to other chains are written so that they are read without fault and run alike; behind a head they begin
/// as they did, as far as the head's end looks. It does nothing; its contract is the law.
pub fn all_law()
    ensures front { MovedFrontLaw }
    ensures law { AllLaw }
{}

/// What is summed up over a run is the sum over its statements, a Loop's as often as its number says. It does nothing; its contract is the
/// law.
pub fn sums_law()
    ensures law { SumsLaw }
{}

/// The ports of a head that is read can be written: each stands once, and its name in quotes is read as itself; and so can those of other
/// chains of the same ports. It does nothing; its contract is the law.
pub fn ports_law()
    ensures law { PortsLaw }
    ensures same { SamePortsLaw }
{}
