//! Laws of the STIL that `make_design` gives, each carried by a contract.
ghost use Rattle.made_law.specs.Patterns.Laws.{HeadTextLaw, WholeHeadLaw, HeadLaw, NoWholeHeadFaultLaw, NoHeadFaultLaw, PatternsLaw, NoPatternFaultLaw};

/// The made STIL of 8 to 16384 units denotes the head of these units, as do the bytes before its first Pattern, and nothing is wrong with
/// it (IEEE 1450-1999, in this profile). It does nothing; its contract is the law.
pub fn made_head_law()
    ensures text { HeadTextLaw }
    ensures whole { WholeHeadLaw }
    ensures head { HeadLaw }
    ensures no_whole_fault { NoWholeHeadFaultLaw }
    ensures no_fault { NoHeadFaultLaw }
{}

/// Beside its head the made STIL of 8 to 16384 units says one Pattern of sixteen loads, and nothing is wrong with these (IEEE 1450-1999,
/// Pattern, in this profile). It does nothing; its contract is the law.
pub fn made_patterns_law()
    ensures patterns { PatternsLaw }
    ensures no_fault { NoPatternFaultLaw }
{}
