//! The law of made designs with their patterns, carried by a contract.
ghost use Rattle.made_law.specs.Laws.{BesideHeadLaw, PatternsLaw};

/// With the files of a made design of 8 to 16384 units, the head of its patterns beside them, and the patterns nothing is wrong: none of
/// the faults that commands with patterns can name holds. It does nothing; its contract is the law.
pub fn made_law()
    ensures files { BesideHeadLaw }
    ensures patterns { PatternsLaw }
{}
