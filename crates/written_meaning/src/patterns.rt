//! What retargeted patterns mean (IEEE 1450-1999, in this profile).
ghost use Rattle.written_meaning.specs.Patterns.Laws.{FrontLaw, MeaningLaw, MovesLaw};

/// Patterns whose calls are retargeted to other chains are written so that they are read without fault and run alike; behind a head they
/// begin as they did, as far as the head's end looks. It does nothing; its contract is the law.
pub fn retargeted_law()
    ensures front { FrontLaw }
    ensures moves { MovesLaw }
    ensures law { MeaningLaw }
{}
