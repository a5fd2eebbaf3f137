//! Laws of the definitions, each carried by a contract.
ghost use Rattle.stil_calls.specs.Laws.{ShortLaw, LongLaw, VastLaw};

/// A call is refused for how much it gives exactly where its strings, written out, shift too seldom, compare too much, or are
/// too long. It does nothing; its contract is the law.
#[tactic(auto, using(crate::proofs::Refusals::short_law, crate::proofs::Refusals::long_law, crate::proofs::Refusals::vast_law))]
pub fn size_law()
    ensures short { ShortLaw }
    ensures long { LongLaw }
    ensures vast { VastLaw }
{}
