//! Laws of the moves between paths.
ghost use Rattle.def_writer.specs.Moved.Laws.{OnceLaw, MovesLaw, MovedLaw, StandingLaw, AgreementLaw};

/// No pin stands twice in the nets of a design that a text denotes. It does nothing; its contract is the law.
#[tactic(auto, using(crate::proofs::moved::Once::once_law))]
pub fn once_law()
    ensures once { OnceLaw }
{}

/// The moves between paths are of pins that are there, none twice; in the design behind them each sink with another source stands in
/// the net of that, all else where it stood, and the pins of the new paths stand in nets. It does nothing; its contract is the law.
#[tactic(auto, using(crate::proofs::moved::Made::made_law, crate::proofs::moved::Made::moved_law, crate::proofs::moved::Standing::standing_law))]
pub fn moves_law()
    ensures moves { MovesLaw }
    ensures moved { MovedLaw }
    ensures standing { StandingLaw }
{}

/// A netlist and a design that agree on pins agree. It does nothing; its contract is the law.
#[tactic(auto, using(crate::proofs::moved::Agreed::agreement_law))]
pub fn agreement_law()
    ensures agree { AgreementLaw }
{}
