//! Laws of the texts that are written.
ghost use Rattle.def_layout.specs.Words.{JoinedLaw, StandingLaw};
ghost use Rattle.def_layout.specs.Slices.{SliceLaw, NetSliceLaw};
ghost use Rattle.def_layout.specs.NetOptions.{NetOptionsLaw};

/// Whole words with single blanks between them are the tokens of the text; and the tokens of any text are whole, but for the last
/// and for one that a semicolon ends. It does nothing; its contract is the law.
#[tactic(auto, using(crate::proofs::WordTokens::joined_law, crate::proofs::Standing::standing_law))]
pub fn word_law()
    ensures joined { JoinedLaw }
    ensures standing { StandingLaw }
{}

/// A statement's bytes alone have the tokens of the statement, and those of a net are the statement of a net with the same name
/// and connections of the same words, though at other places. It does nothing; its contract is the law.
#[tactic(auto, using(crate::proofs::Slices::slice_law, crate::proofs::NetLaw::net_slice_law))]
pub fn slice_law()
    ensures tokens { SliceLaw }
    ensures net { NetSliceLaw }
{}

/// The words of a net's options that stay are those of the options that aren't wiring, as the options of a net are read. It does
/// nothing; its contract is the law.
#[tactic(auto, using(crate::proofs::NetOptions::net_options_law))]
pub fn options_law()
    ensures options { NetOptionsLaw }
{}
