//! Laws of edited texts.
ghost use Rattle.def_edit.specs.Seams.{RisingLaw, SeamLaw, PartedLaw, BehindLaw};

/// Edits of runs of tokens, each before the next, are those that can be made; and with them made the text has its words outside of
/// the runs, and in each run's place those of the edit. It does nothing; its contract is the law.
#[tactic(auto, using(crate::proofs::seams::Words::rising_law, crate::proofs::seams::Words::seam_law))]
pub fn seam_law()
    ensures rising { RisingLaw }
    ensures words { SeamLaw }
{}

/// Behind a token that is no text in quotes stands a blank, the end, or the semicolon that was cut off it. It does nothing; its
/// contract is the law.
#[tactic(auto, using(crate::proofs::seams::Words::parted_law, crate::proofs::seams::Words::behind_law))]
pub fn behind_law()
    ensures parted { PartedLaw }
    ensures behind { BehindLaw }
{}
