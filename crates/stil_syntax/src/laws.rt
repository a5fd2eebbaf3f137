//! Laws of the definitions, each carried by a contract.
ghost use Rattle.stil_syntax.specs.Laws.{ItemsLaw, LabelsLaw};

/// What stands behind the name of a scan call is a Scan with the items that its tokens spell, and with no others; and what is
/// left behind the labels is what stands behind the names with a colon each. It does nothing; its contract is the law.
#[tactic(auto, using(crate::proofs::Labelled::items_law, crate::proofs::Labelled::labels_law))]
pub fn form_law()
    ensures items { ItemsLaw }
    ensures labels { LabelsLaw }
{}
