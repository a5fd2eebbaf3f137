//! Laws of made designs beside their netlists, each carried by a contract.
ghost use Rattle.made_law.specs.Checks.Laws.{ElementsLaw, AgreementLaw, AskedLaw, TracedLaw, BitsLaw, NetsLaw, PlacesLaw, ChainsLaw, HeadsLaw, DeclaredLaw};

/// No fault of the elements of a made design holds (LEF/DEF 5.8, SCANCHAINS). It does nothing; its contract is the law.
pub fn made_elements_law()
    ensures law { ElementsLaw }
{}

/// A made netlist and a made design agree (LEF/DEF 5.8, COMPONENTS, NETS). It does nothing; its contract is the law.
pub fn made_agreement_law()
    ensures law { AgreementLaw }
{}

/// The paths that the chains of a made design ask for are its scan paths, with few bits, and nothing is wrong with them (LEF/DEF 5.8,
/// SCANCHAINS). It does nothing; its contract is the law.
pub fn made_traces_law()
    ensures asked { AskedLaw }
    ensures traced { TracedLaw }
    ensures bits { BitsLaw }
{}

/// The pins of these paths stand in the nets of a made design, and their cells are placed (LEF/DEF 5.8, NETS, COMPONENTS). It does
/// nothing; its contract is the law.
pub fn made_places_law()
    ensures nets { NetsLaw }
    ensures places { PlacesLaw }
{}

/// The chains of a made design aren't refused beside these paths (LEF/DEF 5.8, SCANCHAINS). It does nothing; its contract is the law.
pub fn made_chains_law()
    ensures law { ChainsLaw }
{}

/// A head of patterns with the ScanChain blocks of a made design fits its paths, and declares the ports of its chains (IEEE 1450-1999).
/// It does nothing; its contract is the law.
pub fn made_heads_law()
    ensures heads { HeadsLaw }
    ensures declared { DeclaredLaw }
{}
