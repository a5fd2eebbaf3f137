ghost use Rattle.retargeted_patterns.specs.Progress.{FiguresLaw};
ghost use Rattle.retargeted_patterns.specs.Texts.{TextsLaw};

/// What is counted of statements that are written one after the other is what they sum up to. The call does nothing; its contract is
/// the law.
pub fn figures_law()
    ensures law { FiguresLaw }
{}

/// Beside other declarations of chains (IEEE 1450-1999, ScanStructures) with the same ports the text of a statement is the same. The
/// call does nothing; its contract is the law.
pub fn texts_law()
    ensures law { TextsLaw }
{}
