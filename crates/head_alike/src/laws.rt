//! Laws of tokens side by side.
ghost use Rattle.head_alike.specs.Laws.{SplitLaw, ChainLaw, HeadLaw};
ghost use Rattle.head_alike.specs.Chains.{StaysLaw, SaidLaw, LengthLaw, InversionLaw};
ghost use Rattle.head_alike.specs.Cells.{CellsLaw};
ghost use Rattle.head_alike.specs.Trees.{JoinedLaw, InnerLaw, ClausesLaw};
ghost use Rattle.head_alike.specs.Erased.{ErasedLaw};

/// A statement in a ScanChain says anew what is declared: another number behind ScanLength, another bit behind ScanInversion, and
/// cells one behind the other up to a `;`. It does nothing; its contract is the law.
pub fn clause_law()
    ensures stays { StaysLaw }
    ensures said { SaidLaw }
    ensures length { LengthLaw }
    ensures inversion { InversionLaw }
    ensures cells { CellsLaw }
{}

/// Statements one behind the other are the statements of both texts, and so are those in a block; and without what may be written
/// anew the tokens of both are equal. It does nothing; its contract is the law.
pub fn tree_law()
    ensures joined { JoinedLaw }
    ensures inner { InnerLaw }
    ensures erased { ErasedLaw }
    ensures clauses { ClausesLaw }
{}

/// The statements of tokens side by side stand side by side; a ScanChain whose block says anew what a declaration says is read as that
/// declaration; and a text with such statements is a head that says what is meant. It does nothing; its contract is the law.
pub fn head_law()
    ensures split { SplitLaw }
    ensures chain { ChainLaw }
    ensures law { HeadLaw }
{}
