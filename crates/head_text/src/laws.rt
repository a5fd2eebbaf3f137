//! Laws of the written text of a head.
ghost use Rattle.head_text.specs.Mixes.{MixLaw};
ghost use Rattle.head_text.specs.Ready.{PiecesLaw, StepsLaw, NumberLaw};
ghost use Rattle.head_text.specs.Laws.{TextLaw, HeadLaw};

/// The tokens of a text in which runs of pieces are written anew stand beside those read. It does nothing; its contract is the law.
pub fn mix_law()
    ensures law { MixLaw }
{}

/// Every text is its pieces; the steps of mixes behind mixes; and another number may stand where one stood. It does nothing; its
/// contract is the law.
pub fn ready_law()
    ensures pieces { PiecesLaw }
    ensures steps { StepsLaw }
    ensures number { NumberLaw }
{}

/// The written text of a head says what was read but for the chains, and of these what is declared anew; it has the tokens of the read
/// one but for the numbers and lists of its chains; and what is replaced lies in its order. It does nothing; its contract is the law.
pub fn text_law()
    ensures law { TextLaw }
{}

/// A text that begins with a written head and goes on with nothing, or with a Pattern where a Pattern stood, denotes a head that ends
/// there and says what was read but for the chains, and of these what is declared anew. It does nothing; its contract is the law.
pub fn head_law()
    ensures law { HeadLaw }
{}
