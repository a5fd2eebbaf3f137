//! Laws of the definitions, each carried by a contract.
ghost use Rattle.stil_written.specs.Laws.{FrontLaw, HeadFrontLaw, OtherLaw, PiecesLaw, ShapeLaw, SizeLaw, WholeLaw};

/// A text that isn't refused by its size denotes what it denotes whatever its size. It does nothing; its contract is the law.
pub fn size_law()
    ensures law { SizeLaw }
{}

/// Where each statement is written so that it reads as it should, the whole text is read so, and runs alike. It does nothing; its
/// contract is the law.
pub fn whole_law()
    ensures law { WholeLaw }
{}

/// What is written piece by piece is a prefix of the written form at any stop, and all of it at the end. It does nothing; its
/// contract is the law.
pub fn pieces_law()
    ensures law { PiecesLaw }
{}

/// A statement that is no scan call and no Loop may stand as it was, since its form doesn't hang on the chains. It does nothing; its
/// contract is the law.
pub fn other_law()
    ensures shape { ShapeLaw }
    ensures other { OtherLaw }
{}

/// Where a head ends stands nothing or a Pattern; what is written behind it begins as it did, as far as the head's end looks. It does
/// nothing; its contract is the law.
pub fn front_law()
    ensures ends { HeadFrontLaw }
    ensures law { FrontLaw }
{}
