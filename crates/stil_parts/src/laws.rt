//! Laws of the definitions, each carried by a contract.
ghost use Rattle.stil_parts.specs.ByTokens.{OpensLaw, PartLaw, HeadPlaceLaw};
ghost use Rattle.stil_parts.specs.Ending.{EndLaw};
ghost use Rattle.stil_parts.specs.Heads.{HeadLaw};
ghost use Rattle.stil_parts.specs.Laws.{BytesLaw, ShownLaw};

/// In a Pattern a scan ends a statement where its tokens end it, and nowhere else. It does nothing; its contract is the law.
pub fn end_law()
    ensures law { EndLaw }
{}

/// In a Pattern the bytes show something where a gap begins, where their tokens hold a whole statement, or where they are more
/// than a part may have, and nowhere else. It does nothing; its contract is the law.
pub fn shown_law()
    ensures law { ShownLaw }
{}

/// What the bytes show of a head's end doesn't change with bytes that follow. It does nothing; its contract is the law.
pub fn head_law()
    ensures law { HeadLaw }
{}

/// Where a text isn't refused, none of its bytes is lost. It does nothing; its contract is the law.
pub fn bytes_law()
    ensures law { BytesLaw }
{}

/// At the top a scan finds the brace that opens a Pattern, where the tokens have the word Pattern and a block behind it, and else
/// the end of the statement, where its tokens end it; so a part of a text is told by tokens alone. It does nothing; its contract
/// is the law.
pub fn opens_law()
    ensures law { OpensLaw }
    ensures parts { PartLaw }
{}

/// The head of a text ends where, by the tokens, the first statement begins whose word is Pattern, or where the text ends. It does
/// nothing; its contract is the law.
pub fn head_place_law()
    ensures law { HeadPlaceLaw }
{}
