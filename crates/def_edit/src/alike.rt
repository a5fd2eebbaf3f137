//! Laws of texts with changes.
ghost use Rattle.def_edit.specs.Alike.Laws.{SameWordsLaw, FrameLaw, CutLaw, AlikeLaw, DesignLaw};

/// Tokens of the same words are the same statement, but for its places. It does nothing; its contract is the law.
pub fn words_law()
    ensures same { SameWordsLaw }
{}

/// Tokens of the same words are cut into statements of the same words, which open and end the same sections. It does nothing; its
/// contract is the law.
pub fn frame_law()
    ensures same { FrameLaw }
{}

/// A text that has the words of another with changes has its statements with the changes, and is read as them. It does nothing; its
/// contract is the law.
pub fn alike_law()
    ensures cut { CutLaw }
    ensures alike { AlikeLaw }
{}

/// Where the other text denotes a design and the changes are sound, such a text denotes the design with the changes. It does nothing;
/// its contract is the law.
pub fn design_law()
    ensures design { DesignLaw }
{}
