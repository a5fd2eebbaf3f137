//! Laws of the definitions, each carried by a contract.
ghost use Rattle.stil_reader.specs.Laws.{EndLaw, WholeLaw};

/// Where a text shows its head's end, that is where the head ends that it denotes, and the text says this head and then
/// what stands behind it: so a text in pieces says what `read_judged` reads. It does nothing; its contract is the law.
pub fn whole_law()
    ensures ends { EndLaw }
    ensures whole { WholeLaw }
{}
