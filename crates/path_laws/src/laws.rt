ghost use Rattle.path_laws.specs.Laws.{DeclaredLaw};

/// Where the checks of a head (IEEE 1450-1999, ScanStructures) refused nothing, each path of its ScanOuts has as many bits as its ScanLength
/// says, and so at least one, and the calls of its patterns fit the chains along them. It does nothing; its contract is the law.
pub fn declared_law()
    ensures law { DeclaredLaw }
{}
