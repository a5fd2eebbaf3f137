ghost use Rattle.path_chains.specs.Numbered.{CellsLaw};
ghost use Rattle.path_chains.specs.Ranked.{RankLaw};

/// Paths over the same steps make scan chains (IEEE 1450-1999, ScanStructures) of the same cells, and the ranks of the bits number them. The
/// call does nothing; its contract is the law.
pub fn cells_law()
    ensures cells { CellsLaw }
    ensures ranks { RankLaw }
{}
