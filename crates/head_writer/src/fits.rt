ghost use Rattle.head_writer.specs.Fits.{NamesLaw, OwnLaw, FitLaw};
ghost use Rattle.head_writer.specs.Anew.{KeptLaw, AnewLaw};

/// A list of ScanCells (IEEE 1450-1999, ScanStructures) that was read has the bytes of each of its names. Where the checks of a head refused
/// nothing, the declarations of its chains for new paths over the same steps fit it: each has a bit and 32 bits count its bits, and
/// where ScanCells stood each bit has the bytes of a name that was read. The call does nothing; its contract is the law.
pub fn fit_law()
    ensures names { NamesLaw }
    ensures own { OwnLaw }
    ensures fits { FitLaw }
{}

/// Nothing is wrong with what is declared of the new paths beside the same paths of a netlist that keeps the module's name and the
/// instances, as the written one does: ports, ScanLength, ScanInversion and ScanCells (IEEE 1450-1999, ScanStructures) are right. The call
/// does nothing; its contract is the law.
pub fn anew_law()
    ensures kept { KeptLaw }
    ensures anew { AnewLaw }
{}
