//! Laws of the netlists of made designs, each carried by a contract.
ghost use Rattle.made_law.specs.Paths.Laws.{NetlistLaw, PathLaw, BitsLaw};

/// The netlist of 8 to 16384 units is one; from the input port of each chain its scan path leads over the units of the chain in rising
/// order to its output port, and each unit gives one bit that nothing inverts (IEEE 1450-1999, ScanStructures). It does nothing; its
/// contract is the law.
pub fn made_paths_law()
    ensures netlist { NetlistLaw }
    ensures path { PathLaw }
    ensures bits { BitsLaw }
{}
