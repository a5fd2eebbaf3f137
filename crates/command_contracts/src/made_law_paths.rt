//! The contracts of `made_law`.
ghost use Rattle.made_law.specs.Paths.Laws.{BitsLaw, NetlistLaw, PathLaw};

/// As `made_law::made_paths_law`.
pub fn made_paths_law()
    ensures netlist { NetlistLaw }
    ensures path { PathLaw }
    ensures bits { BitsLaw }
{
    made_law::made_paths_law()
}
