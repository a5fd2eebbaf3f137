ghost use Rattle.net_edit.specs.Laws.{AgreeLaw, ErasedLaw, NetlistLaw, PathsLaw, PinsOnceLaw};

/// The edits between several paths and others over the same steps: the netlist with them has the new paths, each alone, is a
/// netlist, is the read one but for the scan sinks and the tails, and agrees with a design (LEF/DEF 5.8) whose moved sinks stand
/// in the nets of their new sources. The call does nothing; its contract is the law.
pub fn edits_law()
    ensures paths { PathsLaw }
    ensures netlist { NetlistLaw }
    ensures erased { ErasedLaw }
    ensures agrees { AgreeLaw }
    ensures pins { PinsOnceLaw }
{}
