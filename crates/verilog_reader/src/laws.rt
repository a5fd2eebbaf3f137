//! What holds of every netlist that a text denotes.
ghost use Rattle.verilog_reader.specs.Denoted.{OneNetlistLaw, OneDeclaredLaw};

/// A text denotes at most one netlist, whose net numbers are the places of the nets' names, and what it declares is one list
/// of names, kinds and bounds at most. The call does nothing; its contract is the law.
pub fn netlist_law()
    ensures one { OneNetlistLaw }
    ensures declared { OneDeclaredLaw }
{}
