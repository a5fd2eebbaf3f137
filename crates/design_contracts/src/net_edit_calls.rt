//! The contracts of `net_edit`.
ghost use Rattle.chain_trace.specs.declared.path.Path.{Path as one_path};
ghost use Rattle.net_edit.specs.Agreement.{AgreeOnPins, AreMoved, Placing};
ghost use Rattle.net_edit.specs.Changes.{changes};
ghost use Rattle.net_edit.specs.Laws.{AgreeLaw, ErasedLaw, HasPath, NetlistLaw, PathsLaw, PinsOnceLaw};
ghost use Rattle.net_edit.specs.Rearranged.{AreRearranged};
ghost use Rattle.net_edit.specs.Tails.{AreTailNames, freed_between, rewired};
ghost use Rattle.net_edit.specs.Wires.{AreEditsFor, IsErasedAlike, names_of};
ghost use Rattle.net_edit.specs.declared.changes.Change.{Change as one_change};
ghost use Rattle.netlist_core.specs.Netlists.{IsNetlist};
ghost use Rattle.netlist_core.specs.declared.netlist.NetId.{NetId as of_net};
ghost use Rattle.std.specs.Prelude.{Bool, Contains, IfOk, true, ◌≡◌};

use base_types::NoMemory;
use cell_table::CellTable;
use chain_trace::Path;
use net_edit::Edits;
use netlist_core::Netlist;
use std::alloc::Global;

/// As `net_edit::edits_for`.
pub fn edits_for(
    alloc: Global,
    netlist: &Netlist,
    table: &CellTable,
    paths: &[Path],
    new: &[Path],
) -> Result<Edits, NoMemory>
    requires netlist { IsNetlist netlist.now }
    // Where the new paths have the steps of the old ones, and only outputs that are assigned or direct get another source, these
    // are the edits between both,
    ensures value { AreRearranged netlist.now table.now paths.now new.now → IfOk result (AreEditsFor netlist.now table.now paths.now new.now) }
    // each freed port has a name for its tail,
    ensures names { AreRearranged netlist.now table.now paths.now new.now → IfOk result (λ edits. AreTailNames netlist.now (freed_between netlist.now table.now paths.now new.now) (names_of edits)) }
    // with the edits it is a netlist,
    ensures netlist { AreRearranged netlist.now table.now paths.now new.now → IfOk result (λ edits. IsNetlist (rewired netlist.now table.now (names_of edits) paths.now new.now)) }
    // in which the outputs have the new paths and no others,
    ensures paths { AreRearranged netlist.now table.now paths.now new.now → IfOk result (λ edits. (path : one_path) → Contains new.now path → HasPath (rewired netlist.now table.now (names_of edits) paths.now new.now) table.now path) }
    // but for the scan sinks and the tails it is the one that was read,
    ensures erased { (free : of_net → Bool) → AreRearranged netlist.now table.now paths.now new.now → ((c : one_change) → Contains (changes paths.now new.now) c → free c.port ≡ true) → IfOk result (λ edits. IsErasedAlike netlist.now table.now free paths.now new.now (names_of edits)) }
    // and it agrees with a design whose moved sinks stand in the nets of their new sources.
    ensures agrees { (before after : Placing) → AreRearranged netlist.now table.now paths.now new.now → AreMoved netlist.now table.now paths.now new.now before after → AgreeOnPins netlist.now before → IfOk result (λ edits. AgreeOnPins (rewired netlist.now table.now (names_of edits) paths.now new.now) after) }
{
    net_edit::edits_for(alloc, netlist, table, paths, new)
}

/// As `net_edit::edits_law`.
pub fn edits_law()
    ensures paths { PathsLaw }
    ensures netlist { NetlistLaw }
    ensures erased { ErasedLaw }
    ensures agrees { AgreeLaw }
    ensures pins { PinsOnceLaw }
{
    net_edit::edits_law()
}
