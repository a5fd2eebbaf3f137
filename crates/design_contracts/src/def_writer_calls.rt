//! The contracts of `def_writer`.
ghost use Rattle.base_types.specs.declared.fault.Fault.{Fault};
ghost use Rattle.chain_rules.specs.Legality.{IsLegal};
ghost use Rattle.chain_rules.specs.Rules.{AreRulesOf};
ghost use Rattle.def_reader.specs.Agreement.{Agree};
ghost use Rattle.def_reader.specs.Denoted.{DenotesDesign};
ghost use Rattle.def_writer.specs.DefTexts.{IsDefText, IsErasedDef, IsPlacedAfter};
ghost use Rattle.design_elements.specs.Elements.{chain_specs};
ghost use Rattle.design_places.specs.NetPins.{HoldsInNets};
ghost use Rattle.net_edit.specs.Rearranged.{AreRearranged};
ghost use Rattle.netlist_core.specs.Netlists.{IsNetlist};
ghost use Rattle.path_numbers.specs.Numbers.{path_specs};
ghost use Rattle.plan_paths.specs.NewPaths.{new_paths};
ghost use Rattle.std.specs.Prelude.{IfOk, Some, length, ◌<◌, ◌^◌, ◌≡◌, ◌≤◌};
ghost use Rattle.traced_paths.specs.Bits.{all_bits};
ghost use Rattle.traced_paths.specs.Traced.{NameEntries};

use base_types::NoMemory;
use cell_table::CellTable;
use chain_rules::{ChainSpec, Plan, Rules};
use chain_trace::Path;
use def_edit::DefOut;
use def_reader::Design;
use netlist_core::Netlist;
use std::alloc::Global;

/// As `def_writer::def_text`.
pub fn def_text(
    alloc: Global,
    bytes: &[u8],
    table: &CellTable,
    netlist: &Netlist,
    design: &Design,
    paths: &[Path],
    new: &[Path],
    chains: &[ChainSpec],
    rules: &Rules,
    plan: &Plan,
) -> Result<DefOut, NoMemory>
    requires size { length bytes.now < 2 ^ 32 }
    requires read { DenotesDesign bytes.now table.now design.now }
    requires netlist { IsNetlist netlist.now }
    requires agree { Agree netlist.now design.now }
    requires standing { (fault : Fault) → HoldsInNets netlist.now table.now design.now paths.now fault → ⊥ }
    requires entries { NameEntries netlist.now table.now paths.now }
    requires few { all_bits netlist.now table.now paths.now ≤ 262144 }
    requires chains { chains.now ≡ chain_specs netlist.now table.now design.now }
    requires rules { AreRulesOf (path_specs netlist.now table.now (Some design.now) paths.now) chains.now rules.now }
    requires legal { IsLegal rules.now plan.now }
    requires new { new.now ≡ new_paths paths.now rules.now plan.now }
    requires rearranged { AreRearranged netlist.now table.now paths.now new.now }
    ensures text { IfOk result (IsDefText bytes.now netlist.now table.now design.now paths.now rules.now plan.now) }
    // But for what scan wiring may change it is the read text,
    ensures erased { IfOk result (λ out. IsErasedDef bytes.now netlist.now table.now design.now paths.now new.now out.text) }
    // and denotes a design in which exactly the sinks with another source moved.
    ensures denoted { IfOk result (λ out. IsPlacedAfter netlist.now table.now design.now paths.now new.now out.text) }
{
    def_writer::def_text(
        alloc, bytes, table, netlist, design, paths, new, chains, rules, plan,
    )
}
