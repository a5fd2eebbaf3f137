//! The rules and the places of the files' chains.
ghost use Rattle.std.specs.Prelude.{◌≡◌, ◌≢◌, true, false, IfOk, OnOk, IsSomeAnd, Some};
ghost use Rattle.base_types.specs.declared.fault.Fault.{Fault as ghost_fault};
ghost use Rattle.base_types.specs.FirstFault.{IfFault, IsFirstFault};
ghost use Rattle.chain_rules.specs.Stretches.{AreChainSpecs};
ghost use Rattle.chain_rules.specs.Legality.{IsLegal};
ghost use Rattle.chain_rules.specs.Rules.{AreRulesOf};
ghost use Rattle.wire_cost.specs.Lengths.{ArePlaced, IsPlanAt};
ghost use Rattle.path_numbers.specs.Numbers.{path_specs};
ghost use Rattle.head_checks.specs.Heads.{HoldsInHeads};
ghost use Rattle.design_elements.specs.Elements.{chain_specs};
ghost use Rattle.design_places.specs.Ends.{HoldsInPlaces, ends_of};
ghost use Rattle.design_files.specs.Stages.{AreSound, DoAgree, HavePaths, AreInDesign, HaveNoChainFault, IsFirstOf, IsFirstOfKnown};

use crate::files::Files;
use crate::traced::Traced;
use crate::{chains_law, measured_law};
use base_types::{Fault, Kind, ReadFault};
use chain_rules::{PathSpec, Rules, units_of};
use design_places::{check_nets, check_places, ends_of};
use head_checks::check_heads;
use path_numbers::path_specs;
use std::alloc::Global;
use traced_paths::check_bits;
use wire_cost::Ends;

/// Whether the cells of the paths are placed.
fn places_of(alloc: Global, files: &Files, traced: &Traced) -> Result<(), ReadFault>
    ensures fault { IfFault result (IsFirstFault (HoldsInPlaces files.now.netlist files.now.macros files.now.design traced.now.paths.items)) }
    ensures no_fault { OnOk result ((fault : ghost_fault) → HoldsInPlaces files.now.netlist files.now.macros files.now.design traced.now.paths.items fault → ⊥) }
{
    check_places(
        alloc,
        &files.netlist,
        &files.table,
        &files.macros,
        &files.design,
        &traced.paths,
    )
}

/// Whether a fault of the chains comes behind PlaceUnknown.
fn comes_behind(kind: Kind) -> bool
    ensures yes { result ≡ true → kind ≡ Kind.TooManyUnits }
    ensures no { result ≡ false → kind ≢ Kind.TooManyUnits }
{
    kind == Kind::TooManyUnits
}

/// The first of a fault of the chains and of the places of the paths' cells: TooManyUnits comes behind PlaceUnknown, and the other kinds of
/// the chains before it.
fn first_of(alloc: Global, files: &Files, traced: &Traced, fault: Fault) -> ReadFault
    ensures first { IsFirstOf files.now.netlist files.now.macros files.now.design traced.now.paths.items fault result }
{
    if comes_behind(fault.kind) {
        match places_of(alloc, files, traced) {
            Ok(()) => ReadFault::Fault(fault),
            Err(refused) => refused,
        }
    } else {
        ReadFault::Fault(fault)
    }
}

/// The rules of the chains beside the paths, or the first fault of the chains and of the places of the paths' cells.
pub(crate) fn rules_beside(
    alloc: Global,
    files: &Files,
    traced: &Traced,
    specs: &[PathSpec],
) -> Result<Rules, ReadFault>
    requires agreed { DoAgree files.now.netlist files.now.table files.now.macros files.now.design }
    requires paths { HavePaths files.now.netlist files.now.table files.now.design traced.now.head traced.now.paths.items }
    requires inside { AreInDesign files.now.netlist files.now.table files.now.design traced.now.head traced.now.paths.items }
    requires chains { traced.now.chains.items ≡ chain_specs files.now.netlist files.now.table files.now.design }
    requires specs { specs.now ≡ path_specs files.now.netlist files.now.table (Some files.now.design) traced.now.paths.items }
    requires belong { AreChainSpecs specs.now traced.now.chains.items }
    ensures rules { IfOk result (AreRulesOf specs.now traced.now.chains.items) }
    ensures legal { IfOk result (λ rules. IsLegal rules rules.read) }
    ensures none { IfOk result (λ rules. HaveNoChainFault files.now.netlist files.now.table files.now.macros files.now.design traced.now.paths.items) }
    ensures fault { IfFault result (IsFirstOfKnown files.now.table files.now.macros files.now.netlist files.now.design traced.now.head) }
{
    match units_of(alloc, specs, &traced.chains) {
        Ok(rules) => {
            places_of(alloc, files, traced)?;
            Ok(rules)
        }
        Err(ReadFault::Fault(fault)) => Err(first_of(alloc, files, traced, fault)),
        Err(ReadFault::NoMemory) => Err(ReadFault::NoMemory),
    }
}

/// What the chains may hold, and where they begin and end.
#[derive(Drop)]
pub(crate) struct Ruled {
    pub(crate) rules: Rules,
    pub(crate) ends: Ends,
}

/// Whether the paths are as the head declares them, where there is one.
fn check_declared(alloc: Global, files: &Files, traced: &Traced) -> Result<(), ReadFault>
    ensures fault { IfFault result (IsFirstFault (λ f. IsSomeAnd traced.now.head (λ h. HoldsInHeads files.now.netlist files.now.table traced.now.paths.items h f))) }
    ensures no_fault { OnOk result ((fault : ghost_fault) → IsSomeAnd traced.now.head (λ h. HoldsInHeads files.now.netlist files.now.table traced.now.paths.items h fault) → ⊥) }
{
    match &traced.head {
        Some(head) => check_heads(alloc, &files.netlist, &files.table, &traced.paths, head),
        None => Ok(()),
    }
}

/// Whether the paths are as the head declares them and have few bits, and their pins stand in the design's nets.
fn check_paths(alloc: Global, files: &Files, traced: &Traced) -> Result<(), ReadFault>
    requires agreed { DoAgree files.now.netlist files.now.table files.now.macros files.now.design }
    requires paths { HavePaths files.now.netlist files.now.table files.now.design traced.now.head traced.now.paths.items }
    ensures inside { OnOk result (AreInDesign files.now.netlist files.now.table files.now.design traced.now.head traced.now.paths.items) }
    ensures fault { IfFault result (IsFirstOfKnown files.now.table files.now.macros files.now.netlist files.now.design traced.now.head) }
{
    check_declared(alloc, files, traced)?;
    if let Err(fault) = check_bits(&files.netlist, &files.table, &traced.paths) {
        return Err(ReadFault::Fault(fault));
    }
    check_nets(
        alloc,
        &files.netlist,
        &files.table,
        &files.design,
        &traced.paths,
    )
}

/// The rules and the places of the chains, or the first fault: of the paths beside the head and in the design, of the chains beside them, of
/// the places of their cells.
pub(crate) fn ruled_in(alloc: Global, files: &Files, traced: &Traced) -> Result<Ruled, ReadFault>
    requires sound { AreSound files.now.macros files.now.netlist files.now.design }
    requires chains { traced.now.chains.items ≡ chain_specs files.now.netlist files.now.table files.now.design }
    requires agreed { DoAgree files.now.netlist files.now.table files.now.macros files.now.design }
    requires paths { HavePaths files.now.netlist files.now.table files.now.design traced.now.head traced.now.paths.items }
    ensures inside { IfOk result (λ r. AreInDesign files.now.netlist files.now.table files.now.design traced.now.head traced.now.paths.items) }
    ensures none { IfOk result (λ r. HaveNoChainFault files.now.netlist files.now.table files.now.macros files.now.design traced.now.paths.items) }
    ensures rules { IfOk result (λ r. AreRulesOf (path_specs files.now.netlist files.now.table (Some files.now.design) traced.now.paths.items) (chain_specs files.now.netlist files.now.table files.now.design) r.rules) }
    ensures legal { IfOk result (λ r. IsLegal r.rules r.rules.read) }
    ensures ends { IfOk result (λ r. r.ends ≡ ends_of files.now.netlist files.now.table files.now.macros files.now.design traced.now.paths.items r.rules) }
    ensures placed { IfOk result (λ r. ArePlaced r.ends) }
    ensures plan { IfOk result (λ r. IsPlanAt r.ends r.rules.read) }
    ensures fault { IfFault result (IsFirstOfKnown files.now.table files.now.macros files.now.netlist files.now.design traced.now.head) }
{
    check_paths(alloc, files, traced)?;
    let specs = path_specs(
        alloc,
        &files.netlist,
        &files.table,
        Some(&files.design),
        &traced.paths,
    )?;
    chains_law();
    let rules = rules_beside(alloc, files, traced, &specs)?;
    let ends = ends_of(
        alloc,
        &files.netlist,
        &files.table,
        &files.macros,
        &files.design,
        &traced.paths,
        &rules,
    )?;
    measured_law();
    Ok(Ruled { rules, ends })
}
