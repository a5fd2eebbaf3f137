//! The chains and the paths of the files.
ghost use Rattle.std.specs.Prelude.{◌≡◌, IfOk, IsSomeAnd};
ghost use Rattle.base_types.specs.declared.fault.Fault.{Fault as ghost_fault};
ghost use Rattle.base_types.specs.FirstFault.{IfFault};
ghost use Rattle.netlist_core.specs.Joining.{AreClassesOf};
ghost use Rattle.head_chains.specs.Chains.{HoldsInChains};
ghost use Rattle.design_elements.specs.Elements.{chain_specs};
ghost use Rattle.design_files.specs.Files.{Texts};
ghost use Rattle.design_files.specs.Faults.{IsFilesFault};
ghost use Rattle.design_files.specs.Stages.{AreKnown, AreSound, DoAgree, HavePaths, IsFirstOfKnown};

use crate::files::Files;
use base_types::ReadFault;
use chain_rules::ChainSpec;
use chain_trace::Path;
use def_reader::agree;
use design_elements::elements_of;
use head_chains::paths_of;
use netlist_core::{Classes, classes_of};
use std::alloc::Global;
use stil_types::StilHead;

/// The chains as numbers, and the classes of joined nets.
#[derive(Drop)]
pub(crate) struct Agreed {
    pub(crate) chains: Vec<ChainSpec>,
    pub(crate) classes: Classes,
}

/// The chains of the files, or the first fault: of the elements, of the agreement with the netlist.
pub(crate) fn agreed_in(alloc: Global, files: &Files) -> Result<Agreed, ReadFault>
    requires sound { AreSound files.now.macros files.now.netlist files.now.design }
    ensures chains { IfOk result (λ r. r.chains.items ≡ chain_specs files.now.netlist files.now.table files.now.design) }
    ensures classes { IfOk result (λ r. AreClassesOf files.now.netlist r.classes) }
    ensures agreed { IfOk result (λ r. DoAgree files.now.netlist files.now.table files.now.macros files.now.design) }
    ensures fault { IfFault result (λ fault. (t : Texts) → AreKnown t files.now.table files.now.macros files.now.netlist files.now.design → IsFilesFault t fault) }
{
    let netlist = &files.netlist;
    let chains = elements_of(alloc, &files.design, netlist, &files.table, &files.macros)?;
    let classes = classes_of(alloc, netlist)?;
    agree(alloc, netlist, &classes, &files.design)?;
    Ok(Agreed { chains, classes })
}

/// The chains as numbers, the head of the patterns where there are some, and the paths that are asked for.
#[derive(Drop)]
pub(crate) struct Traced {
    pub(crate) chains: Vec<ChainSpec>,
    pub(crate) head: Option<StilHead>,
    pub(crate) paths: Vec<Path>,
}

/// The paths that the head asks for, or else the design; or their first fault.
pub(crate) fn paths_in(
    alloc: Global,
    files: &Files,
    classes: &Classes,
    head: &Option<StilHead>,
) -> Result<Vec<Path>, ReadFault>
    requires sound { AreSound files.now.macros files.now.netlist files.now.design }
    requires agreed { DoAgree files.now.netlist files.now.table files.now.macros files.now.design }
    requires classes { AreClassesOf files.now.netlist classes.now }
    requires declared { (fault : ghost_fault) → IsSomeAnd head.now (λ h. HoldsInChains files.now.design h fault) → ⊥ }
    ensures paths { IfOk result (λ paths. HavePaths files.now.netlist files.now.table files.now.design head.now paths.items) }
    ensures fault { IfFault result (IsFirstOfKnown files.now.table files.now.macros files.now.netlist files.now.design head.now) }
{
    paths_of(
        alloc,
        &files.netlist,
        classes,
        &files.table,
        Some(&files.design),
        head.as_ref(),
    )
}
