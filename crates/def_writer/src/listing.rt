//! Which steps the chains of a design list.
ghost use Rattle.std.specs.Prelude.{◌≡◌, ◌||◌, IfOk, OnOk};
ghost use Rattle.std.specs.List.{list_any};
ghost use Rattle.chain_trace.specs.declared.path.Step.{Step as of_step};
ghost use Rattle.traced_paths.specs.Steps.{is_marked};
ghost use Rattle.def_writer.specs.PlanChains.{names_step, lists_step, is_in_lists, is_listed, is_ordered};
ghost use Rattle.def_writer.specs.Seen.{AreSteps};

use base_types::NoMemory;
use chain_rules::{ChainSpec, ElementSpec, ListSpec};
use chain_trace::Step;
use std::alloc::Global;
use std::collections::HashSet;
use std::marker::Model;

/// Chains with the scan paths that they list, and those in ordered lists. Contracts see the chains.
#[derive(Drop)]
pub(crate) struct Listing<'d> {
    chains: &'d [ChainSpec],
    listed: HashSet<(u32, u32)>,
    ordered: HashSet<(u32, u32)>,
}

impl<'d> Model for Listing<'d> {
    ghost use Rattle.std.specs.Prelude.{List};
    ghost use Rattle.chain_rules.specs.declared.spec.ChainSpec.{ChainSpec};
    ghost use Rattle.def_writer.specs.Seen.{IsListing};

    ghost Value = { List ChainSpec };

    ghost view = { λ l. l.chains.now };

    ghost invariant = { λ l. IsListing l.chains.now l.listed l.ordered };
}

/// Puts the scan paths of elements in a set.
fn put_elements(set: &mut HashSet<(u32, u32)>, elements: &[ElementSpec]) -> Result<(), NoMemory>
    ensures value { OnOk result ((step : of_step) → is_marked set.new step ≡ (is_marked set.old step || list_any (names_step step) elements.now)) }
{
    for element in elements {
        set.insert((element.instance, element.path))?;
    }
    Ok(())
}

/// Puts those of a list in a set, where it is ordered or floating ones count too.
fn put_list(set: &mut HashSet<(u32, u32)>, floating: bool, list: &ListSpec) -> Result<(), NoMemory>
    ensures value { OnOk result ((step : of_step) → is_marked set.new step ≡ (is_marked set.old step || lists_step floating step list.now)) }
{
    match list {
        ListSpec::Floating(elements) => {
            if floating {
                return put_elements(set, elements.as_slice());
            }
            Ok(())
        }
        ListSpec::Ordered(elements) => put_elements(set, elements.as_slice()),
    }
}

fn put_lists(
    set: &mut HashSet<(u32, u32)>,
    floating: bool,
    lists: &[ListSpec],
) -> Result<(), NoMemory>
    ensures value { OnOk result ((step : of_step) → is_marked set.new step ≡ (is_marked set.old step || list_any (lists_step floating step) lists.now)) }
{
    for list in lists {
        put_list(set, floating, list)?;
    }
    Ok(())
}

/// The scan paths in the ordered lists of chains, and in the floating ones where these count too.
fn steps_in(
    alloc: Global,
    floating: bool,
    chains: &[ChainSpec],
) -> Result<HashSet<(u32, u32)>, NoMemory>
    ensures value { IfOk result (AreSteps (is_in_lists floating chains.now)) }
{
    let mut set = HashSet::new(alloc);
    for chain in chains {
        put_lists(&mut set, floating, chain.lists.as_slice())?;
    }
    Ok(set)
}

impl<'d> Listing<'d> {
    /// The chains to look steps up in.
    pub(crate) fn of(alloc: Global, chains: &'d [ChainSpec]) -> Result<Listing<'d>, NoMemory>
        ensures value { IfOk result (λ listing. listing ≡ chains.now) }
    {
        Ok(Listing {
            chains,
            listed: steps_in(alloc, true, chains)?,
            ordered: steps_in(alloc, false, chains)?,
        })
    }

    /// Whether a chain lists the step.
    pub(crate) fn lists(&self, step: Step) -> bool
        ensures value { result ≡ is_listed self.now step }
    {
        self.listed.contains(&(step.instance, step.path))
    }

    /// Whether one does so in an ordered list.
    pub(crate) fn orders(&self, step: Step) -> bool
        ensures value { result ≡ is_ordered self.now step }
    {
        self.ordered.contains(&(step.instance, step.path))
    }
}
