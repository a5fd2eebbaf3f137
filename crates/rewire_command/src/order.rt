//! The path with its steps in the order of the words.
ghost use Rattle.std.specs.Prelude.{◌≡◌, List, ℕ, false, find, filter_map, IfOk, OnOk, if◌then◌else◌, Some, None, Option};
ghost use Rattle.std.specs.Borrow.{Bor};
ghost use Rattle.std.specs.Option.{option_or};
ghost use Rattle.std.specs.Str.{bytes_eq};
ghost use Rattle.std.specs.HashMap.{get};
ghost use Rattle.chain_trace.specs.declared.path.Step.{Step};
ghost use Rattle.base_types.specs.FirstFault.{IfFault};
ghost use Rattle.rewire_command.specs.Rewiring.{instance_name, instance_names, step_named, ordered, is_free_at_end, IsTraced};
ghost use Rattle.rewire_command.specs.Faults.{AreInstances, last_name, IsRewireFault};

use crate::names::Names;
use crate::rewire::Rewire;
use base_types::{Fault, Kind, Name, NoMemory, ReadFault, Rows};
use chain_trace::{Path, Step};
use netlist_core::Netlist;
use std::alloc::Global;
use std::collections::HashMap;

/// The name of a step's instance.
fn instance_name<'a>(netlist: &'a Netlist, step: Step) -> &'a [u8]
    ensures value { result.now ≡ instance_name netlist.now step }
{
    match netlist.instances.as_slice().get(step.instance as usize) {
        Some(placed) => placed.name.bytes(),
        None => &[],
    }
}

fn instance_names<'a>(
    alloc: Global,
    netlist: &'a Netlist,
    path: &Path,
) -> Result<Names<'a>, NoMemory>
    ensures value { IfOk result (λ names. names ≡ instance_names netlist.now path.now) }
{
    let mut names = Names::new(alloc);
    for step in path.steps.as_slice() {
        names.push(instance_name(netlist, *step))?;
    }
    Ok(names)
}

fn unit_names<'a>(alloc: Global, rewire: &'a Rewire) -> Result<Names<'a>, NoMemory>
    ensures value { IfOk result (λ names. names ≡ rewire.now.units) }
{
    let mut names = Names::new(alloc);
    names.push_all(rewire.units.as_slice())?;
    Ok(names)
}

/// A step by its name, where no other has the name.
fn add<'a>(steps: &mut HashMap<&'a [u8], Step>, name: &'a [u8], step: Step) -> Result<(), NoMemory>
    ensures ok { OnOk result ((q : Bor (List ℕ)) → get (λ x y. bytes_eq x.now y.now) steps.new q ≡ option_or (get (λ x y. bytes_eq x.now y.now) steps.old q) (if bytes_eq name.now q.now then Some step else None)) }
{
    if !steps.contains_key(&name) {
        steps.insert(name, step)?;
    }
    Ok(())
}

/// The steps by the names of their instances.
fn steps_by_name<'a>(
    alloc: Global,
    netlist: &'a Netlist,
    path: &Path,
) -> Result<HashMap<&'a [u8], Step>, NoMemory>
    ensures value { IfOk result (λ steps. (q : Bor (List ℕ)) → get (λ x y. bytes_eq x.now y.now) steps q ≡ step_named netlist.now path.now q.now) }
{
    let mut steps = HashMap::new(alloc);
    for step in path.steps.as_slice() {
        add(&mut steps, instance_name(netlist, *step), *step)?;
    }
    Ok(steps)
}

/// The steps in the order of the names; a name of no step is left out.
fn ordered_steps<'a>(
    alloc: Global,
    steps: &HashMap<&'a [u8], Step>,
    names: &'a [Name],
) -> Result<Rows<Step>, NoMemory>
    ensures value { (find : List ℕ → Option Step) → ((q : Bor (List ℕ)) → get (λ x y. bytes_eq x.now y.now) steps.now q ≡ find q.now) → IfOk result (λ ordered. ordered ≡ filter_map find names.now) }
{
    let mut ordered = Vec::new(alloc);
    for name in names {
        if let Some(step) = steps.get(&name.bytes()) {
            ordered.push(*step)?;
        }
    }
    Ok(Rows::of(ordered))
}

/// Refuses names other than those of the path's instances, and another last one where the path's output isn't free, as it is said.
fn check_names(
    alloc: Global,
    netlist: &Netlist,
    path: &Path,
    output_free: bool,
    rewire: &Rewire,
) -> Result<(), ReadFault>
    requires free { output_free ≡ is_free_at_end netlist.now rewire.now path.now path.now.output }
    ensures instances { IfOk result (λ _. AreInstances rewire.now.units (instance_names netlist.now path.now)) }
    ensures last { IfOk result (λ _. is_free_at_end netlist.now rewire.now path.now path.now.output ≡ false → last_name rewire.now.units ≡ last_name (instance_names netlist.now path.now)) }
    ensures fault { IfFault result (λ fault. (text : List ℕ) → IsTraced text rewire.now netlist.now path.now → IsRewireFault text rewire.now fault) }
{
    let units = unit_names(alloc, rewire)?;
    let names = instance_names(alloc, netlist, path)?;
    if !units.are_instances(alloc, &names)? {
        return Err(ReadFault::Fault(Fault::of_words(Kind::NotPermutation)));
    }
    if units.last() != names.last() && !output_free {
        return Err(ReadFault::Fault(Fault::of_words(Kind::PinnedLast)));
    }
    Ok(())
}

/// The path with its steps in the order of the words, where it is said whether its output is free.
pub(crate) fn ordered_path(
    alloc: Global,
    netlist: &Netlist,
    path: &Path,
    output_free: bool,
    rewire: &Rewire,
) -> Result<Path, ReadFault>
    requires free { output_free ≡ is_free_at_end netlist.now rewire.now path.now path.now.output }
    ensures value { IfOk result (λ new. new ≡ ordered netlist.now path.now rewire.now.units) }
    ensures instances { IfOk result (λ _. AreInstances rewire.now.units (instance_names netlist.now path.now)) }
    ensures last { IfOk result (λ _. is_free_at_end netlist.now rewire.now path.now path.now.output ≡ false → last_name rewire.now.units ≡ last_name (instance_names netlist.now path.now)) }
    ensures fault { IfFault result (λ fault. (text : List ℕ) → IsTraced text rewire.now netlist.now path.now → IsRewireFault text rewire.now fault) }
{
    check_names(alloc, netlist, path, output_free, rewire)?;
    let steps = steps_by_name(alloc, netlist, path)?;
    Ok(Path {
        input: path.input,
        output: path.output,
        steps: ordered_steps(alloc, &steps, rewire.units.as_slice())?,
    })
}
