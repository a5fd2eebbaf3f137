//! Whether chains belong to the paths, as `units_of` asks.
ghost use Rattle.std.specs.Prelude.{◌≡◌, ◌+◌, ◌^◌, ◌<◌, ◌↔◌, ℕ, Some, length, map, sum_by, IsTrue, IfOk, SomeIff, All};
ghost use Rattle.chain_rules.specs.Stretches.{path_at, step_at, elements_in, elements_of, Names, IsOf, IsPlace, StepsOnce, NamedOnce, HasElements, AreChainSpecs};
ghost use Rattle.chain_rules.specs.Belonging.{element_at, IsElement, IsOnlyStep, IsOnlyAmong, IsOnlyElement, IsNamedOnceAt};

use crate::index::Index;
use crate::spec::{ChainSpec, ElementSpec, ListSpec, PathSpec, StepSpec};
use crate::stretch::elements_of_list;
use base_types::{NoMemory, Rows};
use std::alloc::Global;

/// There are fewer paths, steps, chains, elements and bits than this.
const MANY: usize = 4294967296;

/// Whether no step of a path is of the same scan path, but for the one at a place.
fn is_only_on(path: &PathSpec, but: Option<usize>, step: StepSpec) -> bool
    ensures value { IsTrue result ↔ ((k : ℕ) → k < length path.now.steps → IsOf (step_at path.now k) step.instance step.path → but ≡ Some k) }
{
    let steps = path.steps.as_slice();
    for place in 0..steps.len() {
        let same = steps[place].instance == step.instance && steps[place].path == step.path;
        if same && but != Some(place) {
            return false;
        }
    }
    true
}

/// Whether no other step of the paths is of the same scan path.
fn is_only_step(index: &Index<'_>, path: usize, place: usize) -> bool
    requires place { IsPlace index.now path place }
    ensures value { IsTrue result ↔ IsOnlyStep index.now path place }
{
    let step = index.steps(path)[place];
    let paths = index.paths();
    for other in 0..paths.len() {
        let but = if other == path { Some(place) } else { None };
        if !is_only_on(&paths[other], but, step) {
            return false;
        }
    }
    true
}

/// Whether no other step of the paths is of the same scan path as one of this path.
fn are_only_steps(index: &Index<'_>, path: usize) -> bool
    requires path { path < length index.now }
    ensures value { IsTrue result ↔ ((k : ℕ) → IsPlace index.now path k → IsOnlyStep index.now path k) }
{
    for place in 0..index.steps(path).len() {
        if !is_only_step(index, path, place) {
            return false;
        }
    }
    true
}

/// Whether no scan path of an instance stands twice in the paths.
fn stand_once(index: &Index<'_>) -> bool
    ensures value { IsTrue result ↔ StepsOnce index.now }
{
    for path in 0..index.paths().len() {
        if !are_only_steps(index, path) {
            return false;
        }
    }
    true
}

/// The elements of a chain.
fn elements_of_chain(alloc: Global, chain: &ChainSpec) -> Result<Vec<ElementSpec>, NoMemory>
    ensures value { IfOk result (λ elements. elements.items ≡ elements_of chain.now) }
{
    let mut elements = Vec::new(alloc);
    for list in chain.lists.as_slice() {
        elements.extend_from_slice(elements_of_list(list))?;
    }
    Ok(elements)
}

/// The elements of each chain.
fn elements_of_each(alloc: Global, chains: &[ChainSpec]) -> Result<Vec<Rows<ElementSpec>>, NoMemory>
    ensures value { IfOk result (λ lists. lists.items ≡ map elements_of chains.now) }
{
    let mut lists = Vec::with_capacity(alloc, chains.len())?;
    for chain in chains {
        lists.push(Rows::of(elements_of_chain(alloc, chain)?))?;
    }
    Ok(lists)
}

/// Whether none of some elements names the same scan path, but for the one of a number.
fn is_only_among(elements: &[ElementSpec], but: Option<usize>, element: ElementSpec) -> bool
    ensures value { IsTrue result ↔ IsOnlyAmong elements.now but element }
{
    for i in 0..elements.len() {
        let same = elements[i].instance == element.instance && elements[i].path == element.path;
        if same && but != Some(i) {
            return false;
        }
    }
    true
}

/// Whether no other element names the same scan path.
fn is_only_element(lists: &[Rows<ElementSpec>], chain: usize, i: usize) -> bool
    requires element { IsElement lists.now chain i }
    ensures value { IsTrue result ↔ IsOnlyElement lists.now chain i }
{
    let element = lists[chain].as_slice()[i];
    for other in 0..lists.len() {
        let but = if other == chain { Some(i) } else { None };
        if !is_only_among(lists[other].as_slice(), but, element) {
            return false;
        }
    }
    true
}

/// Whether no step of the paths is named by an element of a chain and by another one.
fn are_named_once(index: &Index<'_>, lists: &[Rows<ElementSpec>], chain: usize) -> bool
    requires chain { chain < length lists.now }
    ensures value { IsTrue result ↔ ((i : ℕ) → IsElement lists.now chain i → IsNamedOnceAt index.now lists.now chain i) }
{
    for i in 0..lists[chain].as_slice().len() {
        let element = lists[chain].as_slice()[i];
        let stands = index.find(element.instance, element.path).is_some();
        if stands && !is_only_element(lists, chain, i) {
            return false;
        }
    }
    true
}

/// Whether no step of the paths is named by two elements.
fn name_once(index: &Index<'_>, chains: &[ChainSpec], lists: &[Rows<ElementSpec>]) -> bool
    requires lists { lists.now ≡ map elements_of chains.now }
    ensures value { IsTrue result ↔ NamedOnce index.now chains.now }
{
    for chain in 0..lists.len() {
        if !are_named_once(index, lists, chain) {
            return false;
        }
    }
    true
}

/// Whether a chain has a list and each of its lists an element.
fn has_elements(chain: &ChainSpec) -> bool
    ensures value { IsTrue result ↔ HasElements chain.now }
{
    let lists = chain.lists.as_slice();
    !lists.is_empty() && lists.iter().all(|list| !elements_of_list(list).is_empty())
}

/// Whether each of some chains is so.
fn have_elements(chains: &[ChainSpec]) -> bool
    ensures value { IsTrue result ↔ All HasElements chains.now }
{
    chains.iter().all(|chain| has_elements(chain))
}

/// So many bits and those of some steps, where they are few.
fn more_bits(steps: &[StepSpec], before: u32) -> Option<u32>
    ensures value { SomeIff result (before + sum_by (λ s. s.bits) steps.now < 2 ^ 32) (before + sum_by (λ s. s.bits) steps.now) }
{
    let mut bits = before;
    for step in steps {
        bits = bits.checked_add(step.bits)?;
    }
    Some(bits)
}

/// Whether the bits of all steps are few.
fn are_few_bits(paths: &[PathSpec]) -> bool
    ensures value { IsTrue result ↔ (sum_by (λ path. sum_by (λ s. s.bits) path.steps) paths.now < 2 ^ 32) }
{
    let mut bits = 0;
    for path in paths {
        match more_bits(path.steps.as_slice(), bits) {
            Some(more) => bits = more,
            None => return false,
        }
    }
    true
}

/// Whether the steps of all paths are few.
fn are_few_steps(paths: &[PathSpec]) -> bool
    ensures value { IsTrue result ↔ (sum_by (λ path. length path.steps) paths.now < 2 ^ 32) }
{
    let mut left = MANY;
    for path in paths {
        let more = path.steps.as_slice().len();
        if left <= more {
            return false;
        }
        left -= more;
    }
    true
}

/// Whether the elements of all chains are few.
fn are_few_elements(lists: &[Rows<ElementSpec>]) -> bool
    ensures value { IsTrue result ↔ (sum_by length lists.now < 2 ^ 32) }
{
    let mut left = MANY;
    for elements in lists {
        let more = elements.as_slice().len();
        if left <= more {
            return false;
        }
        left -= more;
    }
    true
}

/// Whether chains belong to the paths as `units_of` asks: no scan path of an instance stands twice in the paths, no step is
/// named by two elements, each chain has a list and each list an element, and there are fewer than 2^32 bits, paths,
/// steps, chains and elements. It takes quadratic time; the chains of a design that was read need no such test.
pub fn are_chains(alloc: Global, paths: &[PathSpec], chains: &[ChainSpec]) -> Result<bool, NoMemory>
    ensures value { IfOk result (λ yes. IsTrue yes ↔ AreChainSpecs paths.now chains.now) }
{
    if paths.len() >= MANY || chains.len() >= MANY {
        return Ok(false);
    }
    if !are_few_bits(paths) || !are_few_steps(paths) || !have_elements(chains) {
        return Ok(false);
    }
    let index = Index::of(alloc, paths)?;
    let lists = elements_of_each(alloc, chains)?;
    if !are_few_elements(&lists) || !stand_once(&index) {
        return Ok(false);
    }
    Ok(name_once(&index, chains, &lists))
}
