//! The stretch of a chain.
ghost use Rattle.std.specs.Prelude.{◌≡◌, ◌<◌, ◌≤◌, ◌↔◌, ℕ, length, IsTrue, IfSome, IfNone, All, Contains};
ghost use Rattle.chain_rules.specs.Stretches.{path_at, step_at, IsPlace, Names, BeginsAt, EndsAt, StandsIn, elements_in, elements_of, IsStretch, HasStretch, StepsOnce, HasElements};
ghost use Rattle.chain_rules.specs.Runs.{stretch};

use crate::index::{Index, leaves_by};
use crate::spec::{ChainSpec, ElementSpec, EndSpec, ListSpec};

/// The steps of a path from one place up to and without another.
#[derive(Clone, Copy)]
pub(crate) struct Run {
    pub path: usize,
    pub from: usize,
    pub to: usize,
}

/// The elements of a list.
pub(crate) fn elements_of_list(list: &ListSpec) -> &[ElementSpec]
    ensures value { result.now ≡ elements_in list.now }
{
    match list {
        ListSpec::Floating(elements) => elements.as_slice(),
        ListSpec::Ordered(elements) => elements.as_slice(),
    }
}

/// Where a stretch on a path begins, by the START of a chain.
fn begin_on(index: &Index<'_>, path: usize, start: EndSpec) -> Option<usize>
    requires once { StepsOnce index.now }
    requires path { path < length index.now }
    ensures found { IfSome result (λ from. BeginsAt (path_at index.now path) start from) }
    ensures none { IfNone result ((from : ℕ) → ¬ BeginsAt (path_at index.now path) start from) }
{
    match start {
        EndSpec::Port(net) => {
            if index.paths()[path].input == net {
                Some(0)
            } else {
                None
            }
        }
        EndSpec::Cell {
            instance,
            path: scan,
            out,
        } => {
            let place = index.find(instance, scan)?;
            if place.path != path {
                return None;
            }
            let step = index.paths()[path].steps.as_slice()[place.place];
            if leaves_by(&step, out) {
                Some(place.place + 1)
            } else {
                None
            }
        }
    }
}

/// Where a stretch on a path ends, by the STOP of a chain.
fn end_on(index: &Index<'_>, path: usize, stop: EndSpec) -> Option<usize>
    requires once { StepsOnce index.now }
    requires path { path < length index.now }
    ensures found { IfSome result (λ to. EndsAt (path_at index.now path) stop to) }
    ensures none { IfNone result ((to : ℕ) → ¬ EndsAt (path_at index.now path) stop to) }
{
    match stop {
        EndSpec::Port(net) => {
            let path = &index.paths()[path];
            if path.output == net {
                Some(path.steps.as_slice().len())
            } else {
                None
            }
        }
        EndSpec::Cell {
            instance,
            path: scan,
            out: _,
        } => {
            let place = index.find(instance, scan)?;
            if place.path == path {
                Some(place.place)
            } else {
                None
            }
        }
    }
}

/// Whether an element is a step of a stretch.
fn stands_in(index: &Index<'_>, run: Run, element: ElementSpec) -> bool
    requires once { StepsOnce index.now }
    requires path { run.path < length index.now }
    requires within { run.to ≤ length (path_at index.now run.path).steps }
    ensures value { IsTrue result ↔ StandsIn (path_at index.now run.path) (stretch run) element }
{
    let Some(place) = index.find(element.instance, element.path) else {
        return false;
    };
    if place.path != run.path || place.place < run.from || run.to <= place.place {
        return false;
    }
    let step = index.paths()[run.path].steps.as_slice()[place.place];
    leaves_by(&step, element.out)
}

/// Whether each element of a list is a step of a stretch.
fn list_stands_in(index: &Index<'_>, run: Run, list: &ListSpec) -> bool
    requires once { StepsOnce index.now }
    requires path { run.path < length index.now }
    requires within { run.to ≤ length (path_at index.now run.path).steps }
    ensures value { IsTrue result ↔ All (StandsIn (path_at index.now run.path) (stretch run)) (elements_in list.now) }
{
    for element in elements_of_list(list) {
        if !stands_in(index, run, *element) {
            return false;
        }
    }
    true
}

/// Whether each element of a chain is a step of a stretch.
fn all_stand_in(index: &Index<'_>, run: Run, chain: &ChainSpec) -> bool
    requires once { StepsOnce index.now }
    requires path { run.path < length index.now }
    requires within { run.to ≤ length (path_at index.now run.path).steps }
    ensures value { IsTrue result ↔ All (StandsIn (path_at index.now run.path) (stretch run)) (elements_of chain.now) }
{
    for list in chain.lists.as_slice() {
        if !list_stands_in(index, run, list) {
            return false;
        }
    }
    true
}

/// An element of a chain.
fn first_element(chain: &ChainSpec) -> ElementSpec
    requires { HasElements chain.now }
    ensures value { Contains (elements_of chain.now) result }
{
    elements_of_list(&chain.lists.as_slice()[0])[0]
}

/// The stretch of a chain, where it has one.
pub(crate) fn stretch_of(index: &Index<'_>, chain: &ChainSpec) -> Option<Run>
    requires once { StepsOnce index.now }
    requires elements { HasElements chain.now }
    ensures found { IfSome result (λ run. IsStretch index.now chain.now (stretch run)) }
    ensures none { IfNone result (¬ HasStretch index.now chain.now) }
{
    let first = first_element(chain);
    let path = index.find(first.instance, first.path)?.path;
    let from = begin_on(index, path, chain.start)?;
    let to = end_on(index, path, chain.stop)?;
    if to < from {
        return None;
    }
    let run = Run { path, from, to };
    if all_stand_in(index, run, chain) {
        Some(run)
    } else {
        None
    }
}
