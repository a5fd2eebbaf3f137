//! Which group of a chain names which step of its stretch.
ghost use Rattle.std.specs.Prelude.{◌≡◌, ◌+◌, ◌-◌, ◌<◌, ◌≤◌, ℕ, List, ◌∷◌, [], ◌++◌, ◌^◌, length, map, slice_set, IfOk, All};
ghost use Rattle.chain_rules.specs.declared.spec.ElementSpec.{ElementSpec};
ghost use Rattle.chain_rules.specs.Stretches.{path_at, step_at, IsInside, StandsIn, Names, IsStretch, StepsOnce, elements_in, groups_in, groups_of};
ghost use Rattle.chain_rules.specs.Runs.{stretch, AreMarks};

use crate::index::Index;
use crate::spec::{ChainSpec, ElementSpec, ListSpec};
use crate::stretch::Run;
use base_types::NoMemory;
use std::alloc::Global;

/// Marks the step of an element.
fn mark(index: &Index<'_>, run: Run, element: ElementSpec, group: usize, marks: &mut [usize])
    requires once { StepsOnce index.now }
    requires path { run.path < length index.now }
    requires within { run.to ≤ length (path_at index.now run.path).steps }
    requires stands { StandsIn (path_at index.now run.path) (stretch run) element }
    requires room { length marks.old ≡ run.to - run.from }
    ensures value { (k : ℕ) → IsInside (stretch run) k → Names element (step_at (path_at index.now run.path) k) → marks.new ≡ slice_set marks.old (k - run.from) group }
{
    if let Some(place) = index.find(element.instance, element.path) {
        marks[place.place - run.from] = group;
    }
}

/// Marks the steps of an ORDERED list, behind so many groups.
fn mark_ordered(
    index: &Index<'_>,
    run: Run,
    elements: &[ElementSpec],
    groups: usize,
    marks: &mut [usize],
)
    requires once { StepsOnce index.now }
    requires path { run.path < length index.now }
    requires within { run.to ≤ length (path_at index.now run.path).steps }
    requires stand { All (StandsIn (path_at index.now run.path) (stretch run)) elements.now }
    requires room { length marks.old ≡ run.to - run.from }
    requires few { groups < 2 ^ 32 }
    ensures value { (before : List (List ElementSpec)) → length before ≡ groups → AreMarks (path_at index.now run.path) (stretch run) before marks.old → AreMarks (path_at index.now run.path) (stretch run) (before ++ elements.now ∷ []) marks.new }
{
    for element in elements {
        mark(index, run, *element, groups + 1, marks);
    }
}

/// Marks the steps of FLOATING elements, behind so many groups.
fn mark_floating(
    index: &Index<'_>,
    run: Run,
    elements: &[ElementSpec],
    groups: usize,
    marks: &mut [usize],
)
    requires once { StepsOnce index.now }
    requires path { run.path < length index.now }
    requires within { run.to ≤ length (path_at index.now run.path).steps }
    requires stand { All (StandsIn (path_at index.now run.path) (stretch run)) elements.now }
    requires room { length marks.old ≡ run.to - run.from }
    requires few { groups + length elements.now ≤ 2 ^ 32 }
    ensures value { (before : List (List ElementSpec)) → length before ≡ groups → AreMarks (path_at index.now run.path) (stretch run) before marks.old → AreMarks (path_at index.now run.path) (stretch run) (before ++ map (λ e. e ∷ []) elements.now) marks.new }
{
    let mut group = groups;
    for element in elements {
        group += 1;
        mark(index, run, *element, group, marks);
    }
}

/// Marks the steps of a list, behind so many groups, and answers how many there are then.
fn mark_list(
    index: &Index<'_>,
    run: Run,
    list: &ListSpec,
    groups: usize,
    marks: &mut [usize],
) -> usize
    requires once { StepsOnce index.now }
    requires path { run.path < length index.now }
    requires within { run.to ≤ length (path_at index.now run.path).steps }
    requires stand { All (StandsIn (path_at index.now run.path) (stretch run)) (elements_in list.now) }
    requires room { length marks.old ≡ run.to - run.from }
    requires few { groups + length (groups_in list.now) ≤ 2 ^ 32 }
    ensures count { result ≡ groups + length (groups_in list.now) }
    ensures value { (before : List (List ElementSpec)) → length before ≡ groups → AreMarks (path_at index.now run.path) (stretch run) before marks.old → AreMarks (path_at index.now run.path) (stretch run) (before ++ groups_in list.now) marks.new }
{
    match list {
        ListSpec::Floating(elements) => {
            mark_floating(index, run, elements.as_slice(), groups, marks);
            groups + elements.as_slice().len()
        }
        ListSpec::Ordered(elements) => {
            mark_ordered(index, run, elements.as_slice(), groups, marks);
            groups + 1
        }
    }
}

/// The marks of the steps of a chain's stretch.
pub(crate) fn marks_of(
    alloc: Global,
    index: &Index<'_>,
    chain: &ChainSpec,
    run: Run,
) -> Result<Vec<usize>, NoMemory>
    requires once { StepsOnce index.now }
    requires stretch { IsStretch index.now chain.now (stretch run) }
    requires few { length (groups_of chain.now) < 2 ^ 32 }
    ensures value { IfOk result (λ marks. AreMarks (path_at index.now run.path) (stretch run) (groups_of chain.now) marks.items) }
{
    let mut marks = vec![in alloc; 0; run.to - run.from]?;
    let mut groups = 0;
    for list in chain.lists.as_slice() {
        groups = mark_list(index, run, list, groups, &mut marks);
    }
    Ok(marks)
}
