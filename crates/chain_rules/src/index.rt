//! Where the scan paths of instances stand on the read paths.
ghost use Rattle.std.specs.Prelude.{◌≡◌, ◌+◌, ◌^◌, ◌<◌, ◌≤◌, ◌↔◌, ℕ, length, slice_index_or, sum_by, Some, if◌then◌else◌, IsTrue, IfOk, IfSome, IfNone, OnOk};
ghost use Rattle.chain_rules.specs.Stretches.{path_at, step_at, bits_between, IsOf, IsPlace, LeavesBy};
ghost use Rattle.std.specs.HashMap.{get};
ghost use Rattle.chain_rules.specs.Indexes.{AreFirstPlaces, key_of, same_key, steps_before};

use crate::spec::{PathSpec, StepSpec};
use base_types::NoMemory;
use std::alloc::Global;
use std::collections::HashMap;
use std::marker::Model;

/// The number of a path, and a place on it.
#[derive(Clone, Copy)]
pub(crate) struct Place {
    pub path: usize,
    pub place: usize,
}

/// The paths, with the place of each scan path of an instance, and with how many steps stand on the paths before each.
/// Contracts see it as the paths.
#[derive(Drop)]
pub(crate) struct Index<'a> {
    paths: &'a [PathSpec],
    places: HashMap<(u32, u32), Place>,
    before: Vec<usize>,
}

impl<'a> Model for Index<'a> {
    ghost use Rattle.std.specs.Prelude.{List};
    ghost use Rattle.chain_rules.specs.declared.spec.PathSpec.{PathSpec};
    ghost use Rattle.chain_rules.specs.Indexes.{IsIndex};

    ghost Value = { List PathSpec };

    ghost view = { λ i. i.paths.now };

    ghost invariant = { λ i. IsIndex i.paths.now i.places i.before.items };
}

impl<'a> Index<'a> {
    /// The paths to look steps up in, in time linear in their steps.
    pub fn of(alloc: Global, paths: &'a [PathSpec]) -> Result<Index<'a>, NoMemory>
        requires few { sum_by (λ path. length path.steps) paths.now < 2 ^ 32 }
        ensures value { IfOk result (λ index. index ≡ paths.now) }
    {
        let mut places = HashMap::new(alloc);
        for path in 0..paths.len() {
            put_path(&mut places, paths, path)?;
        }
        let before = counts_before(alloc, paths)?;
        Ok(Index {
            paths,
            places,
            before,
        })
    }

    /// The paths.
    pub fn paths(&self) -> &[PathSpec]
        ensures value { result.now ≡ self.now }
    {
        self.paths
    }

    /// The steps of a path.
    pub fn steps(&self, path: usize) -> &[StepSpec]
        requires path { path < length self.now }
        ensures value { result.now ≡ (path_at self.now path).steps }
    {
        let paths = self.paths;
        paths[path].steps.as_slice()
    }

    /// The bits of the steps of a path from one place up to and without another.
    pub fn bits(&self, path: usize, from: usize, to: usize) -> u32
        requires path { path < length self.now }
        requires from { from ≤ to }
        requires to { to ≤ length (path_at self.now path).steps }
        requires small { sum_by (λ s. s.bits) (path_at self.now path).steps < 2 ^ 32 }
        ensures value { result ≡ bits_between (path_at self.now path) from to }
    {
        sum_bits(&self.steps(path)[from..to])
    }

    /// How many steps stand on the paths before one.
    pub fn before(&self, path: usize) -> usize
        requires path { path < length self.now }
        ensures value { result ≡ steps_before self.now path }
    {
        self.before[path]
    }

    /// The place of a scan path of an instance, in constant time.
    pub fn find(&self, instance: u32, scan: u32) -> Option<Place>
        ensures found { IfSome result (λ p. IsPlace self.now p.path p.place × IsOf (step_at (path_at self.now p.path) p.place) instance scan) }
        ensures none { IfNone result ((n k : ℕ) → IsPlace self.now n k → ¬ IsOf (step_at (path_at self.now n) k) instance scan) }
    {
        match self.places.get(&(instance, scan)) {
            Some(place) => Some(*place),
            None => None,
        }
    }
}

/// Notes the place of a step.
fn put_step(
    places: &mut HashMap<(u32, u32), Place>,
    step: StepSpec,
    place: Place,
) -> Result<(), NoMemory>
    ensures noted { OnOk result ((q : ℕ × ℕ) → get same_key places.new q ≡ (if same_key (key_of step) q then Some place else get same_key places.old q)) }
{
    places.insert((step.instance, step.path), place)?;
    Ok(())
}

/// Notes the places of a path's steps, where those of the paths before it are noted.
fn put_path(
    places: &mut HashMap<(u32, u32), Place>,
    paths: &[PathSpec],
    path: usize,
) -> Result<(), NoMemory>
    requires path { path < length paths.now }
    requires before { AreFirstPlaces paths.now path 0 places.old }
    ensures noted { OnOk result (AreFirstPlaces paths.now (path + 1) 0 places.new) }
{
    let steps = paths[path].steps.as_slice();
    for (place, step) in steps.iter().enumerate() {
        put_step(places, *step, Place { path, place })?;
    }
    Ok(())
}

/// How many steps stand on the paths before each path.
fn counts_before(alloc: Global, paths: &[PathSpec]) -> Result<Vec<usize>, NoMemory>
    requires few { sum_by (λ path. length path.steps) paths.now < 2 ^ 32 }
    ensures long { IfOk result (λ counts. length counts.items ≡ length paths.now) }
    ensures each { IfOk result (λ counts. (n : ℕ) → n < length paths.now → slice_index_or counts.items n 0 ≡ steps_before paths.now n) }
{
    let mut counts = Vec::with_capacity(alloc, paths.len())?;
    let mut before: usize = 0;
    for path in paths {
        counts.push(before)?;
        before += path.steps.as_slice().len();
    }
    Ok(counts)
}

/// The bits of some steps together.
fn sum_bits(steps: &[StepSpec]) -> u32
    requires bound { sum_by (λ s. s.bits) steps.now < 2 ^ 32 }
    ensures value { result ≡ sum_by (λ s. s.bits) steps.now }
{
    steps.iter().map(|step| step.bits).sum()
}

/// Whether a step is left by an out pin, where one is named.
pub(crate) fn leaves_by(step: &StepSpec, out: Option<u32>) -> bool
    ensures value { IsTrue result ↔ LeavesBy step.now out }
{
    match out {
        Some(pin) => step.out == pin,
        None => true,
    }
}
