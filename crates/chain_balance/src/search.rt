//! The paths that are reached, step by step by giving, from a longest one.
ghost use Rattle.std.specs.Prelude.{◌≡◌, ◌<◌, ◌≤◌, ◌+◌, ◌++◌, ◌∷◌, [], ℕ, length, true, false, slice_index_or, slice_set, map, replicate, Some, None, is_some, MatchOption, IfOk, OnOk};
ghost use Rattle.chain_balance.specs.declared.search.Giver.{Giver as one_giver};
ghost use Rattle.chain_rules.specs.Legality.{IsLegal};
ghost use Rattle.chain_balance.specs.Balance.{AreOnPaths};
ghost use Rattle.chain_balance.specs.Gains.{AreHeld, IsWork};
ghost use Rattle.chain_balance.specs.Rooms.{AreGroups};
ghost use Rattle.chain_balance.specs.Searches.{first_entry, AreNear, IsSearch, IsGiver, SparesNone, AreGivers, AllGive, CanTake, NoneTakes, EndsInHole, IsSearching, HasGrown, Closes, IsOutcome};

use crate::entry::Entry;
use crate::work::Work;
use base_types::NoMemory;
use chain_rules::{Plan, Rules};
use std::alloc::Global;

/// The paths that are reached, in their order, and for each path the number of its entry.
#[derive(Drop)]
pub(crate) struct Search {
    entries: Vec<Entry>,
    numbers: Vec<Option<usize>>,
}

/// A chain that has a unit to spare, and the number of its path's entry.
#[derive(Clone, Copy)]
pub(crate) struct Giver {
    chain: usize,
    entry: usize,
}

/// What a search finds: the entries up to a hole, or that there is none, and the set of all paths that are reached.
#[derive(Drop)]
pub(crate) enum Reached {
    Hole(Vec<Entry>),
    All(Vec<bool>),
}

/// A search that has reached one path of so many.
fn begin(alloc: Global, paths: usize, top: usize) -> Result<Search, NoMemory>
    requires within { top < paths }
    ensures entries { IfOk result (λ search. search.entries.items ≡ first_entry top ∷ []) }
    ensures numbers { IfOk result (λ search. search.numbers.items ≡ slice_set (replicate paths None) top (Some 0)) }
{
    let first = Entry {
        path: top,
        giver: 0,
        taker: 0,
        parent: 0,
    };
    let entries = vec![in alloc; first]?;
    let mut numbers = vec![in alloc; None; paths]?;
    numbers[top] = Some(0);
    Ok(Search { entries, numbers })
}

/// Lists one path more.
fn push_entry(search: &mut Search, entry: Entry) -> Result<(), NoMemory>
    requires within { entry.path < length search.old.numbers.items }
    ensures entries { OnOk result (search.new.entries.items ≡ search.old.entries.items ++ entry ∷ []) }
    ensures numbers { OnOk result (search.new.numbers.items ≡ slice_set search.old.numbers.items entry.path (Some (length search.old.entries.items))) }
{
    let number = search.entries.len();
    search.entries.push(entry)?;
    search.numbers[entry.path] = Some(number);
    Ok(())
}

/// A chain as a giver, where it has a unit to spare and its path is reached.
fn giver_of(rules: &Rules, plan: &Plan, numbers: &[Option<usize>], chain: usize) -> Option<Giver>
    requires legal { IsLegal rules.now plan.now }
    requires paths { AreOnPaths rules.now (length numbers.now) }
    requires chain { chain < length rules.now.chains }
    ensures value { MatchOption result (SparesNone rules.now plan.now numbers.now chain) (λ giver. (giver.chain ≡ chain) × IsGiver rules.now plan.now numbers.now giver) }
{
    if plan.chain(chain).len() < 2 {
        return None;
    }
    let path = rules.chains.as_slice()[chain].path as usize;
    match numbers[path] {
        Some(entry) => Some(Giver { chain, entry }),
        None => None,
    }
}

/// Notes a chain as the giver of its group, where it is one.
fn note_giver(
    rules: &Rules,
    plan: &Plan,
    groups: &[usize],
    numbers: &[Option<usize>],
    givers: &mut [Option<Giver>],
    chain: usize,
)
    requires legal { IsLegal rules.now plan.now }
    requires paths { AreOnPaths rules.now (length numbers.now) }
    requires groups { AreGroups rules.now groups.now }
    requires chain { chain < length rules.now.chains }
    requires are { AreGivers rules.now plan.now groups.now numbers.now givers.old }
    requires all { AllGive rules.now plan.now groups.now numbers.now givers.old chain }
    ensures are { AreGivers rules.now plan.now groups.now numbers.now givers.new }
    ensures all { AllGive rules.now plan.now groups.now numbers.now givers.new (chain + 1) }
{
    let Some(giver) = giver_of(rules, plan, numbers, chain) else {
        return;
    };
    givers[groups[chain]] = Some(giver);
}

/// Notes a giver at each group that has one.
fn note_givers(
    rules: &Rules,
    plan: &Plan,
    groups: &[usize],
    numbers: &[Option<usize>],
    givers: &mut [Option<Giver>],
)
    requires legal { IsLegal rules.now plan.now }
    requires paths { AreOnPaths rules.now (length numbers.now) }
    requires groups { AreGroups rules.now groups.now }
    requires are { AreGivers rules.now plan.now groups.now numbers.now givers.old }
    ensures are { AreGivers rules.now plan.now groups.now numbers.now givers.new }
    ensures all { AllGive rules.now plan.now groups.now numbers.now givers.new (length rules.now.chains) }
{
    for chain in 0..rules.chains.as_slice().len() {
        note_giver(rules, plan, groups, numbers, givers, chain);
    }
}

/// The giver to a chain that has room, and whose path isn't reached.
fn giver_to(
    rules: &Rules,
    work: &Work,
    groups: &[usize],
    numbers: &[Option<usize>],
    givers: &[Option<Giver>],
    taker: usize,
) -> Option<Giver>
    requires held { AreHeld rules.now work.now.plan work.now.chains.items }
    requires paths { AreOnPaths rules.now (length numbers.now) }
    requires groups { AreGroups rules.now groups.now }
    requires count { length givers.now ≡ length rules.now.chains }
    requires taker { taker < length rules.now.chains }
    ensures value { MatchOption result ((giver : one_giver) → ¬ CanTake rules.now work.now.plan groups.now numbers.now givers.now taker giver)
        (λ giver. CanTake rules.now work.now.plan groups.now numbers.now givers.now taker giver) }
{
    let rule = rules.chains.as_slice()[taker];
    if numbers[rule.path as usize].is_some() || work.chains[taker] >= rule.bound {
        return None;
    }
    givers[groups[taker]]
}

/// Lists the path of a chain where it takes from a giver: whether that is a hole.
fn push_taker(
    rules: &Rules,
    fixed: &[u32],
    work: &Work,
    groups: &[usize],
    givers: &[Option<Giver>],
    most: u32,
    search: &mut Search,
    taker: usize,
) -> Result<bool, NoMemory>
    requires is { IsWork rules.now fixed.now work.now most }
    requires paths { AreOnPaths rules.now (length fixed.now) }
    requires groups { AreGroups rules.now groups.now }
    requires taker { taker < length rules.now.chains }
    requires search { IsSearching rules.now fixed.now work.now groups.now givers.now search.old }
    requires near { AreNear work.now.paths.items most search.old.entries.items }
    requires none { NoneTakes rules.now work.now.plan groups.now search.old.numbers.items givers.now taker }
    ensures search { OnOk result (IsSearching rules.now fixed.now work.now groups.now givers.now search.new) }
    ensures grown { OnOk result (HasGrown search.old search.new) }
    ensures hole { IfOk result (λ hole. hole ≡ true → EndsInHole work.now.paths.items most search.new.entries.items) }
    ensures near { IfOk result (λ hole. hole ≡ false → AreNear work.now.paths.items most search.new.entries.items) }
    ensures none { IfOk result (λ hole. hole ≡ false → NoneTakes rules.now work.now.plan groups.now search.new.numbers.items givers.now (taker + 1)) }
{
    let numbers = search.numbers.as_slice();
    let Some(giver) = giver_to(rules, work, groups, numbers, givers, taker) else {
        return Ok(false);
    };
    let path = rules.chains.as_slice()[taker].path as usize;
    let entry = Entry {
        path,
        giver: giver.chain,
        taker,
        parent: giver.entry,
    };
    push_entry(search, entry)?;
    let is_hole = most - work.paths[path] >= 2;
    if is_hole {
        return Ok(true);
    }
    Ok(false)
}

/// Lists the paths that take from a group with a giver, up to the first hole: whether there is one, which is then the last.
fn push_takers(
    rules: &Rules,
    fixed: &[u32],
    work: &Work,
    groups: &[usize],
    givers: &[Option<Giver>],
    most: u32,
    search: &mut Search,
) -> Result<bool, NoMemory>
    requires is { IsWork rules.now fixed.now work.now most }
    requires paths { AreOnPaths rules.now (length fixed.now) }
    requires groups { AreGroups rules.now groups.now }
    requires search { IsSearching rules.now fixed.now work.now groups.now givers.now search.old }
    requires near { AreNear work.now.paths.items most search.old.entries.items }
    ensures search { OnOk result (IsSearching rules.now fixed.now work.now groups.now givers.now search.new) }
    ensures grown { OnOk result (HasGrown search.old search.new) }
    ensures hole { IfOk result (λ hole. hole ≡ true → EndsInHole work.now.paths.items most search.new.entries.items) }
    ensures near { IfOk result (λ hole. hole ≡ false → AreNear work.now.paths.items most search.new.entries.items) }
    ensures none { IfOk result (λ hole. hole ≡ false → NoneTakes rules.now work.now.plan groups.now search.new.numbers.items givers.now (length rules.now.chains)) }
{
    for taker in 0..rules.chains.as_slice().len() {
        if push_taker(rules, fixed, work, groups, givers, most, search, taker)? {
            return Ok(true);
        }
    }
    Ok(false)
}

/// Lists all paths that are reached, up to the first hole: whether there is one, which is then the last. A round costs as much as
/// there are chains, and there are no more rounds than steps on the longest way.
fn search_all(
    rules: &Rules,
    fixed: &[u32],
    work: &Work,
    groups: &[usize],
    givers: &mut [Option<Giver>],
    most: u32,
    search: &mut Search,
) -> Result<bool, NoMemory>
    requires is { IsWork rules.now fixed.now work.now most }
    requires paths { AreOnPaths rules.now (length fixed.now) }
    requires groups { AreGroups rules.now groups.now }
    requires search { IsSearching rules.now fixed.now work.now groups.now givers.old search.old }
    requires near { AreNear work.now.paths.items most search.old.entries.items }
    ensures search { OnOk result (IsSearch rules.now work.now.plan (length fixed.now) search.new.entries.items search.new.numbers.items) }
    ensures grown { OnOk result (HasGrown search.old search.new) }
    ensures hole { IfOk result (λ hole. hole ≡ true → EndsInHole work.now.paths.items most search.new.entries.items) }
    ensures near { IfOk result (λ hole. hole ≡ false → AreNear work.now.paths.items most search.new.entries.items) }
    ensures closes { IfOk result (λ hole. hole ≡ false → Closes rules.now work.now.plan search.new.numbers.items) }
{
    let mut before = 0;
    while before < search.entries.len() {
        before = search.entries.len();
        let numbers = search.numbers.as_slice();
        note_givers(rules, &work.plan, groups, numbers, givers);
        if push_takers(rules, fixed, work, groups, givers, most, search)? {
            return Ok(true);
        }
    }
    Ok(false)
}

/// Which paths have an entry.
fn marks_of(alloc: Global, numbers: &[Option<usize>]) -> Result<Vec<bool>, NoMemory>
    ensures value { IfOk result (λ marks. marks.items ≡ map is_some numbers.now) }
{
    let mut marks = Vec::with_capacity(alloc, numbers.len())?;
    for path in 0..numbers.len() {
        marks.push(numbers[path].is_some())?;
    }
    Ok(marks)
}

/// No giver, so often.
fn no_givers(alloc: Global, count: usize) -> Result<Vec<Option<Giver>>, NoMemory>
    ensures value { IfOk result (λ givers. givers.items ≡ replicate count None) }
{
    Ok(vec![in alloc; None; count]?)
}

/// The paths that are reached from the first longest one, up to the first hole, a path with at least two bits fewer; where there is
/// none, the set of them all.
pub(crate) fn reach(
    alloc: Global,
    rules: &Rules,
    fixed: &[u32],
    work: &Work,
    groups: &[usize],
    most: u32,
    top: usize,
) -> Result<Reached, NoMemory>
    requires is { IsWork rules.now fixed.now work.now most }
    requires paths { AreOnPaths rules.now (length fixed.now) }
    requires groups { AreGroups rules.now groups.now }
    requires top { top < length fixed.now }
    requires is_top { slice_index_or work.now.paths.items top 0 ≡ most }
    requires first { (k : ℕ) → k < top → ¬ (slice_index_or work.now.paths.items k 0 ≡ most) }
    ensures value { IfOk result (λ reached. IsOutcome rules.now fixed.now work.now most top reached) }
{
    let mut search = begin(alloc, fixed.len(), top)?;
    let mut givers = no_givers(alloc, rules.chains.as_slice().len())?;
    let notes = givers.as_mut_slice();
    if search_all(rules, fixed, work, groups, notes, most, &mut search)? {
        return Ok(Reached::Hole(search.entries));
    }
    let set = marks_of(alloc, search.numbers.as_slice())?;
    Ok(Reached::All(set))
}
