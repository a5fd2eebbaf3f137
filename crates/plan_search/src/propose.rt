//! What the search proposes: each group of chains searched from several first plans.
use crate::climb::Climb;
use crate::group::{Group, pin_of, units_of};
use crate::halving::{Halving, Rule};
use crate::orders::order_all;
use crate::progress::{Progress, Told};
use base_types::NoMemory;
use chain_rules::{Plan, Rules};
use chain_tours::{Reach, at, count, filled, item, part, put};
use order_search::Effort;
use std::alloc::Global;
use wire_cost::Ends;

// The work for each unit, and the least for all together.
const WORK: u64 = 9000;

const LEAST_WORK: u64 = 400000000;

// The most for each of few units.
const MOST_WORK: u64 = 216000;

// From so many units on third links are opened.
const SOME: u32 = 500;

const FEW_CHAINS: usize = 16;

// The work for each unit of the first improvement.
const FIRST_WORK: u64 = 20000;

// The units of the chains of a group in order, and how many each has.
#[derive(Drop)]
struct Layout {
    units: Vec<u32>,
    counts: Vec<u32>,
    length: i64,
}

impl Layout {
    fn as_read(alloc: Global, group: &Group) -> Result<Layout, NoMemory> {
        let mut units = filled(alloc, count(group.units.as_slice()), 0)?;
        for k in 0..count(units.as_slice()) {
            put(units.as_mut_slice(), k, k);
        }
        Ok(Layout {
            units,
            counts: Vec::from_slice(alloc, group.counts.as_slice())?,
            length: 0,
        })
    }

    fn load(&self, climb: &mut Climb) {
        climb
            .tours
            .load(self.units.as_slice(), self.counts.as_slice());
    }

    fn measure(&mut self, climb: &mut Climb) {
        self.load(climb);
        self.length = climb.tours.length();
    }

    fn save(&mut self, climb: &Climb) {
        climb
            .tours
            .save(self.units.as_mut_slice(), self.counts.as_mut_slice());
        self.length = climb.tours.length();
    }
}

// The number of each unit's size among the sizes.
fn sizes_of(alloc: Global, bits: &[u32], units: u32) -> Result<Vec<u32>, NoMemory> {
    let mut order = filled(alloc, units, 0)?;
    for k in 0..units {
        put(order.as_mut_slice(), k, k);
    }
    order.sort_unstable_by_key(|unit| (at(bits, *unit), *unit));
    let mut sizes = filled(alloc, units, 0)?;
    let mut size = 0u32;
    for k in 1..units {
        let unit = at(order.as_slice(), k);
        if at(bits, unit) != at(bits, at(order.as_slice(), k.wrapping_sub(1))) {
            size = size.wrapping_add(1);
        }
        put(sizes.as_mut_slice(), unit, size);
    }
    Ok(sizes)
}

// A first plan with memberships by a rule.
fn anew(
    alloc: Global,
    group: &Group,
    climb: &Climb,
    sizes: &[u32],
    rule: Rule,
) -> Result<Layout, NoMemory> {
    let mut layout = Layout::as_read(alloc, group)?;
    let nodes = climb.tours.nodes.as_slice();
    let mut halving = Halving::new(alloc, nodes, sizes, group.counts.as_slice())?;
    halving.assign(alloc, rule, layout.units.as_mut_slice())?;
    let mut spare = filled(alloc, count(sizes), 0)?;
    order_all(
        nodes,
        group.counts.as_slice(),
        layout.units.as_mut_slice(),
        spare.as_mut_slice(),
    );
    Ok(layout)
}

// The first plans of a group: that of the plan, and some anew.
fn first_layouts(alloc: Global, group: &Group, climb: &Climb) -> Result<Vec<Layout>, NoMemory> {
    let mut layouts = Vec::with_capacity(alloc, 4)?;
    layouts.push(Layout::as_read(alloc, group)?)?;
    if group.chains.len() > 1 {
        let sizes = sizes_of(alloc, climb.tours.bits.as_slice(), climb.tours.units)?;
        for rule in [Rule::Detour, Rule::Width, Rule::Sector] {
            layouts.push(anew(alloc, group, climb, sizes.as_slice(), rule)?)?;
        }
    }
    Ok(layouts)
}

// Improves each of the first plans that isn't much longer than the shortest, and loads the best.
fn load_best(layouts: &mut [Layout], climb: &mut Climb, reach: Reach) {
    let mut least = i64::MAX;
    for k in 0..layouts.len() {
        least = least.min(layouts[k].length);
    }
    let most = least.wrapping_add(least / 4);
    let work = FIRST_WORK.wrapping_mul(u64::from(climb.tours.units));
    let mut best = 0usize;
    let mut shortest = i64::MAX;
    for k in 0..layouts.len() {
        if layouts[k].length <= most {
            layouts[k].load(climb);
            climb.settle(reach, work);
            layouts[k].save(climb);
            if layouts[k].length < shortest {
                shortest = layouts[k].length;
                best = k;
            }
        }
    }
    if best < layouts.len() {
        layouts[best].load(climb);
    }
}

// Whether the chains may hold two more units each, taken together.
fn are_loose(climb: &Climb) -> bool {
    let mut held = 0u64;
    let mut open = 0u64;
    for tour in climb.tours.tours.as_slice() {
        held = held.wrapping_add(u64::from(tour.bits));
        open = open.wrapping_add(u64::from(tour.bound.saturating_sub(tour.bits)));
    }
    let chains = u64::from(count(climb.tours.tours.as_slice()));
    let units = u64::from(climb.tours.units);
    open.saturating_mul(units) >= held.saturating_mul(chains).saturating_mul(2)
}

// How far a search over a group looks: where the bounds are tight, runs are exchanged too. Third links are opened where there are many units
// in few chains or in full ones; else it matters more which chain holds a unit than how that is ordered. Where units are left beside their
// entry, the ways inside a run that is reversed are summed, so that long ones aren't tried.
fn reach_of(climb: &Climb) -> Reach {
    let are_loose = are_loose(climb);
    let are_few = climb.tours.tours.as_slice().len() <= FEW_CHAINS;
    Reach {
        reversed: if climb.tours.is_plain { 50000 } else { 1000 },
        thirds: climb.tours.units >= SOME && (are_few || !are_loose),
        exchanged: if are_loose { 1 } else { 5 },
        uneven: if climb.tours.is_even { 1 } else { 4 },
    }
}

// By how many spacings the chains may become longer at first: by more where there is more to be shared out.
fn spacings_of(climb: &Climb, reach: Reach) -> i64 {
    let chains = climb.tours.tours.as_slice().len();
    if chains == 1 || reach.exchanged > 1 || reach.thirds {
        5
    } else if chains <= FEW_CHAINS {
        10
    } else {
        20
    }
}

// Searches from the first plans on, and leaves the chains as they were found.
fn search<P: Progress>(layouts: &mut [Layout], climb: &mut Climb, work: u64, told: &Told<'_, P>) {
    for layout in layouts.iter_mut() {
        layout.measure(climb);
    }
    let reach = reach_of(climb);
    load_best(layouts, climb, reach);
    let near = Reach {
        reversed: if climb.tours.is_plain { 1000 } else { 300 },
        ..reach
    };
    let most = climb.spacing().wrapping_mul(spacings_of(climb, reach));
    climb.perturb(near, most, work, told);
    climb.settle(reach, FIRST_WORK.wrapping_mul(u64::from(climb.tours.units)));
}

// The work for each of so many units.
fn work_for(units: u32) -> u64 {
    let all = u64::from(units).max(1);
    (LEAST_WORK / all).max(WORK).min(MOST_WORK)
}

// Searches a group of chains and writes what was found into the plan.
fn search_group<P: Progress>(
    alloc: Global,
    rules: &Rules,
    ends: &Ends,
    chains: &[u32],
    plan: &mut Plan,
    told: &mut Told<'_, P>,
) -> Result<(), NoMemory> {
    let group = Group::of(alloc, rules, plan, chains)?;
    let units = count(group.units.as_slice());
    if units < 2 {
        return Ok(());
    }
    let work = work_for(count(rules.units.as_slice())).wrapping_mul(u64::from(units));
    let tours = group.tours(alloc, rules, ends, plan)?;
    let mut climb = Climb::new(alloc, tours)?;
    let mut layouts = first_layouts(alloc, &group, &climb)?;
    search(layouts.as_mut_slice(), &mut climb, work, told);
    told.pass(work);
    write(alloc, rules, &group, &climb, plan)
}

// Writes the chains of a group into the plan, with their pinned units.
fn write(
    alloc: Global,
    rules: &Rules,
    group: &Group,
    climb: &Climb,
    plan: &mut Plan,
) -> Result<(), NoMemory> {
    for k in 0..count(group.chains.as_slice()) {
        let chain = at(group.chains.as_slice(), k);
        let tour = climb.tours.tour(k);
        let mut units = Vec::with_capacity(alloc, tour.nodes as usize)?;
        for t in 1..tour.nodes.wrapping_sub(1) {
            let node = climb.tours.node(tour.first.wrapping_add(t));
            units.push(at(group.units.as_slice(), node))?;
        }
        if let Some(pin) = pin_of(rules, units_of(plan, chain)) {
            units.push(pin)?;
        }
        if (chain as usize) < plan.len() {
            plan.exchange(chain as usize, &mut units);
        }
    }
    Ok(())
}

// The partition of a chain; where orders alone are searched each chain is one.
fn partition_of(rules: &Rules, effort: Effort, chain: u32) -> u32 {
    let chains = rules.chains.as_slice();
    match effort {
        Effort::Order => chain,
        Effort::Full if (chain as usize) < chains.len() => chains[chain as usize].partition,
        Effort::Full => 0,
    }
}

/// A plan that may be shorter; nothing is promised of it.
pub(crate) fn proposed_plan<P: Progress>(
    alloc: Global,
    rules: &Rules,
    ends: &Ends,
    effort: Effort,
    plan: &Plan,
    progress: &P,
) -> Result<Plan, NoMemory> {
    let mut proposed = plan.copy(alloc)?;
    let all = count(rules.chains.as_slice());
    let mut order = filled(alloc, all, 0)?;
    for chain in 0..all {
        put(order.as_mut_slice(), chain, chain);
    }
    order.sort_unstable_by_key(|chain| (partition_of(rules, effort, *chain), *chain));
    let units = count(rules.units.as_slice());
    let mut told = Told::new(progress, work_for(units).wrapping_mul(u64::from(units)));
    let mut from = 0u32;
    for k in 1..all.wrapping_add(1) {
        let one = partition_of(rules, effort, at(order.as_slice(), from));
        let next = partition_of(rules, effort, item(order.as_slice(), k, 0));
        if k == all || one != next {
            search_group(
                alloc,
                rules,
                ends,
                part(order.as_slice(), from, k),
                &mut proposed,
                &mut told,
            )?;
            from = k;
        }
    }
    Ok(proposed)
}
