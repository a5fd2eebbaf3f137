//! The chains between which units may move, with their free units, as the search sees them.
use base_types::{NoMemory, Point};
use chain_rules::{ChainRule, Plan, Rules, Unit};
use chain_tours::{Node, Scale, Tour, Tours, at, count, filled, item, put};
use std::alloc::Global;
use wire_cost::Ends;

const NO_UNIT: Unit = Unit {
    path: 0,
    first: 0,
    last: 0,
    bits: 0,
    pinned: false,
};

const NO_RULE: ChainRule = ChainRule {
    path: 0,
    first: 0,
    last: 0,
    partition: 0,
    bound: 0,
    keeps_bit: false,
};

const ORIGIN: Point = Point { x: 0, y: 0 };

/// Chains by their numbers, their units but for pinned ones, chain after chain, and how many each has.
#[derive(Drop)]
pub(crate) struct Group {
    pub chains: Vec<u32>,
    pub units: Vec<u32>,
    pub counts: Vec<u32>,
}

/// The units of a chain of a plan, or none.
pub(crate) fn units_of(plan: &Plan, chain: u32) -> &[u32] {
    let chain = chain as usize;
    if chain < plan.len() {
        plan.chain(chain)
    } else {
        &[]
    }
}

fn unit_of(rules: &Rules, unit: u32) -> Unit {
    item(rules.units.as_slice(), unit, NO_UNIT)
}

/// The pinned unit of a chain.
pub(crate) fn pin_of(rules: &Rules, units: &[u32]) -> Option<u32> {
    match units.last() {
        Some(unit) if unit_of(rules, *unit).pinned => Some(*unit),
        _ => None,
    }
}

// The units before a pinned one.
fn free_count(rules: &Rules, units: &[u32]) -> u32 {
    match pin_of(rules, units) {
        Some(_) => count(units).wrapping_sub(1),
        None => count(units),
    }
}

impl Group {
    /// The group of some chains of a plan.
    pub fn of(
        alloc: Global,
        rules: &Rules,
        plan: &Plan,
        chains: &[u32],
    ) -> Result<Group, NoMemory> {
        let mut counts = filled(alloc, count(chains), 0)?;
        let mut all = 0u32;
        for k in 0..count(chains) {
            let has = free_count(rules, units_of(plan, at(chains, k)));
            put(counts.as_mut_slice(), k, has);
            all = all.wrapping_add(has);
        }
        let mut units = filled(alloc, all, 0)?;
        let mut next = 0u32;
        for k in 0..count(chains) {
            let listed = units_of(plan, at(chains, k));
            for place in 0..at(counts.as_slice(), k) {
                put(units.as_mut_slice(), next, at(listed, place));
                next = next.wrapping_add(1);
            }
        }
        Ok(Group {
            chains: Vec::from_slice(alloc, chains)?,
            units,
            counts,
        })
    }

    // The corners of all places of the group.
    fn scale(&self, ends: &Ends, plan: &Plan, rules: &Rules) -> Scale {
        let mut corners = None;
        for unit in self.units.as_slice() {
            corners = wider(corners, item(ends.entry.as_slice(), *unit, ORIGIN));
            corners = wider(corners, item(ends.exit.as_slice(), *unit, ORIGIN));
        }
        for chain in self.chains.as_slice() {
            let stop = stop_of(rules, ends, plan, *chain);
            for end in [item(ends.start.as_slice(), *chain, None), stop] {
                if let Some(place) = end {
                    corners = wider(corners, place);
                }
            }
        }
        let (low, high) = corners.unwrap_or((ORIGIN, ORIGIN));
        Scale::of(low, high)
    }

    /// The nodes: the units, then the start and the stop of each chain in turn.
    pub fn nodes(
        &self,
        alloc: Global,
        rules: &Rules,
        ends: &Ends,
        plan: &Plan,
    ) -> Result<Vec<Node>, NoMemory> {
        let scale = self.scale(ends, plan, rules);
        let units = count(self.units.as_slice());
        let all = units.wrapping_add(count(self.chains.as_slice()).wrapping_mul(2));
        let mut nodes = vec![in alloc; Node::NOWHERE; all as usize]?;
        for k in 0..units {
            let unit = at(self.units.as_slice(), k);
            let enter = item(ends.entry.as_slice(), unit, ORIGIN);
            let leave = item(ends.exit.as_slice(), unit, ORIGIN);
            put(nodes.as_mut_slice(), k, scale.node(enter, leave));
        }
        for k in 0..count(self.chains.as_slice()) {
            let chain = at(self.chains.as_slice(), k);
            let start = units.wrapping_add(k.wrapping_mul(2));
            put(
                nodes.as_mut_slice(),
                start,
                scale.end(item(ends.start.as_slice(), chain, None)),
            );
            let stop = stop_of(rules, ends, plan, chain);
            put(nodes.as_mut_slice(), start.wrapping_add(1), scale.end(stop));
        }
        Ok(nodes)
    }

    /// The bits of the nodes.
    pub fn bits(&self, alloc: Global, rules: &Rules) -> Result<Vec<u32>, NoMemory> {
        let units = count(self.units.as_slice());
        let ends = count(self.chains.as_slice()).wrapping_mul(2);
        let mut bits = filled(alloc, units.wrapping_add(ends), 0)?;
        for k in 0..units {
            let unit = unit_of(rules, at(self.units.as_slice(), k));
            put(bits.as_mut_slice(), k, unit.bits);
        }
        Ok(bits)
    }

    // The stretch of a chain, from a place on, and what it may hold besides its pinned unit.
    fn tour(&self, rules: &Rules, plan: &Plan, k: u32, base: u32) -> Tour {
        let chain = at(self.chains.as_slice(), k);
        let rule = item(rules.chains.as_slice(), chain, NO_RULE);
        let has = at(self.counts.as_slice(), k);
        let others = count(self.units.as_slice()).wrapping_sub(has);
        let slack = (has / 2).wrapping_add(32).min(others);
        let pin = pin_of(rules, units_of(plan, chain));
        let pinned = pin.map_or(0, |unit| unit_of(rules, unit).bits);
        Tour {
            base,
            room: has.wrapping_add(2).wrapping_add(slack.wrapping_mul(2)),
            first: base,
            nodes: 0,
            bits: 0,
            bound: rule.bound.wrapping_sub(pinned),
            least_bits: if rule.keeps_bit && pinned == 0 { 1 } else { 0 },
            least_units: if pin.is_some() { 0 } else { 1 },
        }
    }

    /// The chains as they are searched, still without an order.
    pub fn tours(
        &self,
        alloc: Global,
        rules: &Rules,
        ends: &Ends,
        plan: &Plan,
    ) -> Result<Tours, NoMemory> {
        let mut tours = Vec::with_capacity(alloc, self.chains.len())?;
        let mut base = 0u32;
        for k in 0..count(self.chains.as_slice()) {
            let tour = self.tour(rules, plan, k, base);
            base = base.wrapping_add(tour.room);
            tours.push(tour)?;
        }
        let nodes = self.nodes(alloc, rules, ends, plan)?;
        let bits = self.bits(alloc, rules)?;
        Tours::new(alloc, nodes, bits, tours, count(self.units.as_slice()))
    }
}

// Where a chain's free units end: at its pinned unit, or at its stop.
fn stop_of(rules: &Rules, ends: &Ends, plan: &Plan, chain: u32) -> Option<Point> {
    match pin_of(rules, units_of(plan, chain)) {
        Some(unit) => Some(item(ends.entry.as_slice(), unit, ORIGIN)),
        None => item(ends.stop.as_slice(), chain, None),
    }
}

// The corners of some places and another one.
fn wider(corners: Option<(Point, Point)>, place: Point) -> Option<(Point, Point)> {
    let (low, high) = corners.unwrap_or((place, place));
    let low = Point {
        x: low.x.min(place.x),
        y: low.y.min(place.y),
    };
    let high = Point {
        x: high.x.max(place.x),
        y: high.y.max(place.y),
    };
    Some((low, high))
}
