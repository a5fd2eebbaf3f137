//! Memberships anew: chains and units are halved together along an axis until each chain has its units.
//!
//! Each chain gets as many units of each size as it had, so that no bound is passed.
use base_types::NoMemory;
use chain_tours::{Node, at, count, filled, item, part, part_mut, put, way};
use std::alloc::Global;

/// By which rule a half is cut off.
#[derive(Clone, Copy, PartialEq, Eq)]
pub(crate) enum Rule {
    /// Along the axis that brings less detour.
    Detour,
    /// Along the axis on which the units lie wider apart.
    Width,
    /// By the angle around the middle of all ends.
    Sector,
}

// What units and chains are sorted by.
#[derive(Clone, Copy, PartialEq, Eq)]
enum Axis {
    Across,
    Upright,
    Around,
}

// Some chains in the order of the halving and their units.
#[derive(Clone, Copy)]
struct Task {
    chains_from: u32,
    chains_to: u32,
    units_from: u32,
    units_to: u32,
}

/// Units and chains to be halved: the units first among the nodes, then starts and stops in turn.
#[derive(Drop)]
pub(crate) struct Halving<'a> {
    nodes: &'a [Node],
    // The number of each unit's size, and the units of each chain as they are: so many, one behind the other.
    sizes: &'a [u32],
    counts: &'a [u32],
    begins: Vec<u32>,
    units: u32,
    centre: (i64, i64),
    chains: Vec<u32>,
    line: Vec<u32>,
    spare: Vec<u32>,
    quota: Vec<u32>,
}

// Where a direction stands among all around, from 0 to 4 * 2^20.
fn around(x: i64, y: i64) -> i64 {
    let sum = x.wrapping_abs().wrapping_add(y.wrapping_abs()).max(1);
    let part = y.wrapping_abs().wrapping_mul(1048576).wrapping_div(sum);
    if x >= 0 && y >= 0 {
        part
    } else if y >= 0 {
        2097152i64.wrapping_sub(part)
    } else if x < 0 {
        part.wrapping_add(2097152)
    } else {
        4194304i64.wrapping_sub(part)
    }
}

impl<'a> Halving<'a> {
    /// Room for it all.
    pub fn new(
        alloc: Global,
        nodes: &'a [Node],
        sizes: &'a [u32],
        counts: &'a [u32],
    ) -> Result<Halving<'a>, NoMemory> {
        let units = count(sizes);
        let chains = count(counts);
        let mut begins = filled(alloc, chains, 0)?;
        let mut begin = 0u32;
        for chain in 0..chains {
            put(begins.as_mut_slice(), chain, begin);
            begin = begin.wrapping_add(at(counts, chain));
        }
        Ok(Halving {
            nodes,
            sizes,
            counts,
            begins,
            units,
            centre: centre_of(nodes, units),
            chains: filled(alloc, chains, 0)?,
            line: filled(alloc, units, 0)?,
            spare: filled(alloc, units, 0)?,
            quota: filled(alloc, units, 0)?,
        })
    }

    // Sorts the units and the chains of a task.
    fn sort(&mut self, task: Task, axis: Axis) {
        let nodes = self.nodes;
        let units = self.units;
        let centre = self.centre;
        part_mut(self.line.as_mut_slice(), task.units_from, task.units_to).sort_unstable_by_key(
            |unit| (unit_key(nodes, centre, axis, *unit), *unit),
        );
        part_mut(self.chains.as_mut_slice(), task.chains_from, task.chains_to).sort_unstable_by_key(
            |chain| (chain_key(nodes, units, centre, axis, *chain), *chain),
        );
    }

    // Fills the quotas with the sizes of the units of some chains, and answers how many these have.
    fn count_quota(&mut self, from: u32, to: u32) -> u32 {
        self.quota.as_mut_slice().fill(0);
        let mut all = 0u32;
        for k in from..to {
            let chain = at(self.chains.as_slice(), k);
            let begin = at(self.begins.as_slice(), chain);
            let units = at(self.counts, chain);
            all = all.wrapping_add(units);
            for unit in begin..begin.wrapping_add(units) {
                let size = at(self.sizes, unit);
                let more = at(self.quota.as_slice(), size).wrapping_add(1);
                put(self.quota.as_mut_slice(), size, more);
            }
        }
        all
    }

    // Sorts a task along an axis and gives the first half of the chains its units; answers the two halves.
    fn split(&mut self, task: Task, axis: Axis) -> (Task, Task) {
        self.sort(task, axis);
        let half = task
            .chains_from
            .wrapping_add(task.chains_to.wrapping_sub(task.chains_from) / 2);
        let first = self.count_quota(task.chains_from, half);
        let cut = task.units_from.wrapping_add(first);
        let mut low = task.units_from;
        let mut high = cut;
        for place in task.units_from..task.units_to {
            let unit = at(self.line.as_slice(), place);
            let size = at(self.sizes, unit);
            let left = at(self.quota.as_slice(), size);
            if left > 0 {
                put(self.quota.as_mut_slice(), size, left.wrapping_sub(1));
                put(self.spare.as_mut_slice(), low, unit);
                low = low.wrapping_add(1);
            } else {
                put(self.spare.as_mut_slice(), high, unit);
                high = high.wrapping_add(1);
            }
        }
        for place in task.units_from..task.units_to {
            let unit = at(self.spare.as_slice(), place);
            put(self.line.as_mut_slice(), place, unit);
        }
        let one = Task {
            chains_to: half,
            units_to: cut,
            ..task
        };
        let other = Task {
            chains_from: half,
            units_from: cut,
            ..task
        };
        (one, other)
    }

    // The mean of the starts or of the stops of a task's chains.
    fn mean_end(&self, task: Task, is_stop: bool) -> Node {
        let mut x = 0i64;
        let mut y = 0i64;
        for k in task.chains_from..task.chains_to {
            let chain = at(self.chains.as_slice(), k);
            let end = end_of(self.nodes, self.units, chain, is_stop);
            x = x.wrapping_add(i64::from(end.enter_x));
            y = y.wrapping_add(i64::from(end.enter_y));
        }
        let chains = i64::from(task.chains_to.wrapping_sub(task.chains_from)).max(1);
        let x = (x / chains & 0x7fff_ffff) as i32;
        let y = (y / chains & 0x7fff_ffff) as i32;
        Node {
            enter_x: x,
            enter_y: y,
            leave_x: x,
            leave_y: y,
        }
    }

    // The detours by which the units of a task lie from the way between its mean start and its mean stop.
    fn detour(&self, task: Task) -> i64 {
        let start = self.mean_end(task, false);
        let stop = self.mean_end(task, true);
        let straight = way(start, stop);
        let mut detour = 0i64;
        for unit in part(self.line.as_slice(), task.units_from, task.units_to) {
            let node = item(self.nodes, *unit, Node::NOWHERE);
            let through = way(start, node).wrapping_add(way(node, stop));
            detour = detour.wrapping_add(through.wrapping_sub(straight));
        }
        detour
    }

    // How wide the units of a task lie apart along an axis.
    fn width(&self, task: Task, axis: Axis) -> i64 {
        let mut low = i64::MAX;
        let mut high = i64::MIN;
        for unit in part(self.line.as_slice(), task.units_from, task.units_to) {
            let key = unit_key(self.nodes, self.centre, axis, *unit);
            low = low.min(key);
            high = high.max(key);
        }
        high.wrapping_sub(low)
    }

    // What a cut along an axis costs by a rule.
    fn cost(&mut self, task: Task, axis: Axis, rule: Rule) -> i64 {
        match rule {
            Rule::Detour => {
                let (one, other) = self.split(task, axis);
                self.detour(one).wrapping_add(self.detour(other))
            }
            Rule::Width => self.width(task, axis).wrapping_neg(),
            Rule::Sector => 0,
        }
    }

    fn axis_of(&mut self, task: Task, rule: Rule) -> Axis {
        if rule == Rule::Sector {
            return Axis::Around;
        }
        let across = self.cost(task, Axis::Across, rule);
        let upright = self.cost(task, Axis::Upright, rule);
        if upright < across {
            Axis::Upright
        } else {
            Axis::Across
        }
    }

    // Writes the units of a chain that is alone.
    fn finish(&self, task: Task, assigned: &mut [u32]) {
        let chain = at(self.chains.as_slice(), task.chains_from);
        let begin = at(self.begins.as_slice(), chain);
        for place in task.units_from..task.units_to {
            let to = begin.wrapping_add(place.wrapping_sub(task.units_from));
            put(assigned, to, at(self.line.as_slice(), place));
        }
    }

    /// Writes the units of each chain by a rule, chain after chain.
    pub fn assign(
        &mut self,
        alloc: Global,
        rule: Rule,
        assigned: &mut [u32],
    ) -> Result<(), NoMemory> {
        let chains = count(self.counts);
        let whole = Task {
            chains_from: 0,
            chains_to: chains,
            units_from: 0,
            units_to: self.units,
        };
        for chain in 0..chains {
            put(self.chains.as_mut_slice(), chain, chain);
        }
        for unit in 0..self.units {
            put(self.line.as_mut_slice(), unit, unit);
        }
        let mut tasks = vec![in alloc; whole; chains as usize]?;
        let mut waiting = 1u32;
        for _ in 0..chains.wrapping_mul(2) {
            if waiting == 0 {
                break;
            }
            waiting = waiting.wrapping_sub(1);
            let task = item(tasks.as_slice(), waiting, whole);
            if task.chains_to.wrapping_sub(task.chains_from) <= 1 {
                self.finish(task, assigned);
                continue;
            }
            let axis = self.axis_of(task, rule);
            let (one, other) = self.split(task, axis);
            put(tasks.as_mut_slice(), waiting, other);
            put(tasks.as_mut_slice(), waiting.wrapping_add(1), one);
            waiting = waiting.wrapping_add(2);
        }
        Ok(())
    }
}

// An end of a chain, or the other one where it stands nowhere.
fn end_of(nodes: &[Node], units: u32, chain: u32, is_stop: bool) -> Node {
    let start = units.wrapping_add(chain.wrapping_mul(2));
    let one = item(nodes, start, Node::NOWHERE);
    let other = item(nodes, start.wrapping_add(1), Node::NOWHERE);
    let is_other = if is_stop {
        other.stands()
    } else {
        !one.stands()
    };
    if is_other { other } else { one }
}

// Twice the middle of all ends that stand somewhere.
fn centre_of(nodes: &[Node], units: u32) -> (i64, i64) {
    let mut x = 0i64;
    let mut y = 0i64;
    let mut ends = 0i64;
    for k in units..count(nodes) {
        let end = item(nodes, k, Node::NOWHERE);
        if end.stands() {
            x = x.wrapping_add(end.middle(false));
            y = y.wrapping_add(end.middle(true));
            ends = ends.wrapping_add(1);
        }
    }
    let ends = ends.max(1);
    (x / ends, y / ends)
}

fn key(axis: Axis, centre: (i64, i64), x: i64, y: i64) -> i64 {
    match axis {
        Axis::Across => x,
        Axis::Upright => y,
        Axis::Around => around(x.wrapping_sub(centre.0), y.wrapping_sub(centre.1)),
    }
}

fn unit_key(nodes: &[Node], centre: (i64, i64), axis: Axis, unit: u32) -> i64 {
    let node = item(nodes, unit, Node::NOWHERE);
    key(axis, centre, node.middle(false), node.middle(true))
}

fn chain_key(nodes: &[Node], units: u32, centre: (i64, i64), axis: Axis, chain: u32) -> i64 {
    let start = end_of(nodes, units, chain, false);
    let stop = end_of(nodes, units, chain, true);
    let x = i64::from(start.enter_x).wrapping_add(i64::from(stop.enter_x));
    let y = i64::from(start.enter_y).wrapping_add(i64::from(stop.enter_y));
    key(axis, centre, x, y)
}
