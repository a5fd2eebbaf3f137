//! The search itself: steps while they gain, then small perturbations that are repaired and kept or undone.
//!
//! All of it counts down one number, the work: eight for each link that is tried and each perturbation, one for each pair of
//! runs, and among very many units one for each eight nodes that are moved or summed. So it ends, and takes the same steps on every machine.
use crate::carries::try_carries;
use crate::near::{KEPT, NearUnits};
use crate::progress::{Progress, Told};
use crate::queue::Queue;
use crate::random::Random;
use base_types::NoMemory;
use chain_tours::{Change, Link, Near, Reach, Run, Step, Tours, Turn, at, count, item, put};
use std::alloc::Global;

// The work for a link.
const LINK: u64 = 8;

// How many nodes are moved or summed for one of work, and from how many units on: the runs of fewer are so short that this takes little.
const NODES: u64 = 8;

const MANY: u32 = 10000;

// The most steps that one perturbation and its repair take.
const STEPS: u32 = 1024;

// The longest run that a perturbation exchanges with the next.
const SHAKEN: u32 = 25;

// How many perturbations of a hundred exchange runs of two chains, where there are two, and the longest of these runs.
const ACROSS: u32 = 30;

const CROSSED: u32 = 10;

// The work for each node after which the search ends, if no perturbation changed the length.
const STILL: u64 = 4000;

/// A search over some chains.
#[derive(Drop)]
pub(crate) struct Climb {
    pub tours: Tours,
    near: NearUnits,
    queue: Queue,
    // The steps since the last perturbation, and how many there are.
    log: Vec<Step>,
    logged: u32,
    work: u64,
    random: Random,
}

impl Climb {
    /// A search over chains, with all the room that it needs.
    pub fn new(alloc: Global, tours: Tours) -> Result<Climb, NoMemory> {
        let nodes = count(tours.nodes.as_slice());
        let near = NearUnits::of(alloc, &tours)?;
        let queue = Queue::new(alloc, nodes)?;
        let log = vec![in alloc; Step::Stay; STEPS as usize]?;
        Ok(Climb {
            tours,
            near,
            queue,
            log,
            logged: 0,
            work: 0,
            random: Random::new(),
        })
    }

    fn spend(&mut self, work: u64) {
        self.work = self.work.saturating_sub(work);
    }

    // Spends the work for nodes that were moved or summed.
    fn spend_nodes(&mut self, nodes: u64) {
        if self.tours.units >= MANY {
            self.spend(nodes / NODES);
        }
    }

    // Finds the best step that makes a link, which is tried from its first node or from its second one.
    fn try_link(&mut self, link: &Link, reach: Reach, is_out: bool, best: &mut Change) {
        self.spend(LINK);
        if link.stands() {
            return;
        }
        if reach.thirds {
            let thirds = self.try_thirds(link, reach, is_out, best);
            self.spend(thirds);
        }
        let within = link.is_within_chain();
        if within && !(reach.thirds && self.tours.is_plain) {
            let summed = self.tours.try_reversals(link, reach, best);
            self.spend_nodes(summed);
        }
        let tours = &self.tours;
        if !reach.thirds {
            tours.try_runs_from_q(link, best);
            tours.try_runs_to_p(link, best);
        }
        if !(reach.thirds && tours.is_plain) {
            tours.try_turned_runs_to_q(link, best);
            tours.try_turned_runs_from_p(link, best);
        }
        if !within {
            let rests = tours.try_rests(link, best);
            let behind = tours.try_runs_behind(link, reach, best);
            let before = tours.try_runs_before(link, reach, best);
            self.spend(rests.wrapping_add(behind).wrapping_add(before));
        }
    }

    // Finds the best step that makes a link and another one besides; answers how many were tried.
    fn try_thirds(&self, link: &Link, reach: Reach, is_out: bool, best: &mut Change) -> u64 {
        let tours = &self.tours;
        let near = self.near.beside(tours.node(link.loose(is_out)), is_out);
        if !link.is_within_chain() {
            return try_carries(tours, link, reach, is_out, near, best);
        }
        let rotations = tours.try_rotations(link, reach, is_out, near, best);
        if !tours.is_plain {
            return rotations;
        }
        let Some(turn) = Turn::of(tours, link, reach, is_out) else {
            return rotations;
        };
        let near = self.near.beside(turn.loose(tours), !turn.is_before);
        rotations.wrapping_add(tours.try_turns(link, &turn, reach, near, best))
    }

    // The first gain among the links from a node, or to it.
    fn gain_at(&mut self, node: u32, reach: Reach, is_out: bool) -> Change {
        let mut best = Change::NONE;
        let is_end = if is_out {
            self.tours.is_stop(node)
        } else {
            self.tours.is_start(node)
        };
        if is_end {
            return best;
        }
        let place = self.tours.place(node);
        let before = if is_out { place } else { place.wrapping_sub(1) };
        let now = self.tours.link_at(before);
        for k in 0..KEPT {
            let near = self.near.one(node, is_out, k);
            let made = i64::from(near.way);
            if made >= now {
                return best;
            }
            let link = if is_out {
                Link::of(&self.tours, node, near.node, made)
            } else {
                Link::of(&self.tours, near.node, node, made)
            };
            self.try_link(&link, reach, is_out, &mut best);
            if best.longer < 0 {
                return best;
            }
        }
        best
    }

    // Puts the nodes on both sides of a run's two ends into the queue.
    fn wake(&mut self, chain: u32, from: u32, nodes: u32) {
        let first = self.tours.first(chain).wrapping_add(from);
        let end = first.wrapping_add(nodes);
        let beside = [first.wrapping_sub(1), first, end.wrapping_sub(1), end];
        for place in beside {
            let node = self.tours.node(place);
            self.queue.push(node);
        }
    }

    fn wake_all(&mut self, step: Step) {
        match step {
            Step::Stay => {}
            Step::Reverse(run) => self.wake(run.chain, run.from, run.nodes),
            Step::Rotate(run, first) => {
                self.wake(run.chain, run.from, run.nodes);
                self.wake(run.chain, run.from, run.nodes.wrapping_sub(first));
            }
            Step::Exchange(one, other) => {
                self.wake(one.chain, one.from, other.nodes);
                self.wake(other.chain, other.from, one.nodes);
            }
        }
    }

    // Takes a step and writes it down.
    fn take(&mut self, step: Step) {
        let moved = self.tours.take(step);
        self.spend_nodes(moved);
        put(self.log.as_mut_slice(), self.logged, step);
        self.logged = self.logged.wrapping_add(1);
    }

    // Takes back the steps written down.
    fn take_back(&mut self) {
        for k in 0..self.logged {
            let place = self.logged.wrapping_sub(1).wrapping_sub(k);
            let step = item(self.log.as_slice(), place, Step::Stay);
            let moved = self.tours.take(step.undone());
            self.spend_nodes(moved);
        }
    }

    // Takes the steps of a change and wakes the nodes at changed links.
    fn change(&mut self, node: u32, change: Change) {
        self.take(change.first);
        self.wake_all(change.first);
        if let Step::Reverse(run) = change.second {
            self.take(Step::Reverse(run));
            self.wake_all(change.second);
        }
        self.queue.push(node);
    }

    // Takes steps that gain until no node waits, and answers how much longer the chains became.
    fn repair(&mut self, reach: Reach, is_logged: bool) -> i64 {
        let mut longer = 0i64;
        let steps = self.work;
        for _ in 0..steps {
            if self.work == 0 {
                break;
            }
            let Some(node) = self.queue.pop() else {
                break;
            };
            self.spend(1);
            let mut change = self.gain_at(node, reach, true);
            if change.longer >= 0 {
                change = self.gain_at(node, reach, false);
            }
            if change.longer < 0 {
                longer = longer.wrapping_add(change.longer);
                self.change(node, change);
                if !is_logged {
                    self.logged = 0;
                } else if self.logged.wrapping_add(2) > STEPS {
                    break;
                }
            }
        }
        longer
    }

    // Exchanges two neighbouring runs of a chain, and answers how much longer it became.
    fn rotate(&mut self, chain: u32, from: u32, one: u32, other: u32) -> i64 {
        let tours = &self.tours;
        let first = tours.first(chain).wrapping_add(from);
        let middle = first.wrapping_add(one);
        let end = middle.wrapping_add(other);
        let before = first.wrapping_sub(1);
        let last = end.wrapping_sub(1);
        let inner = middle.wrapping_sub(1);
        let made = tours
            .between(before, middle)
            .wrapping_add(tours.between(last, first))
            .wrapping_add(tours.between(inner, end));
        let lost = tours
            .link_at(before)
            .wrapping_add(tours.link_at(inner))
            .wrapping_add(tours.link_at(last));
        let run = Run {
            chain,
            from,
            nodes: one.wrapping_add(other),
        };
        self.take(Step::Rotate(run, one));
        self.wake_all(Step::Rotate(run, one));
        made.wrapping_sub(lost)
    }

    // Exchanges a run from a random unit on with the next one, or where steps open third links, which would take that back at once, with
    // the next but one; answers how much longer the chain became, if it has three units.
    fn shake(&mut self, reach: Reach) -> Option<i64> {
        let unit = self.random.below(self.tours.units);
        let chain = self.tours.chain(unit);
        let tour = self.tours.tour(chain);
        let units = tour.nodes.wrapping_sub(2);
        if units < 3 {
            return None;
        }
        let most = SHAKEN.min(units / if reach.thirds { 3 } else { 2 });
        let one = self.random.below(most).wrapping_add(1);
        let other = self.random.below(most).wrapping_add(1);
        let middle = if reach.thirds {
            self.random.below(most).wrapping_add(1)
        } else {
            0
        };
        let behind = middle.wrapping_add(other);
        let last = units.wrapping_add(1).wrapping_sub(one).wrapping_sub(behind);
        let from = self.tours.place(unit).wrapping_sub(tour.first).min(last);
        let longer = self.rotate(chain, from, one, behind);
        if middle == 0 {
            return Some(longer);
        }
        Some(longer.wrapping_add(self.rotate(chain, from, middle, other)))
    }

    // A near unit of another chain, or none.
    fn near_of_another(&mut self, unit: u32) -> u32 {
        let chain = self.tours.chain(unit);
        let from = self.random.below(KEPT);
        for k in 0..KEPT {
            let kept = from.wrapping_add(k) % KEPT;
            let other = self.near.one(unit, true, kept).node;
            if self.tours.is_unit(other) && self.tours.chain(other) != chain {
                return other;
            }
        }
        Near::NONE.node
    }

    // The run of so many units, as far as its chain goes, from a unit on.
    fn run_from(&self, unit: u32, nodes: u32) -> Run {
        let chain = self.tours.chain(unit);
        let tour = self.tours.tour(chain);
        let place = self.tours.place(unit);
        Run {
            chain,
            from: place.wrapping_sub(tour.first),
            nodes: nodes.min(tour.last().wrapping_sub(place)),
        }
    }

    // Exchanges a run from a random unit on with one from a near unit of another chain on; answers how much longer the chains
    // became, if there were two that may be exchanged. Where their bounds are tight, runs of as many units are taken.
    fn shake_across(&mut self) -> Option<i64> {
        let unit = self.random.below(self.tours.units);
        let near = self.near_of_another(unit);
        if near == Near::NONE.node {
            return None;
        }
        let others_most = self.run_from(near, CROSSED).nodes;
        let most = self.run_from(unit, others_most).nodes;
        let nodes = self.random.below(most).wrapping_add(1);
        let one = self.run_from(unit, nodes);
        let others = self.random.below(others_most).wrapping_add(1);
        let mut other = self.run_from(near, others);
        if !self.tours.are_exchangeable(one, other) {
            other = self.run_from(near, one.nodes);
            if !self.tours.are_exchangeable(one, other) {
                return None;
            }
        }
        let longer = self.tours.longer_by_exchange(one, other);
        self.take(Step::Exchange(one, other));
        self.wake_all(Step::Exchange(one, other));
        Some(longer)
    }

    // Whether there are several chains, and three units for each.
    fn has_long_chains(&self) -> bool {
        let chains = count(self.tours.tours.as_slice());
        chains > 1 && self.tours.units / chains.max(1) >= 3
    }

    // Perturbs a chain, or two where there are more.
    fn perturb_once(&mut self, reach: Reach) -> Option<i64> {
        if self.has_long_chains() && self.random.below(100) < ACROSS {
            self.shake_across()
        } else {
            self.shake(reach)
        }
    }

    /// Takes steps that gain, from all nodes on.
    pub fn settle(&mut self, reach: Reach, work: u64) {
        self.work = work;
        for node in 0..count(self.tours.nodes.as_slice()) {
            self.queue.push(node);
        }
        self.repair(reach, false);
        self.empty_queue();
    }

    fn empty_queue(&mut self) {
        for _ in 0..count(self.tours.nodes.as_slice()) {
            if self.queue.pop().is_none() {
                break;
            }
        }
    }

    // How much longer a perturbation may leave the chains: less and less, and at random.
    fn leave(&mut self, spacing: i64, work: u64) -> i64 {
        let left = (self.work.wrapping_mul(1000) / work.max(1) & 0x3ff) as i64;
        let most = spacing.wrapping_mul(left) / 1000;
        let drawn = self.random.up_to(most);
        drawn.wrapping_mul(self.random.up_to(1023)) / 1024
    }

    // Whether the chains are as short as can be, or stayed as long as they are over much work.
    fn is_done(&self, length: i64, least: i64, changed: u64) -> bool {
        let nodes = u64::from(count(self.tours.nodes.as_slice()));
        length <= least || changed.wrapping_sub(self.work) > STILL.wrapping_mul(nodes)
    }

    /// Perturbs, repairs and keeps or undoes until the work is used up or nothing changes any more. At first the chains may become longer
    /// by as much as is said.
    pub fn perturb<P: Progress>(&mut self, reach: Reach, most: i64, work: u64, told: &Told<'_, P>) {
        self.work = work;
        let least = self.tours.least_length();
        let mut length = self.tours.length();
        let mut changed = work;
        let mut left = work;
        for _ in 0..work {
            if self.work == 0 || self.is_done(length, least, changed) {
                break;
            }
            self.spend(LINK);
            if left.wrapping_sub(self.work) > told.part() {
                left = self.work;
                told.tell(work.wrapping_sub(left));
            }
            self.logged = 0;
            let Some(more) = self.perturb_once(reach) else {
                continue;
            };
            let longer = more.wrapping_add(self.repair(reach, true));
            if longer > self.leave(most, work) {
                self.take_back();
                self.empty_queue();
            } else if longer != 0 {
                length = length.wrapping_add(longer);
                changed = self.work;
            }
        }
        self.empty_queue();
    }

    /// The mean way of a unit to its fourth nearest unit, or the mean link where that is less.
    pub fn spacing(&self) -> i64 {
        let nodes = i64::from(count(self.tours.nodes.as_slice())).max(1);
        let link = self.tours.length() / nodes;
        let mut ways = 0i64;
        let mut found = 0i64;
        for unit in 0..self.tours.units {
            let other = self.near.one(unit, true, 3).node;
            if other != Near::NONE.node {
                ways = ways.wrapping_add(self.tours.way(unit, other));
                found = found.wrapping_add(1);
            }
        }
        if found > 0 {
            link.min(ways / found)
        } else {
            link
        }
    }
}
