//! The chains while they are searched: one list of nodes in which each chain has a stretch, its start and its stop included.
//!
//! Nodes are numbers: first the units, then the start and the stop of each chain in turn. Each node knows its chain and its
//! place in the list. A stretch has room before and behind it, so that units taken out or put in move the shorter side.
//! What changes together: `spots`, `stands` and `line` at each node that is moved. Each loop over places or over nodes of
//! a run ends where the list does (`within`), so that no number that wrapped makes one longer.
ghost use Rattle.std.specs.Prelude.{◌≤◌, length};

use crate::lists::{at, count, filled, item, part_mut, put};
use crate::nodes::{Node, way};
use base_types::NoMemory;
use std::alloc::Global;

/// A chain's stretch and what the chain may hold.
#[derive(Clone, Copy)]
pub struct Tour {
    /// Where its room begins, and how much it is.
    pub base: u32,
    pub room: u32,
    /// The place of its start.
    pub first: u32,
    /// How many nodes it has, its start and stop included.
    pub nodes: u32,
    /// The bits that it holds, the most and the fewest that it may hold, and its fewest units.
    pub bits: u32,
    pub bound: u32,
    pub least_bits: u32,
    pub least_units: u32,
}

impl Tour {
    /// A chain without room.
    pub const NONE: Tour = Tour {
        base: 0,
        room: 0,
        first: 0,
        nodes: 0,
        bits: 0,
        bound: 0,
        least_bits: 0,
        least_units: 0,
    };

    /// The place of its stop.
    #[inline(always)]
    pub fn last(self) -> u32 {
        self.first.wrapping_add(self.nodes).wrapping_sub(1)
    }

    // How many nodes fit before it, and how many behind it.
    fn room_before(self) -> u32 {
        self.first.wrapping_sub(self.base)
    }

    fn room_behind(self) -> u32 {
        let end = self.base.wrapping_add(self.room);
        end.wrapping_sub(self.first).wrapping_sub(self.nodes)
    }
}

// Where a node stands: its chain, and its place in the list.
#[derive(Clone, Copy)]
struct Spot {
    chain: u32,
    place: u32,
}

impl Spot {
    // Of what isn't a node.
    const NONE: Spot = Spot { chain: 0, place: 0 };
}

/// A run of nodes of one chain; places count from the chain's start.
#[derive(Clone, Copy)]
pub struct Run {
    pub chain: u32,
    pub from: u32,
    pub nodes: u32,
}

/// A change of the chains that another one undoes.
#[derive(Clone, Copy)]
pub enum Step {
    /// Nothing.
    Stay,
    /// A run is reversed.
    Reverse(Run),
    /// In a run the first nodes go behind the rest.
    Rotate(Run, u32),
    /// Two runs of two chains change places.
    Exchange(Run, Run),
}

impl Step {
    /// What undoes it.
    pub fn undone(self) -> Step {
        match self {
            Step::Stay => Step::Stay,
            Step::Reverse(run) => Step::Reverse(run),
            Step::Rotate(run, first) => Step::Rotate(run, run.nodes.wrapping_sub(first)),
            Step::Exchange(one, other) => Step::Exchange(
                Run {
                    nodes: other.nodes,
                    ..one
                },
                Run {
                    nodes: one.nodes,
                    ..other
                },
            ),
        }
    }
}

/// The chains of one search.
#[derive(Drop)]
pub struct Tours {
    pub nodes: Vec<Node>,
    pub bits: Vec<u32>,
    pub tours: Vec<Tour>,
    /// The nodes below this number are units.
    pub units: u32,
    /// Whether all units have as many bits, and whether each is left where it is entered.
    pub is_even: bool,
    each: u32,
    pub is_plain: bool,
    stands: Vec<u32>,
    line: Vec<Node>,
    spots: Vec<Spot>,
    spare: Vec<u32>,
}

impl Tours {
    /// Chains without an order yet: nodes with their bits, the units first, and the chains' stretches.
    pub fn new(
        alloc: Global,
        nodes: Vec<Node>,
        bits: Vec<u32>,
        tours: Vec<Tour>,
        units: u32,
    ) -> Result<Tours, NoMemory> {
        let all = count(nodes.as_slice());
        let mut room = 0u32;
        for tour in tours.as_slice() {
            room = room.max(tour.base.wrapping_add(tour.room));
        }
        let stands = filled(alloc, room, 0)?;
        let line = vec![in alloc; Node::NOWHERE; room as usize]?;
        let spots = vec![in alloc; Spot::NONE; all as usize]?;
        let spare = filled(alloc, all, 0)?;
        let each = at(bits.as_slice(), 0);
        let mut is_plain = true;
        let mut is_even = true;
        for unit in 0..units {
            is_plain = is_plain && item(nodes.as_slice(), unit, Node::NOWHERE).is_point();
            is_even = is_even && at(bits.as_slice(), unit) == each;
        }
        Ok(Tours {
            nodes,
            bits,
            tours,
            units,
            is_even,
            each,
            is_plain,
            stands,
            line,
            spots,
            spare,
        })
    }

    // So many, or as many as the list has places where these are fewer.
    #[inline(always)]
    fn within(&self, places: u32) -> u32
        ensures end { result ≤ length self.now.stands.items }
        ensures asked { result ≤ places }
    {
        let all = self.stands.len();
        if places as usize <= all {
            places
        } else {
            all as u32
        }
    }

    /// The node at a place of the list.
    #[inline(always)]
    pub fn node(&self, place: u32) -> u32 {
        at(self.stands.as_slice(), place)
    }

    /// The place of a node.
    #[inline(always)]
    pub fn place(&self, node: u32) -> u32 {
        item(self.spots.as_slice(), node, Spot::NONE).place
    }

    /// The chain of a node.
    #[inline(always)]
    pub fn chain(&self, node: u32) -> u32 {
        item(self.spots.as_slice(), node, Spot::NONE).chain
    }

    /// The stretch of a chain.
    #[inline(always)]
    pub fn tour(&self, chain: u32) -> Tour {
        item(self.tours.as_slice(), chain, Tour::NONE)
    }

    /// The place from which a chain's places count.
    #[inline(always)]
    pub fn first(&self, chain: u32) -> u32 {
        self.tour(chain).first
    }

    /// Whether a node is a unit.
    #[inline(always)]
    pub fn is_unit(&self, node: u32) -> bool {
        node < self.units
    }

    /// Whether a node is the start of a chain.
    #[inline(always)]
    pub fn is_start(&self, node: u32) -> bool {
        node >= self.units && node.wrapping_sub(self.units) % 2 == 0
    }

    /// Whether a node is the stop of a chain.
    #[inline(always)]
    pub fn is_stop(&self, node: u32) -> bool {
        node >= self.units && node.wrapping_sub(self.units) % 2 == 1
    }

    /// The start of a chain; its stop is the node after it.
    pub fn start(&self, chain: u32) -> u32 {
        self.units.wrapping_add(chain.wrapping_mul(2))
    }

    /// Where a node is entered and left.
    #[inline(always)]
    pub fn point(&self, node: u32) -> Node {
        item(self.nodes.as_slice(), node, Node::NOWHERE)
    }

    #[inline(always)]
    fn point_at(&self, place: u32) -> Node {
        item(self.line.as_slice(), place, Node::NOWHERE)
    }

    /// The way from the node at one place to the node at another.
    #[inline(always)]
    pub fn between(&self, from: u32, to: u32) -> i64 {
        way(self.point_at(from), self.point_at(to))
    }

    /// The way from the node at a place to the node behind it.
    #[inline(always)]
    pub fn link_at(&self, place: u32) -> i64 {
        self.between(place, place.wrapping_add(1))
    }

    /// The bits of the node at a place.
    #[inline(always)]
    pub fn bits_at(&self, place: u32) -> u32 {
        if self.is_even {
            self.each
        } else {
            self.bits_of(self.node(place))
        }
    }

    /// The way from one node to another.
    #[inline(always)]
    pub fn way(&self, from: u32, to: u32) -> i64 {
        way(self.point(from), self.point(to))
    }

    /// The bits of a node.
    #[inline(always)]
    pub fn bits_of(&self, node: u32) -> u32 {
        at(self.bits.as_slice(), node)
    }

    /// The bits of so many nodes from a place on.
    pub fn bits_from(&self, place: u32, nodes: u32) -> u32 {
        if self.is_even {
            return self.each.wrapping_mul(nodes);
        }
        let mut bits = 0u32;
        for t in 0..self.within(nodes) {
            bits = bits.wrapping_add(self.bits_of(self.node(place.wrapping_add(t))));
        }
        bits
    }

    /// How much longer the ways between the nodes from one place to another become if they are gone backwards.
    pub fn backwards(&self, from: u32, to: u32) -> i64 {
        let mut more = 0i64;
        if self.is_plain {
            return more;
        }
        for place in from..self.within(to) {
            let next = place.wrapping_add(1);
            more = more.wrapping_add(
                self.between(next, place)
                    .wrapping_sub(self.between(place, next)),
            );
        }
        more
    }

    /// The length of all chains.
    pub fn length(&self) -> i64 {
        let mut length = 0i64;
        for tour in self.tours.as_slice() {
            for place in tour.first..self.within(tour.last()) {
                length = length.wrapping_add(self.link_at(place));
            }
        }
        length
    }

    /// No order of the chains is shorter: where units are left beside their entry a link may be 0, else a chain is as long as the
    /// way from its start to its stop.
    pub fn least_length(&self) -> i64 {
        let mut least = 0i64;
        if self.is_plain {
            for chain in 0..count(self.tours.as_slice()) {
                let start = self.start(chain);
                least = least.wrapping_add(self.way(start, start.wrapping_add(1)));
            }
        }
        least
    }

    /// Whether a chain may hold so many bits more or fewer and so many units more or fewer, and has room for them.
    pub fn may_change(&self, chain: u32, bits: i64, units: i64) -> bool {
        if bits == 0 && units == 0 {
            return true;
        }
        let tour = self.tour(chain);
        let held = i64::from(tour.bits).wrapping_add(bits);
        let nodes = i64::from(tour.nodes).wrapping_add(units);
        let room = tour.room_before().max(tour.room_behind());
        held <= i64::from(tour.bound)
            && held >= i64::from(tour.least_bits)
            && nodes >= i64::from(tour.least_units).wrapping_add(2)
            && units <= i64::from(room)
    }

    // Puts a node at a place of a chain.
    #[inline(always)]
    fn set(&mut self, chain: u32, place: u32, node: u32) {
        let point = self.point(node);
        put(self.stands.as_mut_slice(), place, node);
        put(self.line.as_mut_slice(), place, point);
        put(self.spots.as_mut_slice(), node, Spot { chain, place });
    }

    // Puts a node at another place of its chain.
    #[inline(always)]
    fn shift(&mut self, chain: u32, from: u32, to: u32) {
        let node = self.node(from);
        let point = self.point_at(from);
        put(self.stands.as_mut_slice(), to, node);
        put(self.line.as_mut_slice(), to, point);
        put(self.spots.as_mut_slice(), node, Spot { chain, place: to });
    }

    // Tells the nodes of a chain from one place up to another where they stand.
    fn number(&mut self, chain: u32, from: u32, to: u32) {
        for place in from..self.within(to) {
            let node = self.node(place);
            put(self.spots.as_mut_slice(), node, Spot { chain, place });
        }
    }

    // Puts the nodes of a run into the other order; their places are told later.
    fn turn(&mut self, from: u32, to: u32) {
        part_mut(self.stands.as_mut_slice(), from, to).reverse();
        part_mut(self.line.as_mut_slice(), from, to).reverse();
    }

    fn reverse(&mut self, run: Run) {
        let from = self.first(run.chain).wrapping_add(run.from);
        let to = from.wrapping_add(run.nodes);
        self.turn(from, to);
        self.number(run.chain, from, to);
    }

    fn rotate(&mut self, run: Run, first: u32) {
        let from = self.first(run.chain).wrapping_add(run.from);
        let middle = from.wrapping_add(first);
        let to = from.wrapping_add(run.nodes);
        self.turn(from, middle);
        self.turn(middle, to);
        self.turn(from, to);
        self.number(run.chain, from, to);
    }

    // Changes the bits and the nodes that a chain's stretch is said to have.
    fn count_in(&mut self, chain: u32, first: u32, nodes: u32, bits: u32) {
        let tour = Tour {
            first,
            nodes,
            bits,
            ..self.tour(chain)
        };
        put(self.tours.as_mut_slice(), chain, tour);
    }

    // Closes the stretch over a run, from its shorter side.
    fn close(&mut self, run: Run) {
        let tour = self.tour(run.chain);
        let gap = run.nodes;
        let from = tour.first.wrapping_add(run.from);
        let behind = from.wrapping_add(gap);
        let end = tour.first.wrapping_add(tour.nodes);
        let nodes = tour.nodes.wrapping_sub(gap);
        if run.from < end.wrapping_sub(behind) {
            for t in 0..self.within(run.from) {
                let place = from.wrapping_sub(1).wrapping_sub(t);
                self.shift(run.chain, place, place.wrapping_add(gap));
            }
            self.count_in(run.chain, tour.first.wrapping_add(gap), nodes, tour.bits);
        } else {
            for place in behind..self.within(end) {
                self.shift(run.chain, place, place.wrapping_sub(gap));
            }
            self.count_in(run.chain, tour.first, nodes, tour.bits);
        }
    }

    // Brings a stretch to the beginning of its room, so that all of what is left is behind it.
    fn slide(&mut self, chain: u32) {
        let tour = self.tour(chain);
        let before = tour.room_before();
        for place in tour.first..self.within(tour.first.wrapping_add(tour.nodes)) {
            self.shift(chain, place, place.wrapping_sub(before));
        }
        self.count_in(chain, tour.base, tour.nodes, tour.bits);
    }

    // Opens the stretch for a run, to its shorter side where that has room. Steps that are taken back leave the stretch elsewhere
    // than it stood, so that the room may be on both sides, and on neither enough.
    fn open(&mut self, run: Run) {
        let gap = run.nodes;
        let stands = self.tour(run.chain);
        if stands.room_before().max(stands.room_behind()) < gap {
            self.slide(run.chain);
        }
        let tour = self.tour(run.chain);
        let from = tour.first.wrapping_add(run.from);
        let end = tour.first.wrapping_add(tour.nodes);
        let nodes = tour.nodes.wrapping_add(gap);
        let shorter = run.from < end.wrapping_sub(from);
        if tour.room_before() >= gap && (shorter || tour.room_behind() < gap) {
            for place in tour.first..self.within(from) {
                self.shift(run.chain, place, place.wrapping_sub(gap));
            }
            self.count_in(run.chain, tour.first.wrapping_sub(gap), nodes, tour.bits);
        } else {
            for t in 0..self.within(end.wrapping_sub(from)) {
                let place = end.wrapping_sub(1).wrapping_sub(t);
                self.shift(run.chain, place, place.wrapping_add(gap));
            }
            self.count_in(run.chain, tour.first, nodes, tour.bits);
        }
    }

    // How many nodes of a chain stand on the shorter side of a place.
    fn beside(&self, chain: u32, from: u32) -> u64 {
        let behind = self.tour(chain).nodes.wrapping_sub(from);
        u64::from(from.min(behind))
    }

    // Brings a run to a place of another chain; answers how many nodes were moved, about.
    fn carry(&mut self, run: Run, chain: u32, to: u32) -> u64 {
        let moved = self
            .beside(run.chain, run.from)
            .wrapping_add(self.beside(chain, to));
        let from = self.first(run.chain).wrapping_add(run.from);
        for t in 0..self.within(run.nodes) {
            let node = self.node(from.wrapping_add(t));
            put(self.spare.as_mut_slice(), t, node);
        }
        self.close(run);
        let opened = Run {
            chain,
            from: to,
            nodes: run.nodes,
        };
        self.open(opened);
        let into = self.first(chain).wrapping_add(to);
        for t in 0..self.within(run.nodes) {
            let node = at(self.spare.as_slice(), t);
            self.set(chain, into.wrapping_add(t), node);
        }
        moved
    }

    // Brings bits from one chain to another.
    fn carry_bits(&mut self, from: u32, to: u32, bits: u32) {
        let one = self.tour(from);
        self.count_in(from, one.first, one.nodes, one.bits.wrapping_sub(bits));
        let other = self.tour(to);
        self.count_in(to, other.first, other.nodes, other.bits.wrapping_add(bits));
    }

    fn exchange(&mut self, one: Run, other: Run) -> u64 {
        let i = self.first(one.chain).wrapping_add(one.from);
        let j = self.first(other.chain).wrapping_add(other.from);
        let given = self.bits_from(i, one.nodes);
        let taken = self.bits_from(j, other.nodes);
        self.carry_bits(one.chain, other.chain, given.wrapping_sub(taken));
        let both = one.nodes.min(other.nodes);
        for t in 0..self.within(both) {
            let a = self.node(i.wrapping_add(t));
            let b = self.node(j.wrapping_add(t));
            self.set(one.chain, i.wrapping_add(t), b);
            self.set(other.chain, j.wrapping_add(t), a);
        }
        if one.nodes > both {
            let rest = Run {
                chain: one.chain,
                from: one.from.wrapping_add(both),
                nodes: one.nodes.wrapping_sub(both),
            };
            self.carry(rest, other.chain, other.from.wrapping_add(both))
        } else if other.nodes > both {
            let rest = Run {
                chain: other.chain,
                from: other.from.wrapping_add(both),
                nodes: other.nodes.wrapping_sub(both),
            };
            self.carry(rest, one.chain, one.from.wrapping_add(both))
        } else {
            0
        }
    }

    /// Takes a step; answers how many nodes it moved, about.
    pub fn take(&mut self, step: Step) -> u64 {
        match step {
            Step::Stay => 0,
            Step::Reverse(run) => {
                self.reverse(run);
                u64::from(run.nodes)
            }
            Step::Rotate(run, first) => {
                self.rotate(run, first);
                u64::from(run.nodes).wrapping_mul(2)
            }
            Step::Exchange(one, other) => {
                let nodes = u64::from(one.nodes).wrapping_add(u64::from(other.nodes));
                nodes.wrapping_add(self.exchange(one, other))
            }
        }
    }

    /// Gives the chains these units in order, chain after chain; `counts` says how many each has.
    pub fn load(&mut self, units: &[u32], counts: &[u32]) {
        let chains = count(self.tours.as_slice());
        let mut next = 0u32;
        for chain in 0..chains {
            let tour = self.tour(chain);
            let has = at(counts, chain);
            let nodes = has.wrapping_add(2);
            let first = tour.base.wrapping_add(tour.room.wrapping_sub(nodes) / 2);
            let start = self.start(chain);
            self.set(chain, first, start);
            for t in 0..self.within(has) {
                let node = at(units, next);
                next = next.wrapping_add(1);
                self.set(chain, first.wrapping_add(1).wrapping_add(t), node);
            }
            self.set(
                chain,
                first.wrapping_add(nodes).wrapping_sub(1),
                start.wrapping_add(1),
            );
            let mut bits = 0u32;
            for t in 1..self.within(nodes.wrapping_sub(1)) {
                bits = bits.wrapping_add(self.bits_of(self.node(first.wrapping_add(t))));
            }
            self.count_in(chain, first, nodes, bits);
        }
    }

    /// Writes the units of the chains in order, and how many each has.
    pub fn save(&self, units: &mut [u32], counts: &mut [u32]) {
        let mut next = 0u32;
        for chain in 0..count(self.tours.as_slice()) {
            let tour = self.tour(chain);
            let has = tour.nodes.wrapping_sub(2);
            put(counts, chain, has);
            for t in 0..self.within(has) {
                let node = self.node(tour.first.wrapping_add(1).wrapping_add(t));
                put(units, next, node);
                next = next.wrapping_add(1);
            }
        }
    }
}
