//! The steps within a chain that open a third link: the first two are those of the tried link, and the third stands beside a node that is
//! near to one which lost its neighbour.
use crate::links::{Change, Link, Reach};
use crate::places::{Step, Tours};

/// A near node, and the way to it or from it.
#[derive(Clone, Copy)]
pub struct Near {
    pub node: u32,
    pub way: u32,
}

impl Near {
    /// No node, farther than all.
    pub const NONE: Near = Near {
        node: 4294967295,
        way: 4294967295,
    };
}

/// A run that is reversed so that p and q stand side by side. Places of what stands then are turned back by `turned`.
#[derive(Clone, Copy)]
pub struct Turn {
    // The first and the last place of the run.
    low: u32,
    high: u32,
    // The place behind which the second new link stands then, and that behind which the tried one does.
    open: u32,
    closed: u32,
    // The places of the nodes at the second new link.
    one: u32,
    other: u32,
    /// Whether a near node goes before the second of these, else behind the first.
    pub is_before: bool,
    // What the links that are gone are longer than the tried one.
    gained: i64,
}

impl Turn {
    /// The run to be reversed for a link within a chain, tried from its first node or from its second one. There is none where it would be
    /// too long, or hold an end of the chain.
    pub fn of(tours: &Tours, link: &Link, reach: Reach, is_out: bool) -> Option<Turn> {
        let near = link.p.min(link.q);
        let far = link.p.max(link.q);
        let (low, high) = if is_out {
            (near.wrapping_add(1), far)
        } else {
            (near, far.wrapping_sub(1))
        };
        let is_short = far.wrapping_sub(near) <= reach.reversed;
        if !is_short || low <= link.p_first || high >= link.p_last || low > high {
            return None;
        }
        let before = low.wrapping_sub(1);
        let lost = tours.link_at(before).wrapping_add(tours.link_at(high));
        Some(Turn {
            low,
            high,
            open: if is_out { high } else { before },
            closed: if is_out { before } else { high },
            one: if is_out { low } else { before },
            other: if is_out { high.wrapping_add(1) } else { high },
            is_before: is_out == (link.p < link.q),
            gained: lost.wrapping_sub(link.made),
        })
    }

    /// The node beside which a third link is sought: it was beside the node from which the link is tried.
    pub fn loose(&self, tours: &Tours) -> u32 {
        tours.node(if self.is_before { self.other } else { self.one })
    }

    // Where a place's node stands after the reversal, and the other way round.
    fn turned(&self, place: u32) -> u32 {
        if place >= self.low && place <= self.high {
            self.low.wrapping_add(self.high).wrapping_sub(place)
        } else {
            place
        }
    }

    // The place behind which the link at a node is opened after the reversal, and the node's neighbour there.
    fn cut_at(&self, place: u32) -> (u32, u32) {
        let stands = self.turned(place);
        if self.is_before {
            let cut = stands.wrapping_sub(1);
            (cut, self.turned(cut))
        } else {
            (stands, self.turned(stands.wrapping_add(1)))
        }
    }

    fn nodes(&self) -> u32 {
        self.high.wrapping_sub(self.low).wrapping_add(1)
    }
}

impl Tours {
    /// Two neighbouring runs of a chain change places, so that q follows p. The near nodes are those behind the one before q where the link
    /// is tried from p, else those before the one behind p. Answers how many were tried.
    pub fn try_rotations(
        &self,
        link: &Link,
        reach: Reach,
        is_out: bool,
        near: &[Near],
        best: &mut Change,
    ) -> u64 {
        let before = link.q.wrapping_sub(1);
        let behind = link.p.wrapping_add(1);
        let mut tried = 0u64;
        for near in near {
            let least = link.opened.wrapping_add(i64::from(near.way));
            if least >= best.longer {
                break;
            }
            tried = tried.wrapping_add(1);
            let place = self.place(near.node);
            let next = if is_out { place } else { place.wrapping_add(1) };
            let last = next.wrapping_sub(1);
            let made = if is_out {
                self.between(last, behind)
            } else {
                self.between(before, next)
            };
            let longer = least.wrapping_add(made).wrapping_sub(self.link_at(last));
            if longer < best.longer && self.chain(near.node) == link.p_chain {
                take_rotation(link, reach, next, longer, best);
            }
        }
        tried
    }

    /// A run is reversed, or it and then one beside or within it, where a third link is opened. The near nodes are those of the loose node.
    /// Answers how many were tried.
    pub fn try_turns(
        &self,
        link: &Link,
        turn: &Turn,
        reach: Reach,
        near: &[Near],
        best: &mut Change,
    ) -> u64 {
        let first = Step::Reverse(link.p_run(turn.low, turn.nodes()));
        let longer = self.between(turn.one, turn.other).wrapping_sub(turn.gained);
        if longer < best.longer {
            best.take(longer, first, Step::Stay);
        }
        let loose = if turn.is_before { turn.one } else { turn.other };
        let mut tried = 0u64;
        for near in near {
            let least = i64::from(near.way).wrapping_sub(turn.gained);
            if least >= best.longer {
                break;
            }
            tried = tried.wrapping_add(1);
            let place = self.place(near.node);
            let (cut, beside) = turn.cut_at(place);
            if cut == turn.open || cut == turn.closed || self.chain(near.node) != link.p_chain {
                continue;
            }
            let longer = least
                .wrapping_add(self.between(loose, beside))
                .wrapping_sub(self.between(place, beside));
            if longer < best.longer {
                take_turns(link, turn, reach, cut, longer, best);
            }
        }
        tried
    }
}

// Takes the exchange of the two neighbouring runs between the places behind p, of q and of what follows the third link, unless both are too
// long.
fn take_rotation(link: &Link, reach: Reach, next: u32, longer: i64, best: &mut Change) {
    let behind = link.p.wrapping_add(1);
    let low = behind.min(link.q).min(next);
    let high = behind.max(link.q).max(next);
    let sum = behind.wrapping_add(link.q).wrapping_add(next);
    let middle = sum.wrapping_sub(low).wrapping_sub(high);
    let first = middle.wrapping_sub(low);
    let shorter = first.min(high.wrapping_sub(middle));
    let is_between = middle == next;
    if shorter > 0 && shorter <= reach.reversed && is_between != (link.p < link.q) {
        let run = link.p_run(low, high.wrapping_sub(low));
        best.take(longer, Step::Rotate(run, first), Step::Stay);
    }
}

// Takes the reversal of a run and then of that between the second new link and the third, unless that is too long.
fn take_turns(link: &Link, turn: &Turn, reach: Reach, cut: u32, longer: i64, best: &mut Change) {
    let (from, to) = if cut > turn.open {
        (turn.open.wrapping_add(1), cut)
    } else {
        (cut.wrapping_add(1), turn.open)
    };
    let nodes = to.wrapping_sub(from).wrapping_add(1);
    if nodes <= reach.reversed {
        let first = Step::Reverse(link.p_run(turn.low, turn.nodes()));
        let second = Step::Reverse(link.p_run(from, nodes));
        best.take(longer, first, second);
    }
}
