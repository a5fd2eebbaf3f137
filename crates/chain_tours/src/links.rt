//! The steps that make one node follow another, and what each would change.
use crate::places::{Run, Step, Tours};

// The most units that are moved as one.
const MOVED: u32 = 3;

/// The best change found: one or two steps, and how much longer they make the chains.
#[derive(Clone, Copy)]
pub struct Change {
    pub longer: i64,
    pub first: Step,
    pub second: Step,
}

impl Change {
    /// Nothing is changed.
    pub const NONE: Change = Change {
        longer: 0,
        first: Step::Stay,
        second: Step::Stay,
    };

    /// Puts another change in its place.
    pub fn take(&mut self, longer: i64, first: Step, second: Step) {
        *self = Change {
            longer,
            first,
            second,
        };
    }
}

/// How far the search looks.
#[derive(Clone, Copy)]
pub struct Reach {
    /// The longest run that is reversed.
    pub reversed: u32,
    /// Whether steps within a chain open a third link beside near nodes; else short runs alone are moved.
    pub thirds: bool,
    /// The most units of runs that are exchanged, and by how many they may differ.
    pub exchanged: u32,
    pub uneven: u32,
}

/// Two nodes p and q of which q is to follow p, by their places in the list.
#[derive(Clone, Copy)]
pub struct Link {
    pub p_chain: u32,
    pub q_chain: u32,
    pub p: u32,
    pub q: u32,
    /// The places of the starts and of the stops of both chains.
    pub p_first: u32,
    pub p_last: u32,
    pub q_first: u32,
    pub q_last: u32,
    /// The way from p to q, that from p to what follows it, and that from what q follows to q.
    pub made: i64,
    pub left: i64,
    pub lost: i64,
    /// The first less the other two.
    pub opened: i64,
}

fn run(chain: u32, from: u32, nodes: u32) -> Run {
    Run { chain, from, nodes }
}

impl Link {
    /// The link from one node to another, whose way is known.
    #[inline(always)]
    pub fn of(tours: &Tours, from: u32, to: u32, made: i64) -> Link {
        let p = tours.place(from);
        let q = tours.place(to);
        let p_chain = tours.chain(from);
        let q_chain = tours.chain(to);
        let p_tour = tours.tour(p_chain);
        let q_tour = tours.tour(q_chain);
        let left = tours.link_at(p);
        let lost = tours.link_at(q.wrapping_sub(1));
        Link {
            p_chain,
            q_chain,
            p,
            q,
            p_first: p_tour.first,
            p_last: p_tour.last(),
            q_first: q_tour.first,
            q_last: q_tour.last(),
            made,
            left,
            lost,
            opened: made.wrapping_sub(left).wrapping_sub(lost),
        }
    }

    /// Whether q follows p already.
    pub fn stands(&self) -> bool {
        self.p.wrapping_add(1) == self.q
    }

    /// The place of the node that loses its neighbour where the link is tried from p: that before q, or where from q: that behind p.
    pub fn loose(&self, is_out: bool) -> u32 {
        if is_out {
            self.q.wrapping_sub(1)
        } else {
            self.p.wrapping_add(1)
        }
    }

    /// Whether p and q are of one chain.
    pub fn is_within_chain(&self) -> bool {
        self.p_chain == self.q_chain
    }

    // Whether p stands before q in one chain, or behind it.
    fn is_before(&self) -> bool {
        self.p_chain == self.q_chain && self.p < self.q
    }

    fn is_behind(&self) -> bool {
        self.p_chain == self.q_chain && self.p > self.q
    }

    /// A run of p's chain from a place of the list on.
    pub fn p_run(&self, from: u32, nodes: u32) -> Run {
        run(self.p_chain, from.wrapping_sub(self.p_first), nodes)
    }

    /// A run of q's chain from a place of the list on.
    pub fn q_run(&self, from: u32, nodes: u32) -> Run {
        run(self.q_chain, from.wrapping_sub(self.q_first), nodes)
    }

    // Runs are brought before these places of the chains: behind p, or before q.
    fn behind_p(&self) -> Run {
        self.p_run(self.p.wrapping_add(1), 0)
    }

    fn before_q(&self) -> Run {
        self.q_run(self.q, 0)
    }
}

// The step that brings a run before a place of another or the same chain.
fn moved(moved: Run, to: Run) -> Step {
    if moved.chain != to.chain {
        return Step::Exchange(moved, to);
    }
    if to.from < moved.from {
        let first = moved.from.wrapping_sub(to.from);
        Step::Rotate(
            run(to.chain, to.from, first.wrapping_add(moved.nodes)),
            first,
        )
    } else {
        let nodes = to.from.wrapping_sub(moved.from);
        Step::Rotate(run(to.chain, moved.from, nodes), moved.nodes)
    }
}

// The step that reverses the run where it then stands.
fn landed(moved: Run, to: Run) -> Step {
    let from = if moved.chain == to.chain && to.from > moved.from {
        to.from.wrapping_sub(moved.nodes)
    } else {
        to.from
    };
    Step::Reverse(run(to.chain, from, moved.nodes))
}

impl Tours {
    // Whether a change is worth a look at the ways inside a run that is reversed.
    #[inline(always)]
    fn is_hopeful(&self, longer: i64, best: &Change, link: &Link) -> bool {
        if self.is_plain {
            longer < best.longer
        } else {
            longer < best.longer.wrapping_add(link.left)
        }
    }

    // Takes a run of p's chain reversed, if that is better; answers how many nodes were summed.
    fn take_reversal(
        &self,
        link: &Link,
        from: u32,
        to: u32,
        longer: i64,
        best: &mut Change,
    ) -> u64 {
        if !self.is_hopeful(longer, best, link) {
            return 0;
        }
        let longer = longer.wrapping_add(self.backwards(from, to));
        let nodes = to.wrapping_sub(from).wrapping_add(1);
        if longer < best.longer {
            best.take(longer, Step::Reverse(link.p_run(from, nodes)), Step::Stay);
        }
        if self.is_plain { 0 } else { u64::from(nodes) }
    }

    /// Runs of one chain reversed, so that q follows p before it; answers how many nodes were summed.
    pub fn try_reversals(&self, link: &Link, reach: Reach, best: &mut Change) -> u64 {
        if link.q <= link.p || link.q.wrapping_sub(link.p) > reach.reversed {
            return 0;
        }
        let mut summed = 0u64;
        let next = link.p.wrapping_add(1);
        let last = link.q.wrapping_sub(1);
        if link.q < link.q_last {
            let behind = link.q.wrapping_add(1);
            let longer = link
                .made
                .wrapping_sub(link.left)
                .wrapping_add(self.between(next, behind))
                .wrapping_sub(self.link_at(link.q));
            summed = summed.wrapping_add(self.take_reversal(link, next, link.q, longer, best));
        }
        if link.p > link.p_first {
            let before = link.p.wrapping_sub(1);
            let longer = link
                .made
                .wrapping_sub(link.lost)
                .wrapping_add(self.between(before, last))
                .wrapping_sub(self.link_at(before));
            summed = summed.wrapping_add(self.take_reversal(link, link.p, last, longer, best));
        }
        summed
    }

    // Whether a run may leave its chain for another one, or stays in it.
    fn may_move(&self, moved: Run, bits: u32, to: Run) -> bool {
        if moved.chain == to.chain {
            return true;
        }
        let bits = i64::from(bits);
        let units = i64::from(moved.nodes);
        self.may_change(moved.chain, bits.wrapping_neg(), units.wrapping_neg())
            && self.may_change(to.chain, bits, units)
    }

    /// Runs that begin at q go behind p.
    #[inline(always)]
    pub fn try_runs_from_q(&self, link: &Link, best: &mut Change) {
        let end = if link.is_behind() {
            link.p
        } else {
            link.q_last
        };
        let mut bits = 0u32;
        for nodes in 1..MOVED.min(end.wrapping_sub(link.q)) + 1 {
            let behind = link.q.wrapping_add(nodes);
            let last = behind.wrapping_sub(1);
            bits = bits.wrapping_add(self.bits_at(last));
            let least = link.opened.wrapping_sub(self.link_at(last));
            if least >= best.longer {
                continue;
            }
            let longer = least
                .wrapping_add(self.between(last, link.p.wrapping_add(1)))
                .wrapping_add(self.between(link.q.wrapping_sub(1), behind));
            if longer < best.longer {
                let taken = link.q_run(link.q, nodes);
                if self.may_move(taken, bits, link.behind_p()) {
                    best.take(longer, moved(taken, link.behind_p()), Step::Stay);
                }
            }
        }
    }

    /// Runs that end at q go behind p, reversed.
    #[inline(always)]
    pub fn try_turned_runs_to_q(&self, link: &Link, best: &mut Change) {
        if link.q == link.q_last {
            return;
        }
        let low = if link.is_before() {
            link.p.wrapping_add(1)
        } else {
            link.q_first
        };
        let behind = link.q.wrapping_add(1);
        let opened = link
            .made
            .wrapping_sub(link.left)
            .wrapping_sub(self.link_at(link.q));
        let mut bits = self.bits_at(link.q);
        for nodes in 2..MOVED.min(link.q.wrapping_sub(low)) + 1 {
            let before = link.q.wrapping_sub(nodes);
            let head = before.wrapping_add(1);
            bits = bits.wrapping_add(self.bits_at(head));
            let least = opened.wrapping_sub(self.link_at(before));
            if !self.is_hopeful(least, best, link) {
                continue;
            }
            let longer = least
                .wrapping_add(self.between(head, link.p.wrapping_add(1)))
                .wrapping_add(self.between(before, behind))
                .wrapping_add(self.backwards(head, link.q));
            if longer < best.longer {
                let taken = link.q_run(head, nodes);
                if self.may_move(taken, bits, link.behind_p()) {
                    let to = link.behind_p();
                    best.take(longer, moved(taken, to), landed(taken, to));
                }
            }
        }
    }

    /// Runs that end at p go before q.
    #[inline(always)]
    pub fn try_runs_to_p(&self, link: &Link, best: &mut Change) {
        let low = if link.is_behind() {
            link.q
        } else {
            link.p_first
        };
        let mut bits = 0u32;
        for nodes in 1..MOVED.min(link.p.wrapping_sub(low)) + 1 {
            let before = link.p.wrapping_sub(nodes);
            let head = before.wrapping_add(1);
            bits = bits.wrapping_add(self.bits_at(head));
            let least = link.opened.wrapping_sub(self.link_at(before));
            if least >= best.longer {
                continue;
            }
            let longer = least
                .wrapping_add(self.between(link.q.wrapping_sub(1), head))
                .wrapping_add(self.between(before, link.p.wrapping_add(1)));
            if longer < best.longer {
                let taken = link.p_run(head, nodes);
                if self.may_move(taken, bits, link.before_q()) {
                    best.take(longer, moved(taken, link.before_q()), Step::Stay);
                }
            }
        }
    }

    /// Runs that begin at p go before q, reversed.
    #[inline(always)]
    pub fn try_turned_runs_from_p(&self, link: &Link, best: &mut Change) {
        if link.p == link.p_first {
            return;
        }
        let end = if link.is_before() {
            link.q.wrapping_sub(1)
        } else {
            link.p_last
        };
        let before = link.p.wrapping_sub(1);
        let opened = link
            .made
            .wrapping_sub(link.lost)
            .wrapping_sub(self.link_at(before));
        let mut bits = self.bits_at(link.p);
        for nodes in 2..MOVED.min(end.wrapping_sub(link.p)) + 1 {
            let behind = link.p.wrapping_add(nodes);
            let last = behind.wrapping_sub(1);
            bits = bits.wrapping_add(self.bits_at(last));
            let least = opened.wrapping_sub(self.link_at(last));
            if !self.is_hopeful(least, best, link) {
                continue;
            }
            let longer = least
                .wrapping_add(self.between(link.q.wrapping_sub(1), last))
                .wrapping_add(self.between(before, behind))
                .wrapping_add(self.backwards(link.p, last));
            if longer < best.longer {
                let taken = link.p_run(link.p, nodes);
                if self.may_move(taken, bits, link.before_q()) {
                    let to = link.before_q();
                    best.take(longer, moved(taken, to), landed(taken, to));
                }
            }
        }
    }
}
