//! The steps between two chains that make one node follow another: their rests and runs of theirs are exchanged.
use crate::links::{Change, Link, Reach};
use crate::places::{Run, Step, Tours};

impl Tours {
    // How much longer the chains become if what follows p and what begins at q change places, up to the stops.
    fn longer_by_rests(&self, link: &Link) -> i64 {
        let p_end = link.p_last.wrapping_sub(1);
        let q_end = link.q_last.wrapping_sub(1);
        let before = link.q.wrapping_sub(1);
        let longer = link
            .opened
            .wrapping_add(self.between(q_end, link.p_last))
            .wrapping_sub(self.link_at(q_end));
        if link.p < p_end {
            longer
                .wrapping_add(self.between(before, link.p.wrapping_add(1)))
                .wrapping_add(self.between(p_end, link.q_last))
                .wrapping_sub(self.link_at(p_end))
        } else {
            longer.wrapping_add(self.between(before, link.q_last))
        }
    }

    /// What follows p and what begins at q change places, up to the stops; answers how much work their bits were.
    pub fn try_rests(&self, link: &Link, best: &mut Change) -> u64 {
        if link.q == link.q_last {
            return 0;
        }
        let longer = self.longer_by_rests(link);
        if longer >= best.longer {
            return 0;
        }
        let behind = link.p.wrapping_add(1);
        let one = link.p_run(behind, link.p_last.wrapping_sub(behind));
        let other = link.q_run(link.q, link.q_last.wrapping_sub(link.q));
        let bits = self.bits_from(behind, one.nodes);
        let others = self.bits_from(link.q, other.nodes);
        self.take_exchange(longer, one, bits, other, others, best);
        if self.is_even {
            0
        } else {
            u64::from(one.nodes.wrapping_add(other.nodes) / 8)
        }
    }

    // Whether two runs may change places.
    fn may_exchange(&self, one: Run, bits: u32, other: Run, others: u32) -> bool {
        let more_bits = i64::from(others).wrapping_sub(i64::from(bits));
        let more_units = i64::from(other.nodes).wrapping_sub(i64::from(one.nodes));
        self.may_change(one.chain, more_bits, more_units)
            && self.may_change(
                other.chain,
                more_bits.wrapping_neg(),
                more_units.wrapping_neg(),
            )
    }

    /// Whether two runs of two chains may change places.
    pub fn are_exchangeable(&self, one: Run, other: Run) -> bool {
        let i = self.first(one.chain).wrapping_add(one.from);
        let j = self.first(other.chain).wrapping_add(other.from);
        let bits = self.bits_from(i, one.nodes);
        let others = self.bits_from(j, other.nodes);
        self.may_exchange(one, bits, other, others)
    }

    /// How much longer the chains become if two runs of two chains change places.
    pub fn longer_by_exchange(&self, one: Run, other: Run) -> i64 {
        let i = self.first(one.chain).wrapping_add(one.from);
        let j = self.first(other.chain).wrapping_add(other.from);
        let before = i.wrapping_sub(1);
        let previous = j.wrapping_sub(1);
        let end = i.wrapping_add(one.nodes);
        let stop = j.wrapping_add(other.nodes);
        let last = end.wrapping_sub(1);
        let tail = stop.wrapping_sub(1);
        let made = self
            .between(before, j)
            .wrapping_add(self.between(tail, end))
            .wrapping_add(self.between(previous, i))
            .wrapping_add(self.between(last, stop));
        let lost = self
            .link_at(before)
            .wrapping_add(self.link_at(last))
            .wrapping_add(self.link_at(previous))
            .wrapping_add(self.link_at(tail));
        made.wrapping_sub(lost)
    }

    // Takes the exchange of two runs, if that is better and may be.
    #[inline(always)]
    fn take_exchange(
        &self,
        longer: i64,
        one: Run,
        bits: u32,
        other: Run,
        others: u32,
        best: &mut Change,
    ) {
        if longer < best.longer && self.may_exchange(one, bits, other, others) {
            best.take(longer, Step::Exchange(one, other), Step::Stay);
        }
    }

    /// Runs behind p and from q on change places; answers how many pairs were tried.
    pub fn try_runs_behind(&self, link: &Link, reach: Reach, best: &mut Change) -> u64 {
        let mut tried = 0u64;
        let first = link.p.wrapping_add(1);
        let opened = link
            .opened
            .wrapping_add(self.between(link.q.wrapping_sub(1), first));
        let most = reach.exchanged.min(link.p_last.wrapping_sub(first));
        let others_most = reach.exchanged.min(link.q_last.wrapping_sub(link.q));
        let mut bits = 0u32;
        for a in 1..most.wrapping_add(1) {
            let last = link.p.wrapping_add(a);
            bits = bits.wrapping_add(self.bits_at(last));
            let rest = opened.wrapping_sub(self.link_at(last));
            let mut others = 0u32;
            for b in 1..others_most
                .min(a.wrapping_add(reach.uneven))
                .wrapping_add(1)
            {
                let next = link.q.wrapping_add(b);
                let other = next.wrapping_sub(1);
                others = others.wrapping_add(self.bits_at(other));
                if a > b.wrapping_add(reach.uneven) {
                    continue;
                }
                tried = tried.wrapping_add(1);
                let least = rest.wrapping_sub(self.link_at(other));
                if least >= best.longer {
                    continue;
                }
                let longer = least
                    .wrapping_add(self.between(other, last.wrapping_add(1)))
                    .wrapping_add(self.between(last, next));
                let one = link.p_run(first, a);
                let taken = link.q_run(link.q, b);
                self.take_exchange(longer, one, bits, taken, others, best);
            }
        }
        tried
    }

    /// Runs up to p and up to before q change places; answers how many pairs were tried.
    pub fn try_runs_before(&self, link: &Link, reach: Reach, best: &mut Change) -> u64 {
        let mut tried = 0u64;
        let last = link.q.wrapping_sub(1);
        let opened = link
            .opened
            .wrapping_add(self.between(last, link.p.wrapping_add(1)));
        let most = reach.exchanged.min(link.p.wrapping_sub(link.p_first));
        let others_most = reach.exchanged.min(last.wrapping_sub(link.q_first));
        let mut bits = 0u32;
        for a in 1..most.wrapping_add(1) {
            let before = link.p.wrapping_sub(a);
            let head = before.wrapping_add(1);
            bits = bits.wrapping_add(self.bits_at(head));
            let rest = opened.wrapping_sub(self.link_at(before));
            let mut others = 0u32;
            for b in 1..others_most
                .min(a.wrapping_add(reach.uneven))
                .wrapping_add(1)
            {
                let previous = last.wrapping_sub(b);
                let other = previous.wrapping_add(1);
                others = others.wrapping_add(self.bits_at(other));
                if a > b.wrapping_add(reach.uneven) {
                    continue;
                }
                tried = tried.wrapping_add(1);
                let least = rest.wrapping_sub(self.link_at(previous));
                if least >= best.longer {
                    continue;
                }
                let longer = least
                    .wrapping_add(self.between(previous, head))
                    .wrapping_add(self.between(before, other));
                let one = link.p_run(head, a);
                let taken = link.q_run(other, b);
                self.take_exchange(longer, one, bits, taken, others, best);
            }
        }
        tried
    }
}
