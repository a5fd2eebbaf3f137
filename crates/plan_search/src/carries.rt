//! The steps that bring a run to another chain, so that a link is made and another one at the run's other end.
use chain_tours::{Change, Link, Near, Reach, Run, Step, Tours};

// The run that goes behind p or before q where the run's other end is the node before a place of a chain, and where it goes.
fn carried(link: &Link, chain: u32, next: u32) -> Option<(Run, Run)> {
    if chain == link.q_chain && next > link.q {
        let run = link.q_run(link.q, next.wrapping_sub(link.q));
        Some((run, link.p_run(link.p.wrapping_add(1), 0)))
    } else if chain == link.p_chain && next > link.p_first && next <= link.p {
        let behind = link.p.wrapping_add(1);
        let run = link.p_run(next, behind.wrapping_sub(next));
        Some((run, link.q_run(link.q, 0)))
    } else {
        None
    }
}

// Takes the step that brings a run to another chain, if it isn't too long and may go.
fn take_carried(
    tours: &Tours,
    carried: Option<(Run, Run)>,
    reach: Reach,
    longer: i64,
    best: &mut Change,
) {
    let Some((run, to)) = carried else {
        return;
    };
    if run.nodes <= reach.reversed && tours.are_exchangeable(run, to) {
        best.take(longer, Step::Exchange(run, to), Step::Stay);
    }
}

/// Runs that begin at q go behind p, or runs that end at p go before q. The near nodes are those behind the one before q where the link is
/// tried from p, else those before the one behind p. Answers how many were tried.
pub(crate) fn try_carries(
    tours: &Tours,
    link: &Link,
    reach: Reach,
    is_out: bool,
    near: &[Near],
    best: &mut Change,
) -> u64 {
    let before = link.q.wrapping_sub(1);
    let behind = link.p.wrapping_add(1);
    let mut tried = 0u64;
    for near in near {
        let least = link.opened.wrapping_add(i64::from(near.way));
        if least >= best.longer {
            break;
        }
        tried = tried.wrapping_add(1);
        let place = tours.place(near.node);
        let next = if is_out { place } else { place.wrapping_add(1) };
        let last = next.wrapping_sub(1);
        let made = if is_out {
            tours.between(last, behind)
        } else {
            tours.between(before, next)
        };
        let longer = least.wrapping_add(made).wrapping_sub(tours.link_at(last));
        if longer < best.longer {
            let chain = tours.chain(near.node);
            take_carried(tours, carried(link, chain, next), reach, longer, best);
        }
    }
    tried
}
