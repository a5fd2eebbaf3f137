//! First orders of a chain's units.
use chain_tours::{Node, at, count, item, part_mut, way};

fn node(nodes: &[Node], number: u32) -> Node {
    item(nodes, number, Node::NOWHERE)
}

/// The length of a chain over units, from its start to its stop.
pub(crate) fn length(nodes: &[Node], start: Node, stop: Node, units: &[u32]) -> i64 {
    let mut length = 0i64;
    let mut from = start;
    for unit in units {
        let to = node(nodes, *unit);
        length = length.wrapping_add(way(from, to));
        from = to;
    }
    length.wrapping_add(way(from, stop))
}

/// Orders the units always to the nearest one left.
pub(crate) fn order_by_nearest(nodes: &[Node], start: Node, units: &mut [u32]) {
    let mut from = start;
    for i in 0..units.len() {
        let mut best = i;
        let mut least = i64::MAX;
        for j in i..units.len() {
            let length = way(from, node(nodes, units[j]));
            if length < least {
                least = length;
                best = j;
            }
        }
        if best < units.len() {
            units.swap(i, best);
        }
        from = node(nodes, units[i]);
    }
}

/// Orders the units straight from the start to the stop, along the axis on which these lie farther apart.
pub(crate) fn order_straight(nodes: &[Node], start: Node, stop: Node, units: &mut [u32]) {
    let wide = i64::from(stop.enter_x).wrapping_sub(i64::from(start.enter_x));
    let high = i64::from(stop.enter_y).wrapping_sub(i64::from(start.enter_y));
    let is_upright = high.wrapping_abs() > wide.wrapping_abs();
    let is_back = if is_upright { high < 0 } else { wide < 0 };
    units.sort_unstable_by_key(|unit| {
        let middle = node(nodes, *unit).middle(is_upright);
        (
            if is_back {
                middle.wrapping_neg()
            } else {
                middle
            },
            *unit,
        )
    });
}

// Whether both lists hold the same chain's units in two orders of which the second is shorter.
fn is_shorter(nodes: &[Node], start: Node, stop: Node, one: &[u32], other: &[u32]) -> bool {
    length(nodes, start, stop, other) < length(nodes, start, stop, one)
}

/// Orders the units of each chain by the shorter of both ways; `spare` has room for as many.
pub(crate) fn order_all(nodes: &[Node], counts: &[u32], units: &mut [u32], spare: &mut [u32]) {
    let all = count(units);
    let mut from = 0u32;
    for chain in 0..count(counts) {
        let to = from.wrapping_add(at(counts, chain));
        let start = node(nodes, all.wrapping_add(chain.wrapping_mul(2)));
        let stop = node(
            nodes,
            all.wrapping_add(chain.wrapping_mul(2)).wrapping_add(1),
        );
        let one = part_mut(units, from, to);
        let other = part_mut(spare, from, to);
        copy(one, other);
        order_by_nearest(nodes, start, one);
        order_straight(nodes, start, stop, other);
        if is_shorter(nodes, start, stop, one, other) {
            copy(other, one);
        }
        from = to;
    }
}

// Copies the numbers of a list into another one, as far as both go.
fn copy(from: &[u32], to: &mut [u32]) {
    for k in 0..from.len().min(to.len()) {
        to[k] = from[k];
    }
}
