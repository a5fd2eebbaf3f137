//! Whether places, chains and plans are such as the lengths ask.
ghost use Rattle.std.specs.Prelude.{◌≡◌, ℕ, ◌+◌, ◌^◌, ◌<◌, ◌≤◌, ◌↔◌, length, IsTrue, Option, slice_index_or, unsigned_abs, All};
ghost use Rattle.std.specs.List.{concat};
ghost use Rattle.chain_rules.specs.Legality.{chain_at};
ghost use Rattle.wire_cost.specs.Lengths.{AreNear, ArePlaced, AreWithin, IsChainAt, IsNear, IsNearOrNowhere, IsPlanAt};

use crate::ends::Ends;
use base_types::Point;
use chain_rules::Plan;

const FAR: u64 = 2199023255552;

const MANY: usize = 65536;

fn is_near(p: Point) -> bool
    ensures value { IsTrue result ↔ IsNear p }
{
    p.x.unsigned_abs() <= FAR && p.y.unsigned_abs() <= FAR
}

fn is_near_or_nowhere(p: Option<Point>) -> bool
    ensures value { IsTrue result ↔ IsNearOrNowhere p }
{
    match p {
        Some(p) => is_near(p),
        None => true,
    }
}

fn are_near(points: &[Point]) -> bool
    ensures value { IsTrue result ↔ AreNear points.now }
{
    points.iter().all(|p| is_near(*p))
}

fn are_near_or_nowhere(points: &[Option<Point>]) -> bool
    ensures value { IsTrue result ↔ All IsNearOrNowhere points.now }
{
    points.iter().all(|p| is_near_or_nowhere(*p))
}

/// Whether every place is at most 2^41 in size.
pub fn are_placed(ends: &Ends) -> bool
    ensures value { IsTrue result ↔ ArePlaced ends.now }
{
    are_near(ends.entry.as_slice())
        && are_near(ends.exit.as_slice())
        && are_near_or_nowhere(ends.start.as_slice())
        && are_near_or_nowhere(ends.stop.as_slice())
}

/// Whether each of the units is below n.
pub fn are_within(units: &[u32], n: usize) -> bool
    ensures value { IsTrue result ↔ AreWithin units.now n }
{
    units.iter().all(|u| (*u as usize) < n)
}

/// Whether the number of a chain and its units are in range, with 65,536 units at most.
pub fn is_chain_at(ends: &Ends, chain: u32, units: &[u32]) -> bool
    ensures value { IsTrue result ↔ IsChainAt ends.now chain units.now }
{
    let chain = chain as usize;
    chain < ends.start.as_slice().len()
        && chain < ends.stop.as_slice().len()
        && are_within(units, ends.entry.as_slice().len())
        && are_within(units, ends.exit.as_slice().len())
        && units.len() <= MANY
}
