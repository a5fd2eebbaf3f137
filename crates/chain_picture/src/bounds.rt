//! The bounds of what is drawn.
ghost use Rattle.std.specs.Prelude.{◌≡◌};
ghost use Rattle.chain_picture.specs.Sizes.{lefter, righter, lower, upper, with_point, with_any, with_segments, with_chain, with_chains, bounds_of, height_of, width_of};

use crate::chain::{DrawnChain, Segment};
use base_types::Point;

/// The least rectangle round some points, by a point on each of its sides.
#[derive(Clone, Copy)]
pub(crate) struct Bounds {
    pub(crate) left: Point,
    pub(crate) right: Point,
    pub(crate) bottom: Point,
    pub(crate) top: Point,
}

fn lefter(p: Point, q: Point) -> Point
    ensures value { result ≡ lefter p q }
{
    if p.x < q.x { p } else { q }
}

fn righter(p: Point, q: Point) -> Point
    ensures value { result ≡ righter p q }
{
    if p.x < q.x { q } else { p }
}

fn lower(p: Point, q: Point) -> Point
    ensures value { result ≡ lower p q }
{
    if p.y < q.y { p } else { q }
}

fn upper(p: Point, q: Point) -> Point
    ensures value { result ≡ upper p q }
{
    if p.y < q.y { q } else { p }
}

/// The bounds with a point more.
fn with_point(bounds: Option<Bounds>, point: Point) -> Option<Bounds>
    ensures value { result ≡ with_point bounds point }
{
    match bounds {
        Some(bounds) => Some(Bounds {
            left: lefter(bounds.left, point),
            right: righter(bounds.right, point),
            bottom: lower(bounds.bottom, point),
            top: upper(bounds.top, point),
        }),
        None => Some(Bounds {
            left: point,
            right: point,
            bottom: point,
            top: point,
        }),
    }
}

/// The bounds with a point more, where there is one.
fn with_any(bounds: Option<Bounds>, point: Option<Point>) -> Option<Bounds>
    ensures value { result ≡ with_any bounds point }
{
    match point {
        Some(point) => with_point(bounds, point),
        None => bounds,
    }
}

/// The bounds with the points of segments.
fn with_segments(bounds: Option<Bounds>, segments: &[Segment]) -> Option<Bounds>
    ensures value { result ≡ with_segments bounds segments.now }
{
    let mut held = bounds;
    for segment in segments {
        held = with_point(with_point(held, segment.from), segment.to);
    }
    held
}

/// The bounds with all that is drawn of a chain.
fn with_chain(bounds: Option<Bounds>, chain: &DrawnChain) -> Option<Bounds>
    ensures value { result ≡ with_chain bounds chain.now }
{
    let bounds = with_segments(bounds, chain.cells.as_slice());
    let bounds = with_segments(bounds, chain.spans.as_slice());
    let bounds = with_segments(bounds, chain.links.as_slice());
    with_any(with_any(bounds, chain.start), chain.stop)
}

/// The bounds of all that is drawn of chains; where nothing is, the origin.
pub(crate) fn bounds_of(chains: &[DrawnChain]) -> Bounds
    ensures value { result ≡ bounds_of chains.now }
{
    let mut bounds = None;
    for chain in chains {
        bounds = with_chain(bounds, chain);
    }
    let origin = Point { x: 0, y: 0 };
    match bounds {
        Some(bounds) => bounds,
        None => Bounds {
            left: origin,
            right: origin,
            bottom: origin,
            top: origin,
        },
    }
}

/// How wide bounds are, in half database units.
pub(crate) fn width_of(bounds: Bounds) -> u64
    ensures value { result ≡ width_of bounds }
{
    bounds.right.x.abs_diff(bounds.left.x)
}

/// How high bounds are, in half database units.
pub(crate) fn height_of(bounds: Bounds) -> u64
    ensures value { result ≡ height_of bounds }
{
    bounds.top.y.abs_diff(bounds.bottom.y)
}
