//! What is drawn of a chain.
use base_types::{Name, Point, Rows};

/// Two points, in half database units: the ends of a link, the entry and the exit of a unit, or opposite corners of a cell.
#[derive(Clone, Copy)]
pub struct Segment {
    pub from: Point,
    pub to: Point,
}

/// What is drawn of a chain, and said of it: its units, their bits and its length, in half database units.
#[derive(Drop)]
pub struct DrawnChain {
    pub name: Name,
    pub units: u64,
    pub bits: u64,
    pub length: u64,
    /// Where the chain starts and stops; None where this stands nowhere.
    pub start: Option<Point>,
    pub stop: Option<Point>,
    /// The links that count in its length, in order.
    pub links: Rows<Segment>,
    /// The entry and the exit of each unit of several cells.
    pub spans: Rows<Segment>,
    /// Opposite corners of each element's cell, as it stands.
    pub cells: Rows<Segment>,
}
