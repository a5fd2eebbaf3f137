//! Nodes of the search and the ways between them.
use base_types::Point;

// A coordinate of what stands nowhere.
const NOWHERE: i32 = -1;

// Coordinates are brought below this.
const SIDE: u64 = 1073741824;

/// A unit, or the start or stop of a chain, with where it is entered and left.
#[derive(Clone, Copy)]
pub struct Node {
    pub enter_x: i32,
    pub enter_y: i32,
    pub leave_x: i32,
    pub leave_y: i32,
}

impl Node {
    /// What stands nowhere: its links are 0.
    pub const NOWHERE: Node = Node {
        enter_x: -1,
        enter_y: -1,
        leave_x: -1,
        leave_y: -1,
    };

    /// Whether it stands somewhere.
    pub fn stands(self) -> bool {
        self.enter_x >= 0
    }

    /// Whether it is left where it is entered.
    pub fn is_point(self) -> bool {
        self.enter_x == self.leave_x && self.enter_y == self.leave_y
    }

    /// Twice its middle along an axis.
    pub fn middle(self, upright: bool) -> i64 {
        if upright {
            i64::from(self.enter_y) + i64::from(self.leave_y)
        } else {
            i64::from(self.enter_x) + i64::from(self.leave_x)
        }
    }
}

/// The way from one node to another.
#[inline(always)]
pub fn way(from: Node, to: Node) -> i64 {
    if from.leave_x < 0 || to.enter_x < 0 {
        return 0;
    }
    i64::from(from.leave_x.abs_diff(to.enter_x)) + i64::from(from.leave_y.abs_diff(to.enter_y))
}

/// The map from places to the search's coordinates: they count from the least ones, and are halved together until they fit.
#[derive(Clone, Copy)]
pub struct Scale {
    low_x: i64,
    low_y: i64,
    divisor: u64,
}

impl Scale {
    /// The map for places within two corners.
    pub fn of(low: Point, high: Point) -> Scale {
        let wide = high.x.abs_diff(low.x).max(high.y.abs_diff(low.y));
        Scale {
            low_x: low.x,
            low_y: low.y,
            divisor: wide / SIDE + 1,
        }
    }

    fn coordinate(self, value: i64, low: i64) -> i32 {
        let steps = value.abs_diff(low) / self.divisor.max(1);
        (steps & 0x7fff_ffff) as i32
    }

    /// A node that is entered at one place and left at another.
    pub fn node(self, enter: Point, leave: Point) -> Node {
        Node {
            enter_x: self.coordinate(enter.x, self.low_x),
            enter_y: self.coordinate(enter.y, self.low_y),
            leave_x: self.coordinate(leave.x, self.low_x),
            leave_y: self.coordinate(leave.y, self.low_y),
        }
    }

    /// The node of an end.
    pub fn end(self, place: Option<Point>) -> Node {
        match place {
            Some(place) => self.node(place, place),
            None => Node::NOWHERE,
        }
    }
}
