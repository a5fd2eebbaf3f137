//! The nearest nodes of each node, found over a grid.
use base_types::NoMemory;
use chain_tours::{Near, Node, Tours, at, count, filled, item, part, put};
use std::alloc::Global;

/// How many near nodes are kept for each.
pub(crate) const KEPT: u32 = 8;

// How many rings of cells are searched though a nearer node may stand in the next.
const RINGS: u32 = 3;

/// Which ways are measured: from a node's exit to the entries of others, or from their exits to its entry.
#[derive(Clone, Copy, PartialEq, Eq)]
enum Side {
    Out,
    Into,
}

// The units of each cell of a square grid, in rows.
#[derive(Drop)]
struct Grid {
    low_x: i32,
    low_y: i32,
    // The width of a cell, and how many cells a row has.
    cell: u32,
    cells: u32,
    // Where the units of a cell begin, and the units.
    begins: Vec<u32>,
    units: Vec<u32>,
}

// Where a node is reached or left.
fn corner(node: Node, side: Side) -> (i32, i32) {
    match side {
        Side::Out => (node.enter_x, node.enter_y),
        Side::Into => (node.leave_x, node.leave_y),
    }
}

impl Grid {
    // A grid of about two units a cell, which is still to be filled.
    fn empty(alloc: Global, tours: &Tours, side: Side) -> Result<Grid, NoMemory> {
        let mut low = (i32::MAX, i32::MAX);
        let mut high = (0i32, 0i32);
        for unit in 0..tours.units {
            let (x, y) = corner(tours.point(unit), side);
            low = (low.0.min(x), low.1.min(y));
            high = (high.0.max(x), high.1.max(y));
        }
        let cells = u64::from(tours.units / 2).isqrt().wrapping_add(1).min(256);
        let cells = (cells & 0xffff) as u32;
        let wide = high.0.abs_diff(low.0).max(high.1.abs_diff(low.1));
        let begins = filled(alloc, cells.wrapping_mul(cells).wrapping_add(1), 0)?;
        let units = filled(alloc, tours.units, 0)?;
        Ok(Grid {
            low_x: low.0,
            low_y: low.1,
            cell: (wide / cells.max(1)).wrapping_add(1).max(1),
            cells,
            begins,
            units,
        })
    }

    // The column or row of a coordinate.
    fn line(&self, value: i32, low: i32) -> u32 {
        if value <= low {
            return 0;
        }
        let line = value.abs_diff(low) / self.cell.max(1);
        line.min(self.cells.wrapping_sub(1))
    }

    fn cell_of(&self, node: Node, side: Side) -> u32 {
        let (x, y) = corner(node, side);
        self.line(x, self.low_x)
            .wrapping_mul(self.cells)
            .wrapping_add(self.line(y, self.low_y))
    }

    // Sorts the units into their cells.
    fn fill(&mut self, tours: &Tours, side: Side) {
        for unit in 0..tours.units {
            let cell = self.cell_of(tours.point(unit), side);
            let more = at(self.begins.as_slice(), cell).wrapping_add(1);
            put(self.begins.as_mut_slice(), cell, more);
        }
        let mut end = 0u32;
        for cell in 0..count(self.begins.as_slice()) {
            end = end.wrapping_add(at(self.begins.as_slice(), cell));
            put(self.begins.as_mut_slice(), cell, end);
        }
        for unit in 0..tours.units {
            let cell = self.cell_of(tours.point(unit), side);
            let place = at(self.begins.as_slice(), cell).wrapping_sub(1);
            put(self.begins.as_mut_slice(), cell, place);
            put(self.units.as_mut_slice(), place, unit);
        }
    }
}

// The nearest units found so far, the nearest first.
#[derive(Clone, Copy)]
struct Nearest {
    units: [u32; 8],
    ways: [i64; 8],
}

impl Nearest {
    const NONE: Nearest = Nearest {
        units: [Near::NONE.node; 8],
        ways: [i64::MAX; 8],
    };

    fn farthest(&self) -> i64 {
        self.ways[7]
    }

    // One of them; ways of this search are below 2^31.
    fn near(&self, k: u32) -> Near {
        Near {
            node: item(&self.units, k, Near::NONE.node),
            way: (item(&self.ways, k, 0).min(4294967295) & 0xffff_ffff) as u32,
        }
    }

    // Puts a unit in at its way.
    fn put(&mut self, unit: u32, length: i64) {
        if length >= self.ways[7] {
            return;
        }
        let mut unit = unit;
        let mut length = length;
        for k in 0..8usize {
            if length < self.ways[k] {
                let farther = self.units[k];
                let longer = self.ways[k];
                self.units[k] = unit;
                self.ways[k] = length;
                unit = farther;
                length = longer;
            }
        }
    }
}

impl Grid {
    // Looks at the units of a cell.
    fn look(&self, tours: &Tours, node: u32, side: Side, cell: u32, nearest: &mut Nearest) {
        let from = at(self.begins.as_slice(), cell);
        let to = at(self.begins.as_slice(), cell.wrapping_add(1));
        for place in from..to {
            if nearest.farthest() == 0 {
                break;
            }
            let unit = at(self.units.as_slice(), place);
            if unit != node {
                let length = match side {
                    Side::Out => tours.way(node, unit),
                    Side::Into => tours.way(unit, node),
                };
                nearest.put(unit, length);
            }
        }
    }

    // Looks at the cells of the square ring at a distance from one.
    fn look_round(&self, tours: &Tours, node: u32, side: Side, ring: u32, nearest: &mut Nearest) {
        let (x, y) = match side {
            Side::Out => corner(tours.point(node), Side::Into),
            Side::Into => corner(tours.point(node), Side::Out),
        };
        let left = self.line(x, self.low_x).wrapping_sub(ring);
        let bottom = self.line(y, self.low_y).wrapping_sub(ring);
        let wide = ring.wrapping_mul(2);
        for k in 0..wide.wrapping_add(1) {
            let column = left.wrapping_add(k);
            if column >= self.cells {
                continue;
            }
            let low = column.wrapping_mul(self.cells);
            let step = if k == 0 || k == wide { 1 } else { wide };
            for l in 0..wide / step.max(1) + 1 {
                let row = bottom.wrapping_add(l.wrapping_mul(step));
                if row < self.cells {
                    self.look(tours, node, side, low.wrapping_add(row), nearest);
                }
            }
        }
    }

    // The units nearest to a node.
    fn nearest_to(&self, tours: &Tours, node: u32, side: Side) -> Nearest {
        let mut nearest = Nearest::NONE;
        for ring in 0..self.cells.wrapping_add(1) {
            self.look_round(tours, node, side, ring, &mut nearest);
            let sure = i64::from(ring).wrapping_mul(i64::from(self.cell));
            if nearest.farthest() <= sure || (ring >= RINGS && nearest.farthest() < i64::MAX) {
                break;
            }
        }
        nearest
    }
}

/// For each node the nearest units: those it may go before, and those it may go behind.
#[derive(Drop)]
pub(crate) struct NearUnits {
    out: Vec<Near>,
    into: Vec<Near>,
}

impl NearUnits {
    /// Found once for all nodes.
    pub fn of(alloc: Global, tours: &Tours) -> Result<NearUnits, NoMemory> {
        Ok(NearUnits {
            out: near_units(alloc, tours, Side::Out)?,
            into: near_units(alloc, tours, Side::Into)?,
        })
    }

    /// Those of a node on one side, the nearest first; behind the last one stands `Near::NONE`.
    #[inline(always)]
    pub fn beside(&self, node: u32, is_out: bool) -> &[Near] {
        let from = node.wrapping_mul(KEPT);
        let list = if is_out { &self.out } else { &self.into };
        part(list.as_slice(), from, from.wrapping_add(KEPT))
    }

    /// One of them, counted from the nearest.
    pub fn one(&self, node: u32, is_out: bool, k: u32) -> Near {
        item(self.beside(node, is_out), k, Near::NONE)
    }
}

// For each node the nearest units on one side, `KEPT` at most; behind the last one stands `Near::NONE`.
fn near_units(alloc: Global, tours: &Tours, side: Side) -> Result<Vec<Near>, NoMemory> {
    let mut grid = Grid::empty(alloc, tours, side)?;
    grid.fill(tours, side);
    let nodes = count(tours.nodes.as_slice());
    let mut near = vec![in alloc; Near::NONE; nodes.wrapping_mul(KEPT) as usize]?;
    for node in 0..nodes {
        let is_idle = match side {
            Side::Out => tours.is_stop(node),
            Side::Into => tours.is_start(node),
        };
        if is_idle || !tours.point(node).stands() {
            continue;
        }
        let nearest = grid.nearest_to(tours, node, side);
        for k in 0..KEPT {
            put(
                near.as_mut_slice(),
                node.wrapping_mul(KEPT).wrapping_add(k),
                nearest.near(k),
            );
        }
    }
    Ok(near)
}
