ghost use Rattle.std.specs.Prelude.{◌≡◌, [], ◌∷◌, IfOk, option_map};
ghost use Rattle.std.specs.Cmp.Lexicographic.{slice_cmp};
ghost use Rattle.std.specs.Ordering.{nat_cmp};
ghost use Rattle.cell_table.specs.Kept.{cells_view, AreInOrder};
ghost use Rattle.cell_table.specs.Table.{paths_at, one_path};

use crate::paths::{OutPin, ScanPath};
use base_types::{Name, NoMemory, Rows};
use std::alloc::Global;
use std::cmp::Ordering;
use std::marker::Model;

/// A cell with its scan paths.
#[derive(Drop)]
pub(crate) struct Cell {
    pub(crate) name: Name,
    pub(crate) paths: Rows<ScanPath>,
}

/// The cells of a table with their scan paths, in the order of their names, by which they are found.
pub struct CellTable {
    pub(crate) cells: Vec<Cell>,
}

// By hand, so that it is proved here and not again wherever one is dropped.
impl Drop for CellTable {
    fn drop(self) {
        let CellTable { cells: _cells } = self;
    }
}

impl Model for CellTable {
    ghost use Rattle.std.specs.Prelude.{ℕ, List};
    ghost use Rattle.cell_table.specs.declared.paths.ScanPath.{ScanPath as scan_path};
    ghost use Rattle.cell_table.specs.Kept.{cells_view, AreInOrder};

    ghost Value = { List (List ℕ × List scan_path) };

    ghost view = { λ t. cells_view t.cells.items };

    ghost invariant = { λ t. AreInOrder t.cells.items };
}

/// The cell of a name among cells that stand in the order of their names.
fn found_in<'a>(cells: &'a [Cell], name: &[u8]) -> Option<&'a Cell>
    requires in_order { AreInOrder cells.now }
    ensures value { option_map (λ cell. cell.now.paths) result ≡ paths_at name.now (cells_view cells.now) }
{
    let found = cells.binary_search_by(
        |cell: &Cell| -> Ordering
            ensures { result ≡ slice_cmp nat_cmp cell.now.name name.entry.now }
        { cell.name.bytes().cmp(name) },
    );
    match found {
        Ok(at) => Some(&cells[at]),
        Err(_) => None,
    }
}

impl CellTable {
    /// The table of one cell with one path, of one bit and one out pin without inversion, or want of memory.
    pub fn one(alloc: Global, cell: &Name, input: &Name, out: &Name) -> Result<CellTable, NoMemory>
        ensures value { IfOk result (λ t. t ≡ (cell.now, one_path input.now out.now ∷ []) ∷ []) }
    {
        let mut bits = Rows::new(alloc);
        bits.push(false)?;
        let mut outs = Rows::new(alloc);
        outs.push(OutPin {
            pin: Name::copy(alloc, out.bytes())?,
            inverted: false,
        })?;
        let mut paths = Rows::new(alloc);
        paths.push(ScanPath {
            input: Name::copy(alloc, input.bytes())?,
            bits,
            outs,
        })?;
        let mut cells = Vec::new(alloc);
        cells.push(Cell {
            name: Name::copy(alloc, cell.bytes())?,
            paths,
        })?;
        Ok(CellTable { cells })
    }

    /// The scan paths of a cell, or None exactly where the cell has no entry; takes no memory.
    pub fn get(&self, cell: &Name) -> Option<&[ScanPath]>
        ensures value { option_map (λ paths. paths.now) result ≡ paths_at cell.now self.now }
    {
        let found = found_in(self.cells.as_slice(), cell.bytes())?;
        Some(found.paths.as_slice())
    }
}
