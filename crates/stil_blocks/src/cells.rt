//! The names of ScanCells.
ghost use Rattle.std.specs.Prelude.{◌≡◌, IfOk, OnOk, MatchOption, Some, None};
ghost use Rattle.stil_blocks.specs.Chains.{cell_at, put_cell, no_cells, cells_within, cells_at};

use crate::block::{begins_word, is_end, skip, start_of};
use base_types::{Name, NoMemory, Rows};
use std::alloc::Global;
use stil_syntax::{NameText, Stretch};

/// What stands in ScanCells.
#[derive(Drop)]
pub enum Cell<'a> {
    /// A `!`.
    Mark,
    /// A name.
    Named(NameText<'a>),
}

/// The names of ScanCells, and whether a `!` stands among them.
#[derive(Drop)]
pub struct CellList {
    pub names: Rows<Name>,
    pub marks: bool,
}

impl CellList {
    /// No name; takes no memory.
    fn new(alloc: Global) -> CellList
        ensures value { result ≡ no_cells }
    {
        CellList {
            names: Rows::new(alloc),
            marks: false,
        }
    }

    /// Adds a cell.
    fn put(&mut self, alloc: Global, cell: Cell<'_>) -> Result<(), NoMemory>
        ensures value { OnOk result (self.new ≡ put_cell self.old cell.entry) }
    {
        match cell {
            Cell::Mark => self.marks = true,
            Cell::Named(name) => self.names.push(name.to_name(alloc)?)?,
        }
        Ok(())
    }
}

/// Takes the cell at the front.
#[tactic(auto, unfolding(crate::specs::Chains::cell_at))]
fn cell_at<'a>(tokens: &mut Stretch<'a, '_>) -> Option<Cell<'a>>
    ensures value { MatchOption result (cell_at tokens.old ≡ None) (λ c. cell_at tokens.old ≡ Some (c, tokens.new)) }
{
    if begins_word(tokens, b"!") {
        skip(tokens);
        return Some(Cell::Mark);
    }
    let name = tokens.name()?;
    Some(Cell::Named(name))
}

/// The names up to the `;` that ends the tokens, and where it stands; None where other tokens stand among them.
#[tactic(auto, unfolding(crate::specs::Chains::cells_within))]
pub(crate) fn cells_at(
    alloc: Global,
    tokens: &Stretch<'_, '_>,
) -> Result<Option<(CellList, u32)>, NoMemory>
    ensures value { IfOk result (λ list. list ≡ cells_at tokens.now) }
{
    let mut rest = tokens.again();
    let mut list = CellList::new(alloc);
    let mut left = tokens.len();
    while 0 < left {
        if is_end(&rest) {
            return Ok(Some((list, start_of(&rest))));
        }
        match cell_at(&mut rest) {
            Some(cell) => list.put(alloc, cell)?,
            None => return Ok(None),
        }
        left -= 1;
    }
    Ok(None)
}
