//! The cells of components, and the scan paths that the table gives them.
ghost use Rattle.std.specs.Prelude.{◌≡◌, option_map};
ghost use Rattle.def_reader.specs.Designs.{cell_of, scan_paths};

use crate::design::Component;
use crate::named_rows::NamedRows;
use base_types::Name;
use cell_table::{CellTable, ScanPath};
use std::marker::Model;

/// The cell of the component of a name.
pub(crate) fn cell_of<'d>(components: &'d NamedRows<Component>, name: &[u8]) -> Option<&'d Name>
    ensures value { option_map (λ cell. cell.now) result ≡ cell_of components.now name.now }
{
    match components.find(name) {
        Some(component) => Some(&component.cell),
        None => None,
    }
}

/// Components beside the table of cells. Contracts see both.
#[derive(Drop)]
pub(crate) struct Cells<'d> {
    table: &'d CellTable,
    components: &'d NamedRows<Component>,
}

impl<'d> Model for Cells<'d> {
    ghost use Rattle.std.specs.Prelude.{List};
    ghost use Rattle.cell_table.specs.Cells.{Cells};
    ghost use Rattle.def_reader.specs.declared.design.Component.{Component};

    ghost Value = { Cells × List Component };

    ghost view = { λ c. (c.table.now, c.components.now) };
}

impl<'d> Cells<'d> {
    /// The components of a design, beside a table.
    pub(crate) fn of(table: &'d CellTable, components: &'d NamedRows<Component>) -> Cells<'d>
        ensures value { result ≡ (table.now, components.now) }
    {
        Cells { table, components }
    }

    /// The scan paths of the cell of the component of a name; none where no component has it, or the table no cell.
    pub(crate) fn scan_paths(&self, name: &[u8]) -> &'d [ScanPath]
        ensures value { result.now ≡ scan_paths self.now.0 self.now.1 name.now }
    {
        match cell_of(self.components, name) {
            Some(cell) => self.table.get(cell).unwrap_or(&[]),
            None => &[],
        }
    }
}
