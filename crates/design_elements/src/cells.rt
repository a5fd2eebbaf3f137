//! The components of a design, and the scan paths that the table gives them.
ghost use Rattle.std.specs.Prelude.{◌≡◌, option_map, option_and_then};
ghost use Rattle.std.specs.List.{find};
ghost use Rattle.std.specs.Str.{bytes_eq};
ghost use Rattle.cell_table.specs.Table.{paths_at};
ghost use Rattle.def_reader.specs.Designs.{cell_of, scan_paths};
ghost use Rattle.design_elements.specs.CellPins.{path_number, path_named, out_number};
ghost use Rattle.design_elements.specs.Judging.{pins_at};

use crate::pins::{Pins, out_among, path_among};
use cell_table::{CellTable, ScanPath};
use def_reader::{Component, NamedRows};
use std::marker::Model;

/// Components beside the table of cells. Contracts see both.
#[derive(Drop)]
pub(crate) struct Cells<'d> {
    table: &'d CellTable,
    components: &'d NamedRows<Component>,
}

impl<'d> Model for Cells<'d> {
    ghost use Rattle.std.specs.Prelude.{List};
    ghost use Rattle.cell_table.specs.Cells.{Cells};
    ghost use Rattle.def_reader.specs.declared.design.Component.{Component};

    ghost Value = { Cells × List Component };

    ghost view = { λ c. (c.table.now, c.components.now) };
}

impl<'d> Cells<'d> {
    /// The components of a design, beside a table.
    pub(crate) fn of(table: &'d CellTable, components: &'d NamedRows<Component>) -> Cells<'d>
        ensures value { result ≡ (table.now, components.now) }
    {
        Cells { table, components }
    }

    /// The first component of a name.
    pub(crate) fn find(&self, name: &[u8]) -> Option<&'d Component>
        ensures value { option_map (λ c. c.now) result ≡ find (λ c. bytes_eq c.name name.now) self.now.1 }
    {
        self.components.find(name)
    }

    /// The table's entry of the cell of the component of a name; none where no component has it, or the table no cell.
    pub(crate) fn entry(&self, name: &[u8]) -> Option<&'d [ScanPath]>
        ensures value { option_map (λ paths. paths.now) result ≡ option_and_then (λ cell. paths_at cell self.now.0) (cell_of self.now.1 name.now) }
    {
        match self.find(name) {
            Some(component) => self.table.get(&component.cell),
            None => None,
        }
    }

    /// The scan paths of the cell of the component of a name; none without an entry.
    fn scan_paths(&self, name: &[u8]) -> &'d [ScanPath]
        ensures value { result.now ≡ scan_paths self.now.0 self.now.1 name.now }
    {
        self.entry(name).unwrap_or(&[])
    }

    /// The number of the scan path that is named.
    pub(crate) fn path_number(&self, pins: Pins<'_>) -> Option<usize>
        ensures value { result ≡ path_number self.now.0 self.now.1 (pins_at pins.entry) }
    {
        path_among(
            self.scan_paths(pins.component.bytes()),
            pins.input,
            pins.output,
        )
    }

    /// The scan path that is named.
    pub(crate) fn path_named(&self, pins: Pins<'_>) -> Option<&'d ScanPath>
        ensures value { option_map (λ p. p.now) result ≡ path_named self.now.0 self.now.1 (pins_at pins.entry) }
    {
        let number = self.path_number(pins)?;
        self.scan_paths(pins.component.bytes()).get(number)
    }

    /// The number of the out pin that is named, among those of the scan path.
    pub(crate) fn out_number(&self, pins: Pins<'_>) -> Option<usize>
        ensures value { result ≡ out_number self.now.0 self.now.1 (pins_at pins.entry) }
    {
        out_among(pins.output, self.path_named(pins))
    }
}
