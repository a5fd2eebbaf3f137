//! The contracts of `cell_table`.
ghost use Rattle.base_types.specs.FirstFault.{Answers, IfFault, IsFirstFault};
ghost use Rattle.cell_table.specs.Ascending.{HaveOutsInOrder};
ghost use Rattle.cell_table.specs.Cells.{table_of};
ghost use Rattle.cell_table.specs.Entries.{DenotesCells, HoldsInTable, NoFaultLaw, OneCellPinsLaw, OneTableLaw, PinsLaw};
ghost use Rattle.cell_table.specs.Table.{small_cells};
ghost use Rattle.std.specs.Prelude.{IfOk, ◌≡◌};

use base_types::ReadFault;
use cell_table::CellTable;
use std::alloc::Global;

/// As `cell_table::read_table`.
pub fn read_table(alloc: Global, bytes: &[u8]) -> Result<CellTable, ReadFault>
    ensures value { IfOk result (DenotesCells bytes.now) }
    ensures fault { IfFault result (IsFirstFault (HoldsInTable bytes.now)) }
    ensures read { Answers result (table_of bytes.now) }
    // The out pins of each path stand in the order of their bytes.
    ensures order { IfOk result HaveOutsInOrder }
{
    cell_table::read_table(alloc, bytes)
}

/// As `cell_table::table_law`.
pub fn table_law()
    ensures one { OneTableLaw }
    ensures no_fault { NoFaultLaw }
{
    cell_table::table_law()
}

/// As `cell_table::pins_law`.
pub fn pins_law()
    ensures table { PinsLaw }
    ensures one { OneCellPinsLaw }
{
    cell_table::pins_law()
}

/// As `cell_table::small_table`.
pub fn small_table() -> &'static str
    ensures value { table_of result.now ≡ Ok small_cells }
{
    cell_table::small_table()
}
