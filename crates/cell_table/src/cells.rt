ghost use Rattle.std.specs.Prelude.{◌≡◌, Some, IfOk, option_map};
ghost use Rattle.base_types.specs.declared.kind.Kind.TheVariants.{TableShape};
ghost use Rattle.base_types.specs.Faults.{of_cell};
ghost use Rattle.toml.specs.View.{table_view};
ghost use Rattle.toml.specs.Data.{Members};
ghost use Rattle.base_types.specs.FirstFault.{Answers, IfFault, IsFirstFault};
ghost use Rattle.cell_table.specs.Ascending.{Ascending, HaveOutsInOrder};
ghost use Rattle.cell_table.specs.Cells.{named_cells, cells_of, document_of, table_of};
ghost use Rattle.cell_table.specs.Entries.{DenotesCells, HoldsInTable};

use crate::paths::cell_of;
use crate::table::{Cell, CellTable};
use crate::values::{is_empty, member_at};
use base_types::{Fault, FileKind, Kind, Name, ReadFault, Spot, Stop, plain_name};
use std::alloc::Global;
use toml::Table;

#[tactic(auto, using(crate::proofs::LeastBad::ascending_from))]
fn cells_of(alloc: Global, table: &Table) -> Result<CellTable, ReadFault>
    ensures cells { Answers result (cells_of (table_view table.now)) }
    ensures ascending { Ascending (table_view table.now) }
    ensures order { IfOk result HaveOutsInOrder }
{
    let mut cells = Vec::new(alloc);
    for (name, value) in table.iter() {
        let name = Name::copy(alloc, name.as_bytes())?;
        let paths = match cell_of(alloc, value) {
            Ok(paths) => paths,
            Err(Stop::NoForm) => return Err(shape_fault(plain_name(alloc, name.bytes())?)),
            Err(Stop::NoMemory) => return Err(ReadFault::NoMemory),
        };
        cells.push(Cell { name, paths })?;
    }
    Ok(CellTable { cells })
}

/// The table of cells of a document that holds nothing else.
#[tactic(auto, using(crate::proofs::Views::members_len_view), unfolding(crate::specs::Cells::named_cells))]
fn named_cells(document: &Table) -> Option<&Table>
    ensures { option_map (λ cells. table_view cells.now) result ≡ named_cells (table_view document.now) }
{
    let cells = member_at(document, "cell")?.as_table()?;
    if document.len() == 1 && !is_empty(cells) {
        Some(cells)
    } else {
        None
    }
}

/// The cells of a document.
#[tactic(auto, unfolding(crate::specs::Cells::document_of))]
fn document_of(alloc: Global, document: &Table) -> Result<CellTable, ReadFault>
    ensures cells { Answers result (document_of (table_view document.now)) }
    ensures ascending { (cells : Members) → named_cells (table_view document.now) ≡ Some cells → Ascending cells }
    ensures order { IfOk result HaveOutsInOrder }
{
    match named_cells(document) {
        Some(cells) => cells_of(alloc, cells),
        None => Err(shape_fault(Name::of(Vec::new(alloc)))),
    }
}

/// The entry of the cell with this plain name isn't of the form.
fn shape_fault(cell: Name) -> ReadFault
    ensures value { result ≡ ReadFault.Fault (of_cell TableShape cell) }
{
    ReadFault::Fault(Fault::of_cell(Kind::TableShape, cell))
}

/// The cells of a TOML text, or the first fault: TableSyntax, at no place, where the bytes aren't UTF-8 or no TOML
/// document; TableShape, at the plain name of the least cell by bytes whose entry isn't of the form, or at the empty
/// name where the fault stands above the cells.
#[tactic(auto, unfolding(crate::specs::Cells::table_of))]
pub fn read_table(alloc: Global, bytes: &[u8]) -> Result<CellTable, ReadFault>
    ensures value { IfOk result (DenotesCells bytes.now) }
    ensures fault { IfFault result (IsFirstFault (HoldsInTable bytes.now)) }
    ensures read { Answers result (table_of bytes.now) }
    // The out pins of each path stand in the order of their bytes.
    ensures order { IfOk result HaveOutsInOrder }
{
    match toml::table_from_slice(alloc, bytes) {
        Ok(document) => document_of(alloc, &document),
        Err(error) if error.is_memory() => Err(ReadFault::NoMemory),
        Err(_) => Err(ReadFault::Fault(Fault {
            kind: Kind::TableSyntax,
            file: FileKind::Table,
            spot: Spot::Nowhere,
        })),
    }
}
