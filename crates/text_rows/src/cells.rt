//! The cells of tables.

use base_types::{Name, NoMemory, ReadFault};
use cell_table::{CellTable, ScanPath, read_table};
use row_forms::{Part, put};
use std::alloc::Global;

/// A scan path: its in pin, its bits, and its out pins.
fn push_path(text: &mut String, path: &ScanPath) -> Result<(), NoMemory> {
    put(
        text,
        &[
            Part::Text(" "),
            Part::Word(path.input.bytes()),
            Part::Text(" ["),
        ],
    )?;
    for inverted in path.bits.as_slice() {
        put(text, &[Part::Text(if *inverted { "1" } else { "0" })])?;
    }
    put(text, &[Part::Text("]")])?;
    for out in path.outs.as_slice() {
        let inverted = if out.inverted { "=1" } else { "=0" };
        put(
            text,
            &[
                Part::Text(" "),
                Part::Word(out.pin.bytes()),
                Part::Text(inverted),
            ],
        )?;
    }
    Ok(())
}

/// A line for each of some cells that the table has.
fn push_cells(alloc: Global, text: &mut String, table: &CellTable) -> Result<(), NoMemory> {
    for cell in ["BUF", "INV", "LK", "PAIR", "SD", "SDF", "TWO"] {
        let name = Name::copy(alloc, cell.as_bytes())?;
        let Some(paths) = table.get(&name) else {
            continue;
        };
        put(text, &[Part::Text(cell)])?;
        for path in paths {
            push_path(text, path)?;
        }
        put(text, &[Part::Text("\n")])?;
    }
    Ok(())
}

/// The cells of a table.
pub(crate) fn table(alloc: Global, source: &[u8]) -> Result<String, ReadFault> {
    let table = read_table(alloc, source)?;
    let mut text = String::new(alloc);
    push_cells(alloc, &mut text, &table)?;
    Ok(text)
}
