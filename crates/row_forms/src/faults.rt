//! How names and faults are printed.

use crate::parts::{Part, put};
use base_types::{Fault, FileKind, NoMemory, Spot};
use std::alloc::Global;

/// A name as it is printed.
pub fn word(bytes: &[u8]) -> &str {
    str::from_utf8(bytes).unwrap_or("(no UTF-8)")
}

/// Where a fault stands, by a line, a cell of the table or a dash, and what it is, as the program's console says it. Err where memory is wanted.
pub fn fault_text(alloc: Global, fault: &Fault) -> Result<String, NoMemory> {
    let file = match fault.file {
        FileKind::Table => "t.toml:",
        FileKind::Lef => "m.lef:",
        FileKind::Verilog => "v.v:",
        FileKind::Def => "d.def:",
        FileKind::Stil => "s.stil:",
        FileKind::NewVerilog => "nv.v:",
        FileKind::NewStil => "ns.stil:",
        FileKind::Log => "l.log:",
        FileKind::Words => "words:",
    };
    let place = match &fault.spot {
        Spot::Line(line) => Part::Number(*line),
        Spot::Cell(cell) => Part::Word(cell.bytes()),
        Spot::Nowhere => Part::Text("-"),
    };
    let mut text = String::new(alloc);
    put(
        &mut text,
        &[
            Part::Text(file),
            place,
            Part::Text(": "),
            Part::Text(fault.kind.name()),
        ],
    )?;
    Ok(text)
}
