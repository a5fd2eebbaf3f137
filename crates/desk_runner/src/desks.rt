//! Desks in memory, and the loops over them, by hand.

use crate::files::{Manner, SOUND, Texts, desk, files_of};
use base_types::{NoMemory, Text, Word};
use desk_io::{Names, Outputs, Slot, SureDesk, put_file, put_outputs, take_file, take_inputs};
use row_forms::Cases;
use std::alloc::Global;

const BYTES: &[u8] = b"abcd";

/// A desk over one file of four bytes, whether the file is taken or put, which call of the desk fails and which write takes
/// nothing (0 is no call's number), how many bytes a call moves, and how many are taken; what comes: the answer, the bytes,
/// the faults of the slot and the calls.
type Row = (&'static str, bool, u64, u64, usize, u64, &'static str);

const ROWS: [Row; 4] = [
    (
        "a call fails by its number",
        true,
        3,
        0,
        100,
        100,
        "Err(Read) 1 3",
    ),
    (
        "a file over its limit",
        true,
        0,
        0,
        1,
        3,
        "Err(TooLarge) 0 6",
    ),
    ("a file at its limit", true, 0, 0, 1, 4, "Ok(\"abcd\") 0 7"),
    (
        "a write takes nothing",
        false,
        0,
        2,
        100,
        0,
        "Err(Write) \"\" 1 2",
    ),
];

pub(crate) const WRONG: [Row; 2] = [
    ("another fault", true, 3, 0, 100, 100, "Err(TooLarge) 1 3"),
    ("no fault", false, 0, 2, 100, 0, "Ok(()) \"abcd\" 0 3"),
];

/// The one file.
fn four_bytes(alloc: Global) -> Result<Texts, NoMemory> {
    Ok(vec![in alloc; (Slot::Verilog, Vec::from_slice(alloc, BYTES)?)]?)
}

/// The Verilog is read and written, and no other file.
fn names(alloc: Global) -> Result<Names, NoMemory> {
    let read = Word::copy(alloc, "v.v")?;
    let written = Word::copy(alloc, "w.v")?;
    Names::of(
        alloc,
        &[(Slot::Verilog, &read), (Slot::OutVerilog, &written)],
    )
}

fn outputs(alloc: Global) -> Result<Outputs, NoMemory> {
    Ok(Outputs {
        verilog: Text::copy(alloc, b"module")?,
        def: Text::copy(alloc, b"DESIGN")?,
        stil: Text::copy(alloc, b"STIL")?,
        svg: Text::copy(alloc, b"<svg>")?,
        console: Text::copy(alloc, b"moved 0")?,
        note: None,
    })
}

/// Bytes as text.
fn shown(bytes: &[u8]) -> &str {
    str::from_utf8(bytes).unwrap_or("no text")
}

pub(crate) fn try_rows(cases: &mut Cases, rows: &[Row]) -> Result<(), NoMemory> {
    let alloc = cases.alloc;
    for (name, is_taken, failing, empty_write, portion, limit, wanted) in rows {
        let manner = Manner {
            portion: *portion,
            room: 100,
            failing: *failing,
            empty_write: *empty_write,
        };
        let mut desk = desk(alloc, &four_bytes(alloc)?, manner)?;
        let came = if *is_taken {
            let taken = take_file(alloc, &mut desk, Slot::Verilog, "v.v", *limit);
            let taken = match &taken {
                Ok(text) => Ok(shown(text.bytes())),
                Err(fault) => Err(*fault),
            };
            format!(in alloc; "{taken:?} {} {}", desk.faults(Slot::Verilog), desk.calls())?
        } else {
            let put = put_file(&mut desk, Slot::OutVerilog, "w.v", BYTES);
            format!(in alloc;
                "{put:?} {:?} {} {}",
                shown(desk.written(Slot::OutVerilog)),
                desk.faults(Slot::OutVerilog),
                desk.calls()
            )?
        };
        cases.compare(name, came.as_str(), wanted)?;
    }
    Ok(())
}

/// All outputs put, over a desk whose slots are unopened.
fn try_putting(cases: &mut Cases) -> Result<(), NoMemory> {
    let alloc = cases.alloc;
    let names = names(alloc)?;
    let outputs = outputs(alloc)?;
    let mut desk = desk(alloc, &four_bytes(alloc)?, SOUND)?;
    let put = put_outputs(&names, &outputs, &mut desk);
    let came = format!(in alloc;
        "{put:?} {:?} {:?} {:?}",
        shown(desk.written(Slot::OutVerilog)),
        shown(desk.written(Slot::OutDef)),
        shown(desk.written(Slot::Console))
    )?;
    cases.compare(
        "outputs are put",
        came.as_str(),
        "Ok(()) \"module\" \"\" \"moved 0\"",
    )
}

/// All inputs taken, and then all outputs put over a desk without faults.
fn try_whole(cases: &mut Cases) -> Result<(), NoMemory> {
    let alloc = cases.alloc;
    let names = names(alloc)?;
    let outputs = outputs(alloc)?;
    let manner = Manner {
        portion: 1,
        ..SOUND
    };
    let texts = four_bytes(alloc)?;
    let mut desk = desk(alloc, &texts, manner)?;
    let came = match take_inputs(alloc, &names, &mut desk) {
        Ok(inputs) => format!(in alloc;
            "{:?} {:?} {}",
            shown(inputs.text(Slot::Verilog)),
            shown(inputs.text(Slot::Def)),
            desk.calls()
        )?,
        Err(fault) => format!(in alloc; "{fault:?}")?,
    };
    // open, a read for each byte and one at the end, close
    cases.compare("inputs are taken", came.as_str(), "\"abcd\" \"\" 7")?;
    let mut sure = SureDesk::new(files_of(alloc, &texts)?);
    let came = match take_inputs(alloc, &names, &mut sure) {
        Ok(inputs) => format!(in alloc;
            "{:?} {:?}",
            shown(inputs.text(Slot::Verilog)),
            put_outputs(&names, &outputs, &mut sure)
        )?,
        Err(fault) => format!(in alloc; "{fault:?}")?,
    };
    cases.compare("a sure desk", came.as_str(), "\"abcd\" Ok(())")
}

pub(crate) fn desks(alloc: Global) -> Result<Cases, NoMemory> {
    let mut cases = Cases::new(alloc);
    try_rows(&mut cases, ROWS.as_slice())?;
    try_whole(&mut cases)?;
    try_putting(&mut cases)?;
    Ok(cases)
}
