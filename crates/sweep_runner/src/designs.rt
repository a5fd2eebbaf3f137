//! Made designs: their files, whole for the fewest units and by lines for more.
//!
//! A row of `designs.toml` says how many units `size` there are, and which `file` is looked at: all that is `wanted` of it, its
//! `length` in bytes, or `lines` that it has.

use crate::rows::{list, number, text, text_of};
use base_types::NoMemory;
use design_maker::{Files, make_design};
use row_forms::Cases;
use toml::Value;

/// Whether a text has a line.
fn has_line(text: &[u8], line: &str) -> bool {
    text.split(|byte| *byte == b'\n')
        .any(|found| found == line.as_bytes())
}

/// The bytes of a file of a design.
fn file_of<'f>(files: &'f Files, file: &str) -> &'f [u8] {
    match file {
        "verilog" => files.verilog.bytes(),
        "def" => files.def.bytes(),
        "stil" => files.stil.bytes(),
        _ => b"no such file",
    }
}

/// Tries the lines of a row.
fn try_lines(cases: &mut Cases, row: &Value, bytes: &[u8]) -> Result<(), NoMemory> {
    for line in list(row, "lines") {
        let line = text_of(line);
        let came = if has_line(bytes, line) {
            line
        } else {
            "no such line"
        };
        cases.compare(text(row, "name"), came, line)?;
    }
    Ok(())
}

/// Tries a file of a design.
fn try_file(cases: &mut Cases, row: &Value, bytes: &[u8]) -> Result<(), NoMemory> {
    if row.get("lines").is_some() {
        return try_lines(cases, row, bytes);
    }
    let is_wanted = match row.get("length") {
        Some(length) => length.as_integer() == i64::try_from(bytes.len()).ok(),
        None => bytes == text(row, "wanted").as_bytes(),
    };
    let came = if is_wanted {
        "the text"
    } else {
        "another text"
    };
    cases.compare(text(row, "name"), came, "the text")
}

pub(crate) fn try_row(cases: &mut Cases, row: &Value) -> Result<(), NoMemory> {
    let size = u32::try_from(number(row, "size")).unwrap_or(0);
    if size < 8 || size > 16_384 {
        return cases.compare(text(row, "name"), "no design", "a design");
    }
    let files = make_design(cases.alloc, size)?;
    try_file(cases, row, file_of(&files, text(row, "file")))
}
