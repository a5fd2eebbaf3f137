//! The lines of `play`.
ghost use Rattle.std.specs.Prelude.{◌≡◌, ◌+◌, ◌≤◌, ◌∷◌, ◌++◌, [], suc, length, map, codes, IfOk, OnOk};
ghost use Rattle.play_command.specs.Plays.{scan_line, scan_lines, cell_character, cells_line};

use base_types::NoMemory;
use itoa::Buffer;
use stil_tester::Symbol;

/// Appends the line of a Pattern, by its plain name.
pub(crate) fn push_pattern(lines: &mut Vec<u8>, name: &[u8]) -> Result<(), NoMemory>
    ensures value { OnOk result (lines.new.items ≡ lines.old.items ++ codes "pattern " ++ name.now ++ 10 ∷ []) }
{
    lines.extend_from_slice(b"pattern ")?;
    lines.extend_from_slice(name)?;
    lines.push(b'\n')?;
    Ok(())
}

/// Appends the line of a scan call that was run, by its number.
fn push_scan(lines: &mut Vec<u8>, number: usize, passed: bool) -> Result<(), NoMemory>
    ensures value { OnOk result (lines.new.items ≡ lines.old.items ++ scan_line number passed) }
    ensures grows { length lines.old.items ≤ length lines.new.items }
{
    let verdict: &[u8] = if passed { b" pass\n" } else { b" fail\n" };
    let mut digits = Buffer::new();
    lines.extend_from_slice(b"scan ")?;
    lines.extend_from_slice(digits.format(number).as_bytes())?;
    lines.extend_from_slice(verdict)?;
    Ok(())
}

/// Appends a line for each of some scan calls, by their verdicts; so many were run before. The answer is how many were then run.
pub(crate) fn push_scans(
    lines: &mut Vec<u8>,
    before: usize,
    verdicts: &[bool],
) -> Result<usize, NoMemory>
    requires few { before ≤ length lines.old.items }
    ensures value { OnOk result (lines.new.items ≡ lines.old.items ++ scan_lines (suc before) verdicts.now) }
    ensures scans { IfOk result (λ scans. scans ≡ before + length verdicts.now) }
    ensures few { IfOk result (λ scans. scans ≤ length lines.new.items) }
    ensures grows { length lines.old.items ≤ length lines.new.items }
{
    let mut scans = before;
    for passed in verdicts {
        scans += 1;
        push_scan(lines, scans, *passed)?;
    }
    Ok(scans)
}

/// The character of what a cell holds.
fn cell_character(symbol: Symbol) -> u8
    ensures value { result ≡ cell_character symbol }
{
    match symbol {
        Symbol::Zero => b'0',
        Symbol::One => b'1',
        Symbol::Unknown => b'N',
    }
}

/// Appends the line of the cells.
pub(crate) fn push_cells(lines: &mut Vec<u8>, cells: &[Symbol]) -> Result<(), NoMemory>
    ensures value { OnOk result (lines.new.items ≡ lines.old.items ++ cells_line cells.now) }
{
    lines.extend_from_slice(b"cells ")?;
    for cell in cells {
        lines.push(cell_character(*cell))?;
    }
    lines.push(b'\n')?;
    Ok(())
}
