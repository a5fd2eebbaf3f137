//! The lines and the parity of a path's steps.
ghost use Rattle.std.specs.Prelude.{◌≡◌, ◌++◌, ◌∷◌, [], OnOk, Some};
ghost use Rattle.std.specs.List.{flat_map};
ghost use Rattle.chain_trace.specs.Parities.{plus, odd, step_inversions, path_parity};
ghost use Rattle.trace_command.specs.Reports.{entry_text, step_text};

use base_types::NoMemory;
use cell_table::{CellTable, OutPin, ScanPath};
use chain_trace::{Step, out_pin, scan_path};
use netlist_core::{Instance, Netlist};
use std::alloc::Global;

/// The sum modulo 2.
fn plus(a: bool, b: bool) -> bool
    ensures value { result ≡ plus a b }
{
    if a { !b } else { b }
}

fn is_odd(inversions: &[bool]) -> bool
    ensures value { result ≡ odd inversions.now }
{
    let mut parity = false;
    for inverted in inversions {
        parity = plus(parity, *inverted);
    }
    parity
}

fn step_parity(netlist: &Netlist, table: &CellTable, step: Step) -> bool
    ensures value { result ≡ odd (step_inversions netlist.now table.now step) }
{
    let Some(path) = scan_path(netlist, table, step.instance, step.path) else {
        return false;
    };
    match out_pin(path, step.out) {
        Some(out) => plus(is_odd(path.bits.as_slice()), out.inverted),
        None => false,
    }
}

/// Whether the output of a path shows the inverse of what its input gave.
pub(crate) fn path_parity(netlist: &Netlist, table: &CellTable, steps: &[Step]) -> bool
    ensures value { result ≡ path_parity netlist.now table.now steps.now }
{
    let mut parity = false;
    for step in steps {
        parity = plus(parity, step_parity(netlist, table, *step));
    }
    parity
}

/// Appends a word and a blank.
fn push_word(line: &mut Vec<u8>, word: &[u8]) -> Result<(), NoMemory>
    ensures value { OnOk result (line.new.items ≡ line.old.items ++ word.now ++ 32 ∷ []) }
{
    line.extend_from_slice(word)?;
    line.extend_from_slice(b" ")?;
    Ok(())
}

fn push_entry(
    alloc: Global,
    line: &mut Vec<u8>,
    placed: &Instance,
    path: &ScanPath,
    out: &OutPin,
) -> Result<(), NoMemory>
    ensures value { OnOk result (line.new.items ≡ line.old.items ++ entry_text (Some placed.now) (Some path.now) (Some out.now)) }
{
    let bits = path.bits.as_slice().len();
    let bits = format!(in alloc; "{bits}\n")?;
    push_word(line, placed.name.bytes())?;
    push_word(line, placed.cell.bytes())?;
    push_word(line, path.input.bytes())?;
    push_word(line, out.pin.bytes())?;
    line.extend_from_slice(bits.as_bytes())?;
    Ok(())
}

/// Appends the line of a step.
pub(crate) fn push_step(
    alloc: Global,
    line: &mut Vec<u8>,
    netlist: &Netlist,
    table: &CellTable,
    step: Step,
) -> Result<(), NoMemory>
    ensures value { OnOk result (line.new.items ≡ line.old.items ++ step_text netlist.now table.now step) }
{
    let Some(placed) = netlist.instances.as_slice().get(step.instance as usize) else {
        return Ok(());
    };
    let Some(path) = scan_path(netlist, table, step.instance, step.path) else {
        return Ok(());
    };
    let Some(out) = out_pin(path, step.out) else {
        return Ok(());
    };
    push_entry(alloc, line, placed, path, out)
}
