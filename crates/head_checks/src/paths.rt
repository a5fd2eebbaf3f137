//! The parity and the length of a path.
ghost use Rattle.std.specs.Prelude.{◌≡◌, ◌==◌};
ghost use Rattle.chain_trace.specs.Parities.{plus, odd, step_inversions, path_parity};
ghost use Rattle.traced_paths.specs.Bits.{path_bits};

use cell_table::CellTable;
use chain_trace::{Path, Step, out_pin, scan_path};
use netlist_core::Netlist;
use traced_paths::step_bits;

/// The sum modulo 2.
pub(crate) fn plus(a: bool, b: bool) -> bool
    ensures value { result ≡ plus a b }
{
    if a { !b } else { b }
}

fn is_odd(inversions: &[bool]) -> bool
    ensures value { result ≡ odd inversions.now }
{
    let mut parity = false;
    for inverted in inversions {
        parity = plus(parity, *inverted);
    }
    parity
}

fn step_parity(netlist: &Netlist, table: &CellTable, step: Step) -> bool
    ensures value { result ≡ odd (step_inversions netlist.now table.now step) }
{
    let Some(path) = scan_path(netlist, table, step.instance, step.path) else {
        return false;
    };
    match out_pin(path, step.out) {
        Some(out) => plus(is_odd(path.bits.as_slice()), out.inverted),
        None => false,
    }
}

/// Whether the output of a path shows the inverse of what its input gave.
pub(crate) fn path_parity(netlist: &Netlist, table: &CellTable, steps: &[Step]) -> bool
    ensures value { result ≡ path_parity netlist.now table.now steps.now }
{
    let mut parity = false;
    for step in steps {
        parity = plus(parity, step_parity(netlist, table, *step));
    }
    parity
}

/// Whether a path has so many bits.
pub(crate) fn has_length(netlist: &Netlist, table: &CellTable, path: &Path, length: u32) -> bool
    ensures value { result ≡ (path_bits netlist.now table.now path.now == length) }
{
    let mut left = length as usize;
    for step in path.steps.as_slice() {
        let bits = step_bits(netlist, table, *step);
        if left < bits {
            return false;
        }
        left -= bits;
    }
    left == 0
}
