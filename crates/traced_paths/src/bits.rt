//! How many bits paths have.
ghost use Rattle.std.specs.Prelude.{◌≡◌, ◌≤◌, ◌<◌, ◌+◌, true, false, IfErr, OnOk, MatchOption};
ghost use Rattle.traced_paths.specs.Bits.{step_bits, path_bits, all_bits, HaveTooManyBits};
ghost use Rattle.traced_paths.specs.Steps.{AreFew};

use base_types::{Fault, FileKind, Kind};
use cell_table::CellTable;
use chain_trace::{Path, Step, scan_path};
use netlist_core::Netlist;

/// How many bits the paths of a netlist may have together.
const MOST_BITS: usize = 262_144;

/// How many bits a step has; none where its instance has no such path.
pub fn step_bits(netlist: &Netlist, table: &CellTable, step: Step) -> usize
    ensures value { result ≡ step_bits netlist.now table.now step }
{
    match scan_path(netlist, table, step.instance, step.path) {
        Some(path) => path.bits.as_slice().len(),
        None => 0,
    }
}

/// So many bits more, where they are still few enough.
fn with_bits(total: usize, bits: usize) -> Option<usize>
    requires few { total ≤ 262144 }
    ensures value { MatchOption result (262144 < total + bits) (AreFew (total + bits)) }
{
    if bits > MOST_BITS - total {
        return None;
    }
    Some(total + bits)
}

/// The bits of a path more, where they are still few enough.
fn with_path(netlist: &Netlist, table: &CellTable, total: usize, path: &Path) -> Option<usize>
    requires few { total ≤ 262144 }
    ensures value { MatchOption result (262144 < total + path_bits netlist.now table.now path.now) (AreFew (total + path_bits netlist.now table.now path.now)) }
{
    let mut sum = total;
    for step in path.steps.as_slice() {
        sum = with_bits(sum, step_bits(netlist, table, *step))?;
    }
    Some(sum)
}

fn have_few_bits(netlist: &Netlist, table: &CellTable, paths: &[Path]) -> bool
    ensures few { result ≡ true → all_bits netlist.now table.now paths.now ≤ 262144 }
    ensures many { result ≡ false → 262144 < all_bits netlist.now table.now paths.now }
{
    let mut total = 0;
    for path in paths {
        let Some(sum) = with_path(netlist, table, total, path) else {
            return false;
        };
        total = sum;
    }
    true
}

/// Whether the paths have 262144 bits at most together; else TooManyBits, at the line of the module. Takes no memory.
pub fn check_bits(netlist: &Netlist, table: &CellTable, paths: &[Path]) -> Result<(), Fault>
    ensures few { OnOk result (all_bits netlist.now table.now paths.now ≤ 262144) }
    ensures fault { IfErr result (HaveTooManyBits netlist.now table.now paths.now) }
{
    if have_few_bits(netlist, table, paths) {
        return Ok(());
    }
    Err(Fault::at_line(Kind::TooManyBits, FileKind::Verilog, netlist.line))
}
