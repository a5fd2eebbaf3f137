//! The bits of the paths outside all units.
ghost use Rattle.std.specs.Prelude.{◌≡◌, ◌≤◌, ◌<◌, ◌+◌, ◌^◌, ℕ, length, map, slice_index_or, All, IfOk};
ghost use Rattle.std.specs.List.{concat, sum};
ghost use Rattle.traced_paths.specs.Bits.{step_bits, path_bits, all_bits};
ghost use Rattle.chain_rules.specs.Legality.{bits_of, IsLegal};
ghost use Rattle.chain_rules.specs.Plans.{PlanLists};
ghost use Rattle.chain_balance.specs.Balance.{AreOnPaths};
ghost use Rattle.design_files.specs.Files.{Texts};
ghost use Rattle.design_files.specs.Stages.{AreChecked};
ghost use Rattle.reorder_command.specs.Goals.{bits_in_units};
ghost use Rattle.reorder_command.specs.Planned.{fixed_of};

use base_types::NoMemory;
use cell_table::CellTable;
use chain_rules::Unit;
use chain_trace::{Path, Step, scan_path};
use design_files::DesignFiles;
use netlist_core::Netlist;
use std::alloc::Global;

fn step_bits(netlist: &Netlist, table: &CellTable, step: Step) -> usize
    ensures value { result ≡ step_bits netlist.now table.now step }
{
    match scan_path(netlist, table, step.instance, step.path) {
        Some(path) => path.bits.as_slice().len(),
        None => 0,
    }
}

fn path_bits(netlist: &Netlist, table: &CellTable, path: &Path) -> u32
    requires few { path_bits netlist.now table.now path.now < 2 ^ 32 }
    ensures value { result ≡ path_bits netlist.now table.now path.now }
{
    let mut bits = 0;
    for step in path.steps.as_slice() {
        bits += step_bits(netlist, table, *step);
    }
    bits as u32
}

/// The bits of each path.
fn path_bits_of(
    alloc: Global,
    netlist: &Netlist,
    table: &CellTable,
    paths: &[Path],
) -> Result<Vec<u32>, NoMemory>
    requires few { all_bits netlist.now table.now paths.now < 2 ^ 32 }
    ensures value { IfOk result (λ bits. bits.items ≡ map (path_bits netlist.now table.now) paths.now) }
{
    let mut bits = Vec::with_capacity(alloc, paths.len())?;
    for path in paths {
        bits.push(path_bits(netlist, table, path))?;
    }
    Ok(bits)
}

/// Takes the bits of the units from those of their paths.
fn take_units(bits: &mut [u32], units: &[Unit])
    requires paths { All (λ u. u.path < length bits.old) units.now }
    requires enough { (k : ℕ) → bits_in_units units.now k ≤ slice_index_or bits.old k 0 }
    ensures count { length bits.new ≡ length bits.old }
    ensures left { (k : ℕ) → slice_index_or bits.new k 0 + bits_in_units units.now k ≡ slice_index_or bits.old k 0 }
{
    for unit in units {
        bits[unit.path as usize] -= unit.bits;
    }
}

/// The bits of each path outside all units. It goes over the steps of the paths and over the units once.
pub(crate) fn fixed_bits(alloc: Global, files: &DesignFiles) -> Result<Vec<u32>, NoMemory>
    requires checked { (t : Texts) × AreChecked t files.now }
    ensures value { IfOk result (λ fixed. fixed.items ≡ fixed_of files.now) }
    ensures paths { IfOk result (λ fixed. AreOnPaths files.now.rules (length fixed.items)) }
    ensures small { IfOk result (λ fixed. (plan : PlanLists) → IsLegal files.now.rules plan → sum fixed.items + bits_of files.now.rules (concat plan.chains) < 2 ^ 32) }
{
    let mut bits = path_bits_of(alloc, &files.netlist, &files.table, files.paths.as_slice())?;
    take_units(bits.as_mut_slice(), files.rules.units.as_slice());
    Ok(bits)
}
