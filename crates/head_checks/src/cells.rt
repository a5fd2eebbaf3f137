//! ScanCells beside the bits of a path.
ghost use Rattle.std.specs.Prelude.{◌≡◌, ◌≤◌, length, map, IfOk};
ghost use Rattle.std.specs.List.{flat_map, list_all, slice_get};
ghost use Rattle.head_checks.specs.CellNames.{counted, within, names_cell, name_each};
ghost use Rattle.head_checks.specs.Heads.{name_of, step_names, bit_names, differ};

use crate::names::CellName;
use base_types::{Name, NoMemory, Rows};
use cell_table::CellTable;
use chain_trace::{Path, Step};
use netlist_core::Netlist;
use std::alloc::Global;
use traced_paths::step_bits;

/// The name of an instance; none where there is no such instance.
fn name_of(netlist: &Netlist, instance: u32) -> &[u8]
    ensures value { result.now ≡ name_of (slice_get netlist.now.instances instance) }
{
    match netlist.instances.as_slice().get(instance as usize) {
        Some(placed) => placed.name.bytes(),
        None => &[],
    }
}

/// Whether each of some names names a cell of an instance.
fn name_one(alloc: Global, outer: &[u8], instance: &[u8], names: &[Name]) -> Result<bool, NoMemory>
    ensures value { IfOk result (λ all. all ≡ list_all (names_cell outer.now instance.now) names.now) }
{
    let cell = CellName::of(alloc, outer, instance)?;
    for name in names {
        if !cell.has(alloc, name.bytes())? {
            return Ok(false);
        }
    }
    Ok(true)
}

/// Whether names name the bits of some steps in their order.
fn name_steps(
    alloc: Global,
    netlist: &Netlist,
    table: &CellTable,
    steps: &[Step],
    names: &[Name],
) -> Result<bool, NoMemory>
    ensures value { IfOk result (λ all. all ≡ name_each netlist.now.«module» (flat_map (step_names netlist.now table.now) steps.now) names.now) }
{
    let mut at = 0;
    for step in steps {
        let count = step_bits(netlist, table, *step);
        if names.len() - at < count {
            return Ok(false);
        }
        let instance = name_of(netlist, step.instance);
        let these = &names[at..at + count];
        if !name_one(alloc, netlist.module.bytes(), instance, these)? {
            return Ok(false);
        }
        at += count;
    }
    Ok(at == names.len())
}

/// Whether a list of ScanCells isn't that of a path's bits; where there is none, whether there should be one.
pub(crate) fn differ(
    alloc: Global,
    netlist: &Netlist,
    table: &CellTable,
    listed: bool,
    path: &Path,
    names: &Option<Rows<Name>>,
) -> Result<bool, NoMemory>
    ensures value { IfOk result (λ yes. yes ≡ differ netlist.now.«module» listed (bit_names netlist.now table.now path.now) names.now) }
{
    match names {
        Some(names) => Ok(!name_steps(
            alloc,
            netlist,
            table,
            path.steps.as_slice(),
            names.as_slice(),
        )?),
        None => Ok(listed),
    }
}
