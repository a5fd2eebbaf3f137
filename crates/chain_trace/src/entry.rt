//! The entries of the table that an instance's cell has, and the nets of sources.
ghost use Rattle.std.specs.Prelude.{◌≡◌, IfOk, option_map, slice_get};
ghost use Rattle.netlist_core.specs.Netlists.{IsNetlist};
ghost use Rattle.chain_trace.specs.declared.path.Source.{Source};
ghost use Rattle.chain_trace.specs.Paths.{scan_path_at, source_net};
ghost use Rattle.chain_trace.specs.Drivers.{HasEntries, AreEntries};

use crate::path::{Source, Step};
use crate::ports::is_source_port;
use base_types::NoMemory;
use cell_table::{CellTable, OutPin, ScanPath};
use netlist_core::{NetId, Netlist, net_of};
use std::alloc::Global;

/// A scan path of an instance's cell, by its number.
pub fn scan_path<'a>(
    netlist: &Netlist,
    table: &'a CellTable,
    instance: u32,
    path: u32,
) -> Option<&'a ScanPath>
    ensures value { option_map (λ path. path.now) result ≡ scan_path_at netlist.now table.now instance path }
{
    let placed = netlist.instances.as_slice().get(instance as usize)?;
    let paths = table.get(&placed.cell)?;
    paths.get(path as usize)
}

/// A scan path of a cell, by its number.
pub(crate) fn path_at(paths: &[ScanPath], path: u32) -> Option<&ScanPath>
    ensures value { option_map (λ path. path.now) result ≡ slice_get paths.now path }
{
    paths.get(path as usize)
}

/// The scan paths of an instance's cell; none where the cell has no entry.
fn paths_of<'a>(netlist: &Netlist, table: &'a CellTable, instance: u32) -> &'a [ScanPath]
    ensures entries { HasEntries netlist.now table.now instance result.now }
{
    let Some(placed) = netlist.instances.as_slice().get(instance as usize) else {
        return &[];
    };
    match table.get(&placed.cell) {
        Some(paths) => paths,
        None => &[],
    }
}

/// The scan paths of each instance's cell. Each cell is looked up once.
pub(crate) fn entries_of<'a>(
    alloc: Global,
    netlist: &Netlist,
    table: &'a CellTable,
) -> Result<Vec<&'a [ScanPath]>, NoMemory>
    requires netlist { IsNetlist netlist.now }
    ensures entries { IfOk result (λ entries. AreEntries netlist.now table.now entries.items) }
{
    let mut entries = Vec::new(alloc);
    for i in 0..netlist.instances.as_slice().len() {
        entries.push(paths_of(netlist, table, i as u32))?;
    }
    Ok(entries)
}

/// An out pin of a scan path, by its number.
pub fn out_pin(path: &ScanPath, out: u32) -> Option<&OutPin>
    ensures value { option_map (λ out. out.now) result ≡ slice_get path.now.outs out }
{
    path.outs.as_slice().get(out as usize)
}

/// The net of a step's out pin, where its expression is one net bit.
fn out_net(netlist: &Netlist, table: &CellTable, step: Step) -> Option<NetId>
    ensures value { result ≡ source_net netlist.now table.now (Source.Out step) }
{
    let path = scan_path(netlist, table, step.instance, step.path)?;
    let out = out_pin(path, step.out)?;
    net_of(netlist, step.instance, &out.pin)
}

/// The net that a source stands on: that of an input or inout port bit, or of a step's out pin.
pub fn source_net(netlist: &Netlist, table: &CellTable, source: Source) -> Option<NetId>
    ensures value { result ≡ source_net netlist.now table.now source }
{
    match source {
        Source::Port(net) if is_source_port(netlist, net) => Some(net),
        Source::Port(_) => None,
        Source::Out(step) => out_net(netlist, table, step),
    }
}
