//! Which outputs of paths are free to get another source.
ghost use Rattle.std.specs.Prelude.{◌≡◌, ◌<◌, length, IfOk};
ghost use Rattle.path_numbers.specs.Numbers.{is_free_output};

use crate::extras::Extras;
use base_types::NoMemory;
use cell_table::CellTable;
use chain_trace::{Path, plain_of};
use netlist_core::Netlist;
use path_links::FreeOutputs;
use std::alloc::Global;

/// Whether the output of a path is free.
pub(crate) fn is_free_output(
    alloc: Global,
    netlist: &Netlist,
    table: &CellTable,
    outputs: &FreeOutputs<'_>,
    extras: &Extras<'_>,
    path: &Path,
) -> Result<bool, NoMemory>
    requires outputs { outputs.now ≡ netlist.now }
    requires within { path.now.output.0 < length netlist.now.nets }
    ensures value { IfOk result (λ free. free ≡ is_free_output netlist.now table.now extras.now path.now) }
{
    if outputs.is_assigned(path.output) || outputs.is_direct(table, path) {
        let name = plain_of(netlist.nets.as_slice(), path.output);
        return Ok(!extras.has(alloc, name)?);
    }
    Ok(false)
}
