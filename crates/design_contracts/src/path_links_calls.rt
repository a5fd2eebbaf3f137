//! The contracts of `path_links`.
ghost use Rattle.path_links.specs.Direct.{is_direct};
ghost use Rattle.path_links.specs.Free.{is_free};
ghost use Rattle.std.specs.Prelude.{length, ◌<◌, ◌≡◌};

use cell_table::CellTable;
use chain_trace::Path;
use netlist_core::NetId;
use path_links::FreeOutputs;

/// As `path_links::FreeOutputs::is_assigned`.
pub fn free_outputs_is_assigned<'n>(free_outputs: &FreeOutputs<'n>, port: NetId) -> bool
    requires within { port.0 < length free_outputs.now.nets }
    ensures value { result ≡ is_free free_outputs.now port }
{
    free_outputs.is_assigned(port)
}

/// As `path_links::FreeOutputs::is_direct`.
pub fn free_outputs_is_direct<'n>(
    free_outputs: &FreeOutputs<'n>,
    table: &CellTable,
    path: &Path,
) -> bool
    ensures value { result ≡ is_direct free_outputs.now table.now path.now }
{
    free_outputs.is_direct(table, path)
}
