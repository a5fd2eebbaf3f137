//! The scan path between the ports of the words.
ghost use Rattle.std.specs.Prelude.{◌≡◌, ◌<◌, ◌||◌, ℕ, List, length, IfOk};
ghost use Rattle.netlist_core.specs.Netlists.{IsNetlist};
ghost use Rattle.verilog_reader.specs.Denoted.{DenotesNetlist};
ghost use Rattle.path_links.specs.Free.{is_free};
ghost use Rattle.path_links.specs.Direct.{is_direct};
ghost use Rattle.base_types.specs.FirstFault.{IfFault};
ghost use Rattle.rewire_command.specs.Rewiring.{cells_of, IsTraced};
ghost use Rattle.rewire_command.specs.Faults.{IsRewireFault};

use crate::rewire::Rewire;
use base_types::{Fault, Kind, NoMemory, ReadFault};
use cell_table::CellTable;
use chain_trace::{Path, input_named, output_named, plain_of, trace};
use netlist_core::{Netlist, classes_of};
use path_links::FreeOutputs;
use std::alloc::Global;

/// The scan path from the scan-in to the scan-out of a netlist.
pub(crate) fn path_between(
    alloc: Global,
    netlist: &Netlist,
    table: &CellTable,
    rewire: &Rewire,
) -> Result<Path, ReadFault>
    requires netlist { IsNetlist netlist.now }
    requires table { table.now ≡ cells_of rewire.now }
    ensures path { IfOk result (λ path. (text : List ℕ) → DenotesNetlist text netlist.now → IsTraced text rewire.now netlist.now path) }
    ensures fault { IfFault result (λ fault. (text : List ℕ) → DenotesNetlist text netlist.now → IsRewireFault text rewire.now fault) }
{
    let Some(output) = output_named(netlist, rewire.scan_out.bytes()) else {
        return Err(ReadFault::Fault(Fault::of_words(Kind::NoPort)));
    };
    let Some(_) = input_named(netlist, rewire.scan_in.bytes()) else {
        return Err(ReadFault::Fault(Fault::of_words(Kind::NoPort)));
    };
    let classes = classes_of(alloc, netlist)?;
    let path = trace(alloc, netlist, &classes, table, output)?;
    if plain_of(netlist.nets.as_slice(), path.input) != rewire.scan_in.bytes() {
        return Err(ReadFault::Fault(Fault::of_words(Kind::WrongPort)));
    }
    Ok(path)
}

/// Whether a path's output is free: assigned, or driven directly by the path's last out pin.
pub(crate) fn is_output_free(
    alloc: Global,
    netlist: &Netlist,
    table: &CellTable,
    path: &Path,
) -> Result<bool, NoMemory>
    requires netlist { IsNetlist netlist.now }
    requires output { path.now.output.0 < length netlist.now.nets }
    ensures value { IfOk result (λ free. free ≡ (is_free netlist.now path.now.output || is_direct netlist.now table.now path.now)) }
{
    let outputs = FreeOutputs::of(alloc, netlist)?;
    Ok(outputs.is_assigned(path.output) || outputs.is_direct(table, path))
}
