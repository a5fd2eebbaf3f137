//! What a netlist has at the places of edits: the connections at pins, assigns, and the texts of nets.
ghost use Rattle.std.specs.Prelude.{◌≡◌, option_map, slice_get};
ghost use Rattle.netlist_core.specs.Netlists.{connection_at};
ghost use Rattle.path_links.specs.Edited.{in_connection};
ghost use Rattle.verilog_writer.specs.Written.{text_of};
ghost use Rattle.verilog_writer.specs.Wired.{pin_connection};

use base_types::Name;
use cell_table::CellTable;
use chain_trace::scan_path;
use netlist_core::{Assign, Connection, NetId, Netlist};

fn connection_at<'a>(pin: &Name, connections: &'a [Connection]) -> Option<&'a Connection>
    ensures value { option_map (λ connection. connection.now) result ≡ connection_at pin.now connections.now }
{
    connections
        .iter()
        .find(|connection| connection.pin.bytes() == pin.bytes())
}

/// The connection at the in pin of a scan path.
pub(crate) fn in_connection<'a>(
    netlist: &'a Netlist,
    table: &CellTable,
    instance: u32,
    path: u32,
) -> Option<&'a Connection>
    ensures value { option_map (λ connection. connection.now) result ≡ in_connection netlist.now table.now instance path }
{
    let placed = netlist.instances.as_slice().get(instance as usize)?;
    let entered = scan_path(netlist, table, instance, path)?;
    connection_at(&entered.input, placed.connections.as_slice())
}

/// The connection at a pin of an instance.
pub(crate) fn pin_connection<'a>(
    netlist: &'a Netlist,
    instance: u32,
    pin: &Name,
) -> Option<&'a Connection>
    ensures value { option_map (λ connection. connection.now) result ≡ pin_connection netlist.now instance pin.now }
{
    let placed = netlist.instances.as_slice().get(instance as usize)?;
    connection_at(pin, placed.connections.as_slice())
}

/// The Verilog text of a net.
pub(crate) fn text_of(netlist: &Netlist, net: NetId) -> &[u8]
    ensures value { result.now ≡ text_of netlist.now net }
{
    match netlist.nets.as_slice().get(net.0 as usize) {
        Some(name) => name.text.bytes(),
        None => &[],
    }
}

/// The assign of a number.
pub(crate) fn assign_of(netlist: &Netlist, assign: u32) -> Option<&Assign>
    ensures value { option_map (λ assign. assign.now) result ≡ slice_get netlist.now.assigns assign }
{
    netlist.assigns.as_slice().get(assign as usize)
}
