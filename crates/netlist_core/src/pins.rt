//! The nets of pins.
ghost use Rattle.std.specs.Prelude.{◌≡◌, ◌<◌, length};
ghost use Rattle.std.specs.List.{HoldsAt};
ghost use Rattle.std.specs.Str.{bytes_eq};
ghost use Rattle.netlist_core.specs.Netlists.{single_net, net_at};

use crate::netlist::{Bit, Connection, NetId, Netlist};
use base_types::Name;

/// The net of an expression that is one net bit.
fn single_net(bits: &[Bit]) -> Option<NetId>
    ensures value { result ≡ single_net bits.now }
{
    match bits {
        [Bit::Net(net)] => Some(*net),
        _ => None,
    }
}

/// Whether a connection is that of a pin.
fn is_of(connection: &Connection, pin: &Name) -> bool
    ensures value { result ≡ bytes_eq connection.now.pin pin.now }
{
    connection.pin.bytes() == pin.bytes()
}

/// The net of a pin: None exactly where the instance doesn't connect the pin, or connects it to something else than one
/// net bit; takes no memory.
pub fn net_of(netlist: &Netlist, instance: u32, pin: &Name) -> Option<NetId>
    requires within { instance < length netlist.now.instances }
    ensures value { HoldsAt (λ i. result ≡ net_at pin.now i) netlist.now.instances instance }
{
    let instance = &netlist.instances.as_slice()[instance as usize];
    for connection in instance.connections.as_slice() {
        if is_of(connection, pin) {
            return single_net(connection.expr.bits.as_slice());
        }
    }
    None
}
