//! Ports by their names.
ghost use Rattle.std.specs.Prelude.{◌≡◌, MatchOption};
ghost use Rattle.netlist_core.specs.declared.netlist.NetId.{NetId};
ghost use Rattle.netlist_core.specs.Netlists.{plain_of};
ghost use Rattle.chain_trace.specs.Paths.{is_driven, drives, has_port};
ghost use Rattle.chain_trace.specs.Named.{can_be, IsPortNamed};

use netlist_core::{Direction, NetId, NetName, Netlist};

/// The plain name of a net; empty where there is no such net.
pub fn plain_of(nets: &[NetName], net: NetId) -> &[u8]
    ensures value { result.now ≡ plain_of nets.now net }
{
    match nets.get(net.0 as usize) {
        Some(name) => name.plain.bytes(),
        None => &[],
    }
}

/// Whether a port of this direction is driven by what stands in the module: an output or inout port.
pub(crate) fn is_driven(direction: Direction) -> bool
    ensures value { result ≡ is_driven direction }
{
    matches!(direction, Direction::Output | Direction::Inout)
}

/// Whether a port of this direction drives what stands in the module: an input or inout port.
pub(crate) fn drives(direction: Direction) -> bool
    ensures value { result ≡ drives direction }
{
    matches!(direction, Direction::Input | Direction::Inout)
}

/// Whether the net is a bit of an input or inout port.
pub(crate) fn is_source_port(netlist: &Netlist, net: NetId) -> bool
    ensures value { result ≡ has_port drives netlist.now net }
{
    for port in netlist.ports.as_slice() {
        if port.net.0 == net.0 && drives(port.direction) {
            return true;
        }
    }
    false
}

/// Which end of a path a port is asked for.
#[derive(Clone, Copy)]
pub(crate) enum End {
    Input,
    Output,
}

/// Whether a port of this direction can be such an end.
fn can_be(end: End, direction: Direction) -> bool
    ensures value { result ≡ can_be end direction }
{
    match end {
        End::Input => drives(direction),
        End::Output => is_driven(direction),
    }
}

fn port_named(netlist: &Netlist, end: End, name: &[u8]) -> Option<NetId>
    ensures value { MatchOption result ((net : NetId) → IsPortNamed (can_be end) netlist.now name.now net → ⊥) (IsPortNamed (can_be end) netlist.now name.now) }
{
    let nets = netlist.nets.as_slice();
    for port in netlist.ports.as_slice() {
        if can_be(end, port.direction) && plain_of(nets, port.net) == name {
            return Some(port.net);
        }
    }
    None
}

/// The bit of an output or inout port that has this plain name.
pub fn output_named(netlist: &Netlist, name: &[u8]) -> Option<NetId>
    ensures value { MatchOption result ((net : NetId) → IsPortNamed is_driven netlist.now name.now net → ⊥) (IsPortNamed is_driven netlist.now name.now) }
{
    port_named(netlist, End::Output, name)
}

/// The bit of an input or inout port that has this plain name.
pub fn input_named(netlist: &Netlist, name: &[u8]) -> Option<NetId>
    ensures value { MatchOption result ((net : NetId) → IsPortNamed drives netlist.now name.now net → ⊥) (IsPortNamed drives netlist.now name.now) }
{
    port_named(netlist, End::Input, name)
}
