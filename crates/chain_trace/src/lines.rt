//! The faults of a trace, at their lines.
ghost use Rattle.std.specs.Prelude.{◌≡◌, ◌==◌};
ghost use Rattle.std.specs.List.{find, slice_get};
ghost use Rattle.base_types.specs.Faults.{at_line};
ghost use Rattle.chain_trace.specs.Faults.{line_of_port, line_of_instance, sink_line};

use crate::path::Sink;
use base_types::{Fault, FileKind, Kind, ReadFault};
use netlist_core::{NetId, Netlist};

fn port_line(netlist: &Netlist, net: NetId) -> u64
    ensures value { result ≡ line_of_port (find (λ port. port.net.0 == net.0) netlist.now.ports) }
{
    for port in netlist.ports.as_slice() {
        if port.net.0 == net.0 {
            return port.line;
        }
    }
    0
}

fn instance_line(netlist: &Netlist, instance: u32) -> u64
    ensures value { result ≡ line_of_instance (slice_get netlist.now.instances instance) }
{
    match netlist.instances.as_slice().get(instance as usize) {
        Some(placed) => placed.line,
        None => 0,
    }
}

/// The line at which a fault of a sink is answered: that of its instance, or of the port's direction statement; 0 where there is
/// none.
pub fn sink_line(netlist: &Netlist, sink: Sink) -> u64
    ensures value { result ≡ sink_line netlist.now sink }
{
    match sink {
        Sink::Port(net) => port_line(netlist, net),
        Sink::In { instance, path: _ } => instance_line(netlist, instance),
    }
}

/// A fault at the line of a sink.
pub(crate) fn sink_fault(kind: Kind, netlist: &Netlist, sink: Sink) -> ReadFault
    ensures value { result ≡ ReadFault.Fault (at_line kind FileKind.Verilog (sink_line netlist.now sink)) }
{
    ReadFault::Fault(Fault::at_line(kind, FileKind::Verilog, sink_line(netlist, sink)))
}

/// A scan path of the instance that is met again.
pub(crate) fn loop_fault(netlist: &Netlist, instance: u32) -> ReadFault
    ensures value { result ≡ ReadFault.Fault (at_line Kind.Loop FileKind.Verilog (line_of_instance (slice_get netlist.now.instances instance))) }
{
    ReadFault::Fault(Fault::at_line(
        Kind::Loop,
        FileKind::Verilog,
        instance_line(netlist, instance),
    ))
}
