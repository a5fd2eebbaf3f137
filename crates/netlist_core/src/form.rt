//! Whether lists that were put together by hand are a netlist.
ghost use Rattle.std.specs.Prelude.{◌≡◌, ◌↔◌, ◌<◌, ◌≤◌, ◌^◌, All, IfOk, IsTrue, length, map};
ghost use Rattle.netlist_core.specs.Netlists.{AreDistinct, IsBitWithin, IsAssign, IsInstance, IsNetlist};

use crate::netlist::{Assign, Bit, Connection, Instance, NetName, Netlist, Port};
use base_types::NoMemory;
use std::alloc::Global;
use std::collections::HashSet;

fn is_within(bit: Bit, count: usize) -> bool
    ensures value { IsTrue result ↔ IsBitWithin count bit }
{
    match bit {
        Bit::Net(net) => (net.0 as usize) < count,
        Bit::Zero | Bit::One | Bit::Unknown => true,
    }
}

fn are_within(bits: &[Bit], count: usize) -> bool
    ensures value { IsTrue result ↔ All (IsBitWithin count) bits.now }
{
    bits.iter().all(|bit| is_within(*bit, count))
}

fn is_assign(assign: &Assign, count: usize) -> bool
    ensures value { IsTrue result ↔ IsAssign count assign.now }
{
    let left = assign.left.bits.as_slice();
    let right = assign.right.bits.as_slice();
    left.len() == right.len() && are_within(left, count) && are_within(right, count)
}

fn are_assigns(assigns: &[Assign], count: usize) -> bool
    ensures value { IsTrue result ↔ All (IsAssign count) assigns.now }
{
    assigns.iter().all(|assign| is_assign(assign, count))
}

fn are_ports(ports: &[Port], count: usize) -> bool
    ensures value { IsTrue result ↔ All (λ port. port.net.0 < count) ports.now }
{
    ports.iter().all(|port| (port.net.0 as usize) < count)
}

fn are_connections(connections: &[Connection], count: usize) -> bool
    ensures value { IsTrue result ↔ All (λ connection. All (IsBitWithin count) connection.expr.bits) connections.now }
{
    connections.iter().all(|connection| are_within(connection.expr.bits.as_slice(), count))
}

fn are_distinct_numbers(alloc: Global, numbers: &[u32]) -> Result<bool, NoMemory>
    ensures value { IfOk result (λ distinct. IsTrue distinct ↔ AreDistinct numbers.now) }
{
    let set: HashSet<u32> = numbers.iter().copied().collect(alloc)?;
    Ok(set.len() == numbers.len())
}

fn are_distinct_names(alloc: Global, names: &[&[u8]]) -> Result<bool, NoMemory>
    ensures value { IfOk result (λ distinct. IsTrue distinct ↔ AreDistinct (map (λ name. name.now) names.now)) }
{
    let mut set = HashSet::new(alloc);
    for name in names {
        set.insert(*name)?;
    }
    Ok(set.len() == names.len())
}

fn net_names<'a>(alloc: Global, nets: &'a [NetName]) -> Result<Vec<&'a [u8]>, NoMemory>
    ensures value { IfOk result (λ names. map (λ name. name.now) names.items ≡ map (λ net. net.plain) nets.now) }
{
    let mut names = Vec::new(alloc);
    for net in nets {
        names.push(net.plain.bytes())?;
    }
    Ok(names)
}

fn port_nets(alloc: Global, ports: &[Port]) -> Result<Vec<u32>, NoMemory>
    ensures value { IfOk result (λ nets. nets.items ≡ map (λ port. port.net.0) ports.now) }
{
    let mut nets = Vec::new(alloc);
    for port in ports {
        nets.push(port.net.0)?;
    }
    Ok(nets)
}

fn instance_names<'a>(alloc: Global, instances: &'a [Instance]) -> Result<Vec<&'a [u8]>, NoMemory>
    ensures value { IfOk result (λ names. map (λ name. name.now) names.items ≡ map (λ instance. instance.name) instances.now) }
{
    let mut names = Vec::new(alloc);
    for instance in instances {
        names.push(instance.name.bytes())?;
    }
    Ok(names)
}

fn pins_of<'a>(alloc: Global, connections: &'a [Connection]) -> Result<Vec<&'a [u8]>, NoMemory>
    ensures value { IfOk result (λ pins. map (λ pin. pin.now) pins.items ≡ map (λ connection. connection.pin) connections.now) }
{
    let mut pins = Vec::new(alloc);
    for connection in connections {
        pins.push(connection.pin.bytes())?;
    }
    Ok(pins)
}

fn is_instance(alloc: Global, instance: &Instance, count: usize) -> Result<bool, NoMemory>
    ensures value { IfOk result (λ sound. IsTrue sound ↔ IsInstance count instance.now) }
{
    let connections = instance.connections.as_slice();
    let pins = pins_of(alloc, connections)?;
    let distinct = are_distinct_names(alloc, &pins)?;
    Ok(distinct && are_connections(connections, count))
}

fn are_instances(alloc: Global, instances: &[Instance], count: usize) -> Result<bool, NoMemory>
    ensures value { IfOk result (λ sound. IsTrue sound ↔ All (IsInstance count) instances.now) }
{
    for instance in instances {
        if !is_instance(alloc, instance, count)? {
            return Ok(false);
        }
    }
    Ok(true)
}

/// Whether no net name, no port's net and no instance name stands twice.
fn has_each_once(alloc: Global, netlist: &Netlist) -> Result<bool, NoMemory>
    ensures value { IfOk result (λ once. IsTrue once ↔ AreDistinct (map (λ net. net.plain) netlist.now.nets) × AreDistinct (map (λ port. port.net.0) netlist.now.ports) × AreDistinct (map (λ instance. instance.name) netlist.now.instances)) }
{
    let nets = net_names(alloc, netlist.nets.as_slice())?;
    let ports = port_nets(alloc, netlist.ports.as_slice())?;
    let instances = instance_names(alloc, netlist.instances.as_slice())?;
    Ok(
        are_distinct_names(alloc, &nets)?
            && are_distinct_numbers(alloc, &ports)?
            && are_distinct_names(alloc, &instances)?,
    )
}

/// Whether the nets and instances are few enough, and the ports and assigns are over these nets.
fn has_parts(netlist: &Netlist) -> bool
    ensures value { IsTrue result ↔ (length netlist.now.nets < 2 ^ 32) × (length netlist.now.instances < 2 ^ 32) × All (λ port. port.net.0 < length netlist.now.nets) netlist.now.ports × All (IsAssign (length netlist.now.nets)) netlist.now.assigns × (netlist.now.declared ≤ length netlist.now.nets) }
{
    let nets = netlist.nets.as_slice().len();
    let instances = netlist.instances.as_slice().len();
    nets < 4294967296
        && instances < 4294967296
        && are_ports(netlist.ports.as_slice(), nets)
        && are_assigns(netlist.assigns.as_slice(), nets)
        && netlist.declared as usize <= nets
}

/// Whether these lists are a netlist as each call asks for it, or want of memory. It goes over the netlist once.
pub fn is_netlist(alloc: Global, netlist: &Netlist) -> Result<bool, NoMemory>
    ensures value { IfOk result (λ sound. IsTrue sound ↔ IsNetlist netlist.now) }
{
    if !has_parts(netlist) {
        return Ok(false);
    }
    if !has_each_once(alloc, netlist)? {
        return Ok(false);
    }
    let nets = netlist.nets.as_slice().len();
    are_instances(alloc, netlist.instances.as_slice(), nets)
}
