//! The ports of a netlist by name.
ghost use Rattle.std.specs.Prelude.{◌≡◌, length, slice_get, IfOk};
ghost use Rattle.std.specs.List.{find};
ghost use Rattle.std.specs.Str.{bytes_eq};
ghost use Rattle.netlist_core.specs.Netlists.{plain_of, IsNetlist};
ghost use Rattle.netlist_core.specs.Places.{AreNoted};

use crate::by_name::add_place;
use crate::netlist::{NetId, NetName, Netlist, Port};
use base_types::NoMemory;
use std::alloc::Global;
use std::collections::HashMap;
use std::marker::Model;

/// A netlist and the places of its port bits by their plain names. Contracts see the netlist.
#[derive(Drop)]
pub struct Ports<'n> {
    netlist: &'n Netlist,
    places: HashMap<&'n [u8], usize>,
}

impl<'n> Model for Ports<'n> {
    ghost use Rattle.std.specs.Prelude.{length};
    ghost use Rattle.netlist_core.specs.declared.netlist.Netlist.{Netlist};
    ghost use Rattle.netlist_core.specs.Netlists.{plain_of, IsNetlist};
    ghost use Rattle.netlist_core.specs.Places.{AreNoted};

    ghost Value = { Netlist };

    ghost view = { λ p. p.netlist.now };

    ghost invariant = { λ p. IsNetlist p.netlist.now × AreNoted (λ port. plain_of p.netlist.now.nets port.net) p.places p.netlist.now.ports (length p.netlist.now.ports) };
}

/// The plain name of a net; empty where there is no such net.
fn plain_of(nets: &[NetName], net: NetId) -> &[u8]
    ensures value { result.now ≡ plain_of nets.now net }
{
    match nets.get(net.0 as usize) {
        Some(name) => name.plain.bytes(),
        None => &[],
    }
}

/// The places of the port bits by their plain names.
fn ports_by_name<'n>(
    alloc: Global,
    nets: &'n [NetName],
    ports: &[Port],
) -> Result<HashMap<&'n [u8], usize>, NoMemory>
    ensures value { IfOk result (λ places. AreNoted (λ port. plain_of nets.now port.net) places ports.now (length ports.now)) }
{
    let mut places = HashMap::new(alloc);
    for (place, port) in ports.iter().enumerate() {
        add_place(&mut places, plain_of(nets, port.net), place)?;
    }
    Ok(places)
}

fn port_at(ports: &[Port], place: usize) -> Option<Port>
    ensures value { result ≡ slice_get ports.now place }
{
    match ports.get(place) {
        Some(port) => Some(*port),
        None => None,
    }
}

impl<'n> Ports<'n> {
    /// Goes over the ports once, or answers want of memory.
    pub fn of(alloc: Global, netlist: &'n Netlist) -> Result<Ports<'n>, NoMemory>
        requires netlist { IsNetlist netlist.now }
        ensures value { IfOk result (λ ports. ports ≡ netlist.now) }
    {
        Ok(Ports {
            netlist,
            places: ports_by_name(alloc, netlist.nets.as_slice(), netlist.ports.as_slice())?,
        })
    }

    /// The first port bit of a plain name.
    pub fn named(&self, name: &[u8]) -> Option<Port>
        ensures value { result ≡ find (λ port. bytes_eq (plain_of self.now.nets port.net) name.now) self.now.ports }
        ensures sound { IsNetlist self.now }
    {
        match self.places.get(&name) {
            Some(place) => port_at(self.netlist.ports.as_slice(), *place),
            None => None,
        }
    }
}
