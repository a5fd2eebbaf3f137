//! The numbers that a netlist gives to instances and to the nets of ports.
ghost use Rattle.std.specs.Prelude.{◌≡◌, IfOk, option_map};
ghost use Rattle.netlist_core.specs.Netlists.{IsNetlist};
ghost use Rattle.def_reader.specs.Agreement.{port_named};
ghost use Rattle.design_elements.specs.Elements.{instance_number, port_number};

use base_types::NoMemory;
use def_reader::ByName;
use netlist_core::{Instance, Netlist, Ports};
use std::alloc::Global;
use std::marker::Model;

/// The instances and the port bits of a netlist by their names. Contracts see the netlist.
#[derive(Drop)]
pub(crate) struct Numbers<'n> {
    netlist: &'n Netlist,
    instances: ByName<'n, Instance>,
    ports: Ports<'n>,
}

impl<'n> Model for Numbers<'n> {
    ghost use Rattle.std.specs.Prelude.{◌≡◌};
    ghost use Rattle.netlist_core.specs.declared.netlist.Netlist.{Netlist};
    ghost use Rattle.netlist_core.specs.Netlists.{IsNetlist};

    ghost Value = { Netlist };

    ghost view = { λ n. n.netlist.now };

    ghost invariant = { λ n. IsNetlist n.netlist.now × (n.instances ≡ n.netlist.now.instances) × (n.ports ≡ n.netlist.now) };
}

impl<'n> Numbers<'n> {
    /// The instances and the port bits of a netlist.
    pub(crate) fn of(alloc: Global, netlist: &'n Netlist) -> Result<Numbers<'n>, NoMemory>
        requires netlist { IsNetlist netlist.now }
        ensures value { IfOk result (λ numbers. numbers ≡ netlist.now) }
    {
        Ok(Numbers {
            netlist,
            instances: ByName::of(alloc, netlist.instances.as_slice())?,
            ports: Ports::of(alloc, netlist)?,
        })
    }

    /// The number of the instance of a name; where there is none, the count of instances.
    pub(crate) fn instance(&self, name: &[u8]) -> u32
        ensures value { result ≡ instance_number self.now name.now }
    {
        match self.instances.place(name) {
            Some(place) => place as u32,
            None => self.netlist.instances.as_slice().len() as u32,
        }
    }

    /// The net number of the port bit of a name, where there is one.
    fn net_of(&self, name: &[u8]) -> Option<u32>
        ensures value { result ≡ option_map (λ p. p.net.0) (port_named self.now name.now) }
    {
        match self.ports.named(name) {
            Some(port) => Some(port.net.0),
            None => None,
        }
    }

    /// The net number of the port bit of a name; where there is none, the count of nets.
    pub(crate) fn port(&self, name: &[u8]) -> u32
        ensures value { result ≡ port_number self.now name.now }
    {
        match self.net_of(name) {
            Some(net) => net,
            None => self.netlist.nets.as_slice().len() as u32,
        }
    }
}
