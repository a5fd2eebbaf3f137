//! The netlist with the scan wiring erased, as plainly as can be: a copy in which what connects the scan sinks is blank.
ghost use Rattle.std.specs.Prelude.{◌≡◌, IfOk};
ghost use Rattle.netlist_core.specs.Netlists.{named};
ghost use Rattle.path_links.specs.Erasure.{erased_netlist};

use crate::assigns::erased_assigns;
use crate::instances::erased_instances;
use crate::sinks::Sinks;
use base_types::{Name, NoMemory, Rows};
use netlist_core::{NetName, Netlist, Port};
use std::alloc::Global;

fn copy_nets(alloc: Global, nets: &[NetName]) -> Result<Rows<NetName>, NoMemory>
    ensures value { IfOk result (λ copies. copies ≡ nets.now) }
{
    let mut copies = Rows::new(alloc);
    for net in nets {
        copies.push(NetName {
            plain: Name::copy(alloc, net.plain.bytes())?,
            text: Name::copy(alloc, net.text.bytes())?,
        })?;
    }
    Ok(copies)
}

/// The netlist in which the expression of each scan sink's pin has no bits, and the right side of each scan output's assign is
/// one unknown bit; all else stands; or want of memory. Its assigns of scan outputs keep their left sides, so it is meant for
/// comparing alone.
pub fn erased(alloc: Global, netlist: &Netlist, sinks: &Sinks) -> Result<Netlist, NoMemory>
    ensures value { IfOk result (λ copy. named copy ≡ erased_netlist sinks.now (named netlist.now)) }
{
    let nets = netlist.nets.as_slice();
    let ports: Vec<Port> = Vec::from_slice(alloc, netlist.ports.as_slice())?;
    Ok(Netlist {
        module: Name::copy(alloc, netlist.module.bytes())?,
        line: netlist.line,
        nets: copy_nets(alloc, nets)?,
        declared: netlist.declared,
        ports: Rows::of(ports),
        assigns: erased_assigns(alloc, nets, sinks, netlist.assigns.as_slice())?,
        instances: erased_instances(alloc, sinks, netlist.instances.as_slice())?,
    })
}
