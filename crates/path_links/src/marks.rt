//! Which nets are bits of output ports.
ghost use Rattle.std.specs.Prelude.{◌≡◌, ◌<◌, ◌++◌, ◌∷◌, [], List, length, IfOk};
ghost use Rattle.netlist_core.specs.declared.netlist.Port.{Port as Lists};
ghost use Rattle.netlist_core.specs.Netlists.{IsNetlist};
ghost use Rattle.chain_trace.specs.Paths.{has_port};
ghost use Rattle.path_links.specs.Direct.{is_output};
ghost use Rattle.path_links.specs.Uses.{AreOutputMarks};

use base_types::NoMemory;
use netlist_core::{Direction, NetId, Netlist, Port};
use std::alloc::Global;
use std::marker::Model;

/// A netlist, and of each of its nets whether it is a bit of an output port, which isn't inout. Contracts see the netlist.
#[derive(Drop)]
pub(crate) struct OutputMarks<'n> {
    netlist: &'n Netlist,
    marks: Vec<bool>,
}

impl<'n> Model for OutputMarks<'n> {
    ghost use Rattle.std.specs.Prelude.{◌≡◌, length};
    ghost use Rattle.netlist_core.specs.declared.netlist.Netlist.{Netlist};
    ghost use Rattle.path_links.specs.Uses.{AreOutputMarks};

    ghost Value = { Netlist };

    ghost view = { λ o. o.netlist.now };

    ghost invariant = { λ o. (length o.marks.items ≡ length o.netlist.now.nets) × AreOutputMarks o.netlist.now.ports o.marks.items };
}

fn is_output(direction: Direction) -> bool
    ensures value { result ≡ is_output direction }
{
    matches!(direction, Direction::Output)
}

fn mark(marks: &mut Vec<bool>, port: Port)
    requires within { port.net.0 < length marks.old.items }
    ensures count { length marks.new.items ≡ length marks.old.items }
    ensures marked { (ports : List Lists) → AreOutputMarks ports marks.old.items → AreOutputMarks (ports ++ port ∷ []) marks.new.items }
{
    let at = port.net.0 as usize;
    marks[at] = marks[at] || is_output(port.direction);
}

impl<'n> OutputMarks<'n> {
    /// Goes over the ports once; a net takes one byte of memory.
    pub(crate) fn of(alloc: Global, netlist: &'n Netlist) -> Result<OutputMarks<'n>, NoMemory>
        requires netlist { IsNetlist netlist.now }
        ensures value { IfOk result (λ marks. marks ≡ netlist.now) }
    {
        let mut marks = vec![in alloc; false; netlist.nets.as_slice().len()]?;
        for port in netlist.ports.as_slice() {
            mark(&mut marks, *port);
        }
        Ok(OutputMarks { netlist, marks })
    }

    /// Whether the net is such a bit.
    pub(crate) fn has(&self, net: NetId) -> bool
        requires netlist { IsNetlist self.now }
        ensures value { result ≡ has_port is_output self.now net }
    {
        match self.marks.get(net.0 as usize) {
            Some(mark) => *mark,
            None => false,
        }
    }
}
