//! Which outputs are free to get another source.
ghost use Rattle.std.specs.Prelude.{◌≡◌, ◌<◌, length, IfOk};
ghost use Rattle.netlist_core.specs.Netlists.{IsNetlist};
ghost use Rattle.path_links.specs.Free.{is_free};
ghost use Rattle.path_links.specs.Direct.{last_of, is_net, is_left_at, is_direct_from, is_direct};

use crate::marks::OutputMarks;
use crate::uses::Uses;
use base_types::NoMemory;
use cell_table::CellTable;
use chain_trace::{Path, Source, source_net};
use netlist_core::{NetId, Netlist};
use std::alloc::Global;
use std::marker::Model;

/// What drives the output of a path: the out pin of its last step, or its input where it has no steps.
pub fn last_of(path: &Path) -> Source
    ensures value { result ≡ last_of path.now }
{
    match path.steps.as_slice().last() {
        Some(step) => Source::Out(*step),
        None => Source::Port(path.input),
    }
}

fn is_net(port: NetId, net: Option<NetId>) -> bool
    ensures value { result ≡ is_net port net }
{
    match net {
        Some(net) => net.0 == port.0,
        None => false,
    }
}

/// Whether the source is an out pin that stands on the net, as its whole expression.
fn is_left_at(netlist: &Netlist, table: &CellTable, port: NetId, source: Source) -> bool
    ensures value { result ≡ is_left_at netlist.now table.now port source }
{
    match source {
        Source::Port(_) => false,
        Source::Out(_) => is_net(port, source_net(netlist, table, source)),
    }
}

/// A netlist, and what tells which of its outputs are free to get another source: those that an assign or an out pin drives alone.
/// Contracts see it as the netlist.
#[derive(Drop)]
pub struct FreeOutputs<'n> {
    netlist: &'n Netlist,
    uses: Uses<'n>,
    outputs: OutputMarks<'n>,
}

impl<'n> Model for FreeOutputs<'n> {
    ghost use Rattle.std.specs.Prelude.{◌≡◌};
    ghost use Rattle.netlist_core.specs.declared.netlist.Netlist.{Netlist as Lists};
    ghost use Rattle.path_links.specs.Uses.{AreOfNetlist};

    ghost Value = { Lists };

    ghost view = { λ f. f.netlist.now };

    ghost invariant = { λ f. AreOfNetlist f.netlist.now f.uses f.outputs };
}

impl<'n> FreeOutputs<'n> {
    /// Goes over the netlist once; a net takes three bytes of memory.
    pub fn of(alloc: Global, netlist: &'n Netlist) -> Result<FreeOutputs<'n>, NoMemory>
        requires netlist { IsNetlist netlist.now }
        ensures value { IfOk result (λ outputs. outputs ≡ netlist.now) }
    {
        Ok(FreeOutputs {
            netlist,
            uses: Uses::of(alloc, netlist)?,
            outputs: OutputMarks::of(alloc, netlist)?,
        })
    }

    /// Whether a port is assigned: besides the header and its declarations its net bit stands at one place, as the whole left side
    /// of an assign whose right side is one net bit.
    pub fn is_assigned(&self, port: NetId) -> bool
        requires within { port.0 < length self.now.nets }
        ensures value { result ≡ is_free self.now port }
    {
        self.uses.is_free(port)
    }

    /// Whether this source drives a port directly: an output port, which isn't inout, whose net bit stands at one place besides the
    /// header and its declarations, as the whole expression at the out pin that is the source.
    pub fn is_direct_from(&self, table: &CellTable, port: NetId, source: Source) -> bool
        ensures value { result ≡ is_direct_from self.now table.now port source }
    {
        self.outputs.has(port)
            && self.uses.stands_once(port)
            && is_left_at(self.netlist, table, port, source)
    }

    /// Whether the out pin of the last step of a path drives its output directly.
    pub fn is_direct(&self, table: &CellTable, path: &Path) -> bool
        ensures value { result ≡ is_direct self.now table.now path.now }
    {
        self.is_direct_from(table, path.output, last_of(path))
    }
}
