//! The pins between which links are.
ghost use Rattle.std.specs.Prelude.{◌≡◌, map, option_map, slice_get, IfOk};
ghost use Rattle.std.specs.List.{filter_map};
ghost use Rattle.def_reader.specs.Steps.{pin_of_key};
ghost use Rattle.chain_trace.specs.declared.path.Source.{Source as of_source};
ghost use Rattle.chain_trace.specs.declared.path.Sink.{Sink as of_sink};
ghost use Rattle.net_edit.specs.Agreement.{Pin as ghost_pin, pin_of_source, pin_of_sink};
ghost use Rattle.def_writer.specs.Placing.{instance_name, net_pin};
ghost use Rattle.def_writer.specs.Moved.Sites.{pins_of, pins_by};

use base_types::NoMemory;
use cell_table::CellTable;
use chain_trace::{Sink, Source, Step, out_pin, plain_of, scan_path};
use net_edit::Link;
use netlist_core::{NetId, Netlist};
use std::alloc::Global;

/// A pin of a net by its component, None at a design pin, and its name.
pub(crate) type PinKey<'a> = (Option<&'a [u8]>, &'a [u8]);

/// The pins of a link, its source and its sink.
pub(crate) type PinPair<'a> = (PinKey<'a>, PinKey<'a>);

/// The name of an instance; empty without one.
fn instance_name(netlist: &Netlist, instance: u32) -> &[u8]
    ensures value { result.now ≡ instance_name (slice_get netlist.now.instances instance) }
{
    match netlist.instances.as_slice().get(instance as usize) {
        Some(placed) => placed.name.bytes(),
        None => &[],
    }
}

fn port_key(netlist: &Netlist, net: NetId) -> PinKey<'_>
    ensures value { pin_of_key result ≡ net_pin netlist.now (ghost_pin.OfPort net) }
{
    (None, plain_of(netlist.nets.as_slice(), net))
}

/// The out pin of a step.
fn out_key<'a>(netlist: &'a Netlist, table: &'a CellTable, step: Step) -> Option<PinKey<'a>>
    ensures value { option_map pin_of_key result ≡ option_map (net_pin netlist.now) (pin_of_source netlist.now table.now (of_source.Out step)) }
{
    let path = scan_path(netlist, table, step.instance, step.path)?;
    let out = out_pin(path, step.out)?;
    Some((Some(instance_name(netlist, step.instance)), out.pin.bytes()))
}

/// The in pin of a scan path.
fn in_key<'a>(
    netlist: &'a Netlist,
    table: &'a CellTable,
    instance: u32,
    path: u32,
) -> Option<PinKey<'a>>
    ensures value { option_map pin_of_key result ≡ option_map (net_pin netlist.now) (pin_of_sink netlist.now table.now (of_sink.In instance path)) }
{
    let path = scan_path(netlist, table, instance, path)?;
    Some((Some(instance_name(netlist, instance)), path.input.bytes()))
}

fn source_key<'a>(netlist: &'a Netlist, table: &'a CellTable, source: Source) -> Option<PinKey<'a>>
    ensures value { option_map pin_of_key result ≡ option_map (net_pin netlist.now) (pin_of_source netlist.now table.now source) }
{
    match source {
        Source::Port(net) => Some(port_key(netlist, net)),
        Source::Out(step) => out_key(netlist, table, step),
    }
}

fn sink_key<'a>(netlist: &'a Netlist, table: &'a CellTable, sink: Sink) -> Option<PinKey<'a>>
    ensures value { option_map pin_of_key result ≡ option_map (net_pin netlist.now) (pin_of_sink netlist.now table.now sink) }
{
    match sink {
        Sink::Port(net) => Some(port_key(netlist, net)),
        Sink::In { instance, path } => in_key(netlist, table, instance, path),
    }
}

fn pair_of<'a>(netlist: &'a Netlist, table: &'a CellTable, link: Link) -> Option<PinPair<'a>>
    ensures value { option_map pins_by result ≡ pins_of netlist.now table.now link }
{
    let source = source_key(netlist, table, link.0)?;
    let sink = sink_key(netlist, table, link.1)?;
    Some((source, sink))
}

/// The pins of links, where both are there, in their order.
pub(crate) fn pairs_of<'a>(
    alloc: Global,
    netlist: &'a Netlist,
    table: &'a CellTable,
    links: &[Link],
) -> Result<Vec<PinPair<'a>>, NoMemory>
    ensures value { IfOk result (λ pairs. map pins_by pairs.items ≡ filter_map (pins_of netlist.now table.now) links.now) }
{
    let mut pairs = Vec::new(alloc);
    for link in links {
        if let Some(pair) = pair_of(netlist, table, *link) {
            pairs.push(pair)?;
        }
    }
    Ok(pairs)
}
