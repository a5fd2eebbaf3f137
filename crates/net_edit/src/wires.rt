//! The new wires of sources.
ghost use Rattle.std.specs.Prelude.{◌≡◌, ◌++◌, List, Some, None, if◌then◌else◌, IfOk, OnOk};
ghost use Rattle.std.specs.HashMap.{get};
ghost use Rattle.std.specs.Option.{option_or};
ghost use Rattle.chain_trace.specs.declared.path.Source.{Source as one_source};
ghost use Rattle.path_links.specs.Edits.{same_source};
ghost use Rattle.net_edit.specs.declared.changes.Change.{Change as one_change};
ghost use Rattle.net_edit.specs.NewWires.{source_key, same_key, new_wire, HasPlaces};

use crate::changes::Change;
use crate::edits::Wire;
use base_types::NoMemory;
use cell_table::CellTable;
use chain_trace::{Source, source_net};
use netlist_core::Netlist;
use std::alloc::Global;
use std::collections::HashMap;

/// A source, as a map keeps it: the place of a step, none at a port, and a number.
pub(crate) type Key = (Option<(u32, u32)>, u32);

fn source_key(source: Source) -> Key
    ensures value { result ≡ source_key source }
{
    match source {
        Source::Port(net) => (None, net.0),
        Source::Out(step) => (Some((step.instance, step.path)), step.out),
    }
}

/// Notes the place of a freed port by its old source, unless that has one. A place beyond 32 bits counts as want of memory.
fn put_place(places: &mut HashMap<Key, u32>, source: Source, place: usize) -> Result<(), NoMemory>
    ensures value { OnOk result ((other : one_source) → get same_key places.new (source_key other) ≡ option_or (get same_key places.old (source_key other)) (if same_source source other then Some place else None)) }
{
    let Ok(place) = u32::try_from(place) else {
        return Err(NoMemory);
    };
    let key = source_key(source);
    if !places.contains_key(&key) {
        places.insert(key, place)?;
    }
    Ok(())
}

/// The places of freed ports by their old sources.
pub(crate) fn places_of(alloc: Global, freed: &[Change]) -> Result<HashMap<Key, u32>, NoMemory>
    ensures value { IfOk result (λ places. HasPlaces freed.now places) }
{
    let mut places = HashMap::new(alloc);
    for (place, change) in freed.iter().enumerate() {
        put_place(&mut places, change.was, place)?;
    }
    Ok(places)
}

/// The new wire of a source: the tail of the port that it drove, or else the net on which it stands.
pub(crate) fn new_wire(
    netlist: &Netlist,
    table: &CellTable,
    places: &HashMap<Key, u32>,
    source: Source,
) -> Option<Wire>
    ensures value { (fs : List one_change) → HasPlaces fs places.now → result ≡ new_wire netlist.now table.now fs source }
{
    if let Some(place) = places.get(&source_key(source)) {
        return Some(Wire::Tail(*place));
    }
    match source_net(netlist, table, source) {
        Some(net) => Some(Wire::Net(net)),
        None => None,
    }
}
