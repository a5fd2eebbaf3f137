//! The edits between paths.
ghost use Rattle.std.specs.Prelude.{◌≡◌, ◌++◌, [], ◌∷◌, List, Bool, true, Contains, IfOk, OnOk};
ghost use Rattle.netlist_core.specs.declared.netlist.NetId.{NetId as of_net};
ghost use Rattle.chain_trace.specs.declared.path.Path.{Path as one_path};
ghost use Rattle.net_edit.specs.Changes.{changes};
ghost use Rattle.net_edit.specs.Rearranged.{AreRearranged};
ghost use Rattle.net_edit.specs.Tails.{freed_between, rewired, AreTailNames};
ghost use Rattle.net_edit.specs.Agreement.{Placing, AgreeOnPins, AreMoved};
ghost use Rattle.net_edit.specs.Laws.{HasPath};
ghost use Rattle.net_edit.specs.Wires.{names_of, AreEditsFor, IsErasedAlike};
ghost use Rattle.std.specs.List.{flat_map, zip};
ghost use Rattle.netlist_core.specs.Netlists.{IsNetlist};
ghost use Rattle.chain_trace.specs.declared.path.Sink.{Sink as of_sink};
ghost use Rattle.net_edit.specs.declared.changes.Change.{Change as one_change};
ghost use Rattle.net_edit.specs.NewWires.{HasPlaces, IsNameOf, wired_pin, wired_port, wired_tail, AreWired};
ghost use Rattle.chain_trace.specs.Paths.{out_pin_at};

use crate::changes::{Change, changes_between, freed_of};
use crate::edits::{Edits, PinEdit, PortEdit, TailEdit};
use crate::moved::{Link, moved_links};
use crate::names::{tail_name, tail_numbers};
use crate::nets::assign_at;
use crate::wires::{Key, new_wire, places_of};
use base_types::{Name, NoMemory, Rows};
use cell_table::CellTable;
use chain_trace::{Path, Sink, Source, Step, out_pin, scan_path};
use netlist_core::{NetId, Netlist};
use std::alloc::Global;
use std::collections::HashMap;

/// The edit of an in pin that gets another source.
fn put_pin(
    pins: &mut Rows<PinEdit>,
    netlist: &Netlist,
    table: &CellTable,
    places: &HashMap<Key, u32>,
    source: Source,
    instance: u32,
    path: u32,
) -> Result<(), NoMemory>
    ensures value { (fs : List one_change) → HasPlaces fs places.now → OnOk result (pins.new ≡ pins.old ++ wired_pin netlist.now table.now fs (source, of_sink.In instance path)) }
{
    let Some(source) = new_wire(netlist, table, places, source) else {
        return Ok(());
    };
    pins.push(PinEdit {
        instance,
        path,
        source,
    })
}

/// The edit of an assigned output that gets another source.
fn put_port(
    ports: &mut Rows<PortEdit>,
    netlist: &Netlist,
    table: &CellTable,
    places: &HashMap<Key, u32>,
    source: Source,
    port: NetId,
) -> Result<(), NoMemory>
    ensures value { (fs : List one_change) → HasPlaces fs places.now → OnOk result (ports.new ≡ ports.old ++ wired_port netlist.now table.now fs (source, of_sink.Port port)) }
{
    let Some(assign) = assign_at(netlist, port)? else {
        return Ok(());
    };
    let Some(source) = new_wire(netlist, table, places, source) else {
        return Ok(());
    };
    ports.push(PortEdit {
        port,
        assign,
        source,
    })
}

fn put_edit(
    edits: &mut Edits,
    netlist: &Netlist,
    table: &CellTable,
    places: &HashMap<Key, u32>,
    link: Link,
) -> Result<(), NoMemory>
    ensures pins { (fs : List one_change) → HasPlaces fs places.now → OnOk result (edits.new.pins ≡ edits.old.pins ++ wired_pin netlist.now table.now fs link) }
    ensures ports { (fs : List one_change) → HasPlaces fs places.now → OnOk result (edits.new.ports ≡ edits.old.ports ++ wired_port netlist.now table.now fs link) }
    ensures tails { OnOk result (edits.new.tails ≡ edits.old.tails) }
{
    match link.1 {
        Sink::In { instance, path } => put_pin(
            &mut edits.pins,
            netlist,
            table,
            places,
            link.0,
            instance,
            path,
        ),
        Sink::Port(port) => put_port(&mut edits.ports, netlist, table, places, link.0, port),
    }
}

/// The edits of pins and of assigned ports for links that are new.
fn edits_of(
    alloc: Global,
    netlist: &Netlist,
    table: &CellTable,
    places: &HashMap<Key, u32>,
    links: &[Link],
) -> Result<Edits, NoMemory>
    ensures pins { (fs : List one_change) → HasPlaces fs places.now → IfOk result (λ edits. edits.pins ≡ flat_map (wired_pin netlist.now table.now fs) links.now) }
    ensures ports { (fs : List one_change) → HasPlaces fs places.now → IfOk result (λ edits. edits.ports ≡ flat_map (wired_port netlist.now table.now fs) links.now) }
    ensures tails { IfOk result (λ edits. edits.tails ≡ []) }
{
    let mut edits = Edits {
        pins: Rows::new(alloc),
        ports: Rows::new(alloc),
        tails: Rows::new(alloc),
    };
    for link in links {
        put_edit(&mut edits, netlist, table, places, *link)?;
    }
    Ok(edits)
}

/// The name of the out pin of a step.
fn pin_of<'a>(netlist: &Netlist, table: &'a CellTable, step: Step) -> Option<&'a Name>
    ensures value { IsNameOf result (out_pin_at netlist.now table.now step) }
{
    let path = scan_path(netlist, table, step.instance, step.path)?;
    let out = out_pin(path, step.out)?;
    Some(&out.pin)
}

/// The tail of a freed port with its number.
fn put_tail(
    tails: &mut Rows<TailEdit>,
    alloc: Global,
    netlist: &Netlist,
    table: &CellTable,
    places: &HashMap<Key, u32>,
    change: Change,
    number: u32,
) -> Result<(), NoMemory>
    ensures value { (fs : List one_change) → HasPlaces fs places.now → OnOk result (tails.new ≡ tails.old ++ wired_tail netlist.now table.now fs (change, number)) }
{
    let Source::Out(step) = change.was else {
        return Ok(());
    };
    let Some(pin) = pin_of(netlist, table, step) else {
        return Ok(());
    };
    let Some(source) = new_wire(netlist, table, places, change.now) else {
        return Ok(());
    };
    tails.push(TailEdit {
        port: change.port,
        instance: step.instance,
        pin: Name::copy(alloc, pin.bytes())?,
        tail: tail_name(alloc, number)?,
        source,
    })
}

/// The tails of freed ports with their numbers, in their order.
fn tails_of(
    alloc: Global,
    netlist: &Netlist,
    table: &CellTable,
    places: &HashMap<Key, u32>,
    freed: &[Change],
    numbers: &[u32],
) -> Result<Rows<TailEdit>, NoMemory>
    ensures value { (fs : List one_change) → HasPlaces fs places.now → IfOk result (λ tails. tails ≡ flat_map (wired_tail netlist.now table.now fs) (zip freed.now numbers.now)) }
{
    let mut tails = Rows::new(alloc);
    for i in 0..freed.len().min(numbers.len()) {
        put_tail(
            &mut tails, alloc, netlist, table, places, freed[i], numbers[i],
        )?;
    }
    Ok(tails)
}

/// The edits between the paths.
fn wired(
    alloc: Global,
    netlist: &Netlist,
    table: &CellTable,
    paths: &[Path],
    new: &[Path],
) -> Result<Edits, NoMemory>
    requires netlist { IsNetlist netlist.now }
    ensures value { IfOk result (AreWired netlist.now table.now paths.now new.now) }
{
    let changes = changes_between(alloc, paths, new)?;
    let freed = freed_of(alloc, netlist, table, changes.as_slice())?;
    let numbers = tail_numbers(alloc, netlist, freed.len())?;
    if freed.len() >= 4294967296 - netlist.nets.as_slice().len() {
        return Err(NoMemory);
    }
    let places = places_of(alloc, freed.as_slice())?;
    let links = moved_links(alloc, paths, new)?;
    let edits = edits_of(alloc, netlist, table, &places, links.as_slice())?;
    let tails = tails_of(
        alloc,
        netlist,
        table,
        &places,
        freed.as_slice(),
        numbers.as_slice(),
    )?;
    Ok(Edits {
        pins: edits.pins,
        ports: edits.ports,
        tails,
    })
}

/// The edits that make the new paths of the old ones: each in pin whose source changed gets the wire of its new source, each
/// assigned output whose source changed gets it as its assign's right side, and each output whose source changed and which an
/// out pin drives directly is freed by a tail. They are in the order of the new paths, the tails in that of the old ones; or want
/// of memory, as which a place or a number beyond 32 bits counts too.
pub fn edits_for(
    alloc: Global,
    netlist: &Netlist,
    table: &CellTable,
    paths: &[Path],
    new: &[Path],
) -> Result<Edits, NoMemory>
    requires netlist { IsNetlist netlist.now }
    // Where the new paths have the steps of the old ones, and only outputs that are assigned or direct get another source, these
    // are the edits between both,
    ensures value { AreRearranged netlist.now table.now paths.now new.now → IfOk result (AreEditsFor netlist.now table.now paths.now new.now) }
    // each freed port has a name for its tail,
    ensures names { AreRearranged netlist.now table.now paths.now new.now → IfOk result (λ edits. AreTailNames netlist.now (freed_between netlist.now table.now paths.now new.now) (names_of edits)) }
    // with the edits it is a netlist,
    ensures netlist { AreRearranged netlist.now table.now paths.now new.now → IfOk result (λ edits. IsNetlist (rewired netlist.now table.now (names_of edits) paths.now new.now)) }
    // in which the outputs have the new paths and no others,
    ensures paths { AreRearranged netlist.now table.now paths.now new.now → IfOk result (λ edits. (path : one_path) → Contains new.now path → HasPath (rewired netlist.now table.now (names_of edits) paths.now new.now) table.now path) }
    // but for the scan sinks and the tails it is the one that was read,
    ensures erased { (free : of_net → Bool) → AreRearranged netlist.now table.now paths.now new.now → ((c : one_change) → Contains (changes paths.now new.now) c → free c.port ≡ true) → IfOk result (λ edits. IsErasedAlike netlist.now table.now free paths.now new.now (names_of edits)) }
    // and it agrees with a design whose moved sinks stand in the nets of their new sources.
    ensures agrees { (before after : Placing) → AreRearranged netlist.now table.now paths.now new.now → AreMoved netlist.now table.now paths.now new.now before after → AgreeOnPins netlist.now before → IfOk result (λ edits. AgreeOnPins (rewired netlist.now table.now (names_of edits) paths.now new.now) after) }
{
    wired(alloc, netlist, table, paths, new)
}
