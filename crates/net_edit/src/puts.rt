//! What edits put at pins and at the right sides of assigns.
ghost use Rattle.std.specs.Prelude.{◌≡◌, ◌==◌, ◌&&◌, ℕ, Some, None, if◌then◌else◌, IfOk, OnOk};
ghost use Rattle.std.specs.HashMap.{get};
ghost use Rattle.std.specs.Option.{option_or};
ghost use Rattle.std.specs.Str.{bytes_eq};
ghost use Rattle.chain_trace.specs.Paths.{scan_path_at};
ghost use Rattle.path_links.specs.Edited.{input_of};
ghost use Rattle.net_edit.specs.Wires.{net_of_wire};
ghost use Rattle.net_edit.specs.Applied.{PinKey, same_pin, tail_put, pin_put, assign_put};

use crate::edits::{PinEdit, PortEdit, TailEdit, Wire};
use base_types::NoMemory;
use cell_table::CellTable;
use chain_trace::scan_path;
use netlist_core::{NetId, Netlist};
use std::alloc::Global;
use std::collections::HashMap;

/// The number of a wire's net, where the tails stand behind the nets. A number beyond 32 bits counts as want of memory.
pub(crate) fn net_of_wire(netlist: &Netlist, wire: Wire) -> Result<NetId, NoMemory>
    ensures value { IfOk result (λ net. net ≡ net_of_wire netlist.now wire) }
{
    let tail = match wire {
        Wire::Net(net) => return Ok(net),
        Wire::Tail(tail) => tail,
    };
    let Ok(nets) = u32::try_from(netlist.nets.as_slice().len()) else {
        return Err(NoMemory);
    };
    match nets.checked_add(tail) {
        Some(number) => Ok(NetId(number)),
        None => Err(NoMemory),
    }
}

/// Puts a net at a pin of an instance, unless the pin has one.
fn add_put<'a>(
    puts: &mut HashMap<(usize, &'a [u8]), NetId>,
    instance: usize,
    pin: &'a [u8],
    net: NetId,
) -> Result<(), NoMemory>
    ensures value { OnOk result ((q : PinKey) → get same_pin puts.new q ≡ option_or (get same_pin puts.old q) (if instance == q.0 && bytes_eq pin.now q.1.now then Some net else None)) }
{
    let key = (instance, pin);
    if !puts.contains_key(&key) {
        puts.insert(key, net)?;
    }
    Ok(())
}

/// Puts each tail at its out pin.
fn put_tails<'a>(
    puts: &mut HashMap<(usize, &'a [u8]), NetId>,
    netlist: &Netlist,
    tails: &'a [TailEdit],
) -> Result<(), NoMemory>
    ensures value { OnOk result ((q : PinKey) → get same_pin puts.new q ≡ option_or (get same_pin puts.old q) (tail_put netlist.now tails.now q.0 q.1.now)) }
{
    for (place, tail) in tails.iter().enumerate() {
        let Ok(place) = u32::try_from(place) else {
            return Err(NoMemory);
        };
        let net = net_of_wire(netlist, Wire::Tail(place))?;
        add_put(puts, tail.instance as usize, tail.pin.bytes(), net)?;
    }
    Ok(())
}

/// The name of the in pin of a scan path; empty where there is none.
fn input_of<'a>(netlist: &Netlist, table: &'a CellTable, instance: u32, path: u32) -> &'a [u8]
    ensures value { result.now ≡ input_of (scan_path_at netlist.now table.now instance path) }
{
    match scan_path(netlist, table, instance, path) {
        Some(entered) => entered.input.bytes(),
        None => &[],
    }
}

/// Puts the wire of each edit at its in pin.
fn put_pins<'a>(
    puts: &mut HashMap<(usize, &'a [u8]), NetId>,
    netlist: &Netlist,
    table: &'a CellTable,
    pins: &[PinEdit],
) -> Result<(), NoMemory>
    ensures value { OnOk result ((q : PinKey) → get same_pin puts.new q ≡ option_or (get same_pin puts.old q) (pin_put netlist.now table.now pins.now q.0 q.1.now)) }
{
    for edit in pins {
        let net = net_of_wire(netlist, edit.source)?;
        let pin = input_of(netlist, table, edit.instance, edit.path);
        add_put(puts, edit.instance as usize, pin, net)?;
    }
    Ok(())
}

/// What stands newly at pins: the tails, and else the wires of the edits.
pub(crate) fn puts_of<'a>(
    alloc: Global,
    netlist: &Netlist,
    table: &'a CellTable,
    pins: &[PinEdit],
    tails: &'a [TailEdit],
) -> Result<HashMap<(usize, &'a [u8]), NetId>, NoMemory>
    ensures value { IfOk result (λ puts. (q : PinKey) → get same_pin puts q ≡ option_or (tail_put netlist.now tails.now q.0 q.1.now) (pin_put netlist.now table.now pins.now q.0 q.1.now)) }
{
    let mut puts = HashMap::new(alloc);
    put_tails(&mut puts, netlist, tails)?;
    put_pins(&mut puts, netlist, table, pins)?;
    Ok(puts)
}

/// Puts a net at the right side of an assign, unless that has one.
fn add_right(rights: &mut HashMap<usize, NetId>, place: usize, net: NetId) -> Result<(), NoMemory>
    ensures value { OnOk result ((q : ℕ) → get ◌==◌ rights.new q ≡ option_or (get ◌==◌ rights.old q) (if place == q then Some net else None)) }
{
    if !rights.contains_key(&place) {
        rights.insert(place, net)?;
    }
    Ok(())
}

/// What stands newly at the right sides of assigns, by their places.
pub(crate) fn rights_of(
    alloc: Global,
    netlist: &Netlist,
    ports: &[PortEdit],
) -> Result<HashMap<usize, NetId>, NoMemory>
    ensures value { IfOk result (λ rights. (q : ℕ) → get ◌==◌ rights q ≡ assign_put netlist.now ports.now q) }
{
    let mut rights = HashMap::new(alloc);
    for edit in ports {
        let net = net_of_wire(netlist, edit.source)?;
        add_right(&mut rights, edit.assign as usize, net)?;
    }
    Ok(rights)
}
