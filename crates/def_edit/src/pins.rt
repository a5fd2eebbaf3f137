//! The design pins whose ports move.
ghost use Rattle.std.specs.Prelude.{◌≡◌, ◌++◌, ℕ, List, Some, None, drop, if◌then◌else◌, option_map, slice_get, IfOk, OnOk};
ghost use Rattle.std.specs.List.{flat_map};
ghost use Rattle.std.specs.Option.{option_or};
ghost use Rattle.std.specs.Borrow.{Bor};
ghost use Rattle.std.specs.HashMap.{get};
ghost use Rattle.std.specs.Str.{bytes_eq};
ghost use Rattle.base_types.specs.Names.{plain_name};
ghost use Rattle.def_edit.specs.Moved.{moving_pin, is_port};
ghost use Rattle.def_edit.specs.NetChanges.{new_word};
ghost use Rattle.def_edit.specs.Lookups.{HasPorts, rows_of};
ghost use Rattle.def_edit.specs.Pushed.{pin_moved};

use crate::PinMove;
use crate::nets::{Lookup, NetRow};
use crate::words::word_before;
use base_types::{NoMemory, Span, plain_name};
use def_reader::{Net as DesignNet, NetPin};
use def_syntax::{DesignPin, Located};
use netlist_core::add_place;
use splice::Edit;
use std::alloc::Global;
use std::collections::HashMap;

/// The pin that moves.
fn moving_pin<'d>(nets: &'d [DesignNet], pin_move: PinMove) -> Option<&'d NetPin>
    ensures value { option_map (λ pin. pin.now) result ≡ moving_pin nets.now pin_move }
{
    let net = nets.get(pin_move.from as usize)?;
    net.pins.as_slice().get(pin_move.place as usize)
}

/// Notes the net to which the port goes that moves, if it is a port.
fn add_port<'d>(
    ports: &mut HashMap<&'d [u8], usize>,
    nets: &'d [DesignNet],
    pin_move: PinMove,
) -> Result<(), NoMemory>
    ensures value { OnOk result ((q : Bor (List ℕ)) → get (λ x y. bytes_eq x.now y.now) ports.new q ≡ option_or (get (λ x y. bytes_eq x.now y.now) ports.old q) (if is_port q.now (moving_pin nets.now pin_move) then Some pin_move.to else None)) }
{
    let Some(NetPin::Port(name)) = moving_pin(nets, pin_move) else {
        return Ok(());
    };
    add_place(ports, name.bytes(), pin_move.to as usize)
}

/// The nets to which ports go, by the names of the ports.
pub(crate) fn port_nets<'d>(
    alloc: Global,
    nets: &'d [DesignNet],
    moves: &[PinMove],
) -> Result<HashMap<&'d [u8], usize>, NoMemory>
    ensures value { IfOk result (HasPorts nets.now moves.now) }
{
    let mut ports = HashMap::new(alloc);
    for pin_move in moves {
        add_port(&mut ports, nets, *pin_move)?;
    }
    Ok(ports)
}

/// The name of a net.
fn name_at<'n>(nets: &[NetRow<'n>], net: usize) -> Option<&'n [u8]>
    ensures value { (text : List ℕ) → option_map (λ w. w.now) result ≡ option_map (λ row. row.name) (slice_get (rows_of text nets.now) net) }
{
    match nets.get(net) {
        Some(net) => Some(net.name),
        None => None,
    }
}

/// The word of the net to which the port of a name goes.
fn word_of_port<'n>(by: &Lookup<'n>, name: &[u8]) -> Option<&'n [u8]>
    requires ports { HasPorts by.now.design.now.nets by.now.moves.now by.now.ports }
    ensures value { option_map (λ w. w.now) result ≡ new_word (rows_of by.now.bytes.now by.now.nets.items) by.now.design.now.nets by.now.moves.now name.now }
{
    match by.ports.get(&name) {
        Some(net) => name_at(&by.nets, *net),
        None => None,
    }
}

/// The word of the net to which a design pin's port goes.
fn new_word<'n>(
    alloc: Global,
    by: &Lookup<'n>,
    pin: &DesignPin<'_>,
) -> Result<Option<&'n [u8]>, NoMemory>
    requires ports { HasPorts by.now.design.now.nets by.now.moves.now by.now.ports }
    ensures value { IfOk result (λ word. option_map (λ w. w.now) word ≡ new_word (rows_of by.now.bytes.now by.now.nets.items) by.now.design.now.nets by.now.moves.now (plain_name pin.now.name)) }
{
    let name = plain_name(alloc, pin.name.text())?;
    Ok(word_of_port(by, name.bytes()))
}

/// What stands behind a place.
fn behind(bytes: &[u8], place: Span) -> &[u8]
    ensures value { result.now ≡ drop place.end bytes.now }
{
    let end = bytes.len().min(place.end as usize);
    &bytes[end..]
}

/// Puts the edit of a design pin behind those so far, where its port moves.
fn push_pin(
    alloc: Global,
    out: &mut Vec<Edit>,
    by: &Lookup<'_>,
    pin: &Located<DesignPin<'_>>,
) -> Result<(), NoMemory>
    requires ports { HasPorts by.now.design.now.nets by.now.moves.now by.now.ports }
    ensures value { OnOk result (out.new.items ≡ out.old.items ++ pin_moved by.now.bytes.now (rows_of by.now.bytes.now by.now.nets.items) by.now.design.now.nets by.now.moves.now pin.now) }
{
    let Some(word) = new_word(alloc, by, &pin.statement)? else {
        return Ok(());
    };
    let place = pin.statement.net_span;
    out.push(Edit {
        span: place,
        text: word_before(alloc, word, behind(by.bytes, place))?,
    })?;
    Ok(())
}

/// Puts the edits of the design pins behind those so far.
pub(crate) fn push_pins(
    alloc: Global,
    out: &mut Vec<Edit>,
    by: &Lookup<'_>,
    pins: &[Located<DesignPin<'_>>],
) -> Result<(), NoMemory>
    requires ports { HasPorts by.now.design.now.nets by.now.moves.now by.now.ports }
    ensures value { OnOk result (out.new.items ≡ out.old.items ++ flat_map (pin_moved by.now.bytes.now (rows_of by.now.bytes.now by.now.nets.items) by.now.design.now.nets by.now.moves.now) pins.now) }
{
    for pin in pins {
        push_pin(alloc, out, by, pin)?;
    }
    Ok(())
}
