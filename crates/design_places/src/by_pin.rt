//! Nets by their pins.
ghost use Rattle.std.specs.Prelude.{◌≡◌, true, Some, None, option_map, slice_get, if◌then◌else◌, length, IfOk, OnOk};
ghost use Rattle.std.specs.List.{list_any};
ghost use Rattle.std.specs.HashMap.{get};
ghost use Rattle.std.specs.Option.{option_or};
ghost use Rattle.def_reader.specs.Steps.{PinKey, same_key, pin_of_key};
ghost use Rattle.def_reader.specs.declared.design.NetPin.TheVariants.{Cell, Port};
ghost use Rattle.design_places.specs.NetPins.{same_pin, net_with};
ghost use Rattle.design_places.specs.PinPlaces.{is_asked, ArePinsNoted};

use base_types::NoMemory;
use def_reader::{Net, NetPin};
use std::alloc::Global;
use std::collections::{HashMap, HashSet};
use std::marker::Model;

/// The pin as its component, or None at a design pin, and its name.
fn key_of(pin: &NetPin) -> (Option<&[u8]>, &[u8])
    ensures value { pin_of_key result ≡ pin.now }
{
    match pin {
        NetPin::Cell { component, pin } => (Some(component.bytes()), pin.bytes()),
        NetPin::Port(pin) => (None, pin.bytes()),
    }
}

/// A design pin so.
fn port_key<'a>(name: &'a [u8]) -> (Option<&'a [u8]>, &'a [u8])
    ensures value { pin_of_key result ≡ Port name.now }
{
    (None, name)
}

/// Whether the place of a pin is noted: that of each design pin is, of the pins of components those of such names.
fn is_asked(names: &HashSet<&[u8]>, pin: &NetPin) -> bool
    ensures value { result ≡ is_asked names.now pin.now }
{
    match pin {
        NetPin::Cell {
            component: _component,
            pin,
        } => names.contains(&pin.bytes()),
        NetPin::Port(_name) => true,
    }
}

/// Notes a place by a pin, unless the pin has one.
fn add_pin<'d>(
    places: &mut HashMap<(Option<&'d [u8]>, &'d [u8]), usize>,
    pin: &'d NetPin,
    place: usize,
) -> Result<(), NoMemory>
    ensures ok { OnOk result ((q : PinKey) → get same_key places.new q ≡ option_or (get same_key places.old q) (if same_pin (pin_of_key q) pin.now then Some place else None)) }
{
    let key = key_of(pin);
    match places.insert(key, place)? {
        Some(first) => {
            places.insert(key, first)?;
            Ok(())
        }
        None => Ok(()),
    }
}

/// Notes the place of a net by its pins.
fn add_net<'d>(
    places: &mut HashMap<(Option<&'d [u8]>, &'d [u8]), usize>,
    names: &HashSet<&[u8]>,
    net: &'d Net,
    place: usize,
) -> Result<(), NoMemory>
    ensures ok { OnOk result ((q : PinKey) → is_asked names.now (pin_of_key q) ≡ true → get same_key places.new q ≡ option_or (get same_key places.old q) (if list_any (same_pin (pin_of_key q)) net.now.pins then Some place else None)) }
{
    for pin in net.pins.as_slice() {
        if is_asked(names, pin) {
            add_pin(places, pin, place)?;
        }
    }
    Ok(())
}

/// The places of nets by their pins: of those with one pin the first.
fn places_by_pin<'d>(
    alloc: Global,
    names: &HashSet<&[u8]>,
    nets: &'d [Net],
) -> Result<HashMap<(Option<&'d [u8]>, &'d [u8]), usize>, NoMemory>
    ensures value { IfOk result (λ places. ArePinsNoted (is_asked names.now) places nets.now (length nets.now)) }
{
    let mut places = HashMap::new(alloc);
    for (place, net) in nets.iter().enumerate() {
        add_net(&mut places, names, net, place)?;
    }
    Ok(places)
}

/// Nets with their places in a list by their pins, as far as these may be asked for: most pins of a design stand on no scan path.
/// Contracts see the nets.
#[derive(Drop)]
pub(crate) struct Nets<'d> {
    nets: &'d [Net],
    names: HashSet<&'d [u8]>,
    places: HashMap<(Option<&'d [u8]>, &'d [u8]), usize>,
}

impl<'d> Model for Nets<'d> {
    ghost use Rattle.std.specs.Prelude.{List, length};
    ghost use Rattle.def_reader.specs.declared.design.Net.{Net};
    ghost use Rattle.design_places.specs.PinPlaces.{is_asked, ArePinsNoted};

    ghost Value = { List Net };

    ghost view = { λ n. n.nets.now };

    ghost invariant = { λ n. ArePinsNoted (is_asked n.names) n.places n.nets.now (length n.nets.now) };
}

fn net_at(nets: &[Net], place: usize) -> Option<&Net>
    ensures value { option_map (λ net. net.now) result ≡ slice_get nets.now place }
{
    nets.get(place)
}

/// Whether a pin is this one of a component.
fn is_pin(found: &NetPin, component: &[u8], pin: &[u8]) -> bool
    ensures value { result ≡ same_pin (Cell component.now pin.now) found.now }
{
    match found {
        NetPin::Cell {
            component: other,
            pin: name,
        } => component == other.bytes() && pin == name.bytes(),
        NetPin::Port(_name) => false,
    }
}

fn has_pin(net: &Net, component: &[u8], pin: &[u8]) -> bool
    ensures value { result ≡ list_any (same_pin (Cell component.now pin.now)) net.now.pins }
{
    let pins = net.pins.as_slice();
    pins.iter().any(|found| is_pin(found, component, pin))
}

/// The net with a pin of a component, by going over the nets: for pins whose name isn't noted. Those of the paths are, so `check_nets` asks
/// for none.
fn searched<'d>(nets: &'d [Net], component: &[u8], pin: &[u8]) -> Option<&'d Net>
    ensures value { option_map (λ net. net.now) result ≡ net_with nets.now (Cell component.now pin.now) }
{
    nets.iter().find(|net| has_pin(net, component, pin))
}

impl<'d> Nets<'d> {
    /// The nets of a design, of which pins of components with such names are asked for, or seldom others.
    pub(crate) fn of(
        alloc: Global,
        names: HashSet<&'d [u8]>,
        nets: &'d [Net],
    ) -> Result<Nets<'d>, NoMemory>
        ensures value { IfOk result (λ n. n ≡ nets.now) }
    {
        let places = places_by_pin(alloc, &names, nets)?;
        Ok(Nets {
            nets,
            names,
            places,
        })
    }

    /// The net with this pin of a component.
    pub(crate) fn with_cell(&self, component: &[u8], pin: &[u8]) -> Option<&'d Net>
        ensures value { option_map (λ net. net.now) result ≡ net_with self.now (Cell component.now pin.now) }
    {
        if !self.names.contains(&pin) {
            return searched(self.nets, component, pin);
        }
        match self.places.get(&(Some(component), pin)) {
            Some(place) => net_at(self.nets, *place),
            None => None,
        }
    }

    /// The net with a design pin.
    pub(crate) fn with_port(&self, name: &[u8]) -> Option<&'d Net>
        ensures value { option_map (λ net. net.now) result ≡ net_with self.now (Port name.now) }
    {
        match self.places.get(&port_key(name)) {
            Some(place) => net_at(self.nets, *place),
            None => None,
        }
    }
}
