//! Where some pins stand in the nets of a design.
ghost use Rattle.std.specs.Prelude.{◌≡◌, ℕ, true, Option, Some, None, option_map, if◌then◌else◌, IfOk, OnOk};
ghost use Rattle.std.specs.Option.{option_or};
ghost use Rattle.def_reader.specs.Steps.{PinKey as ghost_key, pin_of_key};
ghost use Rattle.def_writer.specs.Placing.{same_pin};
ghost use Rattle.def_writer.specs.Moved.Moves.{site_in};
ghost use Rattle.def_writer.specs.Moved.Sites.{is_wanted, is_open, site_at, site_by, found};

use crate::moved::pairs::{PinKey, PinPair};
use base_types::NoMemory;
use def_reader::{Net, NetPin};
use std::alloc::Global;
use std::collections::HashMap;

/// Pins that are wanted, each with its net's number and its place there once these are found.
pub(crate) type Sites<'a> = HashMap<PinKey<'a>, Option<(u32, u32)>>;

fn key_of(pin: &NetPin) -> PinKey<'_>
    ensures value { pin_of_key result ≡ pin.now }
{
    match pin {
        NetPin::Cell { component, pin } => (Some(component.bytes()), pin.bytes()),
        NetPin::Port(pin) => (None, pin.bytes()),
    }
}

fn wanted<'a>(alloc: Global, pairs: &[PinPair<'a>]) -> Result<Sites<'a>, NoMemory>
    ensures value { IfOk result (λ sites. (q : ghost_key) → site_by sites q ≡ (if is_wanted pairs.now q then Some None else None)) }
{
    let mut sites = HashMap::new(alloc);
    for pair in pairs {
        sites.insert(pair.0, None)?;
        sites.insert(pair.1, None)?;
    }
    Ok(sites)
}

fn is_open(sites: &Sites<'_>, key: PinKey<'_>) -> bool
    ensures value { result ≡ is_open (site_by sites.now key.entry) }
{
    match sites.get(&key) {
        Some(site) => site.is_none(),
        None => false,
    }
}

/// A place as it is kept. A number beyond 32 bits counts as want of memory.
fn site(net: usize, place: usize) -> Result<(u32, u32), NoMemory>
    ensures value { IfOk result (λ site. site ≡ (net, place)) }
{
    let Ok(net) = u32::try_from(net) else {
        return Err(NoMemory);
    };
    let Ok(place) = u32::try_from(place) else {
        return Err(NoMemory);
    };
    Ok((net, place))
}

/// Notes where a pin stands, if it is wanted and has no site yet.
fn note_pin<'a>(
    sites: &mut Sites<'a>,
    net: usize,
    place: usize,
    pin: &'a NetPin,
) -> Result<(), NoMemory>
    ensures value { OnOk result ((q : ghost_key) → site_by sites.new q ≡ option_map (λ s. option_or s (if same_pin (pin_of_key q) pin.now then Some (net, place) else None)) (site_by sites.old q)) }
{
    let key = key_of(pin);
    if is_open(sites, key) {
        sites.insert(key, Some(site(net, place)?))?;
    }
    Ok(())
}

/// Notes the pins of the net of a number.
fn note_net<'a>(sites: &mut Sites<'a>, number: usize, net: &'a Net) -> Result<(), NoMemory>
    ensures value { OnOk result ((q : ghost_key) → site_by sites.new q ≡ option_map (λ s. option_or s (site_at number net.now (pin_of_key q))) (site_by sites.old q)) }
{
    for (place, pin) in net.pins.as_slice().iter().enumerate() {
        note_pin(sites, number, place, pin)?;
    }
    Ok(())
}

/// The first sites of these pins in the nets.
pub(crate) fn sites_of<'a>(
    alloc: Global,
    pairs: &[PinPair<'a>],
    nets: &'a [Net],
) -> Result<Sites<'a>, NoMemory>
    ensures value { IfOk result (λ sites. (q : ghost_key) → site_by sites q ≡ (if is_wanted pairs.now q then Some (site_in nets.now (pin_of_key q)) else None)) }
{
    let mut sites = wanted(alloc, pairs)?;
    for (number, net) in nets.iter().enumerate() {
        note_net(&mut sites, number, net)?;
    }
    Ok(sites)
}

/// The site of a pin, if it is wanted and stands in a net.
pub(crate) fn site_of(sites: &Sites<'_>, key: PinKey<'_>) -> Option<(u32, u32)>
    ensures value { result ≡ found (site_by sites.now key.entry) }
{
    match sites.get(&key) {
        Some(site) => *site,
        None => None,
    }
}
