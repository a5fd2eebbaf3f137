//! Connections that stand a second time.
ghost use Rattle.std.specs.Prelude.{◌≡◌, ◌∷◌, ◌++◌, ◌-◌, ◌^◌, [], ℕ, List, length, min, true, None, IfOk, OnOk};
ghost use Rattle.def_reader.specs.declared.design.NetPin.{NetPin as ghost_pin};
ghost use Rattle.def_reader.specs.Faults.{StandsAgain, net_rows, connections_of, connection_rows};
ghost use Rattle.def_reader.specs.Hashes.{AreTold, IsNameHeld, IsPinHeld};
ghost use Rattle.list_laws.specs.Leasts.{IsLeast};
ghost use Rattle.def_reader.specs.Steps.{pin_of_key};
ghost use Rattle.def_reader.specs.SeenConnections.{IsSeenPins};

use crate::design::{Net, NetPin};
use crate::hashes::{Hashes, name_hash, pin_hash};
use crate::index::Index;
use base_types::NoMemory;
use list_laws::{lesser, line_if};
use std::alloc::Global;
use std::collections::HashSet;

/// The connections so far, each by its component, or None at a design pin, and its pin; and the least line at which one
/// stood again.
#[derive(Drop)]
pub(crate) struct SeenPins<'a> {
    pins: HashSet<(Option<&'a [u8]>, &'a [u8])>,
    least: Option<u64>,
}

fn key_of(pin: &NetPin) -> (Option<&[u8]>, &[u8])
    ensures value { pin_of_key result ≡ pin.now }
{
    match pin {
        NetPin::Cell { component, pin } => (Some(component.bytes()), pin.bytes()),
        NetPin::Port(pin) => (None, pin.bytes()),
    }
}

impl<'a> SeenPins<'a> {
    /// Nothing yet, and room for so many connections; or want of memory.
    fn with_room(alloc: Global, count: usize) -> Result<SeenPins<'a>, NoMemory>
        ensures value { IfOk result (λ seen. IsSeenPins seen []) }
    {
        Ok(SeenPins {
            pins: HashSet::with_capacity(alloc, count)?,
            least: None,
        })
    }

    /// Adds a connection on a line.
    fn add(&mut self, pin: &'a NetPin, line: u64) -> Result<(), NoMemory>
        ensures value { OnOk result ((rows : List (ghost_pin × ℕ)) → IsSeenPins self.old rows → IsSeenPins self.new (rows ++ (pin.now, line) ∷ [])) }
    {
        let again = !self.pins.insert(key_of(pin))?;
        self.least = lesser(self.least, line_if(again, line));
        Ok(())
    }

    /// Adds the connections of a net.
    fn add_net(&mut self, net: &'a Net) -> Result<(), NoMemory>
        ensures value { OnOk result ((rows : List (ghost_pin × ℕ)) → IsSeenPins self.old rows → IsSeenPins self.new (rows ++ connections_of net.now)) }
    {
        for pin in net.pins.as_slice() {
            self.add(pin, net.line)?;
        }
        Ok(())
    }
}

/// How many connections nets have; of more than a `usize` holds, the greatest of them.
fn count_connections(nets: &[Net]) -> usize
    ensures value { result ≡ min (length (connection_rows nets.now)) (2 ^ 64 - 1) }
{
    let mut count: usize = 0;
    for net in nets {
        count = count.saturating_add(net.pins.as_slice().len());
    }
    count
}

/// The least line of a net one of whose connections stood before, in it or in another net.
fn least_connection(alloc: Global, nets: &[Net]) -> Result<Option<u64>, NoMemory>
    ensures value { IfOk result (IsLeast (StandsAgain (connection_rows nets.now))) }
{
    let mut seen = SeenPins::with_room(alloc, count_connections(nets))?;
    for net in nets {
        seen.add_net(net)?;
    }
    Ok(seen.least)
}

/// Adds the hashes of a net's name and of its connections, and says whether all were new.
fn add_hashes(hashes: &mut Hashes, net: &Net) -> bool
    ensures told { result ≡ true → (names : List (List ℕ × ℕ)) (rows : List (ghost_pin × ℕ)) → AreTold (IsNameHeld hashes.old) names → AreTold (IsPinHeld hashes.old) rows → AreTold (IsNameHeld hashes.new) (names ++ (net.now.name, net.now.line) ∷ []) × AreTold (IsPinHeld hashes.new) (rows ++ connections_of net.now) }
{
    if !hashes.add(name_hash(net.name.bytes())) {
        return false;
    }
    for pin in net.pins.as_slice() {
        if !hashes.add(pin_hash(pin)) {
            return false;
        }
    }
    true
}

/// Whether no name of a net and no connection stands a second time, as far as their hashes tell.
fn are_apart(alloc: Global, nets: &[Net]) -> Result<bool, NoMemory>
    ensures names { IfOk result (λ apart. apart ≡ true → IsLeast (StandsAgain (net_rows nets.now)) None) }
    ensures connections { IfOk result (λ apart. apart ≡ true → IsLeast (StandsAgain (connection_rows nets.now)) None) }
{
    let count = count_connections(nets).saturating_add(nets.len());
    let mut hashes = Hashes::with_room(alloc, count)?;
    for net in nets {
        if !add_hashes(&mut hashes, net) {
            return Ok(false);
        }
    }
    Ok(true)
}

/// The least line of a net whose name stands before, and that of one of whose connections one does.
pub(crate) fn least_nets(
    alloc: Global,
    nets: &[Net],
) -> Result<(Option<u64>, Option<u64>), NoMemory>
    ensures names { IfOk result (λ r. IsLeast (StandsAgain (net_rows nets.now)) r.0) }
    ensures connections { IfOk result (λ r. IsLeast (StandsAgain (connection_rows nets.now)) r.1) }
{
    if are_apart(alloc, nets)? {
        return Ok((None, None));
    }
    let (_, names) = Index::of(alloc, nets)?;
    Ok((names, least_connection(alloc, nets)?))
}
