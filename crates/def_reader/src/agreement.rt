//! Whether a netlist and a placed design agree.
ghost use Rattle.std.specs.Prelude.{◌≡◌, ◌<◌, ◌++◌, [], ℕ, List, All, length, option_map, option_and_then, IfOk, OnOk};
ghost use Rattle.std.specs.List.{list_any, cons_option};
ghost use Rattle.base_types.specs.declared.fault.Fault.{Fault as ghost_fault};
ghost use Rattle.base_types.specs.Faults.{at_line};
ghost use Rattle.base_types.specs.declared.fault.FileKind.TheVariants.{Def as def_file, Verilog as verilog_file};
ghost use Rattle.base_types.specs.declared.fault.ReadFault.TheVariants.{Fault as refused};
ghost use Rattle.base_types.specs.FirstFault.{IfFault, IsFirstFault};
ghost use Rattle.netlist_core.specs.Netlists.{net_at, IsNetlist};
ghost use Rattle.netlist_core.specs.Joining.{AreClassesOf};
ghost use Rattle.def_reader.specs.Agreement.{instance_named, port_named, net_of_pin, Agree, HoldsInAgreement};
ghost use Rattle.def_reader.specs.Classes.{class_of, net_classes, is_split, has_in, HasClasses, is_missing, differs, has_other_cell, FailsOn, IsBadNet};
ghost use Rattle.list_laws.specs.Leasts.{IsLeast};

use crate::cells::cell_of;
use crate::design::{Component, Design, Net, NetPin};
use crate::named_rows::{ByName, NamedRows};
use base_types::{Fault, FileKind, Kind, Name, NoMemory, ReadFault};
use list_laws::{lesser, line_if};
use netlist_core::{Classes, Instance, NetId, Netlist, Ports, net_of};
use std::alloc::Global;
use std::marker::Model;

/// The instances and ports of a netlist by name. Contracts see the netlist.
#[derive(Drop)]
struct Pins<'n> {
    netlist: &'n Netlist,
    instances: ByName<'n, Instance>,
    ports: Ports<'n>,
}

impl<'n> Model for Pins<'n> {
    ghost use Rattle.std.specs.Prelude.{◌≡◌};
    ghost use Rattle.netlist_core.specs.declared.netlist.Netlist.{Netlist};
    ghost use Rattle.netlist_core.specs.Netlists.{IsNetlist};

    ghost Value = { Netlist };

    ghost view = { λ p. p.netlist.now };

    ghost invariant = { λ p. IsNetlist p.netlist.now × (p.instances ≡ p.netlist.now.instances) × (p.ports ≡ p.netlist.now) };
}

/// Puts a number behind the others, where there is one.
fn push_some(numbers: &mut Vec<u32>, number: Option<u32>) -> Result<(), NoMemory>
    ensures value { OnOk result (numbers.new.items ≡ numbers.old.items ++ cons_option number []) }
{
    if let Some(number) = number {
        numbers.push(number)?;
    }
    Ok(())
}

impl<'n> Pins<'n> {
    fn of(alloc: Global, netlist: &'n Netlist) -> Result<Pins<'n>, NoMemory>
        requires netlist { IsNetlist netlist.now }
        ensures value { IfOk result (λ pins. pins ≡ netlist.now) }
    {
        Ok(Pins {
            netlist,
            instances: ByName::of(alloc, netlist.instances.as_slice())?,
            ports: Ports::of(alloc, netlist)?,
        })
    }

    /// How many net bits there are.
    fn count_nets(&self) -> usize
        ensures value { result ≡ length self.now.nets }
    {
        self.netlist.nets.as_slice().len()
    }

    /// The net of a port bit.
    fn port(&self, name: &[u8]) -> Option<NetId>
        ensures value { result ≡ option_map (λ p. p.net) (port_named self.now name.now) }
    {
        match self.ports.named(name) {
            Some(port) => Some(port.net),
            None => None,
        }
    }

    /// The net of a pin of an instance.
    fn pin(&self, instance: &[u8], pin: &Name) -> Option<NetId>
        ensures value { result ≡ option_and_then (net_at pin.now) (instance_named self.now instance.now) }
    {
        match self.instances.place(instance) {
            Some(place) => net_of(self.netlist, place as u32, pin),
            None => None,
        }
    }

    /// The net bit that the netlist connects a pin of a design to.
    fn net_of(&self, pin: &NetPin) -> Option<NetId>
        ensures value { result ≡ net_of_pin self.now pin.now }
    {
        match pin {
            NetPin::Cell { component, pin } => self.pin(component.bytes(), pin),
            NetPin::Port(name) => self.port(name.bytes()),
        }
    }

    /// The class of a pin.
    fn class_of(&self, classes: &Classes, pin: &NetPin) -> Option<u32>
        requires netlist { IsNetlist self.now }
        requires classes { AreClassesOf self.now classes.now }
        ensures value { result ≡ class_of self.now classes.now pin.now }
    {
        match self.net_of(pin) {
            Some(net) => Some(classes.class_of(net).0),
            None => None,
        }
    }

    /// Puts the classes of a net's pins in place of what stands in the list.
    fn put_classes(
        &self,
        classes: &Classes,
        net: &Net,
        found: &mut Vec<u32>,
    ) -> Result<(), NoMemory>
        requires netlist { IsNetlist self.now }
        requires classes { AreClassesOf self.now classes.now }
        ensures value { OnOk result (found.new.items ≡ net_classes self.now classes.now net.now) }
    {
        found.clear();
        for pin in net.pins.as_slice() {
            push_some(found, self.class_of(classes, pin))?;
        }
        Ok(())
    }
}

fn is_split(classes: &[u32]) -> bool
    ensures value { result ≡ is_split classes.now }
{
    let first = match classes.first() {
        Some(first) => *first,
        None => 0,
    };
    classes.iter().any(|class| *class != first)
}

/// Whether one of the classes is marked.
fn is_shared(seen: &[bool], classes: &[u32]) -> bool
    requires within { All (λ class. class < length seen.now) classes.now }
    ensures value { result ≡ list_any (has_in seen.now) classes.now }
{
    for class in classes {
        if seen[*class as usize] {
            return true;
        }
    }
    false
}

/// Marks the classes.
fn add_all(seen: &mut Vec<bool>, classes: &[u32])
    requires within { All (λ class. class < length seen.old.items) classes.now }
    ensures len { length seen.new.items ≡ length seen.old.items }
    ensures value { (before : List ℕ) → HasClasses seen.old.items before → HasClasses seen.new.items (before ++ classes.now) }
{
    for class in classes {
        seen[*class as usize] = true;
    }
}

/// The least line of a net whose pins are on two classes, or on a class of a net before it.
fn least_bad_net(
    alloc: Global,
    pins: &Pins<'_>,
    classes: &Classes,
    nets: &[Net],
) -> Result<Option<u64>, NoMemory>
    requires netlist { IsNetlist pins.now }
    requires classes { AreClassesOf pins.now classes.now }
    ensures value { IfOk result (IsLeast (IsBadNet (net_classes pins.now classes.now) nets.now)) }
{
    let mut seen = vec![in alloc; false; pins.count_nets()]?;
    let mut found = Vec::new(alloc);
    let mut least = None;
    for net in nets {
        pins.put_classes(classes, net, &mut found)?;
        let bad = is_split(found.as_slice()) | is_shared(&seen, found.as_slice());
        least = lesser(least, line_if(bad, net.line));
        add_all(&mut seen, found.as_slice());
    }
    Ok(least)
}

/// Whether the cell of a component is another one than that of the instance.
fn has_other_cell(cell: Option<&Name>, instance: &Instance) -> bool
    ensures value { result ≡ differs instance.now.cell (option_map (λ cell. cell.now) cell.entry) }
{
    match cell {
        Some(cell) => cell.bytes() != instance.cell.bytes(),
        None => false,
    }
}

/// The least line of an instance without a component, and that of one whose component is of another cell.
fn least_apart(
    components: &NamedRows<Component>,
    instances: &[Instance],
) -> (Option<u64>, Option<u64>)
    ensures missing { IsLeast (FailsOn (is_missing components.now) instances.now) result.0 }
    ensures other { IsLeast (FailsOn (has_other_cell components.now) instances.now) result.1 }
{
    let mut missing = None;
    let mut other = None;
    for instance in instances {
        let cell = cell_of(components, instance.name.bytes());
        missing = lesser(missing, line_if(cell.is_none(), instance.line));
        other = lesser(
            other,
            line_if(has_other_cell(cell, instance), instance.line),
        );
    }
    (missing, other)
}

fn in_verilog(kind: Kind, line: u64) -> ReadFault
    ensures value { result ≡ refused (at_line kind verilog_file line) }
{
    ReadFault::Fault(Fault::at_line(kind, FileKind::Verilog, line))
}

fn in_def(kind: Kind, line: u64) -> ReadFault
    ensures value { result ≡ refused (at_line kind def_file line) }
{
    ReadFault::Fault(Fault::at_line(kind, FileKind::Def, line))
}

/// Whether a netlist, with the classes of its nets, and a placed design agree: each instance is a component of the same cell, and two
/// pins that both connect are joined exactly where they stand in one net of the design. Else the first fault: InstanceMissing at
/// the Verilog line of an instance without a component; CellDiffers where its component is of another cell; NetDiffers at the DEF
/// line of a net whose pins are on two classes, or on a class of a net before it; each at the least line; or want of memory.
pub fn agree(
    alloc: Global,
    netlist: &Netlist,
    classes: &Classes,
    design: &Design,
) -> Result<(), ReadFault>
    requires netlist { IsNetlist netlist.now }
    requires classes { AreClassesOf netlist.now classes.now }
    ensures agree { OnOk result (Agree netlist.now design.now) }
    ensures no_fault { OnOk result ((fault : ghost_fault) → HoldsInAgreement netlist.now design.now fault → ⊥) }
    ensures fault { IfFault result (IsFirstFault (HoldsInAgreement netlist.now design.now)) }
    ensures differ { IfFault result (λ _. Agree netlist.now design.now → ⊥) }
{
    let (missing, other) = least_apart(&design.components, netlist.instances.as_slice());
    if let Some(line) = missing {
        return Err(in_verilog(Kind::InstanceMissing, line));
    }
    if let Some(line) = other {
        return Err(in_verilog(Kind::CellDiffers, line));
    }
    let pins = Pins::of(alloc, netlist)?;
    if let Some(line) = least_bad_net(alloc, &pins, classes, design.nets.as_slice())? {
        return Err(in_def(Kind::NetDiffers, line));
    }
    Ok(())
}
