//! The pins of paths in the nets of a design.
ghost use Rattle.std.specs.Prelude.{◌≡◌, option_map, Some, IfOk, OnOk, slice_get};
ghost use Rattle.base_types.specs.declared.fault.Fault.{Fault};
ghost use Rattle.base_types.specs.FirstFault.{IfFault, IsFirstFault};
ghost use Rattle.list_laws.specs.Leasts.{IsLeast};
ghost use Rattle.design_places.specs.NetPins.{is_alone, lacks_in_net, lacks_out_net, names_other, lacks_port, HoldsInNets};
ghost use Rattle.design_places.specs.Lines.{ForOne, StepLacks, PortLacks, PathLacks};

use crate::by_pin::Nets;
use crate::instances::instance_at;
use crate::lines::{in_verilog, step_line};
use base_types::{Kind, Name, NoMemory, ReadFault};
use cell_table::CellTable;
use chain_trace::{Path, Sink, Step, out_pin, plain_of, scan_path, sink_line};
use def_reader::{Design, DesignPin, Net};
use list_laws::lesser;
use netlist_core::{NetId, Netlist};
use std::alloc::Global;
use std::collections::HashSet;
use std::marker::Model;

/// A netlist with the table of its cells, and a design with its nets by their pins. Contracts see netlist, table and design.
#[derive(Drop)]
struct Traced<'d> {
    netlist: &'d Netlist,
    table: &'d CellTable,
    design: &'d Design,
    nets: Nets<'d>,
}

impl<'d> Model for Traced<'d> {
    ghost use Rattle.std.specs.Prelude.{◌≡◌};
    ghost use Rattle.design_places.specs.Lines.{Traced};

    ghost Value = { Traced };

    ghost view = { λ t. record { netlist = t.netlist.now; cells = t.table.now; design = t.design.now } };

    ghost invariant = { λ t. t.nets ≡ t.design.now.nets };
}

/// Notes the names of the pins by which a step enters and leaves its scan path.
fn note_pins<'t>(
    names: &mut HashSet<&'t [u8]>,
    netlist: &Netlist,
    table: &'t CellTable,
    step: Step,
) -> Result<(), NoMemory> {
    let Some(path) = scan_path(netlist, table, step.instance, step.path) else {
        return Ok(());
    };
    names.insert(path.input.bytes())?;
    if let Some(out) = out_pin(path, step.out) {
        names.insert(out.pin.bytes())?;
    }
    Ok(())
}

/// The names of the pins by which paths enter and leave cells.
fn pin_names<'t>(
    alloc: Global,
    netlist: &Netlist,
    table: &'t CellTable,
    paths: &[Path],
) -> Result<HashSet<&'t [u8]>, NoMemory> {
    let mut names = HashSet::new(alloc);
    for path in paths {
        for step in path.steps.as_slice() {
            note_pins(&mut names, netlist, table, *step)?;
        }
    }
    Ok(names)
}

fn names_other(net: &Net, pin: Option<&DesignPin>) -> bool
    ensures value { result ≡ names_other (Some net.now) (option_map (λ pin. pin.now) pin.entry) }
{
    match pin {
        Some(pin) => pin.net.bytes() != net.name.bytes(),
        None => true,
    }
}

impl<'d> Traced<'d> {
    fn of(
        alloc: Global,
        netlist: &'d Netlist,
        table: &'d CellTable,
        design: &'d Design,
        paths: &[Path],
    ) -> Result<Traced<'d>, NoMemory>
        ensures value { IfOk result (λ t. t ≡ record { netlist = netlist.now; cells = table.now; design = design.now }) }
    {
        let names = pin_names(alloc, netlist, table, paths)?;
        Ok(Traced {
            netlist,
            table,
            design,
            nets: Nets::of(alloc, names, design.nets.as_slice())?,
        })
    }

    /// Whether a pin of an instance stands in no net.
    fn is_alone(&self, instance: u32, pin: &Name) -> bool
        ensures value { result ≡ is_alone self.now.design.nets (slice_get self.now.netlist.instances instance) pin.now }
    {
        match instance_at(self.netlist, instance) {
            Some(placed) => self
                .nets
                .with_cell(placed.name.bytes(), pin.bytes())
                .is_none(),
            None => false,
        }
    }

    fn lacks_in(&self, step: Step) -> bool
        ensures value { result ≡ lacks_in_net self.now.netlist self.now.cells self.now.design step }
    {
        match scan_path(self.netlist, self.table, step.instance, step.path) {
            Some(path) => self.is_alone(step.instance, &path.input),
            None => false,
        }
    }

    fn lacks_out(&self, step: Step) -> bool
        ensures value { result ≡ lacks_out_net self.now.netlist self.now.cells self.now.design step }
    {
        match scan_path(self.netlist, self.table, step.instance, step.path) {
            Some(path) => match out_pin(path, step.out) {
                Some(out) => self.is_alone(step.instance, &out.pin),
                None => false,
            },
            None => false,
        }
    }

    fn lacks_port(&self, net: NetId) -> bool
        ensures value { result ≡ lacks_port self.now.netlist self.now.design net }
    {
        let name = plain_of(self.netlist.nets.as_slice(), net);
        match self.nets.with_port(name) {
            Some(found) => names_other(found, self.design.pins.find(name)),
            None => true,
        }
    }

    /// The line of a step with a pin in no net.
    fn step(&self, step: Step) -> Option<u64>
        ensures value { IsLeast (StepLacks self.now step) result }
    {
        if self.lacks_in(step) || self.lacks_out(step) {
            Some(step_line(self.netlist, step))
        } else {
            None
        }
    }

    /// The line of a port that isn't in the nets as it should be.
    fn port(&self, net: NetId) -> Option<u64>
        ensures value { IsLeast (PortLacks self.now net) result }
    {
        if self.lacks_port(net) {
            Some(sink_line(self.netlist, Sink::Port(net)))
        } else {
            None
        }
    }

    /// The least line of the steps.
    fn steps(&self, steps: &[Step]) -> Option<u64>
        ensures value { IsLeast (ForOne (StepLacks self.now) steps.now) result }
    {
        let mut least = None;
        for step in steps {
            least = lesser(least, self.step(*step));
        }
        least
    }

    /// The least line of a path.
    fn path(&self, path: &Path) -> Option<u64>
        ensures value { IsLeast (PathLacks self.now path.now) result }
    {
        let ports = lesser(self.port(path.input), self.port(path.output));
        lesser(self.steps(path.steps.as_slice()), ports)
    }

    /// The least line of the paths.
    fn paths(&self, paths: &[Path]) -> Option<u64>
        ensures value { IsLeast (ForOne (PathLacks self.now) paths.now) result }
    {
        let mut least = None;
        for path in paths {
            least = lesser(least, self.path(path));
        }
        least
    }
}

/// Whether each in pin, each used out pin and both ports of the paths stand in nets of the design, and each port is a design pin that
/// names the net in which it stands. Else PinMissing at the least line: that of the instance, or of the port's direction statement; or want
/// of memory. It goes over the nets once.
pub fn check_nets(
    alloc: Global,
    netlist: &Netlist,
    table: &CellTable,
    design: &Design,
    paths: &[Path],
) -> Result<(), ReadFault>
    ensures fault { IfFault result (IsFirstFault (HoldsInNets netlist.now table.now design.now paths.now)) }
    ensures no_fault { OnOk result ((fault : Fault) → HoldsInNets netlist.now table.now design.now paths.now fault → ⊥) }
{
    let traced = Traced::of(alloc, netlist, table, design, paths)?;
    match traced.paths(paths) {
        Some(line) => Err(in_verilog(Kind::PinMissing, line)),
        None => Ok(()),
    }
}
