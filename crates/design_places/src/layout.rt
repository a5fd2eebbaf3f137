//! A netlist in a placed design: where the pins and the ports of its paths stand.
ghost use Rattle.std.specs.Prelude.{◌≡◌, ◌+◌, ◌<◌, option_map};
ghost use Rattle.wire_cost.specs.Lengths.{IsNearOrNowhere};
ghost use Rattle.def_reader.specs.Sound.{IsSoundPoint};
ghost use Rattle.design_places.specs.Ends.{placed_named, placed_at, in_point, out_point, doubled, port_point, source_point, sink_point, source_on, sink_on};
ghost use Rattle.design_places.specs.Layouts.{IsFit, pin_point};

use crate::cells::Components;
use crate::instances::instance_at;
use base_types::{Name, Point};
use cell_table::CellTable;
use chain_trace::{Path, Step, out_pin, plain_of, scan_path};
use def_reader::Design;
use lef_pins::Macros;
use netlist_core::{NetId, Netlist};
use std::marker::Model;

/// A netlist with the table of its cells, and a design with the macros of its cells. Contracts see netlist, table, macros and design.
#[derive(Drop)]
pub(crate) struct Layout<'d> {
    netlist: &'d Netlist,
    table: &'d CellTable,
    design: &'d Design,
    components: Components<'d>,
}

impl<'d> Model for Layout<'d> {
    ghost use Rattle.std.specs.Prelude.{◌≡◌};
    ghost use Rattle.design_places.specs.Layouts.{Layout};

    ghost Value = { Layout };

    ghost view = { λ l. record { netlist = l.netlist.now; cells = l.table.now; macros = l.components.0; design = l.design.now } };

    ghost invariant = { λ l. l.components.1 ≡ l.design.now.components };
}

/// Twice a point.
fn doubled(point: Option<Point>) -> Option<Point>
    requires sound { IsSoundPoint point }
    ensures value { result ≡ option_map doubled point }
    ensures near { IsNearOrNowhere result }
{
    match point {
        Some(p) => Some(Point {
            x: p.x + p.x,
            y: p.y + p.y,
        }),
        None => None,
    }
}

impl<'d> Layout<'d> {
    pub(crate) fn of(
        netlist: &'d Netlist,
        table: &'d CellTable,
        macros: &'d Macros,
        design: &'d Design,
    ) -> Layout<'d>
        ensures value { result ≡ record { netlist = netlist.now; cells = table.now; macros = macros.now; design = design.now } }
    {
        Layout {
            netlist,
            table,
            design,
            components: Components::of(macros, &design.components),
        }
    }

    /// Where a pin of the component of a name stands.
    fn pin_of(&self, name: &[u8], pin: &Name) -> Option<Point>
        requires fit { IsFit self.now }
        ensures value { result ≡ pin_point self.now.design pin.now (placed_named self.now.macros self.now.design name.now) }
        ensures near { IsNearOrNowhere result }
    {
        match self.components.standing(name) {
            Some(standing) => Some(standing.point(pin, self.design.units)),
            None => None,
        }
    }

    /// Where a pin of an instance stands.
    fn pin_at(&self, instance: u32, pin: &Name) -> Option<Point>
        requires fit { IsFit self.now }
        ensures value { result ≡ pin_point self.now.design pin.now (placed_at self.now.netlist self.now.macros self.now.design instance) }
        ensures near { IsNearOrNowhere result }
    {
        match instance_at(self.netlist, instance) {
            Some(placed) => self.pin_of(placed.name.bytes(), pin),
            None => None,
        }
    }

    /// Where the in pin of a step stands.
    fn in_point(&self, step: Step) -> Option<Point>
        requires fit { IsFit self.now }
        ensures value { result ≡ in_point self.now.netlist self.now.cells self.now.macros self.now.design step }
        ensures near { IsNearOrNowhere result }
    {
        match scan_path(self.netlist, self.table, step.instance, step.path) {
            Some(path) => self.pin_at(step.instance, &path.input),
            None => None,
        }
    }

    /// Where the out pin stands that a step uses.
    fn out_point(&self, step: Step) -> Option<Point>
        requires fit { IsFit self.now }
        ensures value { result ≡ out_point self.now.netlist self.now.cells self.now.macros self.now.design step }
        ensures near { IsNearOrNowhere result }
    {
        match scan_path(self.netlist, self.table, step.instance, step.path) {
            Some(path) => match out_pin(path, step.out) {
                Some(out) => self.pin_at(step.instance, &out.pin),
                None => None,
            },
            None => None,
        }
    }

    /// Where a port stands.
    fn port(&self, net: NetId) -> Option<Point>
        requires fit { IsFit self.now }
        ensures value { result ≡ port_point self.now.netlist self.now.design net }
        ensures near { IsNearOrNowhere result }
    {
        match self
            .design
            .pins
            .find(plain_of(self.netlist.nets.as_slice(), net))
        {
            Some(pin) => doubled(pin.place),
            None => None,
        }
    }

    /// Where the source stands of the step at a place of a path, or of the output behind the steps.
    fn source(&self, path: &Path, k: usize) -> Option<Point>
        requires fit { IsFit self.now }
        ensures value { result ≡ source_point self.now.netlist self.now.cells self.now.macros self.now.design path.now k }
        ensures near { IsNearOrNowhere result }
    {
        if k == 0 {
            return self.port(path.input);
        }
        match path.steps.as_slice().get(k - 1) {
            Some(step) => self.out_point(*step),
            None => None,
        }
    }

    /// Where the in pin of the step at a place of a path stands, or the output behind the steps.
    fn sink(&self, path: &Path, k: usize) -> Option<Point>
        requires fit { IsFit self.now }
        ensures value { result ≡ sink_point self.now.netlist self.now.cells self.now.macros self.now.design path.now k }
        ensures near { IsNearOrNowhere result }
    {
        match path.steps.as_slice().get(k) {
            Some(step) => self.in_point(*step),
            None => self.port(path.output),
        }
    }

    /// The source at a place of the path of a number.
    pub(crate) fn source_on(&self, paths: &[Path], number: u32, k: usize) -> Option<Point>
        requires fit { IsFit self.now }
        ensures value { result ≡ source_on self.now.netlist self.now.cells self.now.macros self.now.design paths.now number k }
        ensures near { IsNearOrNowhere result }
    {
        match paths.get(number as usize) {
            Some(path) => self.source(path, k),
            None => None,
        }
    }

    /// The sink at a place of the path of a number.
    pub(crate) fn sink_on(&self, paths: &[Path], number: u32, k: usize) -> Option<Point>
        requires fit { IsFit self.now }
        ensures value { result ≡ sink_on self.now.netlist self.now.cells self.now.macros self.now.design paths.now number k }
        ensures near { IsNearOrNowhere result }
    {
        match paths.get(number as usize) {
            Some(path) => self.sink(path, k),
            None => None,
        }
    }
}
