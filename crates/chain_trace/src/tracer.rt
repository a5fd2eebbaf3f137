//! The walks backward from outputs, from each sink to its only source.
ghost use Rattle.std.specs.Prelude.{◌≡◌, ◌<◌, length, All, IfOk, IsTrue};
ghost use Rattle.netlist_core.specs.Netlists.{IsNetlist};
ghost use Rattle.netlist_core.specs.Joining.{AreClassesOf};
ghost use Rattle.base_types.specs.FirstFault.{IfFault};
ghost use Rattle.chain_trace.specs.declared.path.Path.{Path};
ghost use Rattle.chain_trace.specs.declared.path.Sink.{Sink};
ghost use Rattle.chain_trace.specs.Paths.{is_driven, has_port, IsScanPath};
ghost use Rattle.chain_trace.specs.Faults.{IsTraceFault};
ghost use Rattle.chain_trace.specs.Parities.{NamesEntry};
ghost use Rattle.chain_trace.specs.Drivers.{Says};

use crate::drivers::drivers_of;
use crate::entry::{entries_of, path_at};
use crate::lines::{loop_fault, sink_fault};
use crate::path::{Path, Sink, Source};
use crate::tally::{Found, Tally, whole, without};
use base_types::{Kind, NoMemory, ReadFault, Rows};
use cell_table::{CellTable, ScanPath};
use netlist_core::{Classes, NetId, Netlist, net_of};
use std::alloc::Global;
use std::collections::HashSet;
use std::marker::Model;

/// What the paths of a netlist are traced by: the scan paths of its instances, and what is known of the sources of its
/// classes. Contracts see it as the netlist and the cells.
#[derive(Drop)]
pub struct Tracer<'a> {
    netlist: &'a Netlist,
    classes: &'a Classes,
    table: &'a CellTable,
    entries: Vec<&'a [ScanPath]>,
    drivers: Vec<Tally>,
}

impl<'a> Model for Tracer<'a> {
    ghost use Rattle.chain_trace.specs.Drivers.{Traced, IsTracer};

    ghost Value = { Traced };

    ghost view = { λ t. record { netlist = t.netlist.now; cells = t.table.now } };

    ghost invariant = { λ t. IsTracer t.netlist.now t.table.now t.classes.now t.entries.items t.drivers.items };
}

impl<'a> Tracer<'a> {
    /// Finds the sources of all classes, or answers want of memory. It goes over the netlist once and looks each
    /// instance's cell up once.
    pub fn of(
        alloc: Global,
        netlist: &'a Netlist,
        classes: &'a Classes,
        table: &'a CellTable,
    ) -> Result<Tracer<'a>, NoMemory>
        requires netlist { IsNetlist netlist.now }
        requires classes { AreClassesOf netlist.now classes.now }
        ensures value { IfOk result (λ tracer. tracer ≡ record { netlist = netlist.now; cells = table.now }) }
    {
        let entries = entries_of(alloc, netlist, table)?;
        let drivers = drivers_of(alloc, netlist, classes, entries.as_slice())?;
        Ok(Tracer {
            netlist,
            classes,
            table,
            entries,
            drivers,
        })
    }

    /// What drives an output.
    fn port_driver(&self, output: NetId) -> Found
        requires output { IsTrue (has_port is_driven self.now.netlist output) }
        ensures says { Says self.now.netlist self.now.cells (Sink.Port output) result }
    {
        without(
            self.drivers[self.classes.class_of(output).0 as usize],
            output,
        )
    }

    /// What drives a scan path's in pin.
    fn in_driver(&self, instance: u32, path: u32) -> Found
        requires instance { instance < length self.now.netlist.instances }
        ensures says { Says self.now.netlist self.now.cells (Sink.In instance path) result }
    {
        let Some(entry) = path_at(self.entries[instance as usize], path) else {
            return Found::Absent;
        };
        let Some(net) = net_of(self.netlist, instance, &entry.input) else {
            return Found::Absent;
        };
        whole(self.drivers[self.classes.class_of(net).0 as usize])
    }

    /// Walks backward from an output. Each turn takes one step.
    fn walk(&self, alloc: Global, output: NetId) -> Result<Path, ReadFault>
        requires output { IsTrue (has_port is_driven self.now.netlist output) }
        ensures path { IfOk result (IsScanPath self.now.netlist self.now.cells output) }
        ensures fault { IfFault result (IsTraceFault self.now.netlist self.now.cells output) }
    {
        let netlist = self.netlist;
        let mut steps = Vec::new(alloc);
        let mut marks = HashSet::new(alloc);
        let mut sink = Sink::Port(output);
        let mut found = self.port_driver(output);
        'back: loop {
            match found {
                Found::Absent => return Err(sink_fault(Kind::NoDriver, netlist, sink)),
                Found::Several => return Err(sink_fault(Kind::TwoDrivers, netlist, sink)),
                Found::Only(Source::Port(input)) => {
                    steps.reverse();
                    return Ok(Path {
                        input,
                        output,
                        steps: Rows::of(steps),
                    });
                }
                Found::Only(Source::Out(step)) => {
                    if !marks.insert((step.instance, step.path))? {
                        return Err(loop_fault(netlist, step.instance));
                    }
                    steps.push(step)?;
                    sink = Sink::In {
                        instance: step.instance,
                        path: step.path,
                    };
                    found = self.in_driver(step.instance, step.path);
                }
            }
        }
    }

    /// The path of a scan output, an output or inout port bit, or the first fault that is met going backward from it:
    /// NoDriver or TwoDrivers where a sink has no source or several, at the line of its instance or of the port's direction
    /// statement; Loop where a scan path of an instance is met a second time, at the instance's line. A step takes constant
    /// time, and what isn't on the way is not gone over.
    pub fn trace(&self, alloc: Global, scan_out: NetId) -> Result<Path, ReadFault>
        requires output { IsTrue (has_port is_driven self.now.netlist scan_out) }
        ensures path { IfOk result (IsScanPath self.now.netlist self.now.cells scan_out) }
        ensures only { IfOk result (λ path. (other : Path) → IsScanPath self.now.netlist self.now.cells scan_out other → other ≡ path) }
        // So its bits can be told by `bits_of`.
        ensures entries { IfOk result (λ path. All (NamesEntry self.now.netlist self.now.cells) path.steps) }
        ensures fault { IfFault result (IsTraceFault self.now.netlist self.now.cells scan_out) }
        ensures none { IfFault result (λ _. (path : Path) → ¬ IsScanPath self.now.netlist self.now.cells scan_out path) }
    {
        self.walk(alloc, scan_out)
    }
}
