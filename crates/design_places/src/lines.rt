//! Lines of the Verilog, and the fault at one.
ghost use Rattle.std.specs.Prelude.{◌≡◌};
ghost use Rattle.base_types.specs.Faults.{at_line};
ghost use Rattle.base_types.specs.declared.fault.FileKind.TheVariants.{Verilog as verilog_file};
ghost use Rattle.base_types.specs.declared.fault.ReadFault.TheVariants.{Fault as refused};
ghost use Rattle.design_places.specs.Lines.{step_line};

use base_types::{Fault, FileKind, Kind, ReadFault};
use chain_trace::{Sink, Step, sink_line};
use netlist_core::Netlist;

/// The line of the instance of a step.
pub(crate) fn step_line(netlist: &Netlist, step: Step) -> u64
    ensures value { result ≡ step_line netlist.now step }
{
    let Step {
        instance,
        path,
        out: _,
    } = step;
    sink_line(netlist, Sink::In { instance, path })
}

/// A fault at a line of the Verilog.
pub(crate) fn in_verilog(kind: Kind, line: u64) -> ReadFault
    ensures value { result ≡ refused (at_line kind verilog_file line) }
{
    ReadFault::Fault(Fault::at_line(kind, FileKind::Verilog, line))
}
