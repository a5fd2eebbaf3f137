ghost use Rattle.std.specs.Prelude.{◌≡◌};
ghost use Rattle.base_types.specs.declared.fault.ReadFault.TheVariants.{Fault as refused};
ghost use Rattle.verilog_syntax.specs.Reading.{fault_at};

use base_types::{Fault, FileKind, Kind, ReadFault, Spot};

/// A fault of the statement on a line.
pub(crate) fn fault_at(kind: Kind, line: u64) -> ReadFault
    ensures value { result ≡ refused (fault_at kind line) }
{
    ReadFault::Fault(Fault {
        kind,
        file: FileKind::Verilog,
        spot: Spot::Line(line),
    })
}
