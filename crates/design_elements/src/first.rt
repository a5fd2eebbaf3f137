//! The first fault of what the chains of a design name.
ghost use Rattle.std.specs.Prelude.{◌≡◌, IfOk};
ghost use Rattle.def_reader.specs.declared.design.Design.{Design as ghost_design};
ghost use Rattle.design_elements.specs.Faults.{HoldsInElements};
ghost use Rattle.design_elements.specs.FirstOf.{fault_or, IsFirstIn};

use crate::cells::Cells;
use crate::count::least_crowded;
use crate::judge::{Judgement, least_failing};
use crate::twice::least_again;
use base_types::{Fault, FileKind, Kind, NoMemory};
use def_reader::ScanChainText;
use lef_pins::Macros;
use std::alloc::Global;

/// The fault of a kind, where there is a line that has it, else a later one.
fn fault_or(kind: Kind, line: Option<u64>, later: Option<Fault>) -> Option<Fault>
    ensures value { result ≡ fault_or kind line later }
{
    match line {
        Some(line) => Some(Fault::at_line(kind, FileKind::Def, line)),
        None => later,
    }
}

/// The first fault of what the chains name, where there is one.
pub(crate) fn first_fault(
    alloc: Global,
    cells: &Cells<'_>,
    macros: &Macros,
    chains: &[ScanChainText],
) -> Result<Option<Fault>, NoMemory>
    ensures value { IfOk result (λ first. (d : ghost_design) → d.components ≡ cells.now.1 → d.chains ≡ chains.now → IsFirstIn (HoldsInElements cells.now.0 macros.now d) first) }
{
    let unknown = least_failing(Judgement::Unknown, cells, macros, chains);
    let again = least_again(alloc, cells, chains)?;
    let unplaced = least_failing(Judgement::Unplaced, cells, macros, chains);
    let pin = least_failing(Judgement::Pin, cells, macros, chains);
    let bits = least_failing(Judgement::Bits, cells, macros, chains);
    let no_macro = least_failing(Judgement::Macro, cells, macros, chains);
    let crowded = least_crowded(chains);
    let first = fault_or(Kind::TooManyElements, crowded, None);
    let first = fault_or(Kind::NoMacro, no_macro, first);
    let first = fault_or(Kind::BitsDiffer, bits, first);
    let first = fault_or(Kind::ElementPin, pin, first);
    let first = fault_or(Kind::ElementUnplaced, unplaced, first);
    let first = fault_or(Kind::ElementTwice, again, first);
    Ok(fault_or(Kind::ElementUnknown, unknown, first))
}
