//! The places of the cells of paths.
ghost use Rattle.std.specs.Prelude.{◌≡◌, OnOk};
ghost use Rattle.base_types.specs.declared.fault.Fault.{Fault};
ghost use Rattle.base_types.specs.FirstFault.{IfFault, IsFirstFault};
ghost use Rattle.list_laws.specs.Leasts.{IsLeast};
ghost use Rattle.design_places.specs.Ends.{HoldsInPlaces};
ghost use Rattle.design_places.specs.Lines.{ForOne, nowhere_in, IsNowhere, GoesNowhere};

use crate::cells::Components;
use crate::instances::instance_at;
use crate::lines::{in_verilog, step_line};
use base_types::{Kind, ReadFault};
use cell_table::CellTable;
use chain_trace::{Path, Step};
use def_reader::Design;
use lef_pins::Macros;
use list_laws::lesser;
use netlist_core::Netlist;
use std::alloc::Global;

fn is_nowhere(components: &Components<'_>, netlist: &Netlist, instance: u32) -> bool
    ensures value { result ≡ nowhere_in netlist.now components.now.0 components.now.1 instance }
{
    match instance_at(netlist, instance) {
        Some(placed) => components.standing(placed.name.bytes()).is_none(),
        None => true,
    }
}

/// The line of a step whose cell is placed nowhere.
fn line_of(components: &Components<'_>, netlist: &Netlist, step: Step) -> Option<u64>
    ensures value { IsLeast (IsNowhere netlist.now components.now.0 components.now.1 step) result }
{
    if is_nowhere(components, netlist, step.instance) {
        Some(step_line(netlist, step))
    } else {
        None
    }
}

/// The least of such lines.
fn least_of(components: &Components<'_>, netlist: &Netlist, steps: &[Step]) -> Option<u64>
    ensures value { IsLeast (ForOne (IsNowhere netlist.now components.now.0 components.now.1) steps.now) result }
{
    let mut least = None;
    for step in steps {
        least = lesser(least, line_of(components, netlist, *step));
    }
    least
}

/// The least of such lines on several paths.
fn least_nowhere(components: &Components<'_>, netlist: &Netlist, paths: &[Path]) -> Option<u64>
    ensures value { IsLeast (ForOne (GoesNowhere netlist.now components.now.0 components.now.1) paths.now) result }
{
    let mut least = None;
    for path in paths {
        least = lesser(least, least_of(components, netlist, path.steps.as_slice()));
    }
    least
}

/// Whether each cell of the paths is placed and has a macro. Else PlaceUnknown at the least line of an instance without. The table
/// isn't looked at, and no memory is taken.
pub fn check_places(
    _alloc: Global,
    netlist: &Netlist,
    _table: &CellTable,
    macros: &Macros,
    design: &Design,
    paths: &[Path],
) -> Result<(), ReadFault>
    ensures fault { IfFault result (IsFirstFault (HoldsInPlaces netlist.now macros.now design.now paths.now)) }
    ensures no_fault { OnOk result ((fault : Fault) → HoldsInPlaces netlist.now macros.now design.now paths.now fault → ⊥) }
{
    let components = Components::of(macros, &design.components);
    match least_nowhere(&components, netlist, paths) {
        Some(line) => Err(in_verilog(Kind::PlaceUnknown, line)),
        None => Ok(()),
    }
}
