//! The chains of a design, with its netlist, table and macros.
ghost use Rattle.std.specs.Prelude.{◌≡◌, IfOk, OnOk};
ghost use Rattle.base_types.specs.declared.fault.Fault.{Fault};
ghost use Rattle.base_types.specs.FirstFault.{IfFault, IsFirstFault};
ghost use Rattle.netlist_core.specs.Netlists.{IsNetlist};
ghost use Rattle.design_elements.specs.Elements.{chain_specs};
ghost use Rattle.design_elements.specs.Faults.{HoldsInElements};

use crate::cells::Cells;
use crate::first::first_fault;
use crate::numbers::Numbers;
use crate::specs::chain_specs;
use base_types::ReadFault;
use cell_table::CellTable;
use chain_rules::ChainSpec;
use def_reader::Design;
use lef_pins::Macros;
use netlist_core::Netlist;
use std::alloc::Global;

/// The chains of a design as numbers: instances and the nets of ports as the netlist counts them, scan paths and out pins as the table
/// does. A component that is no instance gets the count of instances, and a port that the netlist hasn't the count of nets.
///
/// Refused by the first fault, of the least kind and of these at the least line of a chain: ElementUnknown, where an element, a START or
/// a STOP cell is no component or its cell isn't in the table; ElementTwice, where an element has the component and the scan path of
/// one before it; ElementUnplaced, where one of them isn't placed; ElementPin, where a pin isn't such a pin of a scan path of the
/// cell, IN and OUT belong to two paths, or a cell with several paths gets no pin; BitsDiffer, where BITS isn't the count of the
/// element's path; NoMacro, where the LEF hasn't the cell; TooManyElements, where with the chain there are more than 65536 elements. Or
/// want of memory, also where a number of a chain, a scan path or an out pin doesn't fit 32 bits.
pub fn elements_of(
    alloc: Global,
    design: &Design,
    netlist: &Netlist,
    table: &CellTable,
    macros: &Macros,
) -> Result<Vec<ChainSpec>, ReadFault>
    requires netlist { IsNetlist netlist.now }
    ensures value { IfOk result (λ chains. chains.items ≡ chain_specs netlist.now table.now design.now) }
    ensures fault { IfFault result (IsFirstFault (HoldsInElements table.now macros.now design.now)) }
    ensures no_fault { OnOk result ((fault : Fault) → HoldsInElements table.now macros.now design.now fault → ⊥) }
{
    let chains = design.chains.as_slice();
    let cells = Cells::of(table, &design.components);
    if let Some(fault) = first_fault(alloc, &cells, macros, chains)? {
        return Err(ReadFault::Fault(fault));
    }
    let numbers = Numbers::of(alloc, netlist)?;
    Ok(chain_specs(alloc, &numbers, &cells, chains)?)
}
