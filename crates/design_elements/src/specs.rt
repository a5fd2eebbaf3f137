//! The chains of a design as numbers.
ghost use Rattle.std.specs.Prelude.{◌≡◌, map, unwrap_or, IfOk};
ghost use Rattle.def_reader.specs.declared.design.Design.{Design as ghost_design};
ghost use Rattle.design_elements.specs.CellPins.{path_number, out_number};
ghost use Rattle.design_elements.specs.Elements.{element_spec, end_cell, start_spec, stop_spec, list_spec, chain_spec, chain_specs};
ghost use Rattle.design_elements.specs.Judging.{pins_at};

use crate::cells::Cells;
use crate::numbers::Numbers;
use crate::partitions::Partitions;
use crate::pins::{Pins, pins_of};
use base_types::{NoMemory, Rows};
use chain_rules::{ChainSpec, ElementSpec, EndSpec, ListSpec};
use def_reader::{Element, ElementList, EndText, ScanChainText};
use std::alloc::Global;

/// A number of 32 bits; another one counts as want of memory.
fn number(place: usize) -> Result<u32, NoMemory>
    ensures value { IfOk result (λ n. n ≡ place) }
{
    match u32::try_from(place) {
        Ok(number) => Ok(number),
        Err(_) => Err(NoMemory),
    }
}

/// The number of the scan path that is named, 0 where none is.
fn path_of(cells: &Cells<'_>, pins: Pins<'_>) -> Result<u32, NoMemory>
    ensures value { IfOk result (λ path. path ≡ unwrap_or (path_number cells.now.0 cells.now.1 (pins_at pins.entry)) 0) }
{
    number(cells.path_number(pins).unwrap_or(0))
}

/// The number of the out pin that is named.
fn out_of(cells: &Cells<'_>, pins: Pins<'_>) -> Result<Option<u32>, NoMemory>
    ensures value { IfOk result (λ out. out ≡ out_number cells.now.0 cells.now.1 (pins_at pins.entry)) }
{
    match cells.out_number(pins) {
        Some(out) => Ok(Some(number(out)?)),
        None => Ok(None),
    }
}

fn element_spec(
    numbers: &Numbers<'_>,
    cells: &Cells<'_>,
    element: &Element,
) -> Result<ElementSpec, NoMemory>
    ensures value { IfOk result (λ e. e ≡ element_spec numbers.now cells.now.0 cells.now.1 element.now) }
{
    let pins = pins_of(element);
    Ok(ElementSpec {
        instance: numbers.instance(element.component.bytes()),
        path: path_of(cells, pins)?,
        out: out_of(cells, pins)?,
    })
}

fn element_specs(
    alloc: Global,
    numbers: &Numbers<'_>,
    cells: &Cells<'_>,
    elements: &[Element],
) -> Result<Rows<ElementSpec>, NoMemory>
    ensures value { IfOk result (λ es. es ≡ map (element_spec numbers.now cells.now.0 cells.now.1) elements.now) }
{
    let mut specs = Rows::with_room(alloc, elements.len())?;
    for element in elements {
        specs.push(element_spec(numbers, cells, element)?)?;
    }
    Ok(specs)
}

fn list_spec(
    alloc: Global,
    numbers: &Numbers<'_>,
    cells: &Cells<'_>,
    list: &ElementList,
) -> Result<ListSpec, NoMemory>
    ensures value { IfOk result (λ l. l ≡ list_spec numbers.now cells.now.0 cells.now.1 list.now) }
{
    match list {
        ElementList::Floating(elements) => Ok(ListSpec::Floating(element_specs(
            alloc,
            numbers,
            cells,
            elements.as_slice(),
        )?)),
        ElementList::Ordered(elements) => Ok(ListSpec::Ordered(element_specs(
            alloc,
            numbers,
            cells,
            elements.as_slice(),
        )?)),
    }
}

fn list_specs(
    alloc: Global,
    numbers: &Numbers<'_>,
    cells: &Cells<'_>,
    lists: &[ElementList],
) -> Result<Rows<ListSpec>, NoMemory>
    ensures value { IfOk result (λ ls. ls ≡ map (list_spec numbers.now cells.now.0 cells.now.1) lists.now) }
{
    let mut specs = Rows::with_room(alloc, lists.len())?;
    for list in lists {
        specs.push(list_spec(alloc, numbers, cells, list)?)?;
    }
    Ok(specs)
}

fn end_cell(numbers: &Numbers<'_>, cells: &Cells<'_>, pins: Pins<'_>) -> Result<EndSpec, NoMemory>
    ensures value { IfOk result (λ e. e ≡ end_cell numbers.now cells.now.0 cells.now.1 (pins_at pins.entry)) }
{
    Ok(EndSpec::Cell {
        instance: numbers.instance(pins.component.bytes()),
        path: path_of(cells, pins)?,
        out: out_of(cells, pins)?,
    })
}

fn start_spec(
    numbers: &Numbers<'_>,
    cells: &Cells<'_>,
    start: &EndText,
) -> Result<EndSpec, NoMemory>
    ensures value { IfOk result (λ e. e ≡ start_spec numbers.now cells.now.0 cells.now.1 start.now) }
{
    match start {
        EndText::Port(name) => Ok(EndSpec::Port(numbers.port(name.bytes()))),
        EndText::Cell { component, pin } => {
            let pins = Pins {
                component,
                input: None,
                output: pin.as_ref(),
            };
            end_cell(numbers, cells, pins)
        }
    }
}

fn stop_spec(numbers: &Numbers<'_>, cells: &Cells<'_>, stop: &EndText) -> Result<EndSpec, NoMemory>
    ensures value { IfOk result (λ e. e ≡ stop_spec numbers.now cells.now.0 cells.now.1 stop.now) }
{
    match stop {
        EndText::Port(name) => Ok(EndSpec::Port(numbers.port(name.bytes()))),
        EndText::Cell { component, pin } => {
            let pins = Pins {
                component,
                input: pin.as_ref(),
                output: None,
            };
            end_cell(numbers, cells, pins)
        }
    }
}

/// The chain of a number, beside the netlist, the table and the chains' partitions.
fn chain_spec(
    alloc: Global,
    numbers: &Numbers<'_>,
    cells: &Cells<'_>,
    partitions: &Partitions<'_>,
    c: usize,
    chain: &ScanChainText,
) -> Result<ChainSpec, NoMemory>
    ensures value { IfOk result (λ s. (d : ghost_design) → d.components ≡ cells.now.1 → d.chains ≡ partitions.now → s ≡ chain_spec numbers.now cells.now.0 d c chain.now) }
{
    Ok(ChainSpec {
        start: start_spec(numbers, cells, &chain.start)?,
        stop: stop_spec(numbers, cells, &chain.stop)?,
        lists: list_specs(alloc, numbers, cells, chain.lists.as_slice())?,
        partition: number(partitions.number(c, &chain.partition))?,
        max_bits: chain.max_bits,
        line: chain.line,
    })
}

/// The chains of a design, beside the netlist and the table.
pub(crate) fn chain_specs(
    alloc: Global,
    numbers: &Numbers<'_>,
    cells: &Cells<'_>,
    chains: &[ScanChainText],
) -> Result<Vec<ChainSpec>, NoMemory>
    ensures value { IfOk result (λ specs. (d : ghost_design) → d.components ≡ cells.now.1 → d.chains ≡ chains.now → specs.items ≡ chain_specs numbers.now cells.now.0 d) }
{
    let partitions = Partitions::of(alloc, chains)?;
    let mut specs = Vec::with_capacity(alloc, chains.len())?;
    for (c, chain) in chains.iter().enumerate() {
        specs.push(chain_spec(alloc, numbers, cells, &partitions, c, chain)?)?;
    }
    Ok(specs)
}
