//! Scan chains of the statements of a text.
ghost use Rattle.std.specs.Prelude.{◌≡◌, map, option_map, option_and_then, is_some, unwrap_or, IfOk, OnOk};
ghost use Rattle.std.specs.List.{list_any};
ghost use Rattle.std.specs.Str.{bytes_eq};
ghost use Rattle.base_types.specs.Names.{plain_name};
ghost use Rattle.def_reader.specs.Numbers.{bits_of};
ghost use Rattle.def_reader.specs.Designs.{has_input, has_output, has_pin, common_of, common_pin, pin_or, element_of, list_of, end_of, max_bits_in, chain_of};

use crate::cells::Cells;
use crate::design::{Element, ElementList, EndText, ScanChainText};
use crate::names::plain;
use crate::numbers::bits;
use crate::side::Side;
use base_types::{Name, NoMemory, Rows};
use cell_table::ScanPath;
use def_syntax::{
    Chain, CommonPins, Element as ElementText, ElementList as ListText, Located, Partition,
    Terminal,
};
use std::alloc::Global;
use token_forms::TokenText;

fn has_input(paths: &[ScanPath], pin: &[u8]) -> bool
    ensures value { result ≡ has_input paths.now pin.now }
{
    paths.iter().any(|path| path.input.bytes() == pin)
}

fn leaves_by(path: &ScanPath, pin: &[u8]) -> bool
    ensures value { result ≡ list_any (λ o. bytes_eq o.pin pin.now) path.now.outs }
{
    path.outs
        .as_slice()
        .iter()
        .any(|out| out.pin.bytes() == pin)
}

fn has_output(paths: &[ScanPath], pin: &[u8]) -> bool
    ensures value { result ≡ has_output paths.now pin.now }
{
    paths.iter().any(|path| leaves_by(path, pin))
}

fn has_pin(side: Side, paths: &[ScanPath], pin: &[u8]) -> bool
    ensures value { result ≡ has_pin side paths.now pin.now }
{
    match side {
        Side::In => has_input(paths, pin),
        Side::Out => has_output(paths, pin),
    }
}

/// The common pin of a side.
fn common_of<'t, 'a>(side: Side, pins: &'t Option<CommonPins<'a>>) -> Option<&'t TokenText<'a>>
    ensures value { option_map (λ pin. pin.now) result ≡ common_of side pins.now }
{
    let Some(pins) = pins else {
        return None;
    };
    match side {
        Side::In => pins.input.as_ref(),
        Side::Out => pins.output.as_ref(),
    }
}

/// The common pin, where the scan paths have it.
fn common_pin(
    alloc: Global,
    side: Side,
    paths: &[ScanPath],
    common: Option<&TokenText<'_>>,
) -> Result<Option<Name>, NoMemory>
    ensures value { IfOk result (λ pin. pin ≡ common_pin side paths.now (option_map (λ c. c.now) common.entry)) }
{
    let Some(pin) = common else {
        return Ok(None);
    };
    let pin = plain(alloc, pin.text())?;
    if has_pin(side, paths, pin.bytes()) {
        Ok(Some(pin))
    } else {
        Ok(None)
    }
}

/// The pin that is written; where none is, the common pin that the scan paths have.
fn pin_or(
    alloc: Global,
    side: Side,
    paths: &[ScanPath],
    common: &Option<CommonPins<'_>>,
    written: &Option<TokenText<'_>>,
) -> Result<Option<Name>, NoMemory>
    ensures value { IfOk result (λ pin. pin ≡ pin_or side paths.now (common_of side common.now) written.now) }
{
    match written {
        Some(pin) => Ok(Some(plain(alloc, pin.text())?)),
        None => common_pin(alloc, side, paths, common_of(side, common)),
    }
}

fn bits_of(written: &Option<TokenText<'_>>) -> Option<u32>
    ensures value { result ≡ option_and_then bits_of written.now }
{
    match written {
        Some(digits) => bits(digits.text()),
        None => None,
    }
}

fn element_of(
    alloc: Global,
    cells: &Cells<'_>,
    common: &Option<CommonPins<'_>>,
    element: &ElementText<'_>,
) -> Result<Element, NoMemory>
    ensures value { IfOk result (λ e. e ≡ element_of cells.now.0 cells.now.1 common.now element.now) }
{
    let component = plain(alloc, element.name.text())?;
    let paths = cells.scan_paths(component.bytes());
    Ok(Element {
        input: pin_or(alloc, Side::In, paths, common, &element.input)?,
        output: pin_or(alloc, Side::Out, paths, common, &element.output)?,
        bits: bits_of(&element.bits),
        component,
    })
}

fn elements_of(
    alloc: Global,
    cells: &Cells<'_>,
    common: &Option<CommonPins<'_>>,
    written: &[ElementText<'_>],
) -> Result<Rows<Element>, NoMemory>
    ensures value { IfOk result (λ es. es ≡ map (element_of cells.now.0 cells.now.1 common.now) written.now) }
{
    let mut elements = Rows::with_room(alloc, written.len())?;
    for element in written {
        elements.push(element_of(alloc, cells, common, element)?)?;
    }
    Ok(elements)
}

fn list_of(
    alloc: Global,
    cells: &Cells<'_>,
    common: &Option<CommonPins<'_>>,
    list: &ListText<'_>,
) -> Result<ElementList, NoMemory>
    ensures value { IfOk result (λ l. l ≡ list_of cells.now.0 cells.now.1 common.now list.now) }
{
    match list {
        ListText::Floating(written) => Ok(ElementList::Floating(elements_of(
            alloc,
            cells,
            common,
            written.as_slice(),
        )?)),
        ListText::Ordered(written) => Ok(ElementList::Ordered(elements_of(
            alloc,
            cells,
            common,
            written.as_slice(),
        )?)),
    }
}

fn lists_of(
    alloc: Global,
    cells: &Cells<'_>,
    common: &Option<CommonPins<'_>>,
    written: &[ListText<'_>],
) -> Result<Rows<ElementList>, NoMemory>
    ensures value { IfOk result (λ ls. ls ≡ map (list_of cells.now.0 cells.now.1 common.now) written.now) }
{
    let mut lists = Rows::with_room(alloc, written.len())?;
    for list in written {
        lists.push(list_of(alloc, cells, common, list)?)?;
    }
    Ok(lists)
}

/// The end of a chain: START, which is left by an out pin, or STOP, which is entered by an in pin.
fn end_of(
    alloc: Global,
    side: Side,
    cells: &Cells<'_>,
    common: &Option<CommonPins<'_>>,
    terminal: &Terminal<'_>,
) -> Result<EndText, NoMemory>
    ensures value { IfOk result (λ e. e ≡ end_of side cells.now.0 cells.now.1 common.now terminal.now) }
{
    match terminal {
        Terminal::AtPin(pin) => Ok(EndText::Port(plain(alloc, pin.text())?)),
        Terminal::AtCell { component, pin } => {
            let component = plain(alloc, component.text())?;
            let paths = cells.scan_paths(component.bytes());
            let pin = pin_or(alloc, side, paths, common, pin)?;
            Ok(EndText::Cell { component, pin })
        }
    }
}

fn partition_of(alloc: Global, partition: &Option<Partition<'_>>) -> Result<Option<Name>, NoMemory>
    ensures value { IfOk result (λ p. p ≡ option_map (λ p. plain_name p.name) partition.now) }
{
    match partition {
        Some(partition) => Ok(Some(plain(alloc, partition.name.text())?)),
        None => Ok(None),
    }
}

/// The number of MAXBITS, 0 where it doesn't stand.
fn max_bits_of(partition: &Option<Partition<'_>>) -> u32
    ensures value { result ≡ unwrap_or (option_and_then bits_of (max_bits_in partition.now)) 0 }
{
    match partition {
        Some(partition) => bits_of(&partition.max_bits).unwrap_or(0),
        None => 0,
    }
}

fn has_max_bits(partition: &Option<Partition<'_>>) -> bool
    ensures value { result ≡ is_some (max_bits_in partition.now) }
{
    match partition {
        Some(partition) => partition.max_bits.is_some(),
        None => false,
    }
}

fn chain_of(
    alloc: Global,
    cells: &Cells<'_>,
    chain: &Located<Chain<'_>>,
) -> Result<ScanChainText, NoMemory>
    ensures value { IfOk result (λ c. c ≡ chain_of cells.now.0 cells.now.1 chain.now) }
{
    let statement = &chain.statement;
    let common = &statement.common_pins;
    Ok(ScanChainText {
        name: plain(alloc, statement.name.text())?,
        partition: partition_of(alloc, &statement.partition)?,
        max_bits: max_bits_of(&statement.partition),
        has_max_bits: has_max_bits(&statement.partition),
        start: end_of(alloc, Side::Out, cells, common, &statement.start)?,
        stop: end_of(alloc, Side::In, cells, common, &statement.stop)?,
        lists: lists_of(alloc, cells, common, statement.lists.as_slice())?,
        line: chain.line,
    })
}

/// The chains of their statements, which are let go.
pub(crate) fn chains_of(
    alloc: Global,
    cells: &Cells<'_>,
    statements: Rows<Located<Chain<'_>>>,
) -> Result<Rows<ScanChainText>, NoMemory>
    ensures value { IfOk result (λ chains. chains ≡ map (chain_of cells.now.0 cells.now.1) statements.entry) }
{
    let mut chains = Rows::with_room(alloc, statements.as_slice().len())?;
    for chain in statements.as_slice() {
        chains.push(chain_of(alloc, cells, chain)?)?;
    }
    Ok(chains)
}
