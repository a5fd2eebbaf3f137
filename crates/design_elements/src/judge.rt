//! The judgements of what chains name, each over all chains.
ghost use Rattle.std.specs.Prelude.{◌≡◌};
ghost use Rattle.std.specs.List.{list_any};
ghost use Rattle.def_reader.specs.Sound.{elements_in};
ghost use Rattle.list_laws.specs.Leasts.{IsLeast};
ghost use Rattle.design_elements.specs.CellPins.{start_pins, stop_pins};
ghost use Rattle.design_elements.specs.Faults.{is_unplaced, has_other_bits, has_no_macro};
ghost use Rattle.design_elements.specs.Judging.{pins_at, pins_fail, element_fails, chain_fails, IsBadChain};

use crate::cells::Cells;
use crate::pins::{Pins, elements_in, pins_of};
use def_reader::{Element, ElementList, EndText, ScanChainText};
use lef_pins::Macros;
use list_laws::{lesser, line_if};

/// What is judged of what a chain names.
#[derive(Clone, Copy)]
pub(crate) enum Judgement {
    /// It is no component, or the table hasn't its cell.
    Unknown,
    /// It isn't placed.
    Unplaced,
    /// Its pins tell no scan path.
    Pin,
    /// The BITS of an element aren't those of its scan path.
    Bits,
    /// Its cell has no macro.
    Macro,
}

fn is_unplaced(cells: &Cells<'_>, pins: Pins<'_>) -> bool
    ensures value { result ≡ is_unplaced cells.now.1 (pins_at pins.entry) }
{
    match cells.find(pins.component.bytes()) {
        Some(component) => component.place.is_none(),
        None => false,
    }
}

fn has_no_macro(cells: &Cells<'_>, macros: &Macros, pins: Pins<'_>) -> bool
    ensures value { result ≡ has_no_macro macros.now cells.now.1 (pins_at pins.entry) }
{
    match cells.find(pins.component.bytes()) {
        Some(component) => macros.get(&component.cell).is_none(),
        None => false,
    }
}

fn pins_fail(judgement: Judgement, cells: &Cells<'_>, macros: &Macros, pins: Pins<'_>) -> bool
    ensures value { result ≡ pins_fail judgement cells.now.0 macros.now cells.now.1 (pins_at pins.entry) }
{
    match judgement {
        Judgement::Unknown => cells.entry(pins.component.bytes()).is_none(),
        Judgement::Unplaced => is_unplaced(cells, pins),
        Judgement::Pin => cells.path_number(pins).is_none(),
        Judgement::Bits => false,
        Judgement::Macro => has_no_macro(cells, macros, pins),
    }
}

fn has_other_bits(cells: &Cells<'_>, element: &Element) -> bool
    ensures value { result ≡ has_other_bits cells.now.0 cells.now.1 element.now }
{
    match (element.bits, cells.path_named(pins_of(element))) {
        (Some(bits), Some(path)) => u64::from(bits) != path.bits.as_slice().len() as u64,
        (Some(_), None) | (None, _) => false,
    }
}

fn element_fails(
    judgement: Judgement,
    cells: &Cells<'_>,
    macros: &Macros,
    element: &Element,
) -> bool
    ensures value { result ≡ element_fails judgement cells.now.0 macros.now cells.now.1 element.now }
{
    match judgement {
        Judgement::Bits => has_other_bits(cells, element),
        Judgement::Unknown | Judgement::Unplaced | Judgement::Pin | Judgement::Macro => {
            pins_fail(judgement, cells, macros, pins_of(element))
        }
    }
}

fn list_fails(judgement: Judgement, cells: &Cells<'_>, macros: &Macros, list: &ElementList) -> bool
    ensures value { result ≡ list_any (element_fails judgement cells.now.0 macros.now cells.now.1) (elements_in list.now) }
{
    elements_in(list)
        .iter()
        .any(|element| element_fails(judgement, cells, macros, element))
}

fn lists_fail(
    judgement: Judgement,
    cells: &Cells<'_>,
    macros: &Macros,
    lists: &[ElementList],
) -> bool
    ensures value { result ≡ list_any (λ list. list_any (element_fails judgement cells.now.0 macros.now cells.now.1) (elements_in list)) lists.now }
{
    lists
        .iter()
        .any(|list| list_fails(judgement, cells, macros, list))
}

fn start_fails(judgement: Judgement, cells: &Cells<'_>, macros: &Macros, start: &EndText) -> bool
    ensures value { result ≡ list_any (pins_fail judgement cells.now.0 macros.now cells.now.1) (start_pins start.now) }
{
    match start {
        EndText::Port(_) => false,
        EndText::Cell { component, pin } => {
            let pins = Pins {
                component,
                input: None,
                output: pin.as_ref(),
            };
            pins_fail(judgement, cells, macros, pins)
        }
    }
}

fn stop_fails(judgement: Judgement, cells: &Cells<'_>, macros: &Macros, stop: &EndText) -> bool
    ensures value { result ≡ list_any (pins_fail judgement cells.now.0 macros.now cells.now.1) (stop_pins stop.now) }
{
    match stop {
        EndText::Port(_) => false,
        EndText::Cell { component, pin } => {
            let pins = Pins {
                component,
                input: pin.as_ref(),
                output: None,
            };
            pins_fail(judgement, cells, macros, pins)
        }
    }
}

/// Whether the START, the STOP or an element of a chain fails a judgement.
fn chain_fails(
    judgement: Judgement,
    cells: &Cells<'_>,
    macros: &Macros,
    chain: &ScanChainText,
) -> bool
    ensures value { result ≡ chain_fails judgement cells.now.0 macros.now cells.now.1 chain.now }
{
    start_fails(judgement, cells, macros, &chain.start)
        || stop_fails(judgement, cells, macros, &chain.stop)
        || lists_fail(judgement, cells, macros, chain.lists.as_slice())
}

/// The least line of a chain of which something fails a judgement. Takes no memory.
pub(crate) fn least_failing(
    judgement: Judgement,
    cells: &Cells<'_>,
    macros: &Macros,
    chains: &[ScanChainText],
) -> Option<u64>
    ensures value { IsLeast (IsBadChain (λ _ chain. chain_fails judgement cells.now.0 macros.now cells.now.1 chain) chains.now) result }
{
    let mut least = None;
    for chain in chains {
        let fails = chain_fails(judgement, cells, macros, chain);
        least = lesser(least, line_if(fails, chain.line));
    }
    least
}
