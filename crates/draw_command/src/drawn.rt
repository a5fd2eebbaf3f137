//! What is drawn of the chains of a design.
ghost use Rattle.std.specs.Prelude.{◌≡◌, ◌++◌, ◌<◌, ◌≤◌, nat_lt, if◌then◌else◌, length, slice_index_or, All, Some, [], IfOk, OnOk};
ghost use Rattle.chain_rules.specs.Legality.{bits_of, chain_at, unit_at};
ghost use Rattle.lef_pins.specs.Places.{IsMeasured};
ghost use Rattle.def_reader.specs.Sound.{IsSound};
ghost use Rattle.wire_cost.specs.Lengths.{ArePlaced, IsChainAt, IsPlanAt, chain_ends};
ghost use Rattle.draw_command.specs.Drawn.{drawn_chain, drawn_from, segment_between, segments_from, spans_of};

use crate::cells::Cells;
use base_types::{Name, NoMemory, Point, Rows};
use chain_picture::{DrawnChain, Segment};
use chain_rules::Rules;
use def_reader::{Design, ScanChainText};
use lef_pins::Macros;
use std::alloc::Global;
use wire_cost::{Ends, entry_of, exit_of, wire_of};

/// Appends the way between two points, where both of them stand somewhere.
fn push_between(
    segments: &mut Vec<Segment>,
    from: Option<Point>,
    to: Option<Point>,
) -> Result<(), NoMemory>
    ensures value { OnOk result (segments.new.items ≡ segments.old.items ++ segment_between from to) }
{
    if let (Some(from), Some(to)) = (from, to) {
        segments.push(Segment { from, to })?;
    }
    Ok(())
}

/// The links of a chain that count in its length.
fn links_of(alloc: Global, ends: &Ends, chain: u32, units: &[u32]) -> Result<Vec<Segment>, NoMemory>
    requires placed { ArePlaced ends.now }
    requires chain { IsChainAt ends.now chain units.now }
    ensures value { let w = chain_ends ends.now chain in IfOk result (λ links. links.items ≡ segments_from w w.start units.now) }
{
    let mut links = Vec::new(alloc);
    let mut from = ends.start.as_slice()[chain as usize];
    for unit in units {
        push_between(&mut links, from, Some(entry_of(ends, *unit)))?;
        from = Some(exit_of(ends, *unit));
    }
    push_between(&mut links, from, ends.stop.as_slice()[chain as usize])?;
    Ok(links)
}

/// Whether a unit has several cells.
fn has_several(rules: &Rules, unit: u32) -> bool
    ensures value { result ≡ nat_lt (unit_at rules.now unit).first (unit_at rules.now unit).last }
{
    match rules.units.as_slice().get(unit as usize) {
        Some(unit) => unit.first < unit.last,
        None => false,
    }
}

/// The units of several cells, from entry to exit.
fn spans_of(
    alloc: Global,
    rules: &Rules,
    ends: &Ends,
    chain: u32,
    units: &[u32],
) -> Result<Vec<Segment>, NoMemory>
    requires placed { ArePlaced ends.now }
    requires chain { IsChainAt ends.now chain units.now }
    ensures value { IfOk result (λ spans. spans.items ≡ spans_of rules.now (chain_ends ends.now chain) units.now) }
{
    let mut spans = Vec::new(alloc);
    for unit in units {
        if has_several(rules, *unit) {
            let from = Some(entry_of(ends, *unit));
            push_between(&mut spans, from, Some(exit_of(ends, *unit)))?;
        }
    }
    Ok(spans)
}

/// How many bits a unit has.
fn unit_bits(rules: &Rules, unit: u32) -> u32
    ensures value { result ≡ (unit_at rules.now unit).bits }
{
    match rules.units.as_slice().get(unit as usize) {
        Some(unit) => unit.bits,
        None => 0,
    }
}

/// How many bits units have together.
fn bits_of(rules: &Rules, units: &[u32]) -> u64
    requires few { length units.now ≤ 65536 }
    ensures value { result ≡ bits_of rules.now units.now }
{
    let mut bits = 0;
    for unit in units {
        bits += u64::from(unit_bits(rules, *unit));
    }
    bits
}

/// What is drawn of the chain of a number.
fn drawn_chain(
    alloc: Global,
    cells: &Cells<'_>,
    rules: &Rules,
    ends: &Ends,
    number: usize,
    chain: &ScanChainText,
) -> Result<DrawnChain, NoMemory>
    requires design { IsSound cells.now.1 }
    requires macros { All (λ m. IsMeasured m.1) cells.now.0 }
    requires placed { ArePlaced ends.now }
    requires plan { IsPlanAt ends.now rules.now.read }
    requires within { number < length rules.now.read.chains }
    ensures value { IfOk result (λ drawn. drawn ≡ drawn_chain cells.now.0 cells.now.1 rules.now ends.now number chain.now) }
{
    let units = rules.read.chain(number);
    let place = number as u32;
    Ok(DrawnChain {
        name: Name::copy(alloc, chain.name.bytes())?,
        units: units.len() as u64,
        bits: bits_of(rules, units),
        length: wire_of(ends, place, units),
        start: ends.start.as_slice()[number],
        stop: ends.stop.as_slice()[number],
        links: Rows::of(links_of(alloc, ends, place, units)?),
        spans: Rows::of(spans_of(alloc, rules, ends, place, units)?),
        cells: Rows::of(cells.of_lists(alloc, chain.lists.as_slice())?),
    })
}

/// What is drawn of each chain of a design, as read.
pub(crate) fn drawn_of(
    alloc: Global,
    macros: &Macros,
    design: &Design,
    rules: &Rules,
    ends: &Ends,
) -> Result<Vec<DrawnChain>, NoMemory>
    requires design { IsSound design.now }
    requires macros { All (λ m. IsMeasured m.1) macros.now }
    requires placed { ArePlaced ends.now }
    requires plan { IsPlanAt ends.now rules.now.read }
    requires count { length design.now.chains ≡ length rules.now.read.chains }
    ensures value { IfOk result (λ drawn. drawn.items ≡ drawn_from macros.now design.now rules.now ends.now 0 design.now.chains) }
    ensures few { IfOk result (λ drawn. length drawn.items ≤ 65536) }
{
    let cells = Cells::of(macros, design);
    let chains = design.chains.as_slice();
    let mut drawn = Vec::with_capacity(alloc, chains.len())?;
    for number in 0..chains.len() {
        drawn.push(drawn_chain(alloc, &cells, rules, ends, number, &chains[number])?)?;
    }
    Ok(drawn)
}
