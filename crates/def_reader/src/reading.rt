//! The design of a text.
ghost use Rattle.std.specs.Prelude.{◌≡◌, ◌<◌, ◌^◌, ◌⊎◌, length, ℕ, List, option_map, IfOk, OnOk};
ghost use Rattle.std.specs.List.{find};
ghost use Rattle.base_types.specs.Faults.{at_line};
ghost use Rattle.base_types.specs.declared.fault.Fault.{Fault as ghost_fault};
ghost use Rattle.base_types.specs.declared.fault.FileKind.TheVariants.{Def as def_file};
ghost use Rattle.base_types.specs.declared.fault.ReadFault.TheVariants.{Fault as refused};
ghost use Rattle.base_types.specs.FirstFault.{IfFault, IsFirstFault};
ghost use Rattle.cell_table.specs.Cells.{Cells as ghost_cells};
ghost use Rattle.def_syntax.specs.declared.design.DesignText.{DesignText as ghost_text};
ghost use Rattle.def_reader.specs.declared.design.Design.{Design as ghost_design};
ghost use Rattle.def_reader.specs.Designs.{is_chains, chains_span, design_of};
ghost use Rattle.def_reader.specs.Faults.{StandsAgain, component_rows, pin_rows, TwiceAt, HoldsInDesign};
ghost use Rattle.def_reader.specs.Denoted.{DenotesDesign};
ghost use Rattle.def_reader.specs.Sound.{IsSound};
ghost use Rattle.list_laws.specs.Leasts.{IsLeast};

use crate::cells::Cells;
use crate::chains::chains_of;
use crate::connections::least_nets;
use crate::convert::{components_of, nets_of, pins_of};
use crate::design::Design;
use crate::index::Index;
use crate::judge::bad_number;
use crate::named_rows::NamedRows;
use crate::numbers::units;
use base_types::{Fault, FileKind, Kind, NoMemory, ReadFault, Rows, Span};
use cell_table::CellTable;
use def_syntax::{DesignText, Section, SectionKind, read_design_text};
use list_laws::lesser;
use std::alloc::Global;

fn is_chains(kind: SectionKind) -> bool
    ensures value { result ≡ is_chains kind }
{
    match kind {
        SectionKind::ScanChains => true,
        SectionKind::Components | SectionKind::Pins | SectionKind::Nets => false,
    }
}

/// The place of the SCANCHAINS section, where there is one.
fn chains_span(sections: &[Section]) -> Option<Span>
    ensures value { result ≡ chains_span sections.now }
{
    match sections.iter().find(|section| is_chains(section.kind)) {
        Some(section) => Some(section.span),
        None => None,
    }
}

/// The design that statements make, which are let go but for the sections; and the least line at which a component's or a
/// design pin's name stands that stood before.
#[tactic(auto, unfolding(crate::specs::Designs::design_of))]
fn design_of(
    alloc: Global,
    bytes: &[u8],
    table: &CellTable,
    text: DesignText<'_>,
) -> Result<(Design, Rows<Section>, Option<u64>), NoMemory>
    ensures value { IfOk result (λ r. r.0 ≡ design_of bytes.now table.now text.entry) }
    ensures sections { IfOk result (λ r. r.1 ≡ text.entry.sections) }
    ensures least { IfOk result (λ r. IsLeast (λ line. StandsAgain (component_rows r.0.components) line ⊎ StandsAgain (pin_rows r.0.pins) line) r.2) }
{
    let units = units(text.units.statement.number.text()).unwrap_or(0);
    let (components, component) = NamedRows::of(alloc, components_of(alloc, text.components)?)?;
    let (pins, pin) = NamedRows::of(alloc, pins_of(alloc, text.pins)?)?;
    let nets = nets_of(alloc, bytes, text.nets)?;
    let chains = chains_of(alloc, &Cells::of(table, &components), text.chains)?;
    let design = Design {
        units: i64::from(units),
        components,
        pins,
        nets,
        chains,
        chains_span: chains_span(text.sections.as_slice()),
    };
    Ok((design, text.sections, lesser(component, pin)))
}

/// The least line at which something of a design stands a second time; of its components and design pins it is given.
fn least_twice(
    alloc: Global,
    design: &Design,
    sections: &[Section],
    named: Option<u64>,
) -> Result<Option<u64>, NoMemory>
    requires named { IsLeast (λ line. StandsAgain (component_rows design.now.components) line ⊎ StandsAgain (pin_rows design.now.pins) line) named }
    ensures value { IfOk result (λ least. (text : List ℕ) (cells : ghost_cells) (t : ghost_text) → design.now ≡ design_of text cells t → sections.now ≡ t.sections → IsLeast (TwiceAt text t) least) }
{
    let (nets, connections) = least_nets(alloc, design.nets.as_slice())?;
    let (_, chains) = Index::of(alloc, design.chains.as_slice())?;
    let (_, again) = Index::of(alloc, sections)?;
    let named = lesser(named, lesser(nets, chains));
    Ok(lesser(named, lesser(again, connections)))
}

/// The fault of a statement on a line.
fn fault_at(kind: Kind, line: u64) -> ReadFault
    ensures value { result ≡ refused (at_line kind def_file line) }
{
    ReadFault::Fault(Fault::at_line(kind, FileKind::Def, line))
}

/// The placed design of a DEF text of less than 4 GiB, beside the table of scan cells, or its first fault: DefSyntax at the
/// first place where the text's form is wrong; then DefNumber, where the UNITS aren't 1 to 100000, a coordinate of a place that
/// counts lies outside 32 bits, or a BITS or MAXBITS exceeds 262144; then DefTwice, where a component, a design pin, a net or a
/// chain has a name that one before it has, a section stands a second time, or a connection does over all nets: each at the
/// least line that has it; or want of memory (LEF/DEF 5.8, in this profile).
pub fn read_design(alloc: Global, bytes: &[u8], table: &CellTable) -> Result<Design, ReadFault>
    requires size { length bytes.now < 2 ^ 32 }
    ensures design { IfOk result (DenotesDesign bytes.now table.now) }
    // Its numbers are within their limits, and each chain has a list with an element.
    ensures sound { IfOk result IsSound }
    ensures only { IfOk result (λ d. (other : ghost_design) → DenotesDesign bytes.now table.now other → other ≡ d) }
    ensures fault { IfFault result (IsFirstFault (HoldsInDesign bytes.now)) }
    ensures no_fault { OnOk result ((fault : ghost_fault) → HoldsInDesign bytes.now fault → ⊥) }
{
    let text = read_design_text(alloc, bytes)?;
    if let Some(line) = bad_number(&text) {
        return Err(fault_at(Kind::DefNumber, line));
    }
    let (design, sections, named) = design_of(alloc, bytes, table, text)?;
    if let Some(line) = least_twice(alloc, &design, sections.as_slice(), named)? {
        return Err(fault_at(Kind::DefTwice, line));
    }
    Ok(design)
}
