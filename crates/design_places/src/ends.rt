//! Where units and chains begin and end.
ghost use Rattle.std.specs.Prelude.{◌≡◌, ◌+◌, All, IfOk, map};
ghost use Rattle.wire_cost.specs.Lengths.{ArePlaced, AreNear, IsNear, IsNearOrNowhere};
ghost use Rattle.def_reader.specs.Sound.{IsSound};
ghost use Rattle.lef_pins.specs.Places.{IsMeasured};
ghost use Rattle.design_places.specs.Ends.{point_or_origin, source_on, sink_on, ends_of};
ghost use Rattle.design_places.specs.Layouts.{IsFit, AreNearOrNowhere};

use crate::layout::Layout;
use base_types::{NoMemory, Point, Rows};
use cell_table::CellTable;
use chain_rules::{ChainRule, Rules, Unit};
use chain_trace::Path;
use def_reader::Design;
use lef_pins::Macros;
use netlist_core::Netlist;
use std::alloc::Global;
use wire_cost::Ends;

/// The point, and the origin where there is none.
fn or_origin(point: Option<Point>) -> Point
    requires near { IsNearOrNowhere point }
    ensures value { result ≡ point_or_origin point }
    ensures near { IsNear result }
{
    match point {
        Some(point) => point,
        None => Point { x: 0, y: 0 },
    }
}

/// Where the units are entered.
fn entries_of(
    alloc: Global,
    layout: &Layout<'_>,
    paths: &[Path],
    units: &[Unit],
) -> Result<Rows<Point>, NoMemory>
    requires fit { IsFit layout.now }
    ensures value { IfOk result (λ rows. rows ≡ map (λ u. point_or_origin (sink_on layout.now.netlist layout.now.cells layout.now.macros layout.now.design paths.now u.path u.first)) units.now) }
    ensures near { IfOk result AreNear }
{
    let mut rows = Rows::with_room(alloc, units.len())?;
    for unit in units {
        rows.push(or_origin(layout.sink_on(paths, unit.path, unit.first as usize)))?;
    }
    Ok(rows)
}

/// Where the units are left.
fn exits_of(
    alloc: Global,
    layout: &Layout<'_>,
    paths: &[Path],
    units: &[Unit],
) -> Result<Rows<Point>, NoMemory>
    requires fit { IsFit layout.now }
    ensures value { IfOk result (λ rows. rows ≡ map (λ u. point_or_origin (source_on layout.now.netlist layout.now.cells layout.now.macros layout.now.design paths.now u.path (u.last + 1))) units.now) }
    ensures near { IfOk result AreNear }
{
    let mut rows = Rows::with_room(alloc, units.len())?;
    for unit in units {
        rows.push(or_origin(layout.source_on(paths, unit.path, unit.last as usize + 1)))?;
    }
    Ok(rows)
}

/// Where the chains start.
fn starts_of(
    alloc: Global,
    layout: &Layout<'_>,
    paths: &[Path],
    chains: &[ChainRule],
) -> Result<Rows<Option<Point>>, NoMemory>
    requires fit { IsFit layout.now }
    ensures value { IfOk result (λ rows. rows ≡ map (λ r. source_on layout.now.netlist layout.now.cells layout.now.macros layout.now.design paths.now r.path r.first) chains.now) }
    ensures near { IfOk result AreNearOrNowhere }
{
    let mut rows = Rows::with_room(alloc, chains.len())?;
    for chain in chains {
        rows.push(layout.source_on(paths, chain.path, chain.first as usize))?;
    }
    Ok(rows)
}

/// Where the chains stop.
fn stops_of(
    alloc: Global,
    layout: &Layout<'_>,
    paths: &[Path],
    chains: &[ChainRule],
) -> Result<Rows<Option<Point>>, NoMemory>
    requires fit { IsFit layout.now }
    ensures value { IfOk result (λ rows. rows ≡ map (λ r. sink_on layout.now.netlist layout.now.cells layout.now.macros layout.now.design paths.now r.path (r.last + 1)) chains.now) }
    ensures near { IfOk result AreNearOrNowhere }
{
    let mut rows = Rows::with_room(alloc, chains.len())?;
    for chain in chains {
        rows.push(layout.sink_on(paths, chain.path, chain.last as usize + 1))?;
    }
    Ok(rows)
}

/// Where the units and the chains of the rules begin and end, in half database units: a unit is entered at the in pin of its first step
/// and left at the out pin of its last; a chain comes from the source before its first unit and goes to the sink behind its last. A port
/// stands at twice the placement point of its design pin, or nowhere.
pub fn ends_of(
    alloc: Global,
    netlist: &Netlist,
    table: &CellTable,
    macros: &Macros,
    design: &Design,
    paths: &[Path],
    rules: &Rules,
) -> Result<Ends, NoMemory>
    requires design { IsSound design.now }
    requires macros { All (λ m. IsMeasured m.1) macros.now }
    ensures value { IfOk result (λ ends. ends ≡ ends_of netlist.now table.now macros.now design.now paths.now rules.now) }
    // Every place is near enough to be measured.
    ensures placed { IfOk result ArePlaced }
{
    let layout = Layout::of(netlist, table, macros, design);
    let units = rules.units.as_slice();
    let chains = rules.chains.as_slice();
    Ok(Ends {
        entry: entries_of(alloc, &layout, paths, units)?,
        exit: exits_of(alloc, &layout, paths, units)?,
        start: starts_of(alloc, &layout, paths, chains)?,
        stop: stops_of(alloc, &layout, paths, chains)?,
    })
}
