//! The moves of pins between paths.
ghost use Rattle.std.specs.Prelude.{◌≡◌, IfOk};
ghost use Rattle.std.specs.List.{filter_map};
ghost use Rattle.def_writer.specs.Moved.Moves.{moves_of};
ghost use Rattle.def_writer.specs.Moved.Sites.{move_by};

use crate::moved::pairs::{PinPair, pairs_of};
use crate::moved::sites::{Sites, site_of, sites_of};
use base_types::NoMemory;
use cell_table::CellTable;
use chain_trace::Path;
use def_edit::PinMove;
use def_reader::Design;
use net_edit::moved_links;
use netlist_core::Netlist;
use std::alloc::Global;

/// The move of a sink to the net of its source.
fn move_of(sites: &Sites<'_>, pair: PinPair<'_>) -> Option<PinMove>
    ensures value { result ≡ move_by sites.now pair.entry }
{
    let (from, place) = site_of(sites, pair.1)?;
    let (to, _) = site_of(sites, pair.0)?;
    Some(PinMove { from, place, to })
}

/// The moves of sinks to the nets of their sources, in the order of the pairs.
fn moves_of(
    alloc: Global,
    sites: &Sites<'_>,
    pairs: &[PinPair<'_>],
) -> Result<Vec<PinMove>, NoMemory>
    ensures value { IfOk result (λ moves. moves.items ≡ filter_map (move_by sites.now) pairs.now) }
{
    let mut moves = Vec::new(alloc);
    for pair in pairs {
        if let Some(pin_move) = move_of(sites, *pair) {
            moves.push(pin_move)?;
        }
    }
    Ok(moves)
}

/// The moves that the sinks with another source on the new paths make in a design: each from where it stands to the net of its new
/// source, in the order of the new paths; or want of memory, as which a number beyond 32 bits counts too.
pub fn moves_for(
    alloc: Global,
    netlist: &Netlist,
    table: &CellTable,
    design: &Design,
    old: &[Path],
    new: &[Path],
) -> Result<Vec<PinMove>, NoMemory>
    ensures value { IfOk result (λ moves. moves.items ≡ moves_of netlist.now table.now design.now old.now new.now) }
{
    let links = moved_links(alloc, old, new)?;
    let pairs = pairs_of(alloc, netlist, table, links.as_slice())?;
    let sites = sites_of(alloc, pairs.as_slice(), design.nets.as_slice())?;
    moves_of(alloc, &sites, pairs.as_slice())
}
