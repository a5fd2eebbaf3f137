//! The declarations of a head beside the paths of their ScanOuts.
ghost use Rattle.std.specs.Prelude.{◌≡◌, length, Contains, IfOk, OnOk, true};
ghost use Rattle.base_types.specs.Faults.{at_line};
ghost use Rattle.base_types.specs.declared.fault.Fault.{Fault as ghost_fault};
ghost use Rattle.base_types.specs.declared.fault.FileKind.TheVariants.{Stil as stil_file};
ghost use Rattle.base_types.specs.declared.fault.ReadFault.TheVariants.{Fault as refused};
ghost use Rattle.base_types.specs.FirstFault.{IfFault, IsFirstFault};
ghost use Rattle.std.specs.List.{zip};
ghost use Rattle.list_laws.specs.Leasts.{IsLeast};
ghost use Rattle.head_checks.specs.Heads.{FailsOn, line_of, HoldsInHeads, are_listed};

use crate::tests::{OtherCells, OtherInversion, OtherLength, OtherPort, Test};
use base_types::{Fault, FileKind, Kind, NoMemory, ReadFault};
use cell_table::CellTable;
use chain_trace::Path;
use list_laws::{lesser, line_if};
use netlist_core::Netlist;
use std::alloc::Global;
use stil_types::{ScanChainDecl, StilHead};

/// The least line of a declaration that fails a test beside its path.
fn least_failing<T: Test>(
    alloc: Global,
    test: &T,
    chains: &[ScanChainDecl],
    paths: &[Path],
) -> Result<Option<u64>, NoMemory>
    ensures value { IfOk result (IsLeast (FailsOn (T.fails test.now) line_of (zip chains.now paths.now))) }
{
    let mut least = None;
    for k in 0..chains.len().min(paths.len()) {
        let fails = test.fails(alloc, &chains[k], &paths[k])?;
        least = lesser(least, line_if(fails, chains[k].line));
    }
    Ok(least)
}

fn are_listed(chains: &[ScanChainDecl]) -> bool
    ensures value { result ≡ are_listed chains.now }
{
    chains.iter().any(|chain| chain.cells.is_some())
}

/// The fault of a declaration on a line.
fn fault_at(kind: Kind, line: u64) -> ReadFault
    ensures value { result ≡ refused (at_line kind stil_file line) }
{
    ReadFault::Fault(Fault::at_line(kind, FileKind::Stil, line))
}

/// Whether the declarations of a head (IEEE 1450-1999, ScanChain) fit the paths of their ScanOuts, which are given in their order. Else the
/// first fault: WrongPort where the path begins at another port than the declared ScanIn; LengthDiffers where its bits aren't
/// ScanLength; InversionDiffers where ScanInversion stands there and isn't the path's parity; CellsDiffer where some chains have
/// ScanCells and this one hasn't, or its list doesn't name the path's bits in order; each at the least line of a ScanChain that has
/// it; or want of memory.
pub fn check_heads(
    alloc: Global,
    netlist: &Netlist,
    table: &CellTable,
    paths: &[Path],
    head: &StilHead,
) -> Result<(), ReadFault>
    ensures fault { IfFault result (IsFirstFault (HoldsInHeads netlist.now table.now paths.now head.now)) }
    ensures no_fault { OnOk result ((fault : ghost_fault) → HoldsInHeads netlist.now table.now paths.now head.now fault → ⊥) }
{
    let chains = head.chains.as_slice();
    let port = OtherPort { netlist };
    if let Some(line) = least_failing(alloc, &port, chains, paths)? {
        return Err(fault_at(Kind::WrongPort, line));
    }
    let length = OtherLength { netlist, table };
    if let Some(line) = least_failing(alloc, &length, chains, paths)? {
        return Err(fault_at(Kind::LengthDiffers, line));
    }
    let inversion = OtherInversion { netlist, table };
    if let Some(line) = least_failing(alloc, &inversion, chains, paths)? {
        return Err(fault_at(Kind::InversionDiffers, line));
    }
    let listed = are_listed(chains);
    let cells = OtherCells {
        netlist,
        table,
        listed,
    };
    if let Some(line) = least_failing(alloc, &cells, chains, paths)? {
        return Err(fault_at(Kind::CellsDiffer, line));
    }
    Ok(())
}
