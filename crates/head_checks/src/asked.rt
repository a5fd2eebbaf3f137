//! What the blocks of a STIL head ask for, and the paths of it.
ghost use Rattle.std.specs.Prelude.{◌≡◌, ◌≤◌, List, length, map, IfOk, OnOk};
ghost use Rattle.base_types.specs.declared.fault.Fault.{Fault as ghost_fault};
ghost use Rattle.base_types.specs.declared.fault.FileKind.TheVariants.{Stil as stil_file};
ghost use Rattle.base_types.specs.FirstFault.{IfFault, IsFirstFault};
ghost use Rattle.netlist_core.specs.Netlists.{IsNetlist};
ghost use Rattle.netlist_core.specs.Joining.{AreClassesOf};
ghost use Rattle.chain_trace.specs.declared.path.Path.{Path as ghost_path};
ghost use Rattle.traced_paths.specs.Asked.{told};
ghost use Rattle.traced_paths.specs.Traced.{ArePathsOf, HoldsInPaths, NameEntries};
ghost use Rattle.head_checks.specs.Asked.{asked_by_block, asked_by_head};

use base_types::{FileKind, NoMemory, ReadFault};
use cell_table::CellTable;
use chain_trace::Path;
use netlist_core::{Classes, Netlist};
use std::alloc::Global;
use stil_types::{ScanChainDecl, StilHead};
use traced_paths::{Ask, trace_asked};

fn ask_of_block(block: &ScanChainDecl) -> Ask<'_>
    ensures value { told result ≡ asked_by_block block.now }
{
    Ask {
        input: Some(block.scan_in.bytes()),
        output: Some(block.scan_out.bytes()),
        line: block.line,
    }
}

fn asks_of_blocks(alloc: Global, blocks: &[ScanChainDecl]) -> Result<Vec<Ask<'_>>, NoMemory>
    ensures value { IfOk result (λ asks. map told asks.items ≡ map asked_by_block blocks.now) }
{
    let mut asks = Vec::new(alloc);
    for block in blocks {
        asks.push(ask_of_block(block))?;
    }
    Ok(asks)
}

/// What a head asks for: the paths of its ScanChain blocks.
pub fn asks_of_head(alloc: Global, head: &StilHead) -> Result<Vec<Ask<'_>>, NoMemory>
    ensures value { IfOk result (λ asks. map told asks.items ≡ asked_by_head head.now) }
{
    asks_of_blocks(alloc, head.chains.as_slice())
}

/// The paths of the outputs that a STIL head asks for by its ScanChain blocks, in file order, each port once (IEEE 1450-1999,
/// ScanStructures).
///
/// Refused by the first fault, of the least kind and of these at the least line: NoPort, where an input that is asked for is no bit of an
/// input or inout port, or an output none of an output or inout port; TooManyPaths, at the chain that asks for the 257th path; NoDriver,
/// TwoDrivers or Loop, where going backward from an output such a fault is met; SharedCell, where a scan path of an instance stands on two
/// of the paths, at the instance's line.
///
/// It goes over the netlist once for all paths; a chain takes constant time, and a step of a path too.
pub fn head_paths(
    alloc: Global,
    netlist: &Netlist,
    classes: &Classes,
    table: &CellTable,
    head: &StilHead,
) -> Result<Vec<Path>, ReadFault>
    requires netlist { IsNetlist netlist.now }
    requires classes { AreClassesOf netlist.now classes.now }
    ensures paths { IfOk result (λ paths. ArePathsOf netlist.now table.now (asked_by_head head.now) paths.items) }
    ensures only { IfOk result (λ paths. (other : List ghost_path) → ArePathsOf netlist.now table.now (asked_by_head head.now) other → other ≡ paths.items) }
    // So their bits can be told.
    ensures entries { IfOk result (λ paths. NameEntries netlist.now table.now paths.items) }
    ensures few { IfOk result (λ paths. length paths.items ≤ 256) }
    ensures fault { IfFault result (IsFirstFault (HoldsInPaths netlist.now table.now stil_file (asked_by_head head.now))) }
    ensures no_fault { OnOk result ((fault : ghost_fault) → HoldsInPaths netlist.now table.now stil_file (asked_by_head head.now) fault → ⊥) }
{
    let asks = asks_of_head(alloc, head)?;
    trace_asked(
        alloc,
        netlist,
        classes,
        table,
        asks.as_slice(),
        FileKind::Stil,
    )
}
