//! What is asked for, by the chains of a design or the blocks of a STIL head, and the paths of it.
ghost use Rattle.std.specs.Prelude.{◌≡◌, ◌≤◌, List, length, map, option_map, IfOk, OnOk};
ghost use Rattle.base_types.specs.declared.fault.Fault.{Fault as ghost_fault};
ghost use Rattle.base_types.specs.FirstFault.{IfFault, IsFirstFault};
ghost use Rattle.netlist_core.specs.Netlists.{IsNetlist};
ghost use Rattle.netlist_core.specs.Joining.{AreClassesOf};
ghost use Rattle.chain_trace.specs.declared.path.Path.{Path as ghost_path};
ghost use Rattle.traced_paths.specs.Asked.{told};
ghost use Rattle.traced_paths.specs.Traced.{ArePathsOf, HoldsInPaths, NameEntries};
ghost use Rattle.head_chains.specs.Asked.{port_at, asked_by_chain, asked_by, file_of};

use base_types::{FileKind, NoMemory, ReadFault};
use cell_table::CellTable;
use chain_trace::Path;
use def_reader::{Design, EndText, ScanChainText};
use head_checks::asks_of_head;
use netlist_core::{Classes, Netlist};
use std::alloc::Global;
use stil_types::StilHead;
use traced_paths::{Ask, trace_asked};

/// The port at START PIN or STOP PIN.
fn port_at(end: &EndText) -> Option<&[u8]>
    ensures value { option_map (λ name. name.now) result ≡ port_at end.now }
{
    match end {
        EndText::Port(name) => Some(name.bytes()),
        EndText::Cell { .. } => None,
    }
}

fn ask_of_chain(chain: &ScanChainText) -> Ask<'_>
    ensures value { told result ≡ asked_by_chain chain.now }
{
    Ask {
        input: port_at(&chain.start),
        output: port_at(&chain.stop),
        line: chain.line,
    }
}

fn asks_of_chains(alloc: Global, chains: &[ScanChainText]) -> Result<Vec<Ask<'_>>, NoMemory>
    ensures value { IfOk result (λ asks. map told asks.items ≡ map asked_by_chain chains.now) }
{
    let mut asks = Vec::new(alloc);
    for chain in chains {
        asks.push(ask_of_chain(chain))?;
    }
    Ok(asks)
}

/// What is asked for: by the head where there is one, else by the design.
fn asks_of<'a>(
    alloc: Global,
    design: Option<&'a Design>,
    head: Option<&'a StilHead>,
) -> Result<Vec<Ask<'a>>, NoMemory>
    ensures value { IfOk result (λ asks. map told asks.items ≡ asked_by (option_map (λ d. d.now) design.entry) (option_map (λ h. h.now) head.entry)) }
{
    match head {
        Some(head) => asks_of_head(alloc, head),
        None => match design {
            Some(design) => asks_of_chains(alloc, design.chains.as_slice()),
            None => Ok(Vec::new(alloc)),
        },
    }
}

/// The file that asks.
fn file_of(head: Option<&StilHead>) -> FileKind
    ensures value { result ≡ file_of (option_map (λ h. h.now) head.entry) }
{
    match head {
        Some(_) => FileKind::Stil,
        None => FileKind::Def,
    }
}

/// The paths of the outputs that a STIL head asks for by its ScanChain blocks, or else a design by the ports at STOP PIN: in file order,
/// each port once (IEEE 1450-1999, ScanStructures; LEF/DEF 5.8, SCANCHAINS).
///
/// Refused by the first fault, of the least kind and of these at the least line: NoPort, where an input that is asked for, which in a
/// design is a port at START PIN, is no bit of an input or inout port, or an output none of an output or inout port; TooManyPaths, at the
/// chain that asks for the 257th path; NoDriver, TwoDrivers or Loop, where going backward from an output such a fault is met; SharedCell,
/// where a scan path of an instance stands on two of the paths, at the instance's line.
///
/// It goes over the netlist once for all paths; a chain takes constant time, and a step of a path too.
pub fn paths_of(
    alloc: Global,
    netlist: &Netlist,
    classes: &Classes,
    table: &CellTable,
    design: Option<&Design>,
    head: Option<&StilHead>,
) -> Result<Vec<Path>, ReadFault>
    requires netlist { IsNetlist netlist.now }
    requires classes { AreClassesOf netlist.now classes.now }
    ensures paths { IfOk result (λ paths. ArePathsOf netlist.now table.now (asked_by (option_map (λ d. d.now) design.entry) (option_map (λ h. h.now) head.entry)) paths.items) }
    ensures only { IfOk result (λ paths. (other : List ghost_path) → ArePathsOf netlist.now table.now (asked_by (option_map (λ d. d.now) design.entry) (option_map (λ h. h.now) head.entry)) other → other ≡ paths.items) }
    // So their bits can be told.
    ensures entries { IfOk result (λ paths. NameEntries netlist.now table.now paths.items) }
    ensures few { IfOk result (λ paths. length paths.items ≤ 256) }
    ensures fault { IfFault result (IsFirstFault (HoldsInPaths netlist.now table.now (file_of (option_map (λ h. h.now) head.entry)) (asked_by (option_map (λ d. d.now) design.entry) (option_map (λ h. h.now) head.entry)))) }
    ensures no_fault { OnOk result ((fault : ghost_fault) → HoldsInPaths netlist.now table.now (file_of (option_map (λ h. h.now) head.entry)) (asked_by (option_map (λ d. d.now) design.entry) (option_map (λ h. h.now) head.entry)) fault → ⊥) }
{
    let asks = asks_of(alloc, design, head)?;
    trace_asked(
        alloc,
        netlist,
        classes,
        table,
        asks.as_slice(),
        file_of(head),
    )
}
