//! The scan chains that the head of a STIL text declares, on the paths of a netlist.
ghost use Rattle.std.specs.Prelude.{◌≡◌, ◌<◌, ◌^◌, length, map, IfOk, OnOk};
ghost use Rattle.base_types.specs.declared.fault.Fault.{Fault as ghost_fault};
ghost use Rattle.base_types.specs.FirstFault.{IfFault, IsFirstFault};
ghost use Rattle.path_chains.specs.Numbered.{bits_along};
ghost use Rattle.traced_paths.specs.Traced.{NameEntries};
ghost use Rattle.declared_chains.specs.Faults.{HoldsBeforePatterns};
ghost use Rattle.declared_chains.specs.Stages.{AreDeclared, HoldsInDeclared};

use base_types::{NoMemory, ReadFault, Rows};
use cell_table::{CellTable, read_table};
use chain_trace::{Path, PathBits, bits_of};
use head_checks::{check_heads, head_paths};
use netlist_core::{Netlist, classes_of};
use path_chains::chains_for;
use std::alloc::Global;
use stil_reader::{StilHead, read_head};
use stil_tester::Chains;
use traced_paths::check_bits;
use verilog_reader::read_netlist;

/// What a head denotes, and the chains that it declares on a netlist.
#[derive(Drop)]
pub struct Declared {
    pub head: StilHead,
    pub netlist: Netlist,
    /// The bits of each chain's path, in the order of the chains.
    pub bits: Rows<PathBits>,
    /// The chains, their cells numbered by the names of the instances, then by scan path and bit.
    pub chains: Chains,
}

/// The bits of each path.
fn bits_of_each(
    alloc: Global,
    netlist: &Netlist,
    table: &CellTable,
    paths: &[Path],
) -> Result<Rows<PathBits>, NoMemory>
    requires entries { NameEntries netlist.now table.now paths.now }
    ensures value { IfOk result (λ bits. bits ≡ map (bits_along netlist.now table.now) paths.now) }
{
    let mut bits = Rows::new(alloc);
    for path in paths {
        bits.push(bits_of(alloc, netlist, table, path)?)?;
    }
    Ok(bits)
}

/// Whether a head's declarations fit the paths of its ScanOuts, and these have few bits; or the first fault of these.
fn check_declared(
    alloc: Global,
    netlist: &Netlist,
    table: &CellTable,
    head: &StilHead,
    paths: &[Path],
) -> Result<(), ReadFault>
    requires entries { NameEntries netlist.now table.now paths.now }
    ensures fault { IfFault result (IsFirstFault (HoldsInDeclared netlist.now table.now paths.now head.now)) }
    ensures no_fault { OnOk result ((fault : ghost_fault) → HoldsInDeclared netlist.now table.now paths.now head.now fault → ⊥) }
{
    check_heads(alloc, netlist, table, paths, head)?;
    if let Err(fault) = check_bits(netlist, table, paths) {
        return Err(ReadFault::Fault(fault));
    }
    Ok(())
}

/// The head of a STIL text and the chains that it declares, on the netlist of a Verilog text by the cells of a table. `head` is the text
/// of the head alone, of less than 4 GiB, as the Verilog.
///
/// Refused by the first fault, that of the least kind: of the table (TableSyntax, TableShape), of the Verilog (VerilogSyntax,
/// SecondModule, VerilogNumber, VerilogTwice, BadSelect), of the head (StilSyntax, StilTwice, Unsupported), of the paths of its
/// chains (NoPort, TooManyPaths, NoDriver, TwoDrivers, Loop, SharedCell), of its declarations beside these (WrongPort,
/// LengthDiffers, InversionDiffers, CellsDiffer), or TooManyBits.
pub fn read_declared(
    alloc: Global,
    table: &[u8],
    verilog: &[u8],
    head: &[u8],
) -> Result<Declared, ReadFault>
    requires small { length verilog.now < 2 ^ 32 }
    requires small_head { length head.now < 2 ^ 32 }
    ensures value { IfOk result (AreDeclared table.now verilog.now head.now) }
    ensures fault { IfFault result (IsFirstFault (HoldsBeforePatterns table.now verilog.now head.now)) }
    ensures no_fault { OnOk result ((fault : ghost_fault) → HoldsBeforePatterns table.now verilog.now head.now fault → ⊥) }
{
    let table = read_table(alloc, table)?;
    let netlist = read_netlist(alloc, verilog)?;
    let head = read_head(alloc, head)?;
    let classes = classes_of(alloc, &netlist)?;
    let paths = head_paths(alloc, &netlist, &classes, &table, &head)?;
    let listed = paths.as_slice();
    check_declared(alloc, &netlist, &table, &head, listed)?;
    let bits = bits_of_each(alloc, &netlist, &table, listed)?;
    let chains = chains_for(alloc, &netlist, bits.as_slice())?;
    Ok(Declared {
        head,
        netlist,
        bits,
        chains,
    })
}
