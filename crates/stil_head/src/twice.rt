//! Names that stand a second time.
ghost use Rattle.std.specs.Prelude.{◌≡◌, [], map, IfOk};
ghost use Rattle.std.specs.List.{flat_map};
ghost use Rattle.list_laws.specs.Leasts.{least_of};
ghost use Rattle.stil_head.specs.Twice.{again_in, chain_row, port_rows, callee_row, twice_among};

use crate::names::Names;
use base_types::NoMemory;
use list_laws::{found_if, lesser_place};
use std::alloc::Global;
use stil_blocks::{ReadCallee, ReadChain};

/// The least place of a chain whose name stood before.
fn chain_again(alloc: Global, chains: &[ReadChain]) -> Result<Option<u32>, NoMemory>
    ensures value { IfOk result (λ place. place ≡ least_of (again_in [] (map chain_row chains.now))) }
{
    let mut names = Names::new(alloc);
    let mut least = None;
    for chain in chains {
        let again = names.add(chain.decl.name.bytes())?;
        least = lesser_place(least, found_if(again, chain.place));
    }
    Ok(least)
}

/// The least place of a chain with a port that stood before.
fn port_again(alloc: Global, chains: &[ReadChain]) -> Result<Option<u32>, NoMemory>
    ensures value { IfOk result (λ place. place ≡ least_of (again_in [] (flat_map port_rows chains.now))) }
{
    let mut names = Names::new(alloc);
    let mut least = None;
    for chain in chains {
        let again = names.add(chain.decl.scan_in.bytes())?;
        least = lesser_place(least, found_if(again, chain.place));
        let again = names.add(chain.decl.scan_out.bytes())?;
        least = lesser_place(least, found_if(again, chain.place));
    }
    Ok(least)
}

/// The least place of a procedure or macro whose name stood before.
fn callee_again(alloc: Global, callees: &[ReadCallee]) -> Result<Option<u32>, NoMemory>
    ensures value { IfOk result (λ place. place ≡ least_of (again_in [] (map callee_row callees.now))) }
{
    let mut names = Names::new(alloc);
    let mut least = None;
    for callee in callees {
        let again = names.add(callee.callee.name.bytes())?;
        least = lesser_place(least, found_if(again, callee.place));
    }
    Ok(least)
}

/// The least place at which a name stands a second time.
pub(crate) fn twice_place(
    alloc: Global,
    chains: &[ReadChain],
    procedures: &[ReadCallee],
    macros: &[ReadCallee],
) -> Result<Option<u32>, NoMemory>
    ensures value { IfOk result (λ place. place ≡ least_of (twice_among chains.now procedures.now macros.now)) }
{
    let chain = chain_again(alloc, chains)?;
    let port = port_again(alloc, chains)?;
    let procedure = callee_again(alloc, procedures)?;
    let named = callee_again(alloc, macros)?;
    Ok(lesser_place(chain, lesser_place(port, lesser_place(procedure, named))))
}
