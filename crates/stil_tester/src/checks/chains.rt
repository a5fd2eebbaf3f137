ghost use Rattle.std.specs.Prelude.{◌≡◌, ℕ, ◌<◌, ◌↔◌, All, IfOk, IsTrue, count_by, length, nat_eq, slice_index};
ghost use Rattle.stil_tester.specs.Shifting.{AreChains, IsChain, numbers_of};

use crate::{ChainBits, Chains};
use base_types::NoMemory;
use std::alloc::Global;

/// Whether no chain is empty, each has as many parities as bits, and each cell stands in the
/// chains exactly once. It takes time and memory linear in the cells.
pub fn are_chains(alloc: Global, chains: &Chains) -> Result<bool, NoMemory>
    ensures { IfOk result (λ sound. IsTrue sound ↔ AreChains chains.now) }
{
    let numbers = joined(alloc, chains.chains.as_slice())?;
    if !are_filled(chains.chains.as_slice()) || !are_below(&numbers, chains.cells) {
        return Ok(false);
    }
    let counts = counted(alloc, &numbers, chains.cells)?;
    Ok(are_ones(&counts))
}

/// The cells of all chains, one chain after the other.
fn joined(alloc: Global, chains: &[ChainBits]) -> Result<Vec<u32>, NoMemory>
    ensures { IfOk result (λ numbers. numbers.items ≡ numbers_of chains.now) }
{
    let mut numbers = Vec::new(alloc);
    for chain in chains {
        numbers.extend_from_slice(chain.cells.as_slice())?;
    }
    Ok(numbers)
}

/// Whether each chain has a bit, and a parity for each bit.
fn are_filled(chains: &[ChainBits]) -> bool
    ensures { IsTrue result ↔ All IsChain chains.now }
{
    for chain in chains {
        if !is_filled(chain) {
            return false;
        }
    }
    true
}

fn is_filled(chain: &ChainBits) -> bool
    ensures { IsTrue result ↔ IsChain chain.now }
{
    let bits = chain.cells.as_slice().len();
    bits > 0 && chain.parity.as_slice().len() == bits
}

fn are_below(numbers: &[u32], cells: u32) -> bool
    ensures { IsTrue result ↔ All (λ number. number < cells) numbers.now }
{
    numbers.iter().all(|number| *number < cells)
}

/// How often each cell stands in the list.
fn counted(alloc: Global, numbers: &[u32], cells: u32) -> Result<Vec<usize>, NoMemory>
    requires { All (λ number. number < cells) numbers.now }
    ensures long { IfOk result (λ counts. length counts.items ≡ cells) }
    ensures each { IfOk result (λ counts. (cell : ℕ) → cell < cells → slice_index counts.items cell ≡ count_by (nat_eq cell) numbers.now) }
{
    let mut counts = vec![in alloc; 0usize; cells as usize]?;
    for number in numbers {
        counts[*number as usize] += 1;
    }
    Ok(counts)
}

fn are_ones(counts: &[usize]) -> bool
    ensures { IsTrue result ↔ All (λ count. count ≡ 1) counts.now }
{
    counts.iter().all(|count| *count == 1)
}
