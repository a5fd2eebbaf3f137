//! The pairs of chains that are swept, by the numbers of their orders and of their parities.
ghost use Rattle.std.specs.Prelude.{◌<◌, ◌≤◌, IfOk, IfSome};
ghost use Rattle.stil_tester.specs.Shifting.{AreChains};

use crate::calls::{checked, no_bits, no_chains};
use base_types::{NoMemory, Rows};
use std::alloc::Global;
use stil_tester::{ChainBits, Chains};

/// How many bits two chains have.
pub(crate) type Sizes = [usize; 2];

/// Two chains: their sizes, and the numbers of the order of their cells and of their parities.
#[derive(Clone, Copy)]
pub(crate) struct Made {
    pub(crate) sizes: Sizes,
    pub(crate) order: usize,
    pub(crate) parities: usize,
}

/// How many parities two chains can have: one for each bit and one for each output.
pub(crate) fn parities_of(sizes: Sizes) -> usize
    ensures some { 0 < result }
    ensures most { result ≤ 256 }
{
    match sizes[0].saturating_add(sizes[1]) {
        2 => 16,
        3 => 32,
        4 => 64,
        5 => 128,
        _ => 256,
    }
}

/// The cells in the order of a number, which goes round: below the factorial of their count all numbers give other orders.
fn order_of(alloc: Global, cells: usize, number: usize) -> Result<Vec<u32>, NoMemory> {
    let mut order = Vec::new(alloc);
    for cell in 0..cells {
        order.push(u32::try_from(cell).unwrap_or(0))?;
    }
    let mut rest = number;
    for place in 0..order.len() {
        let left = order.len() - place;
        order.swap(place, place + rest % left);
        rest /= left;
    }
    Ok(order)
}

/// Puts cells behind those of a chain, with parities by the digits of a number; the digits that are left.
fn fill_chain(chain: &mut ChainBits, cells: &[u32], parities: usize) -> Result<usize, NoMemory> {
    let mut digits = parities;
    for cell in cells {
        chain.cells.push(*cell)?;
        chain.parity.push(digits % 2 == 1)?;
        digits /= 2;
    }
    chain.out_parity = digits % 2 == 1;
    Ok(digits / 2)
}

/// Puts a chain of cells behind others, with parities by the digits of a number; the digits that are left.
fn put_chain(
    alloc: Global,
    chains: &mut Rows<ChainBits>,
    cells: &[u32],
    parities: usize,
) -> Result<usize, NoMemory> {
    let mut chain = no_bits(alloc);
    let digits = fill_chain(&mut chain, cells, parities)?;
    chains.push(chain)?;
    Ok(digits)
}

/// Puts two chains behind none.
fn put_chains(
    alloc: Global,
    chains: &mut Chains,
    cells: &[u32],
    made: Made,
) -> Result<(), NoMemory> {
    let (first, second) = cells.split_at(made.sizes[0].min(cells.len()));
    let digits = put_chain(alloc, &mut chains.chains, first, made.parities)?;
    put_chain(alloc, &mut chains.chains, second, digits)?;
    chains.cells = u32::try_from(cells.len()).unwrap_or(0);
    Ok(())
}

/// Two chains with their cells in the order of a number, which goes round, and parities by the digits of another.
pub(crate) fn two_chains(alloc: Global, made: Made) -> Result<Option<Chains>, NoMemory>
    ensures { IfOk result (λ chains. IfSome chains AreChains) }
{
    let count = made.sizes[0].saturating_add(made.sizes[1]);
    let cells = order_of(alloc, count, made.order)?;
    let mut chains = no_chains(alloc);
    put_chains(alloc, &mut chains, cells.as_slice(), made)?;
    checked(alloc, chains)
}

/// The sizes of new chains by a number, which goes round.
pub(crate) fn cut_of(sizes: Sizes, number: usize) -> Sizes {
    let cells = sizes[0].saturating_add(sizes[1]);
    let least = cells.saturating_sub(3).max(1);
    let most = cells.saturating_sub(1).min(3);
    let first = number % most.saturating_sub(least).saturating_add(1) + least;
    [first, cells.saturating_sub(first)]
}
