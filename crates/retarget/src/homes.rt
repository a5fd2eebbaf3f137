//! The homes of the cells of chains, worked out once.
ghost use Rattle.std.specs.Prelude.{◌≡◌, ℕ, ◌<◌, ◌^◌, length, slice_index_or, IfOk};
ghost use Rattle.stil_tester.specs.Shifting.{AreChains};
ghost use Rattle.retarget.specs.Homes.{ArePut, AreHomes};

use crate::exits::sum_of;
use crate::home::Home;
use base_types::{NoMemory, Rows};
use std::alloc::Global;
use stil_tester::{ChainBits, Chains};

/// Writes the homes of the cells of one chain.
fn put_homes(homes: &mut [Home], number: u32, chain: &ChainBits)
    requires parities { length chain.now.parity ≡ length chain.now.cells }
    requires small { length chain.now.cells < 2 ^ 32 }
    requires within { (i : ℕ) → i < length chain.now.cells → slice_index_or chain.now.cells i 0 < length homes.old }
    ensures put { ArePut number chain.now homes.old homes.new chain.now.cells (length chain.now.cells) }
{
    let whole = sum_of(chain.parity.as_slice()) ^ chain.out_parity;
    let cells = chain.cells.as_slice();
    let parities = chain.parity.as_slice();
    let mut load = false;
    for (place, cell) in cells.iter().enumerate() {
        load ^= parities[place];
        homes[*cell as usize] = Home {
            chain: number,
            place: place as u32,
            exit: (cells.len() - 1 - place) as u32,
            load,
            compare: load ^ whole,
        };
    }
}

/// The homes of all cells, by their numbers.
pub fn homes_of(alloc: Global, chains: &Chains) -> Result<Rows<Home>, NoMemory>
    requires chains { AreChains chains.now }
    ensures value { IfOk result (AreHomes chains.now) }
{
    let none = Home {
        chain: 0,
        place: 0,
        exit: 0,
        load: false,
        compare: false,
    };
    let mut homes = vec![in alloc; none; chains.cells as usize]?;
    for (number, chain) in chains.chains.as_slice().iter().enumerate() {
        put_homes(&mut homes, number as u32, chain);
    }
    Ok(Rows::of(homes))
}
