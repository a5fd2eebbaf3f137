//! What is said of all chains.
ghost use Rattle.std.specs.Prelude.{◌≡◌, ◌≤◌, length, sum_by};
ghost use Rattle.chain_picture.specs.Pictures.{lengths_end, total_length, totals_of};

use crate::chain::DrawnChain;
use itoa::Buffer;

/// What is said of all chains, and the columns of the legend that hang on it, in the legend's own units.
#[derive(Clone, Copy)]
pub(crate) struct Totals {
    pub(crate) units: u128,
    pub(crate) bits: u128,
    pub(crate) length: u128,
    /// Where the lengths end and where the labels begin.
    pub(crate) lengths_end: u128,
    pub(crate) labels_begin: u128,
}

/// Where the lengths end, by that of all chains.
fn lengths_end(total: u128) -> u128
    ensures value { result ≡ lengths_end total }
    ensures small { result ≤ 400 }
{
    let mut digits = Buffer::new();
    126 + 6 * (digits.format(total).len() as u128).max(6)
}

/// The units of all chains.
fn units_of(chains: &[DrawnChain]) -> u128
    requires few { length chains.now ≤ 65536 }
    ensures value { result ≡ sum_by (λ c. c.units) chains.now }
{
    let mut sum: u128 = 0;
    for chain in chains {
        sum += u128::from(chain.units);
    }
    sum
}

/// Their bits.
fn bits_of(chains: &[DrawnChain]) -> u128
    requires few { length chains.now ≤ 65536 }
    ensures value { result ≡ sum_by (λ c. c.bits) chains.now }
{
    let mut sum: u128 = 0;
    for chain in chains {
        sum += u128::from(chain.bits);
    }
    sum
}

/// Their length.
fn total_length(chains: &[DrawnChain]) -> u128
    requires few { length chains.now ≤ 65536 }
    ensures value { result ≡ total_length chains.now }
{
    let mut sum: u128 = 0;
    for chain in chains {
        sum += u128::from(chain.length);
    }
    sum
}

/// What is said of all chains.
pub(crate) fn totals_of(chains: &[DrawnChain]) -> Totals
    requires few { length chains.now ≤ 65536 }
    ensures value { result ≡ totals_of chains.now }
    ensures small { result.labels_begin ≤ 412 }
{
    let length = total_length(chains);
    let lengths_end = lengths_end(length);
    Totals {
        units: units_of(chains),
        bits: bits_of(chains),
        length,
        lengths_end,
        labels_begin: lengths_end + 12,
    }
}
