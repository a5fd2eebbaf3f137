//! The sizes of a picture, and its scale.
ghost use Rattle.std.specs.Prelude.{◌≡◌, ◌<◌, ◌≤◌, ◌+◌, ◌*◌, ◌/◌, ◌^◌, max, length};
ghost use Rattle.chain_picture.specs.Sizes.{extent_of, least_height, mark_of, microns_of, power_below, rounded, rounded_by, sheet_by, sheet_of, stroke_of};

use crate::bounds::{Bounds, bounds_of, height_of, width_of};
use crate::chain::DrawnChain;

/// The sizes of a picture, in half database units.
#[derive(Clone, Copy)]
pub(crate) struct Sheet {
    /// The bounds of what is drawn, and how wide and high they are.
    pub(crate) bounds: Bounds,
    pub(crate) width: u64,
    pub(crate) height: u64,
    /// What stands empty round it.
    pub(crate) margin: u128,
    /// How thick links are, and half the size of a mark.
    pub(crate) stroke: u128,
    pub(crate) mark: u128,
    /// How much one of the legend's own units takes.
    pub(crate) letter: u128,
    /// How many microns the scale shows.
    pub(crate) microns: u128,
}

/// The most zeros of a power of ten.
const ZEROS: usize = 20;

/// The greatest power of ten with at most twenty zeros that isn't above n, or 1.
fn power_below(n: u128) -> u128
    requires small { n < 2 ^ 100 }
    ensures value { result ≡ power_below n 20 }
    ensures small { result ≤ n + 1 }
{
    let mut power = 1;
    for _zeros in 0..ZEROS {
        if 10 * power <= n {
            power *= 10;
        }
    }
    power
}

/// The greatest of 1, 2 and 5 times a power of ten that isn't above n.
fn rounded(n: u128) -> u128
    requires small { n < 2 ^ 100 }
    ensures value { result ≡ rounded n }
    ensures small { result ≤ n + 1 }
{
    let power = power_below(n);
    if 5 * power <= n {
        5 * power
    } else if 2 * power <= n {
        2 * power
    } else {
        power
    }
}

/// How high the legend is at least, in its own units.
fn least_height(chains: usize) -> u128
    requires chains { chains ≤ 65536 }
    ensures value { result ≡ least_height chains }
    ensures least { 480 ≤ result }
    ensures small { result ≤ 2 ^ 21 }
{
    15 * (chains as u128 + 9).max(32)
}

/// The extent by which sizes are chosen.
fn extent_of(bounds: Bounds, units: u64, chains: usize) -> u128
    requires units { units ≤ 10 ^ 5 }
    requires chains { chains ≤ 65536 }
    ensures value { result ≡ extent_of bounds units chains }
    ensures small { result < 2 ^ 64 }
{
    let drawn = u128::from(width_of(bounds).max(height_of(bounds)));
    drawn.max((8 * u128::from(units)).max(least_height(chains)))
}

/// How thick links are.
fn stroke_of(extent: u128) -> u128
    requires small { extent < 2 ^ 64 }
    ensures value { result ≡ stroke_of extent }
    ensures small { result ≤ 2 ^ 60 }
{
    (extent / 800).max(1)
}

/// Half the size of a mark.
fn mark_of(extent: u128) -> u128
    requires small { extent < 2 ^ 64 }
    ensures value { result ≡ mark_of extent }
    ensures small { result ≤ 2 ^ 60 }
{
    (extent / 110).max(2)
}

/// How much one of the legend's own units takes.
fn letter_of(extent: u128, chains: usize) -> u128
    requires chains { chains ≤ 65536 }
    requires small { extent < 2 ^ 64 }
    ensures value { result ≡ extent / least_height chains }
    ensures small { result ≤ 2 ^ 56 }
{
    extent / least_height(chains)
}

/// The microns of the scale.
fn microns_of(extent: u128, units: u64) -> u128
    requires some { 0 < units }
    requires units { units ≤ 10 ^ 5 }
    requires small { extent < 2 ^ 64 }
    ensures value { result ≡ microns_of extent units }
    ensures small { result ≤ 2 ^ 62 }
{
    rounded(extent / (8 * u128::from(units)))
}

/// The sizes by an extent.
fn sheet_by(bounds: Bounds, units: u64, chains: usize, extent: u128) -> Sheet
    requires some { 0 < units }
    requires units { units ≤ 10 ^ 5 }
    requires chains { chains ≤ 65536 }
    requires small { extent < 2 ^ 64 }
    ensures value { result ≡ sheet_by bounds units chains extent }
    ensures margin { result.margin ≤ 2 ^ 60 }
    ensures stroke { result.stroke ≤ 2 ^ 60 }
    ensures mark { result.mark ≤ 2 ^ 60 }
    ensures letter { result.letter ≤ 2 ^ 56 }
    ensures microns { result.microns ≤ 2 ^ 62 }
{
    Sheet {
        bounds,
        width: width_of(bounds),
        height: height_of(bounds),
        margin: extent / 24,
        stroke: stroke_of(extent),
        mark: mark_of(extent),
        letter: letter_of(extent, chains),
        microns: microns_of(extent, units),
    }
}

/// The sizes of the picture of chains, with so many database units a micron.
pub(crate) fn sheet_of(units: u64, chains: &[DrawnChain]) -> Sheet
    requires some { 0 < units }
    requires units { units ≤ 10 ^ 5 }
    requires chains { length chains.now ≤ 65536 }
    ensures value { result ≡ sheet_of units chains.now }
    ensures margin { result.margin ≤ 2 ^ 60 }
    ensures stroke { result.stroke ≤ 2 ^ 60 }
    ensures mark { result.mark ≤ 2 ^ 60 }
    ensures letter { result.letter ≤ 2 ^ 56 }
    ensures microns { result.microns ≤ 2 ^ 62 }
{
    let bounds = bounds_of(chains);
    let count = chains.len();
    sheet_by(bounds, units, count, extent_of(bounds, units, count))
}
