//! The strings of a call, moved from old chains to new ones.
ghost use Rattle.std.specs.Prelude.{◌≡◌, ◌≢◌, ℕ, ◌<◌, ◌≤◌, ◌↔◌, All, length, slice_index_or, IfOk, IsTrue};
ghost use Rattle.stil_tester.specs.Shifting.{numbers_of};
ghost use Rattle.retarget.specs.Exits.{IsMap, exit_cells, exit_characters as exit_characters_of, flips_on, moved_by, string_from as string_of, strings_from as strings_of};
ghost use Rattle.retarget.specs.Moved.{moved_strings as moved_strings_of};

use crate::exits::{exit_characters, put_padded};
use crate::route::Route;
use crate::side::Side;
use base_types::{NoMemory, Rows, Text};
use lane_kernels::flip_where;
use std::alloc::Global;
use stil_tester::{ChainBits, Chains};

/// The strings of one side for the new chains, each at full length.
pub fn moved_strings(
    alloc: Global,
    old: &Chains,
    new: &Chains,
    shifts: usize,
    route: &Route,
    side: Side,
    strings: &[Option<Text>],
) -> Result<Rows<Option<Text>>, NoMemory>
    requires map { IsMap old.now new.now shifts route.now }
    requires strings { length strings.now ≡ length old.now.chains }
    ensures { IfOk result (λ written. written ≡ moved_strings_of side old.now new.now strings.now) }
{
    let characters = moved_characters(alloc, old.chains.as_slice(), route, side, strings)?;
    let chains = new.chains.as_slice();
    strings_from(alloc, side, shifts, chains, strings, characters.as_slice())
}

/// The characters of one side's strings for the bits of the new chains, in the order in which these come out.
fn moved_characters(
    alloc: Global,
    old: &[ChainBits],
    route: &Route,
    side: Side,
    strings: &[Option<Text>],
) -> Result<Vec<u8>, NoMemory>
    requires strings { length strings.now ≡ length old.now }
    requires within { (k : ℕ) → k < length route.now.sources → slice_index_or route.now.sources k 0 < length (exit_cells old.now) }
    requires flips { length (flips_on side route.now) ≡ length route.now.sources }
    ensures { IfOk result (λ characters. characters.items ≡ moved_by route.now.sources (flips_on side route.now) (exit_characters_of side old.now strings.now)) }
{
    let sources = route.sources.as_slice();
    let before = exit_characters(alloc, side, old, strings, sources.len())?;
    let mut characters = vec![in alloc; side.filler(); sources.len()]?;
    move_characters(
        &mut characters,
        before.as_slice(),
        sources,
        route.flips(side),
    );
    Ok(characters)
}

/// Each place takes the character at its source, flipped where its flip isn't 0.
fn move_characters(to: &mut [u8], from: &[u8], sources: &[usize], flips: &[u8])
    requires long { length to.old ≡ length sources.now }
    requires within { (k : ℕ) → k < length sources.now → slice_index_or sources.now k 0 < length from.now }
    requires flips { length flips.now ≡ length sources.now }
    ensures { to.new ≡ moved_by sources.now flips.now from.now }
{
    for (place, source) in sources.iter().enumerate() {
        to[place] = from[*source];
    }
    flip_where(to, flips);
}

/// The strings of the chains from the characters for their bits.
fn strings_from(
    alloc: Global,
    side: Side,
    shifts: usize,
    chains: &[ChainBits],
    given: &[Option<Text>],
    characters: &[u8],
) -> Result<Rows<Option<Text>>, NoMemory>
    requires given { length given.now ≡ length chains.now }
    requires characters { length characters.now ≡ length (numbers_of chains.now) }
    requires shifts { All (λ chain. length chain.cells ≤ shifts) chains.now }
    ensures { IfOk result (λ strings. strings ≡ strings_of side shifts chains.now given.now characters.now) }
{
    let mut strings = Rows::with_room(alloc, chains.len())?;
    let mut rest = characters;
    for (number, chain) in chains.iter().enumerate() {
        let (here, behind) = rest.split_at(chain.cells.as_slice().len());
        rest = behind;
        let is_given = given[number].is_some();
        strings.push(string_from(alloc, side, shifts, is_given, here)?)?;
    }
    Ok(strings)
}

/// The string of one chain, where one was given or where it says something.
fn string_from(
    alloc: Global,
    side: Side,
    shifts: usize,
    is_given: bool,
    characters: &[u8],
) -> Result<Option<Text>, NoMemory>
    requires { length characters.now ≤ shifts }
    ensures { IfOk result (λ string. string ≡ string_of side shifts is_given characters.now) }
{
    if !is_given && !says_something(characters, side.filler()) {
        return Ok(None);
    }
    let mut text = Vec::with_capacity(alloc, shifts)?;
    put_padded(
        alloc,
        &mut text,
        side,
        characters,
        shifts - characters.len(),
    )?;
    Ok(Some(Text::of(text)))
}

/// Whether another character than the filler stands among these.
fn says_something(text: &[u8], filler: u8) -> bool
    ensures { IsTrue result ↔ ((k : ℕ) × (k < length text.now) × (slice_index_or text.now k filler ≢ filler)) }
{
    text.iter().any(|character| *character != filler)
}
