//! The strings of the calls of the sweep, by their numbers.

use crate::calls::{no_call, set_shifts};
use crate::pairs::Sizes;
use base_types::{NoMemory, Rows, Text};
use std::alloc::Global;
use stil_types::ScanCall;

/// None given, and the strings of at most four of three characters.
const STRINGS: usize = 122;

/// The first prime number that isn't below the count of strings.
pub(crate) const PRIME: usize = 127;

/// The strings that calls take, by their numbers: loads, and the compares of both chains.
pub(crate) struct Strings {
    pub(crate) loads: Rows<Option<Text>>,
    pub(crate) first: Rows<Option<Text>>,
    pub(crate) second: Rows<Option<Text>>,
}

// By hand, so that it is proved here and not again wherever one is dropped.
impl Drop for Strings {
    fn drop(self) {
        let Strings {
            loads: _loads,
            first: _first,
            second: _second,
        } = self;
    }
}

/// Puts the string of a number behind none; whether it has only the last of its characters behind so many.
fn fill_string(
    text: &mut Vec<u8>,
    characters: &[u8; 3],
    length: usize,
    number: usize,
    bits: usize,
) -> Result<bool, NoMemory> {
    let mut rest = number;
    let mut is_within = true;
    for place in 0..length {
        text.push(characters[rest % 3])?;
        is_within = is_within && (place < bits || rest % 3 == 2);
        rest /= 3;
    }
    Ok(is_within)
}

/// Puts the string of a number behind others, if it has only the last of its characters behind so many.
fn put_within(
    alloc: Global,
    strings: &mut Rows<Option<Text>>,
    characters: &[u8; 3],
    length: usize,
    number: usize,
    bits: usize,
) -> Result<(), NoMemory> {
    let mut text = Vec::new(alloc);
    if fill_string(&mut text, characters, length, number, bits)? {
        strings.push(Some(Text::of(text)))
    } else {
        Ok(())
    }
}

/// Puts the strings of at most four of three characters behind others that have only the last of these behind so many: none
/// first, then the empty one, and the longest ones last.
fn put_strings(
    alloc: Global,
    strings: &mut Rows<Option<Text>>,
    characters: &[u8; 3],
    bits: usize,
) -> Result<(), NoMemory> {
    strings.push(None)?;
    for (length, count) in [(0, 1usize), (1, 3), (2, 9), (3, 27), (4, 81)] {
        for number in 0..count {
            put_within(alloc, strings, characters, length, number, bits)?;
        }
    }
    Ok(())
}

/// Puts all loads, and the compares of chains of so many bits, behind none.
pub(crate) fn fill_strings(
    alloc: Global,
    strings: &mut Strings,
    sizes: Sizes,
) -> Result<(), NoMemory> {
    put_strings(alloc, &mut strings.loads, b"01N", 4)?;
    put_strings(alloc, &mut strings.first, b"LHX", sizes[0])?;
    put_strings(alloc, &mut strings.second, b"LHX", sizes[1])
}

/// No strings yet.
pub(crate) fn no_strings(alloc: Global) -> Strings {
    Strings {
        loads: Rows::new(alloc),
        first: Rows::new(alloc),
        second: Rows::new(alloc),
    }
}

/// Puts a copy of the string of a number, which goes round, behind others.
fn put_copy(
    alloc: Global,
    copies: &mut Rows<Option<Text>>,
    strings: &[Option<Text>],
    number: usize,
) -> Result<(), NoMemory> {
    match strings.get(number % strings.len().max(1)) {
        Some(Some(text)) => copies.push(Some(Text::copy(alloc, text.bytes())?)),
        _ => copies.push(None),
    }
}

/// Puts two loads and two compares by their numbers into a call.
fn fill_call(
    alloc: Global,
    call: &mut ScanCall,
    strings: &Strings,
    numbers: [usize; 4],
) -> Result<(), NoMemory> {
    let loads = strings.loads.as_slice();
    put_copy(alloc, &mut call.loads, loads, numbers[0])?;
    put_copy(alloc, &mut call.loads, loads, numbers[1])?;
    put_copy(
        alloc,
        &mut call.compares,
        strings.first.as_slice(),
        numbers[2],
    )?;
    put_copy(
        alloc,
        &mut call.compares,
        strings.second.as_slice(),
        numbers[3],
    )?;
    set_shifts(call);
    Ok(())
}

/// The call of two loads and two compares by their numbers.
pub(crate) fn call(
    alloc: Global,
    strings: &Strings,
    numbers: [usize; 4],
) -> Result<ScanCall, NoMemory> {
    let mut call = no_call(alloc);
    fill_call(alloc, &mut call, strings, numbers)?;
    Ok(call)
}

/// The numbers of the strings of a call, by its own number: the loads, then the compares. Four numbers modulo a prime, of which
/// each two give the other two, go through all pairs of them; from the count of strings on they go round.
pub(crate) fn paired(number: usize) -> [usize; 4] {
    let row = number / PRIME % PRIME;
    let column = number % PRIME;
    [
        row,
        (row + column) % PRIME,
        column,
        (row + 2 * column) % PRIME,
    ]
}
