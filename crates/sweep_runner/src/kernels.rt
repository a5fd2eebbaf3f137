//! The lanes beside the plain bodies, on worked values and at every length up to 200.
//!
//! A row of `kernels.toml` is a search for a gain from the points (0, 0): the rows `ex` and `c`, the `limit`, and as
//! `wanted` what is found; the other rows hold zeros. Or it has bytes as `text`, which are all flipped, the letters that
//! are `allowed`, and as `wanted` the flipped bytes, how many 1 are among the read ones, and the first that isn't allowed.

use crate::rows::{list, number, number_of, text};
use base_types::NoMemory;
use lane_kernels::plain;
use row_forms::Cases;
use std::alloc::Global;
use toml::Value;

/// A length up to which the lanes come several times, with some left over.
const LENGTHS: usize = 201;

/// Where lanes and plain body disagree.
const OTHERWISE: &str = "lanes and plain body disagree";

/// The next of a row of numbers without a pattern.
fn next(seed: u64) -> u64 {
    seed.wrapping_mul(6364136223846793005)
        .wrapping_add(1442695040888963407)
}

/// So many numbers from `low` on, below `low` + `range`.
fn numbers(
    alloc: Global,
    length: usize,
    seed: u64,
    low: i64,
    range: u64,
) -> Result<Vec<i64>, NoMemory> {
    let mut numbers = Vec::new(alloc);
    let mut state = seed;
    for _ in 0..length {
        state = next(state);
        numbers.push(low.wrapping_add(((state >> 33) % range.max(1)) as i64))?;
    }
    Ok(numbers)
}

/// So many bytes of some symbols.
fn symbols(
    alloc: Global,
    length: usize,
    seed: u64,
    symbols: &[u8; 8],
) -> Result<Vec<u8>, NoMemory> {
    let mut bytes = Vec::new(alloc);
    let mut state = seed;
    for _ in 0..length {
        state = next(state);
        bytes.push(symbols[(state >> 61) as usize])?;
    }
    Ok(bytes)
}

/// What both bodies find from the points (0, 0); none where they find different places.
fn gain(rows: [&[i64]; 5], limit: i64) -> Option<Option<usize>> {
    let [ex, ey, nx, ny, c] = rows;
    if !plain::are_rows(ex, ey, nx, ny, c) {
        return None;
    }
    let lanes = lane_kernels::first_gain(0, 0, 0, 0, ex, ey, nx, ny, c, limit);
    let one_by_one = plain::first_gain(0, 0, 0, 0, ex, ey, nx, ny, c, limit);
    if lanes == one_by_one {
        Some(lanes)
    } else {
        None
    }
}

/// How many 1 are among bytes, and the first that isn't allowed; none where both bodies don't say the same.
fn looked(bytes: &[u8], allowed: &[u8]) -> Option<(usize, Option<usize>)> {
    let ones = lane_kernels::count_byte(bytes, b'1');
    let outside = lane_kernels::any_byte_outside(bytes, allowed);
    if ones == plain::count_byte(bytes, b'1')
        && outside == plain::any_byte_outside(bytes, allowed)
    {
        Some((ones, outside))
    } else {
        None
    }
}

/// The bytes flipped where the mask says it; none where both bodies don't flip the same.
fn flipped(alloc: Global, read: &[u8], mask: &[u8]) -> Result<Option<Vec<u8>>, NoMemory> {
    let mut lanes = Vec::from_slice(alloc, read)?;
    let mut one_by_one = Vec::from_slice(alloc, read)?;
    if lanes.len() != mask.len() || one_by_one.len() != mask.len() {
        return Ok(None);
    }
    lane_kernels::flip_where(&mut lanes, mask);
    plain::flip_where(&mut one_by_one, mask);
    Ok(if lanes == one_by_one {
        Some(lanes)
    } else {
        None
    })
}

fn try_bytes(cases: &mut Cases, row: &Value) -> Result<(), NoMemory> {
    let (read, wanted) = (text(row, "text").as_bytes(), text(row, "wanted"));
    let mask = vec![in cases.alloc; 1u8; read.len()]?;
    let looked = looked(read, text(row, "allowed").as_bytes());
    let flipped = flipped(cases.alloc, read, &mask)?;
    let (Some((ones, outside)), Some(flipped)) = (looked, &flipped) else {
        return cases.compare("bytes", OTHERWISE, wanted);
    };
    let flipped = str::from_utf8(flipped).unwrap_or("");
    let came = format!(in cases.alloc; "{flipped} {ones} {outside:?}")?;
    cases.compare("bytes", came.as_str(), wanted)
}

fn try_search(cases: &mut Cases, row: &Value) -> Result<(), NoMemory> {
    let mut ex = Vec::new(cases.alloc);
    for value in list(row, "ex") {
        ex.push(number_of(value))?;
    }
    let mut c = Vec::new(cases.alloc);
    for value in list(row, "c") {
        c.push(number_of(value))?;
    }
    let none = [0; 3];
    let found = gain([&ex, &none, &none, &none, &c], number(row, "limit"));
    match found {
        None => cases.compare("first gain", OTHERWISE, text(row, "wanted")),
        Some(place) => {
            let came = format!(in cases.alloc; "{place:?}")?;
            cases.compare("first gain", came.as_str(), text(row, "wanted"))
        }
    }
}

pub(crate) fn try_row(cases: &mut Cases, row: &Value) -> Result<(), NoMemory> {
    if row.get("text").is_some() {
        try_bytes(cases, row)
    } else {
        try_search(cases, row)
    }
}

/// Compares whether something holds.
fn holds(cases: &mut Cases, name: &str, holds: bool) -> Result<(), NoMemory> {
    cases.compare(name, if holds { "alike" } else { OTHERWISE }, "alike")
}

/// Tries a gain at each place of rows of this length, among rows of zeros and a row of ones.
fn try_places(cases: &mut Cases, length: usize) -> Result<(), NoMemory> {
    let zeros = vec![in cases.alloc; 0i64; length]?;
    let mut c = vec![in cases.alloc; 1i64; length]?;
    for place in 0..length {
        if let Some(number) = c.get_mut(place) {
            *number = 0;
        }
        let found = gain([&zeros, &zeros, &zeros, &zeros, &c], 1);
        holds(cases, "a gain at a place", found == Some(Some(place)))?;
        if let Some(number) = c.get_mut(place) {
            *number = 1;
        }
    }
    Ok(())
}

/// Tries rows of this length without a pattern.
fn try_rows(cases: &mut Cases, length: usize) -> Result<(), NoMemory> {
    let seed = length as u64;
    let xs = numbers(cases.alloc, length, seed, -500, 1000)?;
    let ys = numbers(cases.alloc, length, seed.wrapping_add(1000), -500, 1000)?;
    let c = numbers(cases.alloc, length, seed.wrapping_add(2000), -1000, 1000)?;
    for limit in [-800, -300, 0, 200] {
        let found = gain([&xs, &ys, &ys, &xs, &c], limit);
        holds(cases, "gains", found.is_some())?;
    }
    Ok(())
}

/// Tries bytes of this length without a pattern.
fn try_random_bytes(cases: &mut Cases, length: usize) -> Result<(), NoMemory> {
    let seed = length as u64;
    let read = symbols(cases.alloc, length, seed, b"01NLHX01")?;
    let mask = symbols(
        cases.alloc,
        length,
        seed.wrapping_add(1),
        &[0, 0, 1, 0, 255, 0, 2, 0],
    )?;
    for allowed in [b"01NLHX".as_slice(), b"01NLH", b"01", b""] {
        holds(cases, "bytes", looked(&read, allowed).is_some())?;
    }
    let flipped = flipped(cases.alloc, &read, &mask)?;
    holds(cases, "flips", flipped.is_some())
}

/// Tries bytes among which every byte is allowed, and bytes among which a few are that don't stand there.
fn try_every_byte(cases: &mut Cases) -> Result<(), NoMemory> {
    let mut every = [0; 256];
    for (place, byte) in every.iter_mut().enumerate() {
        *byte = place as u8;
    }
    let read = [b'X'; 33];
    holds(
        cases,
        "every byte",
        looked(&read, &every) == Some((0, None)),
    )?;
    let few = looked(&read, every.get(..32).unwrap_or(&[]));
    holds(cases, "every byte", few == Some((0, Some(0))))
}

/// Tries both bodies side by side: a gain at each place, and rows and bytes without a pattern.
pub(crate) fn try_made(cases: &mut Cases) -> Result<(), NoMemory> {
    try_every_byte(cases)?;
    for length in 1..41 {
        try_places(cases, length)?;
    }
    for length in 0..LENGTHS {
        try_rows(cases, length)?;
        try_random_bytes(cases, length)?;
    }
    Ok(())
}
