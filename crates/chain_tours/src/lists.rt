//! Lists that are read and written at any place: past the end nothing stands, and what is written there is lost.
use base_types::NoMemory;
use std::alloc::Global;

/// The item at a place, or another one where there is none.
#[inline(always)]
pub fn item<T: Copy>(list: &[T], place: u32, none: T) -> T {
    let place = place as usize;
    if place < list.len() {
        list[place]
    } else {
        none
    }
}

/// The number at a place, or 0.
#[inline(always)]
pub fn at(list: &[u32], place: u32) -> u32 {
    item(list, place, 0)
}

/// Writes an item at a place.
#[inline(always)]
pub fn put<T: Copy>(list: &mut [T], place: u32, value: T) {
    let place = place as usize;
    if place < list.len() {
        list[place] = value;
    }
}

/// The items from one place up to another; none where they don't stand there.
pub fn part<T>(list: &[T], from: u32, to: u32) -> &[T] {
    let from = from as usize;
    let to = to as usize;
    if from <= to && to <= list.len() {
        &list[from..to]
    } else {
        &[]
    }
}

/// The same, to be written.
pub fn part_mut<T>(list: &mut [T], from: u32, to: u32) -> &mut [T] {
    let from = from as usize;
    let to = to as usize;
    if from <= to && to <= list.len() {
        &mut list[from..to]
    } else {
        &mut []
    }
}

/// The number of items, where it is below 2^32.
pub fn count<T>(list: &[T]) -> u32 {
    (list.len() & 0xffff_ffff) as u32
}

/// So many times one number.
pub fn filled(alloc: Global, count: u32, value: u32) -> Result<Vec<u32>, NoMemory> {
    Ok(vec![in alloc; value; count as usize]?)
}
