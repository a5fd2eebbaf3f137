//! Whether a scan call gives a name twice. Each name has a number as its key, and these are sorted: numbers are faster to compare than
//! names, and mostly rise as they come. Only where two keys are equal the names themselves are sorted. So a long list takes no square of
//! its length.
ghost use Rattle.std.specs.Prelude.{◌≡◌, map, IfOk};
ghost use Rattle.stil_calls.specs.Scans.{gives_twice};
ghost use Rattle.stil_calls.specs.Twice.{has_equal, rises};
ghost use Rattle.stil_calls.specs.Keys.{number_behind, letters_behind, key_of, keys_rise};

use crate::scan::has_name_twice;
use base_types::NoMemory;
use std::alloc::Global;
use stil_syntax::{Item, is_digit};

/// The number of the digits of a name, with one byte more.
#[inline(always)]
fn number_behind(number: u32, b: u8) -> u32
    ensures value { result ≡ number_behind number b }
{
    if is_digit(b) {
        number.wrapping_mul(10).wrapping_add(u32::from(b - b'0'))
    } else {
        number
    }
}

/// The other bytes of a name as a number, with one byte more.
#[inline(always)]
fn letters_behind(letters: u32, b: u8) -> u32
    ensures value { result ≡ letters_behind letters b }
{
    if is_digit(b) {
        letters
    } else {
        letters.wrapping_mul(31).wrapping_add(u32::from(b))
    }
}

/// The key of a name. It rises with the number in the name, as names of ports mostly do from one chain to the next.
fn key_of(name: &[u8]) -> u64
    ensures value { result ≡ key_of name.now }
{
    let mut number: u32 = 0;
    let mut letters: u32 = 0;
    let mut at = 0;
    while at < name.len() {
        number = number_behind(number, name[at]);
        letters = letters_behind(letters, name[at]);
        at += 1;
    }
    u64::from(number)
        .wrapping_mul(4294967296)
        .wrapping_add(u64::from(letters))
}

/// The keys of the names of items.
fn keys_of(alloc: Global, items: &[Item]) -> Result<Vec<u64>, NoMemory>
    ensures value { IfOk result (λ keys. keys.items ≡ map (λ i. key_of i.name) items.now) }
{
    let mut keys = Vec::with_capacity(alloc, items.len())?;
    for item in items {
        keys.push(key_of(item.name.bytes()))?;
    }
    Ok(keys)
}

/// Whether each key is greater than the one before it.
fn keys_rise(keys: &[u64]) -> bool
    ensures value { result ≡ keys_rise keys.now }
{
    let Some((first, rest)) = keys.split_first() else {
        return true;
    };
    let mut last = *first;
    let mut at = 0;
    while at < rest.len() {
        if rest[at] <= last {
            return false;
        }
        last = rest[at];
        at += 1;
    }
    true
}

/// The names of items.
fn names_of<'i>(alloc: Global, items: &'i [Item]) -> Result<Vec<&'i [u8]>, NoMemory>
    ensures value { IfOk result (λ names. map (λ t. t.now) names.items ≡ map (λ i. i.name) items.now) }
{
    let mut names = Vec::with_capacity(alloc, items.len())?;
    for item in items {
        names.push(item.name.bytes())?;
    }
    Ok(names)
}

/// Whether two equal names stand beside one another.
fn has_equal(names: &[&[u8]]) -> bool
    ensures value { result ≡ has_equal (map (λ t. t.now) names.now) }
{
    let Some((first, rest)) = names.split_first() else {
        return false;
    };
    let mut last = *first;
    let mut at = 0;
    while at < rest.len() {
        if last == rest[at] {
            return true;
        }
        last = rest[at];
        at += 1;
    }
    false
}

/// Whether each name is greater than the one before it.
fn rises(names: &[&[u8]]) -> bool
    ensures value { result ≡ rises (map (λ t. t.now) names.now) }
{
    let Some((first, rest)) = names.split_first() else {
        return true;
    };
    let mut last = *first;
    let mut at = 0;
    while at < rest.len() {
        if !last.cmp(&rest[at]).is_lt() {
            return false;
        }
        last = rest[at];
        at += 1;
    }
    true
}

/// Whether a name is given twice, by the names. Sorted names that don't rise have two equal ones beside one another, so the names
/// are compared one with the other only where a sort would be none.
fn has_equal_names(alloc: Global, items: &[Item]) -> Result<bool, NoMemory>
    ensures value { IfOk result (λ twice. twice ≡ gives_twice items.now) }
{
    let mut names = names_of(alloc, items)?;
    names.sort()?;
    if has_equal(&names) {
        return Ok(true);
    }
    if rises(&names) {
        return Ok(false);
    }
    Ok(has_name_twice(items))
}

/// Whether a name is given twice: not where the keys of all names differ, and else by the names.
pub(crate) fn gives_twice(alloc: Global, items: &[Item]) -> Result<bool, NoMemory>
    ensures value { IfOk result (λ twice. twice ≡ gives_twice items.now) }
{
    let mut keys = keys_of(alloc, items)?;
    keys.sort_unstable();
    if keys_rise(&keys) {
        return Ok(false);
    }
    has_equal_names(alloc, items)
}
