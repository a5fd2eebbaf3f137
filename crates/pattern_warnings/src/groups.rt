//! Groups of signals (IEEE 1450-1999, SignalGroups).
ghost use Rattle.std.specs.Prelude.{◌<◌, ◌^◌, length};

use crate::given::{Given, Givens};
use crate::references::{BitRange, Reference, References};
use base_types::NoMemory;
use indexmap::IndexMap;
use std::alloc::Global;
use stil_syntax::{Stretch, behind_labels, body_statement};
use stil_tokens::stil_tokens;

/// Names, and whether a warning was given of each.
pub(crate) type Names = IndexMap<Vec<u8>, bool>;

/// Whether bits of a vector are among the names.
fn has_bits(names: &Names, name: &[u8]) -> bool {
    match BitRange::of(name) {
        Some(bits) => names.keys().any(|known| bits.has(known.as_slice())),
        None => false,
    }
}

fn is_known(names: &Names, name: &[u8]) -> bool {
    names.contains_key(name) || has_bits(names, name)
}

/// Whether a name, or one of the bits that it names, is among the names.
fn is_named(alloc: Global, names: &Names, reference: &Reference<'_>) -> Result<bool, NoMemory> {
    match reference.whole() {
        Some(name) => Ok(is_known(names, name)),
        None => {
            let name = reference.joined(alloc)?;
            Ok(is_known(names, name.as_slice()))
        }
    }
}

/// Whether an expression names one of the names.
fn names_any(alloc: Global, names: &Names, expression: &[u8]) -> Result<bool, NoMemory> {
    let mut references = References::of(expression);
    while let Some(reference) = references.next() {
        if is_named(alloc, names, &reference)? {
            return Ok(true);
        }
    }
    Ok(false)
}

/// Adds the group that a definition makes, where it names one of the names.
fn add_group(alloc: Global, names: &mut Names, group: &Given<'_>) -> Result<(), NoMemory> {
    if !names_any(alloc, names, group.data)? {
        return Ok(());
    }
    if let Some(name) = References::of(group.expression).next() {
        names.insert(name.joined(alloc)?, false)?;
    }
    Ok(())
}

/// Adds the groups of a block of definitions, each of which may name groups before it.
fn add_block(alloc: Global, names: &mut Names, block: &[u8]) -> Result<(), NoMemory> {
    if block.len() > u32::MAX as usize {
        return Ok(());
    }
    let mut givens = Givens::of(block);
    while let Some(group) = givens.next() {
        add_group(alloc, names, &group)?;
    }
    Ok(())
}

fn is_groups(statement: &Stretch<'_, '_>) -> bool {
    match behind_labels(statement).next() {
        Some(word) => word.text == b"SignalGroups".as_slice(),
        None => false,
    }
}

/// Adds the groups of signals that a head defines by one of the names.
pub(crate) fn add_groups(alloc: Global, names: &mut Names, head: &[u8]) -> Result<(), NoMemory>
    requires small { length head.now < 2 ^ 32 }
{
    let spans = stil_tokens(alloc, head)?;
    let mut rest = Stretch::of(head, &spans);
    while let Some(statement) = body_statement(&mut rest) {
        if is_groups(&statement) {
            let place = statement.place();
            if let Some(block) = head.get(place.start as usize..place.end as usize) {
                add_block(alloc, names, block)?;
            }
        }
    }
    Ok(())
}
