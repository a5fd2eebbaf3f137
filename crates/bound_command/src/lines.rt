//! The lines of `bound`.
ghost use Rattle.std.specs.Prelude.{◌≡◌, ◌++◌, ◌∷◌, [], ◌^◌, ◌<◌, decimal, OnOk};
ghost use Rattle.bound_command.specs.Bounds.{chain_lines, gap_of, numbers_line, tree_line};

use crate::chains::ChainBound;
use base_types::NoMemory;
use itoa::Buffer;

/// Appends a word and a number.
pub(crate) fn push_number(text: &mut Vec<u8>, word: &[u8], number: u128) -> Result<(), NoMemory>
    ensures value { OnOk result (text.new.items ≡ text.old.items ++ word.now ++ decimal number) }
{
    let mut digits = Buffer::new();
    text.extend_from_slice(word)?;
    text.extend_from_slice(digits.format(number).as_bytes())?;
    Ok(())
}

/// Appends a line of a word and numbers, each behind a blank.
fn push_numbers(text: &mut Vec<u8>, word: &[u8], numbers: &[i64]) -> Result<(), NoMemory>
    ensures value { OnOk result (text.new.items ≡ text.old.items ++ numbers_line word.now numbers.now) }
{
    let mut digits = Buffer::new();
    text.extend_from_slice(word)?;
    for x in numbers {
        text.push(b' ')?;
        text.extend_from_slice(digits.format(*x).as_bytes())?;
    }
    text.push(b'\n')?;
    Ok(())
}

/// Appends the lines of a chain: its name, its length and its bound; and the numbers of its certificate.
pub(crate) fn push_chain(
    text: &mut Vec<u8>,
    name: &[u8],
    chain: &ChainBound,
) -> Result<(), NoMemory>
    ensures value { OnOk result (text.new.items ≡ text.old.items ++ chain_lines name.now chain.now) }
{
    text.extend_from_slice(b"chain ")?;
    text.extend_from_slice(name)?;
    push_number(text, b" length ", u128::from(chain.length))?;
    push_number(text, b" bound ", u128::from(chain.bound))?;
    text.push(b'\n')?;
    push_numbers(text, b"leave", chain.potentials.leave.as_slice())?;
    push_numbers(text, b"enter", chain.potentials.enter.as_slice())?;
    Ok(())
}

/// How much a length is above a bound, in thousandths of the bound, rounded up; above a bound of 0 a thousand times the length.
fn gap(length: u128, bound: u128) -> u128
    requires length { length < 2 ^ 100 }
    requires bound { bound < 2 ^ 100 }
    ensures value { result ≡ gap_of length bound }
{
    if bound > 0 {
        (length.saturating_sub(bound) * 1000 + (bound - 1)) / bound
    } else {
        length * 1000
    }
}

/// Appends the line of a bound by trees and of what a length is above it.
pub(crate) fn push_tree(text: &mut Vec<u8>, length: u128, bound: u128) -> Result<(), NoMemory>
    requires length { length < 2 ^ 100 }
    requires bound { bound < 2 ^ 100 }
    ensures value { OnOk result (text.new.items ≡ text.old.items ++ tree_line length bound) }
{
    push_number(text, b"tree ", bound)?;
    push_number(text, b" gap ", gap(length, bound))?;
    text.push(b'\n')?;
    Ok(())
}
