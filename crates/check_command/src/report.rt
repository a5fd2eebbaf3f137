//! The text of `check`.
ghost use Rattle.std.specs.Prelude.{◌≡◌, ◌++◌, ◌∷◌, [], ◌<◌, ◌≤◌, length, decimal, IfOk, OnOk};
ghost use Rattle.chain_rules.specs.Legality.{unit_at, bits_of, chain_at};
ghost use Rattle.wire_cost.specs.Lengths.{ArePlaced, IsPlanAt};
ghost use Rattle.check_command.specs.Checks.{chain_text, chain_line, lines_from, check_text};

use base_types::{NoMemory, Text};
use chain_rules::Rules;
use def_reader::{Design, ScanChainText};
use std::alloc::Global;
use wire_cost::{Ends, plan_length, wire_of};

/// Appends a word and a number.
fn push_number(alloc: Global, text: &mut Vec<u8>, word: &[u8], number: u64) -> Result<(), NoMemory>
    ensures value { OnOk result (text.new.items ≡ text.old.items ++ word.now ++ decimal number) }
{
    let number = format!(in alloc; "{number}")?;
    text.extend_from_slice(word)?;
    text.extend_from_slice(number.as_bytes())?;
    Ok(())
}

/// Appends the line of a chain: its name, its units, their bits and its length.
fn push_chain(
    alloc: Global,
    text: &mut Vec<u8>,
    name: &[u8],
    units: u64,
    bits: u64,
    length: u64,
) -> Result<(), NoMemory>
    ensures value { OnOk result (text.new.items ≡ text.old.items ++ chain_text name.now units bits length) }
{
    text.extend_from_slice(b"chain ")?;
    text.extend_from_slice(name)?;
    push_number(alloc, text, b" units ", units)?;
    push_number(alloc, text, b" bits ", bits)?;
    push_number(alloc, text, b" length ", length)?;
    text.push(b'\n')?;
    Ok(())
}

/// How many bits a unit has.
fn unit_bits(rules: &Rules, unit: u32) -> u32
    ensures value { result ≡ (unit_at rules.now unit).bits }
{
    match rules.units.as_slice().get(unit as usize) {
        Some(unit) => unit.bits,
        None => 0,
    }
}

/// How many bits units have together.
fn bits_of(rules: &Rules, units: &[u32]) -> u64
    requires few { length units.now ≤ 65536 }
    ensures value { result ≡ bits_of rules.now units.now }
{
    let mut bits = 0;
    for unit in units {
        bits += u64::from(unit_bits(rules, *unit));
    }
    bits
}

/// Appends the line of the chain of a number.
fn push_line(
    alloc: Global,
    text: &mut Vec<u8>,
    rules: &Rules,
    ends: &Ends,
    number: usize,
    chain: &ScanChainText,
) -> Result<(), NoMemory>
    requires placed { ArePlaced ends.now }
    requires plan { IsPlanAt ends.now rules.now.read }
    requires within { number < length rules.now.read.chains }
    ensures value { OnOk result (text.new.items ≡ text.old.items ++ chain_line rules.now ends.now number chain.now) }
{
    let units = rules.read.chain(number);
    let bits = bits_of(rules, units);
    let length = wire_of(ends, number as u32, units);
    push_chain(
        alloc,
        text,
        chain.name.bytes(),
        units.len() as u64,
        bits,
        length,
    )
}

/// Appends a line for each chain.
fn push_lines(
    alloc: Global,
    text: &mut Vec<u8>,
    rules: &Rules,
    ends: &Ends,
    chains: &[ScanChainText],
) -> Result<(), NoMemory>
    requires placed { ArePlaced ends.now }
    requires plan { IsPlanAt ends.now rules.now.read }
    requires count { length chains.now ≡ length rules.now.read.chains }
    ensures value { OnOk result (text.new.items ≡ text.old.items ++ lines_from rules.now ends.now 0 chains.now) }
{
    for number in 0..chains.len() {
        push_line(alloc, text, rules, ends, number, &chains[number])?;
    }
    Ok(())
}

/// A line for each chain of a design as read, `chain NAME units U bits B length L`, and `length L` of all; lengths are in half database
/// units.
pub(crate) fn report_of(
    alloc: Global,
    design: &Design,
    rules: &Rules,
    ends: &Ends,
) -> Result<Text, NoMemory>
    requires placed { ArePlaced ends.now }
    requires plan { IsPlanAt ends.now rules.now.read }
    requires count { length design.now.chains ≡ length rules.now.read.chains }
    ensures value { IfOk result (λ text. text ≡ check_text design.now rules.now ends.now) }
{
    let mut text = Vec::new(alloc);
    push_lines(alloc, &mut text, rules, ends, design.chains.as_slice())?;
    let length = plan_length(ends, &rules.read).unsigned_abs();
    push_number(alloc, &mut text, b"length ", length)?;
    text.push(b'\n')?;
    Ok(Text::of(text))
}
