//! The names of tails.
ghost use Rattle.std.specs.Prelude.{◌≡◌, ◌<◌, ◌^◌, ◌||◌, ℕ, List, false, not, length, IfOk, OnOk, MatchOption};
ghost use Rattle.std.specs.List.{list_any};
ghost use Rattle.std.specs.Str.{bytes_eq};
ghost use Rattle.netlist_core.specs.declared.netlist.Netlist.{Netlist as Module};
ghost use Rattle.net_edit.specs.TailNames.{tail_name, is_bit_of_vector, is_taken, IsLeastFree, AreLeastFree};
ghost use Rattle.net_edit.specs.TakenNames.{has_name, HasTaken, HasNoBracket};

use base_types::{Name, NoMemory};
use netlist_core::{Instance, NetName, Netlist};
use std::alloc::Global;
use std::collections::HashSet;

/// Notes a name, where a tail could have it.
fn note<'a>(taken: &mut HashSet<&'a [u8]>, name: &'a [u8]) -> Result<(), NoMemory>
    ensures value { OnOk result ((number : ℕ) → has_name taken.new (tail_name number) ≡ (has_name taken.old (tail_name number) || bytes_eq name.now (tail_name number))) }
{
    if name.starts_with(b"scan_tail_") {
        taken.insert(name)?;
    }
    Ok(())
}

/// The name of the vector that a net of this text is a bit of, if it is one: what stands before the first opening bracket.
fn vector_of(text: &[u8]) -> Option<&[u8]>
    ensures value { MatchOption result ((name : List ℕ) → is_bit_of_vector name text.now ≡ false) (λ front. (name : List ℕ) → HasNoBracket name → bytes_eq front.now name ≡ is_bit_of_vector name text.now) }
{
    for end in 0..text.len() {
        if text[end] == b'[' {
            return Some(&text[..end]);
        }
    }
    None
}

/// Notes the name of the vector that a net is a bit of, by the net's text, where a tail could have it.
fn note_vector<'a>(taken: &mut HashSet<&'a [u8]>, text: &'a [u8]) -> Result<(), NoMemory>
    ensures value { OnOk result ((number : ℕ) → number < 2 ^ 32 → has_name taken.new (tail_name number) ≡ (has_name taken.old (tail_name number) || is_bit_of_vector (tail_name number) text.now)) }
{
    if let Some(name) = vector_of(text) {
        note(taken, name)?;
    }
    Ok(())
}

fn note_nets<'a>(taken: &mut HashSet<&'a [u8]>, nets: &'a [NetName]) -> Result<(), NoMemory>
    ensures value { OnOk result ((number : ℕ) → number < 2 ^ 32 → has_name taken.new (tail_name number) ≡ (has_name taken.old (tail_name number) || list_any (λ net. bytes_eq net.plain (tail_name number) || is_bit_of_vector (tail_name number) net.text) nets.now)) }
{
    for net in nets {
        note(taken, net.plain.bytes())?;
        note_vector(taken, net.text.bytes())?;
    }
    Ok(())
}

fn note_instances<'a>(
    taken: &mut HashSet<&'a [u8]>,
    instances: &'a [Instance],
) -> Result<(), NoMemory>
    ensures value { OnOk result ((number : ℕ) → has_name taken.new (tail_name number) ≡ (has_name taken.old (tail_name number) || list_any (λ placed. bytes_eq placed.name (tail_name number)) instances.now)) }
{
    for placed in instances {
        note(taken, placed.name.bytes())?;
    }
    Ok(())
}

/// The names of nets, vectors and instances that begin as those of tails.
fn taken_names<'a>(alloc: Global, netlist: &'a Netlist) -> Result<HashSet<&'a [u8]>, NoMemory>
    ensures value { IfOk result (λ taken. HasTaken netlist.now taken) }
{
    let mut taken = HashSet::new(alloc);
    note_nets(&mut taken, netlist.nets.as_slice())?;
    note_instances(&mut taken, netlist.instances.as_slice())?;
    Ok(taken)
}

/// The name of the tail of a number.
pub(crate) fn tail_name(alloc: Global, number: u32) -> Result<Name, NoMemory>
    ensures value { IfOk result (λ name. name ≡ tail_name number) }
{
    let text = format!(in alloc; "scan_tail_{number}")?;
    Name::copy(alloc, text.as_bytes())
}

fn is_free(alloc: Global, taken: &HashSet<&[u8]>, number: u32) -> Result<bool, NoMemory>
    ensures value { IfOk result (λ free. free ≡ not (has_name taken.now (tail_name number))) }
{
    let name = tail_name(alloc, number)?;
    Ok(!taken.contains(name.bytes()))
}

/// The least number from another on whose name isn't taken. There are far fewer names than numbers of 32 bits: where all of
/// these are taken, memory for the names is wanting.
fn least_free(alloc: Global, taken: &HashSet<&[u8]>, from: u32) -> Result<u32, NoMemory>
    ensures room { IfOk result (λ number. number < u32.MAX) }
    ensures value { IfOk result (λ number. (n : Module) → HasTaken n taken.now → IsLeastFree n from number) }
{
    for number in from..u32::MAX {
        if is_free(alloc, taken, number)? {
            return Ok(number);
        }
    }
    Err(NoMemory)
}

/// The numbers of so many tails.
pub(crate) fn tail_numbers(
    alloc: Global,
    netlist: &Netlist,
    count: usize,
) -> Result<Vec<u32>, NoMemory>
    ensures count { IfOk result (λ numbers. length numbers.items ≡ count) }
    ensures free { IfOk result (λ numbers. AreLeastFree netlist.now 0 numbers.items) }
{
    let mut numbers = Vec::new(alloc);
    if count == 0 {
        return Ok(numbers);
    }
    let taken = taken_names(alloc, netlist)?;
    let mut from = 0;
    for _place in 0..count {
        let number = least_free(alloc, &taken, from)?;
        numbers.push(number)?;
        from = number + 1;
    }
    Ok(numbers)
}
