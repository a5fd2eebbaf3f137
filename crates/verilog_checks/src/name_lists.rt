//! Lists and sets of plain names.
ghost use Rattle.std.specs.Prelude.{◌≡◌, ◌++◌, List, ℕ, map, IfOk, OnOk};
ghost use Rattle.verilog_names.specs.Values.{unescaped};
ghost use Rattle.verilog_names.specs.Declarations.{ports_in};
ghost use Rattle.verilog_checks.specs.Checks.{has_twice};
ghost use Rattle.verilog_checks.specs.Faults.{pins_in};
ghost use Rattle.verilog_names.specs.NameSets.{HasNames};

use crate::few;
use base_types::NoMemory;
use std::alloc::Global;
use token_forms::TokenText;
use verilog_names::{NameSet, NameState, unescaped};
use verilog_syntax::{Connection, Statement};

/// Puts the plain names of these behind the last one.
fn push_names<'a>(names: &mut Vec<&'a [u8]>, written: &[TokenText<'a>]) -> Result<(), NoMemory>
    ensures value { OnOk result (map (λ name. name.now) names.new.items ≡ map (λ name. name.now) names.old.items ++ map unescaped written.now) }
{
    for name in written {
        names.push(unescaped(name))?;
    }
    Ok(())
}

/// The ports that a header lists.
pub(crate) fn ports_in<'a>(
    alloc: Global,
    statement: &Statement<'a>,
) -> Result<Vec<&'a [u8]>, NoMemory>
    ensures value { IfOk result (λ names. map (λ name. name.now) names.items ≡ ports_in statement.now) }
{
    let mut names = Vec::new(alloc);
    if let Statement::Module { ports, .. } = statement {
        push_names(&mut names, ports.as_slice())?;
    }
    Ok(names)
}

/// Whether an instance connects a pin twice.
pub(crate) fn repeats_pin(
    alloc: Global,
    hashing: NameState,
    statement: &Statement,
) -> Result<bool, NoMemory>
    ensures value { IfOk result (λ twice. twice ≡ has_twice (pins_in statement.now)) }
{
    match statement {
        Statement::Instance { connections, .. } => {
            if connections.as_slice().len() <= FEW {
                Ok(few::has_pin_twice(connections.as_slice()))
            } else {
                has_twice(alloc, hashing, pins_in(alloc, statement)?.as_slice())
            }
        }
        Statement::Module { .. } | Statement::Declare { .. } | Statement::Assign { .. } => {
            Ok(false)
        }
    }
}

fn push_pins<'a>(names: &mut Vec<&'a [u8]>, connections: &[Connection<'a>]) -> Result<(), NoMemory>
    ensures value { OnOk result (map (λ name. name.now) names.new.items ≡ map (λ name. name.now) names.old.items ++ map (λ c. unescaped c.pin) connections.now) }
{
    for connection in connections {
        names.push(unescaped(&connection.pin))?;
    }
    Ok(())
}

/// The pins that an instance connects.
fn pins_in<'a>(alloc: Global, statement: &Statement<'a>) -> Result<Vec<&'a [u8]>, NoMemory>
    ensures value { IfOk result (λ names. map (λ name. name.now) names.items ≡ pins_in statement.now) }
{
    let mut names = Vec::new(alloc);
    if let Statement::Instance { connections, .. } = statement {
        names.reserve_exact(connections.as_slice().len())?;
        push_pins(&mut names, connections.as_slice())?;
    }
    Ok(names)
}

const FEW: usize = 16;

/// Whether a name stands twice.
pub(crate) fn has_twice(
    alloc: Global,
    hashing: NameState,
    names: &[&[u8]],
) -> Result<bool, NoMemory>
    ensures value { IfOk result (λ twice. twice ≡ has_twice (map (λ name. name.now) names.now)) }
{
    if names.len() <= FEW {
        return Ok(few::has_twice(names));
    }
    let mut seen = NameSet::with_hasher(alloc, hashing);
    for name in names {
        if !seen.insert(*name)? {
            return Ok(true);
        }
    }
    Ok(false)
}

/// Adds names to a set.
pub(crate) fn add_names<'a>(set: &mut NameSet<'a>, names: &[&'a [u8]]) -> Result<(), NoMemory>
    ensures value { OnOk result ((before : List (List ℕ)) → HasNames set.old before → HasNames set.new (before ++ map (λ name. name.now) names.now)) }
{
    for name in names {
        set.insert(*name)?;
    }
    Ok(())
}
