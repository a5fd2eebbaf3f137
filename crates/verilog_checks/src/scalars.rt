//! The scalar nets of statements whose names are closed: of these alone can one have the name of a bit of a vector.
ghost use Rattle.std.specs.Prelude.{◌≡◌, ◌∷◌, ◌++◌, [], List, ℕ, map, is_some, if◌then◌else◌, IfOk, OnOk, MatchOption};
ghost use Rattle.std.specs.List.{flat_map, filter};
ghost use Rattle.verilog_names.specs.Values.{unescaped};
ghost use Rattle.verilog_names.specs.Declarations.{Declaration, connection_items, declarations, declarations_in, mentions_of, undeclared_in};
ghost use Rattle.verilog_checks.specs.Faults.{scalars_in};
ghost use Rattle.verilog_names.specs.NameSets.{HasNames};
ghost use Rattle.verilog_checks.specs.Seen.{AreClosed, is_bracketed};

use crate::bit_names::is_bracketed;
use base_types::NoMemory;
use std::alloc::Global;
use token_forms::TokenText;
use verilog_names::{NameSet, NameState, unescaped};
use verilog_syntax::{Connection, Item, Placed, Range, Statement};

/// Adds the closed names of a list.
fn add_closed<'a>(set: &mut NameSet<'a>, declared: &[TokenText<'a>]) -> Result<(), NoMemory>
    ensures value { OnOk result ((before : List (List ℕ)) → HasNames set.old before → HasNames set.new (before ++ filter is_bracketed (map unescaped declared.now))) }
{
    for written in declared {
        let name = unescaped(written);
        if is_bracketed(name) {
            set.insert(name)?;
        }
    }
    Ok(())
}

/// Adds the closed names that a statement declares.
fn add_declared<'a>(set: &mut NameSet<'a>, statement: &Statement<'a>) -> Result<(), NoMemory>
    ensures value { OnOk result ((before : List Declaration) → AreClosed set.old before → AreClosed set.new (before ++ declarations_in statement.now)) }
{
    match statement {
        Statement::Declare { names, .. } => add_closed(set, names.as_slice()),
        Statement::Module { .. } | Statement::Assign { .. } | Statement::Instance { .. } => Ok(()),
    }
}

/// The closed names that statements declare. Mostly there are none.
pub(crate) fn closed_declared<'a>(
    alloc: Global,
    hashing: NameState,
    statements: &[Placed<'a>],
) -> Result<NameSet<'a>, NoMemory>
    ensures value { IfOk result (λ set. AreClosed set (declarations statements.now)) }
{
    let mut set = NameSet::with_hasher(alloc, hashing);
    for placed in statements {
        add_declared(&mut set, &placed.statement)?;
    }
    Ok(set)
}

/// The name that an operand mentions.
fn mention_of<'a>(item: &Item<'a>) -> Option<&'a [u8]>
    ensures value { MatchOption result (mentions_of item.now ≡ []) (λ name. mentions_of item.now ≡ name.now ∷ []) }
{
    match item {
        Item::Name(name) | Item::Bit { name, .. } | Item::Part { name, .. } => Some(unescaped(
            name,
        )),
        Item::Open | Item::Comma | Item::Close | Item::Constant(_) => None,
    }
}

/// The name that an operand mentions, where it is closed and isn't declared.
fn undeclared_of<'a>(closed: &NameSet<'a>, item: &Item<'a>) -> Option<&'a [u8]>
    ensures value { (ds : List Declaration) → AreClosed closed.now ds → MatchOption result (filter is_bracketed (undeclared_in ds (mentions_of item.now)) ≡ []) (λ name. filter is_bracketed (undeclared_in ds (mentions_of item.now)) ≡ name.now ∷ []) }
{
    let name = mention_of(item)?;
    if is_bracketed(name) && !closed.contains(&name) {
        Some(name)
    } else {
        None
    }
}

/// Puts the closed names that operands mention and none declares behind the last name.
fn push_undeclared<'a>(
    names: &mut Vec<&'a [u8]>,
    closed: &NameSet<'a>,
    items: &[Item<'a>],
) -> Result<(), NoMemory>
    ensures value { OnOk result ((ds : List Declaration) → AreClosed closed.now ds → map (λ name. name.now) names.new.items ≡ map (λ name. name.now) names.old.items ++ filter is_bracketed (undeclared_in ds (flat_map mentions_of items.now))) }
{
    for item in items {
        if let Some(name) = undeclared_of(closed, item) {
            names.push(name)?;
        }
    }
    Ok(())
}

fn push_connected<'a>(
    names: &mut Vec<&'a [u8]>,
    closed: &NameSet<'a>,
    connections: &[Connection<'a>],
) -> Result<(), NoMemory>
    ensures value { OnOk result ((ds : List Declaration) → AreClosed closed.now ds → map (λ name. name.now) names.new.items ≡ map (λ name. name.now) names.old.items ++ filter is_bracketed (undeclared_in ds (flat_map mentions_of (connection_items connections.now)))) }
{
    for connection in connections {
        push_undeclared(names, closed, connection.expression.items.as_slice())?;
    }
    Ok(())
}

/// Puts the closed names of a list behind the last name.
fn push_closed<'a>(names: &mut Vec<&'a [u8]>, declared: &[TokenText<'a>]) -> Result<(), NoMemory>
    ensures value { OnOk result (map (λ name. name.now) names.new.items ≡ map (λ name. name.now) names.old.items ++ filter is_bracketed (map unescaped declared.now)) }
{
    for written in declared {
        let name = unescaped(written);
        if is_bracketed(name) {
            names.push(name)?;
        }
    }
    Ok(())
}

/// Puts the closed names that a declaration without a range declares behind the last name.
fn push_scalars<'a>(
    names: &mut Vec<&'a [u8]>,
    range: &Option<Range<'a>>,
    declared: &[TokenText<'a>],
) -> Result<(), NoMemory>
    ensures value { OnOk result (map (λ name. name.now) names.new.items ≡ map (λ name. name.now) names.old.items ++ (if is_some range.now then [] else filter is_bracketed (map unescaped declared.now))) }
{
    match range {
        Some(_) => Ok(()),
        None => push_closed(names, declared),
    }
}

/// The scalar nets with closed names that a statement declares, or mentions where none of all declares them.
pub(crate) fn closed_scalars_in<'a>(
    alloc: Global,
    closed: &NameSet<'a>,
    statement: &Statement<'a>,
) -> Result<Vec<&'a [u8]>, NoMemory>
    ensures value { IfOk result (λ names. (ds : List Declaration) → AreClosed closed.now ds → map (λ name. name.now) names.items ≡ filter is_bracketed (scalars_in ds statement.now)) }
{
    let mut scalars = Vec::new(alloc);
    match statement {
        Statement::Module { .. } => Ok(scalars),
        Statement::Declare { range, names, .. } => {
            push_scalars(&mut scalars, range, names.as_slice())?;
            Ok(scalars)
        }
        Statement::Assign { left, right } => {
            push_undeclared(&mut scalars, closed, left.get().items.as_slice())?;
            push_undeclared(&mut scalars, closed, right.get().items.as_slice())?;
            Ok(scalars)
        }
        Statement::Instance { connections, .. } => {
            push_connected(&mut scalars, closed, connections.as_slice())?;
            Ok(scalars)
        }
    }
}
