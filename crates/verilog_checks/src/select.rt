//! The check of selects, of the widths of assigns, and of ports against their directions.
ghost use Rattle.std.specs.Prelude.{◌≡◌, ◌≤◌, ◌^◌, ◌||◌, ◌==◌, List, ℕ, not, false, true, map, IfOk, OnOk};
ghost use Rattle.std.specs.List.{list_any};
ghost use Rattle.verilog_syntax.specs.Reading.{Answers};
ghost use Rattle.verilog_names.specs.Values.{is_big_index, unescaped};
ghost use Rattle.verilog_names.specs.Declarations.{declarations, is_port_kind, header_ports, has, connection_items, items_in, selects, selects_part, part_of};
ghost use Rattle.verilog_checks.specs.Checks.{check_select};
ghost use Rattle.verilog_checks.specs.Faults.{is_bad_number, is_bad_select, item_width, expression_width, differ_in_width, has_direction};
ghost use Rattle.verilog_names.specs.NameTables.{firsts_of, known_bounds};
ghost use Rattle.verilog_checks.specs.Steps.{has_bad_number, are_small, has_key, listed_in, directed_in, IsGathered, is_bad_beside};

use crate::faults::fault_at;
use crate::number::constant_size;
use crate::ranges::small_value;
use base_types::{Kind, NoMemory, ReadFault};
use std::alloc::Global;
use token_forms::TokenText;
use verilog_names::{
    Bounds, DeclaredNames, NameSet, NameState, has_index, has_part, unescaped, width, width_or_one,
};
use verilog_syntax::{Connection, Declared, Expression, Item, Placed, Statement};

fn part_of(left: &TokenText, right: &TokenText) -> Bounds
    requires left { is_big_index left.now ≡ false }
    requires right { is_big_index right.now ≡ false }
    ensures value { result ≡ part_of left.now right.now }
{
    Bounds {
        left: small_value(left.text()),
        right: small_value(right.text()),
    }
}

pub(crate) fn selects(bounds: Option<Bounds>, index: u32) -> bool
    ensures value { result ≡ selects bounds index }
{
    match bounds {
        Some(bounds) => has_index(bounds, index),
        None => false,
    }
}

fn selects_part(bounds: Option<Bounds>, part: Bounds) -> bool
    ensures value { result ≡ selects_part bounds part }
{
    match bounds {
        Some(bounds) => has_part(bounds, part),
        None => false,
    }
}

/// Whether a select lies outside its declaration, or its name is no declared vector.
fn is_bad_select(names: &DeclaredNames, item: &Item) -> bool
    requires small { is_bad_number item.now ≡ false }
    ensures value { result ≡ is_bad_select (known_bounds names.now) item.now }
{
    match item {
        Item::Open | Item::Comma | Item::Close | Item::Name(_) | Item::Constant(_) => false,
        Item::Bit { name, index } => {
            !selects(names.bounds(unescaped(name)), small_value(index.text()))
        }
        Item::Part { name, left, right } => {
            !selects_part(
                names.bounds(unescaped(name)),
                part_of(left.get(), right.get()),
            )
        }
    }
}

fn has_bad_item(names: &DeclaredNames, items: &[Item]) -> bool
    requires small { list_any is_bad_number items.now ≡ false }
    ensures value { result ≡ list_any (is_bad_select (known_bounds names.now)) items.now }
{
    for item in items {
        if is_bad_select(names, item) {
            return true;
        }
    }
    false
}

fn has_bad_connection(names: &DeclaredNames, connections: &[Connection]) -> bool
    requires small { list_any is_bad_number (connection_items connections.now) ≡ false }
    ensures value { result ≡ list_any (is_bad_select (known_bounds names.now)) (connection_items connections.now) }
{
    for connection in connections {
        if has_bad_item(names, connection.expression.items.as_slice()) {
            return true;
        }
    }
    false
}

fn has_bad_select(names: &DeclaredNames, statement: &Statement) -> bool
    requires small { has_bad_number statement.now ≡ false }
    ensures value { result ≡ list_any (is_bad_select (known_bounds names.now)) (items_in statement.now) }
{
    match statement {
        Statement::Module { .. } | Statement::Declare { .. } => false,
        Statement::Assign { left, right } => {
            has_bad_item(names, left.get().items.as_slice())
                || has_bad_item(names, right.get().items.as_slice())
        }
        Statement::Instance { connections, .. } => {
            has_bad_connection(names, connections.as_slice())
        }
    }
}

fn item_width(names: &DeclaredNames, item: &Item) -> u64
    requires small { is_bad_number item.now ≡ false }
    ensures value { result ≡ item_width (known_bounds names.now) item.now }
    ensures within { result ≤ 2 ^ 32 }
{
    match item {
        Item::Open | Item::Comma | Item::Close => 0,
        Item::Name(name) => width_or_one(names.bounds(unescaped(name))),
        Item::Bit { .. } => 1,
        Item::Part { left, right, .. } => width(part_of(left.get(), right.get())),
        Item::Constant(text) => u64::from(constant_size(text.text())),
    }
}

/// How many bits an expression has. Even of as many items as a slice can have, a `u128` holds the sum.
fn expression_width(names: &DeclaredNames, expression: &Expression) -> u128
    requires small { list_any is_bad_number expression.now.items ≡ false }
    ensures value { result ≡ expression_width (known_bounds names.now) expression.now }
{
    let mut total = 0;
    for item in expression.items.as_slice() {
        total += u128::from(item_width(names, item));
    }
    total
}

fn differ_in_width(names: &DeclaredNames, statement: &Statement) -> bool
    requires small { has_bad_number statement.now ≡ false }
    ensures value { result ≡ differ_in_width (known_bounds names.now) statement.now }
{
    match statement {
        Statement::Module { .. } | Statement::Declare { .. } | Statement::Instance { .. } => false,
        Statement::Assign { left, right } => {
            expression_width(names, left.get()) != expression_width(names, right.get())
        }
    }
}

pub(crate) fn is_port_kind(kind: Declared) -> bool
    ensures value { result ≡ is_port_kind kind }
{
    match kind {
        Declared::Input | Declared::Output | Declared::Inout => true,
        Declared::Wire | Declared::Tri | Declared::Supply0 | Declared::Supply1 => false,
    }
}

/// The names that the header lists.
fn listed_in<'s, 'a>(statement: &'s Statement<'a>) -> &'s [TokenText<'a>]
    ensures value { result.now ≡ listed_in statement.now }
{
    match statement {
        Statement::Module { ports, .. } => ports.as_slice(),
        Statement::Declare { .. } | Statement::Assign { .. } | Statement::Instance { .. } => &[],
    }
}

/// The names that a statement gives a direction.
fn directed_in<'s, 'a>(statement: &'s Statement<'a>) -> &'s [TokenText<'a>]
    ensures value { result.now ≡ directed_in statement.now }
{
    match statement {
        Statement::Declare { kind, names, .. } if is_port_kind(*kind) => names.as_slice(),
        _ => &[],
    }
}

fn add_names<'a>(set: &mut NameSet<'a>, names: &[TokenText<'a>]) -> Result<(), NoMemory>
    ensures ok { OnOk result ((q : List ℕ) → has_key set.new q ≡ (has_key set.old q || has (map unescaped names.now) q)) }
{
    for name in names {
        set.insert(unescaped(name))?;
    }
    Ok(())
}

fn header_ports<'a>(
    alloc: Global,
    hashing: NameState,
    statements: &[Placed<'a>],
) -> Result<NameSet<'a>, NoMemory>
    ensures value { IfOk result (λ set. (q : List ℕ) → has_key set q ≡ has (header_ports statements.now) q) }
{
    let mut set = NameSet::with_hasher(alloc, hashing);
    for placed in statements {
        add_names(&mut set, listed_in(&placed.statement))?;
    }
    Ok(set)
}

fn directed_names<'a>(
    alloc: Global,
    hashing: NameState,
    statements: &[Placed<'a>],
) -> Result<NameSet<'a>, NoMemory>
    ensures value { IfOk result (λ set. (q : List ℕ) → has_key set q ≡ has_direction (declarations statements.now) q) }
{
    let mut set = NameSet::with_hasher(alloc, hashing);
    for placed in statements {
        add_names(&mut set, directed_in(&placed.statement))?;
    }
    Ok(set)
}

/// Whether the set lacks one of the names.
fn lacks_one<'a>(set: &NameSet<'a>, names: &[TokenText<'a>]) -> bool
    ensures value { result ≡ list_any (λ name. not (has_key set.now (unescaped name))) names.now }
{
    for name in names {
        if !set.contains(&unescaped(name)) {
            return true;
        }
    }
    false
}

/// What the check needs to know of the ports.
#[derive(Drop)]
struct Known<'a> {
    /// Those that the header lists.
    ports: NameSet<'a>,
    /// Those that are declared with a direction.
    directed: NameSet<'a>,
}

fn gathered<'a>(
    alloc: Global,
    hashing: NameState,
    statements: &[Placed<'a>],
) -> Result<Known<'a>, NoMemory>
    ensures value { IfOk result (λ known. IsGathered known statements.now) }
{
    let ports = header_ports(alloc, hashing, statements)?;
    let directed = directed_names(alloc, hashing, statements)?;
    Ok(Known { ports, directed })
}

fn is_bad<'a>(names: &DeclaredNames<'a>, known: &Known<'a>, statement: &Statement<'a>) -> bool
    requires small { has_bad_number statement.now ≡ false }
    ensures value { result ≡ is_bad_beside names.now known.now statement.now }
{
    has_bad_select(names, statement)
        || differ_in_width(names, statement)
        || lacks_one(&known.directed, listed_in(statement))
        || lacks_one(&known.ports, directed_in(statement))
}

/// Each select lies within its declaration, the sides of each assign have one width, and the ports of the header are the
/// names with a direction.
pub fn check_select<'a>(
    alloc: Global,
    hashing: NameState,
    names: &DeclaredNames<'a>,
    statements: &[Placed<'a>],
) -> Result<(), ReadFault>
    requires small { are_small statements.now ≡ true }
    requires names { names.now ≡ firsts_of (declarations statements.now) }
    ensures value { Answers result (check_select statements.now) }
{
    let known = gathered(alloc, hashing, statements)?;
    for placed in statements {
        if is_bad(names, &known, &placed.statement) {
            return Err(fault_at(Kind::BadSelect, placed.line));
        }
    }
    Ok(())
}
