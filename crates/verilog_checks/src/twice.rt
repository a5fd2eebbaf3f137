//! The check for names that stand twice.
//!
//! `Seen` holds the names of the statements so far; each statement is tested beside them and added. A name is looked up in
//! maps and sets, a scalar net's only where it is closed: where it ends with a bracket, as the names of bits do. The bits of
//! a vector are looked up one by one, but only at its first declaration, and only where a scalar net before has a closed
//! name; so their number stays within what the number check allows.
ghost use Rattle.std.specs.Prelude.{◌≡◌, ◌||◌, ◌++◌, [], List, ℕ, false, true, Ok, Some, map, IfOk, OnOk};
ghost use Rattle.std.specs.List.{list_any};
ghost use Rattle.verilog_syntax.specs.declared.reading.Placed.{Placed};
ghost use Rattle.verilog_names.specs.Declarations.{Declaration, declarations, declarations_in, has, is_wire, ports_in};
ghost use Rattle.verilog_checks.specs.Checks.{are_bits, check_twice, has_bit_in, has_twice, IsRefused};
ghost use Rattle.verilog_checks.specs.Faults.{instances_named, is_bad_range, pins_in, range_in, same_bounds};
ghost use Rattle.verilog_names.specs.NameTables.{firsts_of};
ghost use Rattle.verilog_checks.specs.Steps.{are_small};
ghost use Rattle.verilog_names.specs.NameSets.{HasNames};
ghost use Rattle.verilog_checks.specs.Seen.{AreClosed, AreNets, AreKnown, AddsOne, Adds, IsSeen, Tells, Keeps, declared_at, declared_as, have_small, may_stand_beside, is_bit, is_bracketed};

use crate::bit_names::split_bit;
use crate::faults::fault_at;
use crate::name_lists::{add_names, has_twice, ports_in, repeats_pin};
use crate::ranges::range_bounds;
use crate::scalars::{closed_declared, closed_scalars_in};
use crate::select::{is_port_kind, selects};
use base_types::{Kind, NoMemory, ReadFault};
use std::alloc::Global;
use token_forms::TokenText;
use verilog_names::{
    Bounds, DeclaredNames, First, NameSet, NameState, index_at, push_bit_name, unescaped, width,
};
use verilog_syntax::{Declared, Placed, Statement};

fn is_wire(kind: Declared) -> bool
    ensures value { result ≡ is_wire kind }
{
    match kind {
        Declared::Wire => true,
        Declared::Input
        | Declared::Output
        | Declared::Inout
        | Declared::Tri
        | Declared::Supply0
        | Declared::Supply1 => false,
    }
}

fn same_bounds(left: Option<Bounds>, right: Option<Bounds>) -> bool
    ensures value { result ≡ same_bounds left right }
{
    match (left, right) {
        (None, None) => true,
        (Some(a), Some(b)) => a.left == b.left && a.right == b.right,
        (None, Some(_)) | (Some(_), None) => false,
    }
}

/// A port may stand again as a wire with the same range.
fn may_stand_beside(first: First, kind: Declared, bounds: Option<Bounds>) -> bool
    ensures value { result ≡ may_stand_beside first kind bounds }
{
    is_port_kind(first.kind) && is_wire(kind) && same_bounds(first.bounds, bounds)
}

/// Whether a name is that of a bit of a vector that is declared.
fn is_bit(declared: &DeclaredNames, name: &[u8]) -> bool
    ensures value { (ds : List Declaration) → Keeps declared.now ds → have_small ds ≡ true → result ≡ is_bit ds name.now }
{
    match split_bit(name) {
        Some((vector, index)) => selects(declared.bounds(vector), index),
        None => false,
    }
}

/// Whether one of the names is that of a bit of a vector that is declared.
fn are_bits(declared: &DeclaredNames, names: &[&[u8]]) -> bool
    ensures value { (ds : List Declaration) → Keeps declared.now ds → have_small ds ≡ true → result ≡ are_bits ds (map (λ name. name.now) names.now) }
{
    for name in names {
        if is_bit(declared, *name) {
            return true;
        }
    }
    false
}

fn has_name(names: &NameSet, name: &[u8]) -> bool
    ensures value { (all : List (List ℕ)) → HasNames names.now all → result ≡ has all name.now }
{
    names.contains(&name)
}

/// Whether one of the scalar nets has the name of a bit of the vector.
fn has_bit(alloc: Global, nets: &NameSet, vector: &[u8], bounds: Bounds) -> Result<bool, NoMemory>
    ensures value { IfOk result (λ found. (all : List (List ℕ)) → AreNets nets.now all → found ≡ list_any (has_bit_in vector.now (Some bounds)) all) }
{
    let mut name = Vec::new(alloc);
    for place in 0..width(bounds) {
        name.clear();
        push_bit_name(alloc, &mut name, vector, index_at(bounds, place))?;
        if has_name(nets, name.as_slice()) {
            return Ok(true);
        }
    }
    Ok(false)
}

/// Whether one of the scalar nets has the name of a bit of the vector; without bounds it is none.
///
/// The set holds the closed names alone, since a bit has no other.
fn has_bit_among(
    alloc: Global,
    nets: &NameSet,
    vector: &[u8],
    bounds: Option<Bounds>,
) -> Result<bool, NoMemory>
    ensures value { IfOk result (λ found. (all : List (List ℕ)) → AreNets nets.now all → found ≡ list_any (has_bit_in vector.now bounds) all) }
{
    match bounds {
        Some(bounds) => {
            if nets.is_empty() {
                Ok(false)
            } else {
                has_bit(alloc, nets, vector, bounds)
            }
        }
        None => Ok(false),
    }
}

/// Adds a declaration, and says whether it may not stand, beside those before or beside the scalar nets.
///
/// The bits of a name that was declared before were tested then, and the scalar nets behind it beside them.
fn add_name<'a>(
    alloc: Global,
    declared: &mut DeclaredNames<'a>,
    nets: &NameSet,
    first: First,
    name: &'a [u8],
) -> Result<bool, NoMemory>
    ensures value { IfOk result (λ bad. (before : List Declaration) (all : List (List ℕ)) → AreKnown declared.old nets.now before all → AddsOne bad declared.new before (declared_at first name.now) all) }
{
    match declared.add(name, first)? {
        Some(known) => Ok(!may_stand_beside(known, first.kind, first.bounds)),
        None => has_bit_among(alloc, nets, name, first.bounds),
    }
}

/// Adds what a list of names declares, up to one that may not stand, and says whether there is one.
fn add_names_declared<'a>(
    alloc: Global,
    declared: &mut DeclaredNames<'a>,
    nets: &NameSet,
    first: First,
    names: &[TokenText<'a>],
) -> Result<bool, NoMemory>
    ensures value { IfOk result (λ bad. (before : List Declaration) (all : List (List ℕ)) → AreKnown declared.old nets.now before all → Adds bad declared.new before (map (declared_as first) names.now) all) }
{
    for name in names {
        if add_name(alloc, declared, nets, first, unescaped(name))? {
            return Ok(true);
        }
    }
    Ok(false)
}

/// Adds what a statement declares, and says whether a name of it may not stand.
fn add_declarations<'a>(
    alloc: Global,
    declared: &mut DeclaredNames<'a>,
    nets: &NameSet,
    statement: &Statement<'a>,
) -> Result<bool, NoMemory>
    requires small { is_bad_range (range_in statement.now) ≡ false }
    ensures value { IfOk result (λ bad. (before : List Declaration) (all : List (List ℕ)) → AreKnown declared.old nets.now before all → Adds bad declared.new before (declarations_in statement.now) all) }
{
    match statement {
        Statement::Declare { kind, range, names } => {
            let first = First {
                kind: *kind,
                bounds: range_bounds(range),
            };
            add_names_declared(alloc, declared, nets, first, names.as_slice())
        }
        Statement::Module { .. } | Statement::Assign { .. } | Statement::Instance { .. } => {
            Ok(false)
        }
    }
}

/// Adds the name of an instance, and says whether it stood before.
fn add_instance<'a>(
    instances: &mut NameSet<'a>,
    statement: &Statement<'a>,
) -> Result<bool, NoMemory>
    ensures value { IfOk result (λ again. (before : List (List ℕ)) → HasNames instances.old before → (again ≡ list_any (has before) (instances_named statement.now)) × HasNames instances.new (before ++ instances_named statement.now)) }
{
    match statement {
        Statement::Instance { name, .. } => Ok(!instances.insert(unescaped(name))?),
        Statement::Module { .. } | Statement::Declare { .. } | Statement::Assign { .. } => {
            Ok(false)
        }
    }
}

/// Whether a port stands twice in the statement, or a pin.
fn repeats_itself(
    alloc: Global,
    hashing: NameState,
    statement: &Statement,
) -> Result<bool, NoMemory>
    ensures value { IfOk result (λ twice. twice ≡ (has_twice (ports_in statement.now) || has_twice (pins_in statement.now))) }
{
    let ports = ports_in(alloc, statement)?;
    Ok(has_twice(alloc, hashing, ports.as_slice())? || repeats_pin(alloc, hashing, statement)?)
}

/// The names of the statements so far.
#[derive(Drop)]
struct Seen<'a> {
    declared: DeclaredNames<'a>,
    instances: NameSet<'a>,
    /// The scalar nets with closed names.
    nets: NameSet<'a>,
}

/// How many names statements declare: one that is declared twice counts twice.
fn declared_count(statements: &[Placed]) -> usize {
    let mut count: usize = 0;
    for placed in statements {
        if let Statement::Declare { names, .. } = &placed.statement {
            count = count.saturating_add(names.as_slice().len());
        }
    }
    count
}

fn is_instance(placed: &Placed) -> bool {
    matches!(placed.statement, Statement::Instance { .. })
}

fn instance_count(statements: &[Placed]) -> usize {
    statements
        .iter()
        .filter(|placed| is_instance(placed))
        .count()
}

impl<'a> Seen<'a> {
    /// Nothing yet, and room for the names of so many statements.
    fn with_room(
        alloc: Global,
        hashing: NameState,
        statements: &[Placed<'a>],
    ) -> Result<Seen<'a>, NoMemory>
        ensures value { IfOk result (λ seen. (all : List Placed) → IsSeen all [] seen) }
    {
        let room = instance_count(statements);
        Ok(Seen {
            declared: DeclaredNames::with_room(alloc, hashing, declared_count(statements))?,
            instances: NameSet::with_capacity_and_hasher(alloc, room, hashing)?,
            nets: NameSet::with_hasher(alloc, hashing),
        })
    }

    /// Adds a statement, and says whether it is bad beside those so far.
    fn is_bad(
        &mut self,
        alloc: Global,
        hashing: NameState,
        closed: &NameSet<'a>,
        statement: &Statement<'a>,
    ) -> Result<bool, NoMemory>
        requires small { is_bad_range (range_in statement.now) ≡ false }
        ensures value { IfOk result (λ bad. (ps : List Placed) (before : List Placed) (p : Placed) → p.statement ≡ statement.now → AreClosed closed.now (declarations ps) → have_small (declarations before) ≡ true → IsSeen ps before self.old → Tells bad ps before p self.new) }
    {
        let scalars = closed_scalars_in(alloc, closed, statement)?;
        let itself = repeats_itself(alloc, hashing, statement)?;
        let bits = are_bits(&self.declared, scalars.as_slice());
        let stands = add_declarations(alloc, &mut self.declared, &self.nets, statement)?;
        let again = add_instance(&mut self.instances, statement)?;
        add_names(&mut self.nets, scalars.as_slice())?;
        Ok(itself | bits | stands | again)
    }
}

/// The declared names, unless a statement gives a name to something else than a statement before it, or twice: the first one
/// that does is answered.
pub fn check_twice<'a>(
    alloc: Global,
    hashing: NameState,
    statements: &[Placed<'a>],
) -> Result<DeclaredNames<'a>, ReadFault>
    requires small { are_small statements.now ≡ true }
    ensures passed { OnOk result (check_twice statements.now ≡ Ok tt) }
    ensures refused { IsRefused result (check_twice statements.now) }
    ensures names { IfOk result (λ names. names ≡ firsts_of (declarations statements.now)) }
{
    let closed = closed_declared(alloc, hashing, statements)?;
    let mut seen = Seen::with_room(alloc, hashing, statements)?;
    for placed in statements {
        if seen.is_bad(alloc, hashing, &closed, &placed.statement)? {
            return Err(fault_at(Kind::VerilogTwice, placed.line));
        }
    }
    Ok(seen.declared)
}
