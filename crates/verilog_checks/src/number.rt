//! The check for numbers beyond their limits.
ghost use Rattle.std.specs.Prelude.{◌≡◌, ◌≤◌, ◌<◌, ◌++◌, ◌∷◌, [], List, ℕ, Some, map, length, false, true, IfOk, OnOk};
ghost use Rattle.std.specs.Bool.{OnTrue};
ghost use Rattle.std.specs.List.{prefix_len, list_any};
ghost use Rattle.verilog_syntax.specs.VerilogTokens.{is_digit};
ghost use Rattle.verilog_syntax.specs.Reading.{Answers};
ghost use Rattle.verilog_syntax.specs.declared.statement.Declared.{Declared as ghost_declared};
ghost use Rattle.verilog_syntax.specs.declared.statement.Range.{Range as ghost_range};
ghost use Rattle.verilog_names.specs.Values.{is_big_index};
ghost use Rattle.verilog_checks.specs.ConstantSizes.{size_digits, constant_size};
ghost use Rattle.verilog_names.specs.Declarations.{Declaration, bounds_of, declaration_of, declarations_in, connection_items};
ghost use Rattle.verilog_checks.specs.Checks.{check_number};
ghost use Rattle.verilog_checks.specs.Faults.{is_bad_size, is_bad_number, is_bad_range, range_in};
ghost use Rattle.verilog_checks.specs.Steps.{has_bad_number, are_small, AreCounted, Counts};

use crate::faults::fault_at;
use crate::ranges::{bounds_of, small_value};
use base_types::{Kind, NoMemory, ReadFault};
use std::alloc::Global;
use token_forms::TokenText;
use verilog_names::{Bounds, NameSet, NameState, index_value, unescaped, width};
use verilog_syntax::{Connection, Item, Placed, Range, Statement, is_digit};

/// The most bits that the declared vectors have together.
const MOST_BITS: u64 = 16_777_216;

fn digits_len(bytes: &[u8]) -> usize
    ensures value { result ≡ prefix_len is_digit bytes.now }
    ensures within { result ≤ length bytes.now }
{
    bytes.iter().take_while(|b| is_digit(**b)).count()
}

/// The decimal in front of a constant's quote.
pub fn size_digits(text: &[u8]) -> &[u8]
    ensures value { result.now ≡ size_digits text.now }
{
    &text[..digits_len(text)]
}

/// The size of a constant.
pub fn constant_size(text: &[u8]) -> u32
    requires small { is_bad_size text.now ≡ false }
    ensures value { result ≡ constant_size text.now }
    ensures within { result ≤ 128 }
{
    small_value(size_digits(text))
}

fn is_big_index(digits: &[u8]) -> bool
    ensures value { result ≡ is_big_index digits.now }
{
    index_value(digits).is_none()
}

/// Whether a constant has a size of 0 or beyond 128.
pub fn is_bad_size(text: &[u8]) -> bool
    ensures value { result ≡ is_bad_size text.now }
{
    match index_value(size_digits(text)) {
        Some(size) => size == 0 || size > 128,
        None => true,
    }
}

fn is_bad_number(item: &Item) -> bool
    ensures value { result ≡ is_bad_number item.now }
{
    match item {
        Item::Open | Item::Comma | Item::Close | Item::Name(_) => false,
        Item::Bit { index, .. } => is_big_index(index.text()),
        Item::Part { left, right, .. } => is_big_index(left.get().text())
            || is_big_index(right.get().text()),
        Item::Constant(text) => is_bad_size(text.text()),
    }
}

fn is_bad_range(range: &Option<Range>) -> bool
    ensures value { result ≡ is_bad_range range.now }
{
    match range {
        Some(range) => is_big_index(range.left.text()) || is_big_index(range.right.text()),
        None => false,
    }
}

fn has_bad_item(items: &[Item]) -> bool
    ensures value { result ≡ list_any is_bad_number items.now }
{
    for item in items {
        if is_bad_number(item) {
            return true;
        }
    }
    false
}

fn has_bad_connection(connections: &[Connection]) -> bool
    ensures value { result ≡ list_any is_bad_number (connection_items connections.now) }
{
    for connection in connections {
        if has_bad_item(connection.expression.items.as_slice()) {
            return true;
        }
    }
    false
}

/// Whether a number of the statement itself passes its limit.
fn has_bad_number(statement: &Statement) -> bool
    ensures value { result ≡ has_bad_number statement.now }
{
    match statement {
        Statement::Module { .. } => false,
        Statement::Declare { range, .. } => is_bad_range(range),
        Statement::Assign { left, right } => {
            has_bad_item(left.get().items.as_slice()) || has_bad_item(right.get().items.as_slice())
        }
        Statement::Instance { connections, .. } => has_bad_connection(connections.as_slice()),
    }
}

/// The declared vectors so far, and how many bits they have together.
#[derive(Drop)]
struct Vectors<'a> {
    names: NameSet<'a>,
    bits: u64,
}

impl<'a> Vectors<'a> {
    fn new(alloc: Global, hashing: NameState) -> Vectors<'a>
        ensures counted { AreCounted result [] }
        ensures small { result.bits ≤ 16777216 }
    {
        Vectors {
            names: NameSet::with_hasher(alloc, hashing),
            bits: 0,
        }
    }

    /// Counts a vector, unless its name was counted before.
    fn add(&mut self, name: &'a [u8], bounds: Bounds) -> Result<(), NoMemory>
        requires small { self.old.bits ≤ 16777216 }
        ensures counted { OnOk result ((ds : List Declaration) (d : Declaration) → d.name ≡ name.now → d.bounds ≡ Some bounds → AreCounted self.old ds → AreCounted self.new (ds ++ d ∷ [])) }
    {
        if self.names.insert(name)? {
            self.bits += width(bounds);
        }
        Ok(())
    }

    /// Counts vectors, and says whether there are few enough bits; if not, counting stops.
    fn add_all(&mut self, bounds: Bounds, names: &[TokenText<'a>]) -> Result<bool, NoMemory>
        requires small { self.old.bits ≤ 16777216 }
        ensures small { IfOk result (λ fits. OnTrue fits (self.new.bits ≤ 16777216)) }
        ensures counted { IfOk result (λ fits. (kind : ghost_declared) (range : ghost_range) → bounds_of range ≡ bounds → Counts fits self.old self.new (map (declaration_of kind (Some range)) names.now)) }
    {
        for name in names {
            self.add(unescaped(name), bounds)?;
            if self.bits > MOST_BITS {
                return Ok(false);
            }
        }
        Ok(true)
    }

    /// Counts what a statement declares.
    fn add_statement(&mut self, statement: &Statement<'a>) -> Result<bool, NoMemory>
        requires small { self.old.bits ≤ 16777216 }
        requires range { is_bad_range (range_in statement.now) ≡ false }
        ensures small { IfOk result (λ fits. OnTrue fits (self.new.bits ≤ 16777216)) }
        ensures counted { IfOk result (λ fits. Counts fits self.old self.new (declarations_in statement.now)) }
    {
        match statement {
            Statement::Declare { range, names, .. } => match range {
                Some(range) => {
                    let fits = self.add_all(bounds_of(range), names.as_slice())?;
                    Ok(fits)
                }
                None => Ok(true),
            },
            Statement::Module { .. } | Statement::Assign { .. } | Statement::Instance { .. } => {
                Ok(true)
            }
        }
    }
}

/// Every index, every constant's size and the bits of the declared vectors keep their limits.
pub fn check_number(
    alloc: Global,
    hashing: NameState,
    statements: &[Placed],
) -> Result<(), ReadFault>
    ensures value { Answers result (check_number statements.now) }
    ensures small { OnOk result (are_small statements.now ≡ true) }
{
    let mut vectors = Vectors::new(alloc, hashing);
    for placed in statements {
        if has_bad_number(&placed.statement) || !vectors.add_statement(&placed.statement)? {
            return Err(fault_at(Kind::VerilogNumber, placed.line));
        }
    }
    Ok(())
}
