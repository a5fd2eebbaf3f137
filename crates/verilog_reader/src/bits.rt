//! The bits of expressions.
ghost use Rattle.std.specs.Prelude.{◌≡◌, ◌+◌, ◌-◌, ◌<◌, ◌^◌, ◌++◌, true, false, All, Some, OnOk, IfOk};
ghost use Rattle.verilog_names.specs.Declarations.{width_or_one, selects, selects_part, mentions_of};
ghost use Rattle.verilog_checks.specs.Faults.{is_bad_size};
ghost use Rattle.verilog_reader.specs.Constants.{constant_bits};
ghost use Rattle.verilog_reader.specs.Numbering.{net_bits, all_bits, one_bit, part_bits, numbered_item, numbered_items, numbered_expression, IsFineItem, IsFineExpression, with_mentioned, with_items};

use crate::constant::constant_bits;
use crate::nets::Nets;
use base_types::NoMemory;
use netlist_core::{Bit, Bits, Expr, NetId};
use std::alloc::Global;
use verilog_checks::small_value;
use verilog_names::{Bounds, Entry, offset_in, unescaped, width, width_or_one};
use verilog_syntax::{Expression, Item};

fn push_nets(bits: &mut Vec<Bit>, first: u32, end: u32) -> Result<(), NoMemory>
    ensures ok { OnOk result (bits.new.items ≡ bits.old.items ++ net_bits first (end - first)) }
{
    for number in first..end {
        bits.push(Bit::Net(NetId(number)))?;
    }
    Ok(())
}

fn push_all(bits: &mut Vec<Bit>, entry: Entry) -> Result<(), NoMemory>
    requires { entry.first + width_or_one entry.bounds < 2 ^ 32 }
    ensures ok { OnOk result (bits.new.items ≡ bits.old.items ++ all_bits (Some entry)) }
{
    let end = entry.first + width_or_one(entry.bounds) as u32;
    push_nets(bits, entry.first, end)
}

fn push_one(bits: &mut Vec<Bit>, entry: Entry, index: u32) -> Result<(), NoMemory>
    requires within { entry.first + width_or_one entry.bounds < 2 ^ 32 }
    requires selects { selects entry.bounds index ≡ true }
    ensures ok { OnOk result (bits.new.items ≡ bits.old.items ++ one_bit (Some entry) index) }
{
    bits.push(Bit::Net(NetId(entry.first + offset_in(entry.bounds, index))))?;
    Ok(())
}

fn push_part(bits: &mut Vec<Bit>, entry: Entry, part: Bounds) -> Result<(), NoMemory>
    requires within { entry.first + width_or_one entry.bounds < 2 ^ 32 }
    requires selects { selects_part entry.bounds part ≡ true }
    ensures ok { OnOk result (bits.new.items ≡ bits.old.items ++ part_bits (Some entry) part) }
{
    let first = entry.first + offset_in(entry.bounds, part.left);
    push_nets(bits, first, first + width(part) as u32)
}

fn push_constant(alloc: Global, bits: &mut Vec<Bit>, text: &[u8]) -> Result<(), NoMemory>
    requires { is_bad_size text.now ≡ false }
    ensures ok { OnOk result (bits.new.items ≡ bits.old.items ++ constant_bits text.now) }
{
    for bit in constant_bits(alloc, text)?.into_vec() {
        bits.push(bit)?;
    }
    Ok(())
}

/// The item's bits, whose net may be new.
fn push_item<'a>(
    alloc: Global,
    bits: &mut Vec<Bit>,
    nets: &mut Nets<'a>,
    item: &Item<'a>,
) -> Result<(), NoMemory>
    requires { IsFineItem (with_mentioned nets.old (mentions_of item.now)) item.now }
    ensures ok { OnOk result (nets.new ≡ with_mentioned nets.old (mentions_of item.now)) }
    ensures made { OnOk result (bits.new.items ≡ bits.old.items ++ numbered_item nets.new item.now) }
{
    match item {
        Item::Open | Item::Comma | Item::Close => Ok(()),
        Item::Name(name) => push_all(bits, nets.entry_or_add(unescaped(name))?),
        Item::Bit { name, index } => {
            let entry = nets.entry_or_add(unescaped(name))?;
            push_one(bits, entry, small_value(index.text()))
        }
        Item::Part { name, left, right } => {
            let part = Bounds {
                left: small_value(left.get().text()),
                right: small_value(right.get().text()),
            };
            push_part(bits, nets.entry_or_add(unescaped(name))?, part)
        }
        Item::Constant(text) => push_constant(alloc, bits, text.text()),
    }
}

fn bits_of_items<'a>(
    alloc: Global,
    nets: &mut Nets<'a>,
    items: &[Item<'a>],
) -> Result<Bits, NoMemory>
    requires { All (IsFineItem (with_items nets.old items.now)) items.now }
    ensures ok { OnOk result (nets.new ≡ with_items nets.old items.now) }
    ensures value { IfOk result (λ bits. bits ≡ numbered_items nets.new items.now) }
{
    let mut bits = Vec::with_capacity(alloc, items.len())?;
    for item in items {
        push_item(alloc, &mut bits, nets, item)?;
    }
    Ok(Bits::of(bits))
}

fn bits_of_entry(alloc: Global, entry: Entry) -> Result<Bits, NoMemory>
    requires { entry.first + width_or_one entry.bounds < 2 ^ 32 }
    ensures value { IfOk result (λ bits. bits ≡ all_bits (Some entry)) }
{
    if entry.bounds.is_none() {
        return Ok(Bits::one(Bit::Net(NetId(entry.first))));
    }
    let mut bits = Vec::with_capacity(alloc, width_or_one(entry.bounds) as usize)?;
    push_all(&mut bits, entry)?;
    Ok(Bits::of(bits))
}

fn bits_of_item<'a>(alloc: Global, nets: &mut Nets<'a>, item: &Item<'a>) -> Result<Bits, NoMemory>
    requires { IsFineItem (with_mentioned nets.old (mentions_of item.now)) item.now }
    ensures ok { OnOk result (nets.new ≡ with_mentioned nets.old (mentions_of item.now)) }
    ensures value { IfOk result (λ bits. bits ≡ numbered_item nets.new item.now) }
{
    if let Item::Name(name) = item {
        return bits_of_entry(alloc, nets.entry_or_add(unescaped(name))?);
    }
    let mut bits = Vec::new(alloc);
    push_item(alloc, &mut bits, nets, item)?;
    Ok(Bits::of(bits))
}

/// The bits of pieces, which mostly are one name.
fn bits_of<'a>(alloc: Global, nets: &mut Nets<'a>, items: &[Item<'a>]) -> Result<Bits, NoMemory>
    requires { All (IsFineItem (with_items nets.old items.now)) items.now }
    ensures ok { OnOk result (nets.new ≡ with_items nets.old items.now) }
    ensures value { IfOk result (λ bits. bits ≡ numbered_items nets.new items.now) }
{
    match items {
        [item] => bits_of_item(alloc, nets, item),
        _ => bits_of_items(alloc, nets, items),
    }
}

/// The bits of an expression, and where it stands. The nets that it is the first to mention are added.
pub(crate) fn expression_of<'a>(
    alloc: Global,
    nets: &mut Nets<'a>,
    expression: &Expression<'a>,
) -> Result<Expr, NoMemory>
    requires { IsFineExpression (with_items nets.old expression.now.items) expression.now }
    ensures ok { OnOk result (nets.new ≡ with_items nets.old expression.now.items) }
    ensures value { IfOk result (λ expr. expr ≡ numbered_expression nets.new expression.now) }
{
    Ok(Expr {
        bits: bits_of(alloc, nets, expression.items.as_slice())?,
        span: expression.span,
    })
}
