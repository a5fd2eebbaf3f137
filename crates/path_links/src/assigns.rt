//! Assigns with those of scan sinks blank.
ghost use Rattle.std.specs.Prelude.{◌≡◌, ◌∷◌, [], List, map, if◌then◌else◌, IfOk};
ghost use Rattle.netlist_core.specs.declared.netlist.Bit.TheVariants.{Unknown};
ghost use Rattle.netlist_core.specs.Netlists.{pairs, named_bit, named_assign};
ghost use Rattle.path_links.specs.Erasure.{is_sink_bit, is_sink_assign, erased_assign};

use crate::instances::copy_expr;
use crate::sinks::Sinks;
use base_types::{NoMemory, Rows};
use chain_trace::plain_of;
use netlist_core::{Assign, Bit, Bits, Expr, NetName};
use std::alloc::Global;

fn is_sink_bit(nets: &[NetName], sinks: &Sinks, bit: Bit) -> bool
    ensures value { result ≡ is_sink_bit sinks.now (named_bit nets.now bit) }
{
    match bit {
        Bit::Net(net) => sinks.has_port(plain_of(nets, net)),
        Bit::Zero | Bit::One | Bit::Unknown => false,
    }
}

/// Whether the whole left side is the net bit of a scan output. Of sides that differ in width the shorter counts.
fn is_sink_assign(nets: &[NetName], sinks: &Sinks, left: &[Bit], right: &[Bit]) -> bool
    ensures value { result ≡ is_sink_assign sinks.now (map (λ p. (named_bit nets.now p.0, named_bit nets.now p.1)) (pairs left.now right.now)) }
{
    if left.len().min(right.len()) != 1 {
        return false;
    }
    match left.first() {
        Some(bit) => is_sink_bit(nets, sinks, *bit),
        None => false,
    }
}

fn blank_expr(alloc: Global, expr: &Expr) -> Expr
    ensures value { result.bits ≡ Unknown ∷ [] }
{
    Expr {
        bits: Bits::one(Bit::Unknown),
        span: expr.span,
    }
}

fn erased_right(alloc: Global, is_sink: bool, expr: &Expr) -> Result<Expr, NoMemory>
    ensures value { IfOk result (λ copy. copy.bits ≡ (if is_sink then Unknown ∷ [] else expr.now.bits)) }
{
    if is_sink {
        Ok(blank_expr(alloc, expr))
    } else {
        copy_expr(alloc, expr)
    }
}

fn erased_copy(
    alloc: Global,
    nets: &[NetName],
    sinks: &Sinks,
    assign: &Assign,
) -> Result<Assign, NoMemory>
    ensures value { IfOk result (λ copy. named_assign nets.now copy ≡ erased_assign sinks.now (named_assign nets.now assign.now)) }
{
    let left = assign.left.bits.as_slice();
    let right = assign.right.bits.as_slice();
    let is_sink = is_sink_assign(nets, sinks, left, right);
    Ok(Assign {
        left: copy_expr(alloc, &assign.left)?,
        right: erased_right(alloc, is_sink, &assign.right)?,
        line: assign.line,
    })
}

pub(crate) fn erased_assigns(
    alloc: Global,
    nets: &[NetName],
    sinks: &Sinks,
    assigns: &[Assign],
) -> Result<Rows<Assign>, NoMemory>
    ensures value { IfOk result (λ copies. map (named_assign nets.now) copies ≡ map (erased_assign sinks.now) (map (named_assign nets.now) assigns.now)) }
{
    let mut copies = Rows::new(alloc);
    for assign in assigns {
        copies.push(erased_copy(alloc, nets, sinks, assign)?)?;
    }
    Ok(copies)
}
