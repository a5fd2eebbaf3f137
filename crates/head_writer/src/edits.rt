//! The parts of a head that are written anew.
ghost use Rattle.std.specs.Prelude.{◌≡◌, ◌≤◌, ◌++◌, ◌∷◌, ◌&&◌, nat_lt, length, map, decimal, IfOk, OnOk};
ghost use Rattle.std.specs.List.{flat_map, prefix_len};
ghost use Rattle.chain_trace.specs.Parities.{plus, odd};
ghost use Rattle.head_text.specs.Written.{mark_if, cells_text, bit_text, edit_at, edit_if, put_edit, sorted_edits, chain_edits, head_edits};
ghost use Rattle.head_writer.specs.NewChains.{new_bits, new_chain};

use crate::names::BitNames;
use base_types::{Name, NoMemory, Span};
use chain_trace::PathBits;
use splice::Edit;
use std::alloc::Global;
use stil_types::{ScanChainDecl, StilHead};

/// How many edits stand in front of the first that begins at a place or behind it.
fn count_before(edits: &[Edit], place: u32) -> usize
    ensures value { result ≡ prefix_len (λ e. nat_lt e.span.start place) edits.now }
    ensures within { result ≤ length edits.now }
{
    edits.iter().take_while(|e| e.span.start < place).count()
}

/// Puts an edit among others by its place.
fn put_edit(edits: &mut Vec<Edit>, edit: Edit) -> Result<(), NoMemory>
    ensures value { OnOk result (edits.new.items ≡ put_edit edit edits.old.items) }
{
    let place = count_before(edits.as_slice(), edit.span.start);
    edits.insert(place, edit)?;
    Ok(())
}

/// The sum modulo 2.
fn plus(a: bool, b: bool) -> bool
    ensures value { result ≡ plus a b }
{
    if a { !b } else { b }
}

fn is_odd(parities: &[bool]) -> bool
    ensures value { result ≡ odd parities.now }
{
    let mut sum = false;
    for parity in parities {
        sum = plus(sum, *parity);
    }
    sum
}

/// Appends a blank and a `!`, where a mark is wanted.
fn put_mark(out: &mut Vec<u8>, mark: bool) -> Result<(), NoMemory>
    ensures value { OnOk result (out.new.items ≡ out.old.items ++ mark_if mark) }
{
    if mark {
        out.extend_from_slice(b" !")?;
    }
    Ok(())
}

/// Appends a cell: a `!`, where the path inverts before it and marks are wanted, and its name.
fn put_bit(out: &mut Vec<u8>, marks: bool, inverts: bool, name: &[u8]) -> Result<(), NoMemory>
    ensures value { OnOk result (out.new.items ≡ out.old.items ++ (mark_if (marks && inverts) ++ 32 ∷ name.now)) }
{
    put_mark(out, marks && inverts)?;
    out.push(b' ')?;
    out.extend_from_slice(name)?;
    Ok(())
}

/// Appends the cells of a path.
fn put_bits(
    out: &mut Vec<u8>,
    marks: bool,
    names: &BitNames<'_>,
    path: &PathBits,
) -> Result<(), NoMemory>
    ensures value { OnOk result (out.new.items ≡ out.old.items ++ flat_map (λ b. mark_if (marks && b.inverts) ++ 32 ∷ b.name) (new_bits names.now path.now.bits path.now.parity)) }
{
    let mut rest = path.bits.as_slice();
    let mut left = path.parity.as_slice();
    while let Some((bit, others)) = rest.split_first() {
        let Some((inverts, more)) = left.split_first() else {
            return Ok(());
        };
        put_bit(out, marks, *inverts, names.name_of(*bit))?;
        rest = others;
        left = more;
    }
    Ok(())
}

/// A list of cells, written at a place.
fn cells_edit(
    alloc: Global,
    at: Span,
    marks: bool,
    names: &BitNames<'_>,
    path: &PathBits,
) -> Result<Edit, NoMemory>
    ensures value { IfOk result (λ edit. edit ≡ edit_at at (cells_text marks (new_chain names.now path.now))) }
{
    let mut out = Vec::new(alloc);
    put_bits(&mut out, marks, names, path)?;
    put_mark(&mut out, marks && path.out_parity)?;
    Ok(Edit {
        span: at,
        text: Name::of(out),
    })
}

/// The bytes of a bit.
fn bit_text(bit: bool) -> &'static [u8]
    ensures value { result.now ≡ bit_text bit }
{
    if bit { b"1" } else { b"0" }
}

/// An inversion, written at a place.
fn inversion_edit(alloc: Global, at: Span, path: &PathBits) -> Result<Edit, NoMemory>
    ensures value { IfOk result (λ edit. edit ≡ edit_at at (bit_text (plus (odd path.now.parity) path.now.out_parity))) }
{
    let inversion = plus(is_odd(path.parity.as_slice()), path.out_parity);
    Ok(Edit {
        span: at,
        text: Name::copy(alloc, bit_text(inversion))?,
    })
}

/// How many bits are written.
#[tactic(auto, using(crate::proofs::EditPlaces::count_bits))]
fn bit_count(names: &BitNames<'_>, path: &PathBits) -> usize
    ensures value { result ≡ length (new_bits names.now path.now.bits path.now.parity) }
{
    path.bits.as_slice().len().min(path.parity.as_slice().len())
}

/// A number, written at a place.
fn number_edit(alloc: Global, at: Span, number: usize) -> Result<Edit, NoMemory>
    ensures value { IfOk result (λ edit. edit ≡ edit_at at (decimal number)) }
{
    let number = format!(in alloc; "{number}")?;
    Ok(Edit {
        span: at,
        text: Name::copy(alloc, number.as_bytes())?,
    })
}

/// What is written of a chain's list of cells, where it has one.
fn cells_edits(
    alloc: Global,
    marks: bool,
    chain: &ScanChainDecl,
    names: &BitNames<'_>,
    path: &PathBits,
) -> Result<Vec<Edit>, NoMemory>
    ensures value { IfOk result (λ edits. edits.items ≡ sorted_edits (edit_if chain.now.cells_at (cells_text marks (new_chain names.now path.now)))) }
{
    let mut edits = Vec::new(alloc);
    if let Some(at) = chain.cells_at {
        edits.push(cells_edit(alloc, at, marks, names, path)?)?;
    }
    Ok(edits)
}

/// The same, and its inversion, where it stands, in the order of their places.
fn further_edits(
    alloc: Global,
    marks: bool,
    chain: &ScanChainDecl,
    names: &BitNames<'_>,
    path: &PathBits,
) -> Result<Vec<Edit>, NoMemory>
    ensures value { let new = new_chain names.now path.now in IfOk result (λ edits. edits.items ≡ sorted_edits (edit_if chain.now.inversion_at (bit_text new.inversion) ++ edit_if chain.now.cells_at (cells_text marks new))) }
{
    let mut edits = cells_edits(alloc, marks, chain, names, path)?;
    if let Some(at) = chain.inversion_at {
        put_edit(&mut edits, inversion_edit(alloc, at, path)?)?;
    }
    Ok(edits)
}

/// What is written of a chain, in the order of the places.
fn chain_edits(
    alloc: Global,
    marks: bool,
    chain: &ScanChainDecl,
    names: &BitNames<'_>,
    path: &PathBits,
) -> Result<Vec<Edit>, NoMemory>
    ensures value { IfOk result (λ edits. edits.items ≡ chain_edits marks chain.now (new_chain names.now path.now)) }
{
    let mut edits = further_edits(alloc, marks, chain, names, path)?;
    let count = bit_count(names, path);
    put_edit(&mut edits, number_edit(alloc, chain.length_at, count)?)?;
    Ok(edits)
}

/// What is written of all chains, in their order.
pub(crate) fn head_edits(
    alloc: Global,
    head: &StilHead,
    names: &BitNames<'_>,
    paths: &[PathBits],
) -> Result<Vec<Edit>, NoMemory>
    ensures value { IfOk result (λ edits. edits.items ≡ head_edits head.now.marks head.now.chains (map (new_chain names.now) paths.now)) }
{
    let mut edits = Vec::new(alloc);
    let mut rest = head.chains.as_slice();
    let mut left = paths;
    while let Some((chain, others)) = rest.split_first() {
        let Some((path, more)) = left.split_first() else {
            return Ok(edits);
        };
        let mut one = chain_edits(alloc, head.marks, chain, names, path)?;
        edits.append(&mut one)?;
        rest = others;
        left = more;
    }
    Ok(edits)
}
