//! How nets are named.
ghost use Rattle.std.specs.Prelude.{◌≡◌, ◌++◌, ◌∷◌, [], Option, Some, None, IfOk, OnOk};
ghost use Rattle.verilog_names.specs.Values.{bit_name, name_text};
ghost use Rattle.verilog_reader.specs.Denoted.{entry_nets, bit_text};

use base_types::{Name, NoMemory, Rows};
use netlist_core::NetName;
use std::alloc::Global;
use verilog_names::{Bounds, index_at, push_bit_name, width};
use verilog_syntax::{is_identifier, is_reserved};

/// A name as it stands in a text.
fn name_text(alloc: Global, name: &[u8]) -> Result<Vec<u8>, NoMemory>
    ensures value { IfOk result (λ text. text.items ≡ name_text name.now) }
{
    if is_identifier(name) && !is_reserved(name) {
        return Ok(Vec::from_slice(alloc, name)?);
    }
    let mut text = Vec::new(alloc);
    text.push(b'\\')?;
    text.extend_from_slice(name)?;
    text.push(b' ')?;
    Ok(text)
}

/// The name of a bit, behind the text of its vector.
fn bit_of(alloc: Global, name: &[u8], text: &[u8], index: u32) -> Result<NetName, NoMemory>
    ensures value { IfOk result (λ net. net ≡ record { plain = bit_name name.now index; text = bit_name text.now index }) }
{
    let mut plain = Vec::new(alloc);
    push_bit_name(alloc, &mut plain, name, index)?;
    let mut written = Vec::new(alloc);
    push_bit_name(alloc, &mut written, text, index)?;
    Ok(NetName {
        plain: Name::of(plain),
        text: Name::of(written),
    })
}

fn push_scalar(alloc: Global, names: &mut Rows<NetName>, name: &[u8]) -> Result<(), NoMemory>
    ensures ok { OnOk result (names.new ≡ names.old ++ entry_nets name.now None) }
{
    names.push(NetName {
        plain: Name::copy(alloc, name)?,
        text: Name::of(name_text(alloc, name)?),
    })
}

fn push_vector(
    alloc: Global,
    names: &mut Rows<NetName>,
    name: &[u8],
    bounds: Bounds,
) -> Result<(), NoMemory>
    ensures ok { OnOk result (names.new ≡ names.old ++ entry_nets name.now (Some bounds)) }
{
    let text = name_text(alloc, name)?;
    for at in 0..width(bounds) {
        names.push(bit_of(alloc, name, &text, index_at(bounds, at))?)?;
    }
    Ok(())
}

/// Appends the names of the nets that a name stands for.
pub(crate) fn push_names(
    alloc: Global,
    names: &mut Rows<NetName>,
    name: &[u8],
    bounds: Option<Bounds>,
) -> Result<(), NoMemory>
    ensures ok { OnOk result (names.new ≡ names.old ++ entry_nets name.now bounds) }
{
    match bounds {
        Some(bounds) => push_vector(alloc, names, name, bounds),
        None => push_scalar(alloc, names, name),
    }
}
