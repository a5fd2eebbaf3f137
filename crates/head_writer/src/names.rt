//! Bits by their names.
ghost use Rattle.std.specs.Prelude.{◌≡◌, ℕ, Some, None, if◌then◌else◌, IfOk, OnOk};
ghost use Rattle.std.specs.HashMap.{get};
ghost use Rattle.std.specs.Option.{option_or};
ghost use Rattle.chain_trace.specs.declared.path.BitId.{BitId as ghost_bit};
ghost use Rattle.head_writer.specs.NewChains.{is_bit, name_for};
ghost use Rattle.head_writer.specs.Noted.{same_key, noted, AreFirst};

use base_types::{Name, NoMemory};
use chain_trace::BitId;
use std::alloc::Global;
use std::collections::HashMap;
use std::marker::Model;

/// A bit, and the bytes of its name as they stand in ScanCells, with their quotes.
#[derive(Drop)]
pub struct NamedBit {
    pub bit: BitId,
    pub name: Name,
}

/// The names of bits, to be looked up. Contracts see the bits with their names.
#[derive(Drop)]
pub(crate) struct BitNames<'n> {
    named: &'n [NamedBit],
    names: HashMap<(u32, u32, u32), &'n [u8]>,
}

impl<'n> Model for BitNames<'n> {
    ghost use Rattle.std.specs.Prelude.{List};
    ghost use Rattle.head_writer.specs.declared.names.NamedBit.{NamedBit};
    ghost use Rattle.head_writer.specs.Noted.{AreFirst};

    ghost Value = { List NamedBit };

    ghost view = { λ n. n.named.now };

    ghost invariant = { λ n. AreFirst n.named.now n.names };
}

/// Notes a name of a bit, unless it has one.
fn note<'n>(
    names: &mut HashMap<(u32, u32, u32), &'n [u8]>,
    key: (u32, u32, u32),
    name: &'n [u8],
) -> Result<(), NoMemory>
    ensures value { OnOk result ((q : ℕ × ℕ × ℕ) → get same_key names.new q ≡ option_or (get same_key names.old q) (if same_key key q then Some name.entry else None)) }
{
    if !names.contains_key(&key) {
        names.insert(key, name)?;
    }
    Ok(())
}

/// Notes the name of a bit, unless it has one.
fn put_name<'n>(
    names: &mut HashMap<(u32, u32, u32), &'n [u8]>,
    named: &'n NamedBit,
) -> Result<(), NoMemory>
    ensures value { OnOk result ((bit : ghost_bit) → noted names.new bit ≡ option_or (noted names.old bit) (if is_bit named.now.bit bit then Some named.now.name else None)) }
{
    let key = (named.bit.instance, named.bit.path, named.bit.index);
    note(names, key, named.name.bytes())
}

/// Of each bit the first name.
fn first_names<'n>(
    alloc: Global,
    named: &'n [NamedBit],
) -> Result<HashMap<(u32, u32, u32), &'n [u8]>, NoMemory>
    ensures value { IfOk result (AreFirst named.now) }
{
    let mut names = HashMap::new(alloc);
    for one in named {
        put_name(&mut names, one)?;
    }
    Ok(names)
}

impl<'n> BitNames<'n> {
    /// The names of these bits.
    pub(crate) fn of(alloc: Global, named: &'n [NamedBit]) -> Result<BitNames<'n>, NoMemory>
        ensures value { IfOk result (λ names. names ≡ named.now) }
    {
        Ok(BitNames {
            named,
            names: first_names(alloc, named)?,
        })
    }

    /// The first name of a bit; no bytes where it has none.
    pub(crate) fn name_of(&self, bit: BitId) -> &[u8]
        ensures value { result.now ≡ name_for self.now bit }
    {
        match self.names.get(&(bit.instance, bit.path, bit.index)) {
            Some(name) => name,
            None => &[],
        }
    }
}
