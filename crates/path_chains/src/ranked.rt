//! The chains of paths, with a cell for each bit, numbered by the order of the bits.
ghost use Rattle.std.specs.Prelude.{◌≡◌, ◌++◌, map, count_by, length, option_map, slice_get, IfOk, OnOk};
ghost use Rattle.std.specs.Ordering.{is_lt};
ghost use Rattle.std.specs.List.Sorted.{IsSorted};
ghost use Rattle.path_chains.specs.Numbered.{chain_of};
ghost use Rattle.path_chains.specs.Ranked.{key_of, key_cmp, name_of, seen, bits_of_all, ranked_chains};

use base_types::{NoMemory, Rows};
use chain_trace::{BitId, PathBits};
use netlist_core::{Instance, Netlist};
use std::alloc::Global;
use stil_tester::{ChainBits, Chains};

/// The instance of a number.
fn instance_at(netlist: &Netlist, instance: u32) -> Option<&Instance>
    ensures value { option_map (λ instance. instance.now) result ≡ slice_get netlist.now.instances instance }
{
    netlist.instances.as_slice().get(instance as usize)
}

/// What a bit is ordered by: the name of its instance, its scan path, and its place there.
fn key_of(netlist: &Netlist, bit: BitId) -> (&[u8], u32, u32)
    ensures value { seen result ≡ key_of netlist.now bit }
{
    let name: &[u8] = match instance_at(netlist, bit.instance) {
        Some(instance) => instance.name.bytes(),
        None => &[],
    };
    (name, bit.path, bit.index)
}

/// Puts the keys of bits behind others.
fn put_keys<'a>(
    keys: &mut Vec<(&'a [u8], u32, u32)>,
    netlist: &'a Netlist,
    bits: &[BitId],
) -> Result<(), NoMemory>
    ensures value { OnOk result (map seen keys.new.items ≡ map seen keys.old.items ++ map (key_of netlist.now) bits.now) }
{
    for bit in bits {
        keys.push(key_of(netlist, *bit))?;
    }
    Ok(())
}

/// The keys of the bits of all paths.
fn keys_of<'a>(
    alloc: Global,
    netlist: &'a Netlist,
    paths: &[PathBits],
) -> Result<Vec<(&'a [u8], u32, u32)>, NoMemory>
    ensures value { IfOk result (λ keys. map seen keys.items ≡ map (key_of netlist.now) (bits_of_all paths.now)) }
{
    let mut keys = Vec::new(alloc);
    for path in paths {
        put_keys(&mut keys, netlist, path.bits.as_slice())?;
    }
    Ok(keys)
}

/// How many of the sorted keys come before one.
fn rank_of(keys: &[(&[u8], u32, u32)], key: (&[u8], u32, u32)) -> usize
    requires sorted { IsSorted (λ a b. key_cmp (seen a) (seen b)) keys.now }
    ensures value { result ≡ count_by (λ other. is_lt (key_cmp other (seen key.entry))) (map seen keys.now) }
{
    keys.partition_point(
        |other: &(&[u8], u32, u32)| -> bool
            ensures { result ≡ is_lt (key_cmp (seen other.now) (seen key.entry)) }
        { other.cmp(&key).is_lt() },
    )
}

/// How many of the sorted keys come before that of a bit.
fn rank_at(netlist: &Netlist, keys: &[(&[u8], u32, u32)], bit: BitId) -> usize
    requires sorted { IsSorted (λ a b. key_cmp (seen a) (seen b)) keys.now }
    ensures value { result ≡ count_by (λ other. is_lt (key_cmp other (key_of netlist.now bit))) (map seen keys.now) }
{
    rank_of(keys, key_of(netlist, bit))
}

/// The cell of a bit. A number of 2^32 or more counts as want of memory.
fn cell_of(netlist: &Netlist, keys: &[(&[u8], u32, u32)], bit: BitId) -> Result<u32, NoMemory>
    requires sorted { IsSorted (λ a b. key_cmp (seen a) (seen b)) keys.now }
    ensures value { IfOk result (λ cell. cell ≡ count_by (λ other. is_lt (key_cmp other (key_of netlist.now bit))) (map seen keys.now)) }
{
    let Ok(cell) = u32::try_from(rank_at(netlist, keys, bit)) else {
        return Err(NoMemory);
    };
    Ok(cell)
}

/// The cells of a path's bits.
fn cells_of(
    alloc: Global,
    netlist: &Netlist,
    keys: &[(&[u8], u32, u32)],
    bits: &[BitId],
) -> Result<Rows<u32>, NoMemory>
    requires sorted { IsSorted (λ a b. key_cmp (seen a) (seen b)) keys.now }
    ensures value { IfOk result (λ cells. cells ≡ map (λ bit. count_by (λ other. is_lt (key_cmp other (key_of netlist.now bit))) (map seen keys.now)) bits.now) }
{
    let mut cells = Rows::new(alloc);
    for bit in bits {
        cells.push(cell_of(netlist, keys, *bit)?)?;
    }
    Ok(cells)
}

/// The chain of a path's bits, by the ranks of their keys.
fn chain_of(
    alloc: Global,
    netlist: &Netlist,
    keys: &[(&[u8], u32, u32)],
    path: &PathBits,
) -> Result<ChainBits, NoMemory>
    requires sorted { IsSorted (λ a b. key_cmp (seen a) (seen b)) keys.now }
    ensures value { IfOk result (λ chain. chain ≡ chain_of (λ bit. count_by (λ other. is_lt (key_cmp other (key_of netlist.now bit))) (map seen keys.now)) path.now) }
{
    let cells = cells_of(alloc, netlist, keys, path.bits.as_slice())?;
    let parity = Rows::of(Vec::from_slice(alloc, path.parity.as_slice())?);
    Ok(ChainBits {
        cells,
        parity,
        out_parity: path.out_parity,
    })
}

/// The chains of some paths' bits, by the ranks of their keys.
fn chains_by(
    alloc: Global,
    netlist: &Netlist,
    keys: &[(&[u8], u32, u32)],
    paths: &[PathBits],
) -> Result<Rows<ChainBits>, NoMemory>
    requires sorted { IsSorted (λ a b. key_cmp (seen a) (seen b)) keys.now }
    ensures value { IfOk result (λ chains. chains ≡ map (chain_of (λ bit. count_by (λ other. is_lt (key_cmp other (key_of netlist.now bit))) (map seen keys.now))) paths.now) }
{
    let mut chains = Rows::new(alloc);
    for path in paths {
        chains.push(chain_of(alloc, netlist, keys, path)?)?;
    }
    Ok(chains)
}

/// How many keys there are. More than 2^32 - 1 count as want of memory.
fn count_of(keys: &[(&[u8], u32, u32)]) -> Result<u32, NoMemory>
    ensures value { IfOk result (λ count. count ≡ length keys.now) }
{
    let Ok(count) = u32::try_from(keys.len()) else {
        return Err(NoMemory);
    };
    Ok(count)
}

/// The chains of paths' bits: a cell of the tester for each bit, numbered by the name of its instance in byte order, then by
/// its scan path, then by its place there. The bits are sorted once; more than 2^32 - 1 of them count as want of memory, and that
/// is the only refusal.
pub fn chains_for(alloc: Global, netlist: &Netlist, paths: &[PathBits]) -> Result<Chains, NoMemory>
    ensures value { IfOk result (λ chains. chains ≡ ranked_chains netlist.now paths.now) }
{
    let mut keys = keys_of(alloc, netlist, paths)?;
    keys.sort_unstable();
    let sorted = keys.as_slice();
    let cells = count_of(sorted)?;
    let chains = chains_by(alloc, netlist, sorted, paths)?;
    Ok(Chains { chains, cells })
}
