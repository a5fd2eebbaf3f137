//! Whether two sets have the same scan cells.
ghost use Rattle.std.specs.Prelude.{◌≡◌, ◌↔◌, ◌++◌, length, map, option_map, slice_get, IfOk, OnOk, IsTrue};
ghost use Rattle.path_chains.specs.Ranked.{bits_of_all, key_of};
ghost use Rattle.same_files.specs.Cells.{AreEntries, HaveSameScanCells, StandApart, entry_of, seen};

use crate::set::PatternSet;
use base_types::NoMemory;
use chain_trace::{BitId, PathBits};
use netlist_core::{Instance, Netlist};
use std::alloc::Global;

/// The instance of a number.
fn instance_at(netlist: &Netlist, instance: u32) -> Option<&Instance>
    ensures value { option_map (λ instance. instance.now) result ≡ slice_get netlist.now.instances instance }
{
    netlist.instances.as_slice().get(instance as usize)
}

/// What a bit is compared by: the name of its instance, its scan path, its place there, and the instance's cell.
fn entry_of(netlist: &Netlist, bit: BitId) -> (&[u8], u32, u32, &[u8])
    ensures value { seen result ≡ entry_of netlist.now bit }
{
    match instance_at(netlist, bit.instance) {
        Some(instance) => (
            instance.name.bytes(),
            bit.path,
            bit.index,
            instance.cell.bytes(),
        ),
        None => (&[], bit.path, bit.index, &[]),
    }
}

/// Puts the entries of bits behind others.
fn put_entries<'a>(
    entries: &mut Vec<(&'a [u8], u32, u32, &'a [u8])>,
    netlist: &'a Netlist,
    bits: &[BitId],
) -> Result<(), NoMemory>
    ensures value { OnOk result (map seen entries.new.items ≡ map seen entries.old.items ++ map (entry_of netlist.now) bits.now) }
{
    for bit in bits {
        entries.push(entry_of(netlist, *bit))?;
    }
    Ok(())
}

/// The entries of the bits of all paths.
fn entries_in<'a>(
    alloc: Global,
    netlist: &'a Netlist,
    paths: &[PathBits],
) -> Result<Vec<(&'a [u8], u32, u32, &'a [u8])>, NoMemory>
    ensures value { IfOk result (λ entries. map seen entries.items ≡ map (entry_of netlist.now) (bits_of_all paths.now)) }
{
    let mut entries = Vec::new(alloc);
    for path in paths {
        put_entries(&mut entries, netlist, path.bits.as_slice())?;
    }
    Ok(entries)
}

/// The entries of the bits of all paths, in their order.
fn entries_of<'a>(
    alloc: Global,
    netlist: &'a Netlist,
    paths: &[PathBits],
) -> Result<Vec<(&'a [u8], u32, u32, &'a [u8])>, NoMemory>
    ensures value { IfOk result (λ entries. AreEntries netlist.now (bits_of_all paths.now) entries.items) }
{
    let mut entries = entries_in(alloc, netlist, paths)?;
    entries.sort_unstable();
    Ok(entries)
}

/// Whether two entries are the same.
fn is_same(a: (&[u8], u32, u32, &[u8]), b: (&[u8], u32, u32, &[u8])) -> bool
    ensures value { IsTrue result ↔ seen a.entry ≡ seen b.entry }
{
    a.0 == b.0 && a.1 == b.1 && a.2 == b.2 && a.3 == b.3
}

/// Whether two lists of entries are the same.
fn are_equal(a: &[(&[u8], u32, u32, &[u8])], b: &[(&[u8], u32, u32, &[u8])]) -> bool
    ensures value { IsTrue result ↔ map seen a.now ≡ map seen b.now }
{
    if a.len() != b.len() {
        return false;
    }
    for index in 0..a.len() {
        if !is_same(a[index], b[index]) {
            return false;
        }
    }
    true
}

/// Whether paths on two netlists are as many and have the same bits by name, each on an instance of the same cell; each bit has a name of its
/// own.
fn same_cells(
    alloc: Global,
    n: &Netlist,
    a: &[PathBits],
    w: &Netlist,
    b: &[PathBits],
) -> Result<bool, NoMemory>
    requires old { StandApart (map (key_of n.now) (bits_of_all a.now)) }
    requires new { StandApart (map (key_of w.now) (bits_of_all b.now)) }
    ensures value { IfOk result (λ same. IsTrue same ↔ ((length a.now ≡ length b.now) × HaveSameScanCells n.now w.now (bits_of_all a.now) (bits_of_all b.now))) }
    ensures count { IfOk result (λ same. IsTrue same → length (bits_of_all a.now) ≡ length (bits_of_all b.now)) }
{
    if a.len() != b.len() {
        return Ok(false);
    }
    let old = entries_of(alloc, n, a)?;
    let new = entries_of(alloc, w, b)?;
    Ok(are_equal(old.as_slice(), new.as_slice()))
}

/// Whether two sets have as many chains and the same scan cells: by the name of the instance, scan path and bit, each on an instance of
/// the same cell. The bits of both are sorted once; want of memory is the only refusal.
pub fn have_same_cells(alloc: Global, a: &PatternSet, b: &PatternSet) -> Result<bool, NoMemory>
    ensures value { IfOk result (λ same. IsTrue same ↔ ((length a.now.bits ≡ length b.now.bits) × HaveSameScanCells a.now.netlist b.now.netlist (bits_of_all a.now.bits) (bits_of_all b.now.bits))) }
    // So both have as many.
    ensures count { IfOk result (λ same. IsTrue same → length (bits_of_all a.now.bits) ≡ length (bits_of_all b.now.bits)) }
{
    same_cells(alloc, a.netlist(), a.bits(), b.netlist(), b.bits())
}

/// A scan cell by its names.
#[derive(Clone, Copy)]
pub struct ScanCell<'a> {
    /// The name of the instance.
    pub instance: &'a [u8],
    /// The number of the scan path in its cell, from 0.
    pub path: u32,
    /// The place of the bit on that path, from 0.
    pub bit: u32,
    /// The name of the instance's cell.
    pub cell: &'a [u8],
}

/// The scan cell of an entry.
fn cell_of<'a>(entry: (&'a [u8], u32, u32, &'a [u8])) -> ScanCell<'a> {
    let (instance, path, bit, cell) = entry;
    ScanCell {
        instance,
        path,
        bit,
        cell,
    }
}

/// The scan cell of a bit.
pub(crate) fn scan_cell(netlist: &Netlist, bit: BitId) -> ScanCell<'_> {
    cell_of(entry_of(netlist, bit))
}

/// Scan cells that two sets have of one name, of which the first set or the second may have none.
#[derive(Clone, Copy)]
pub struct CellPair<'a> {
    pub old: Option<ScanCell<'a>>,
    pub new: Option<ScanCell<'a>>,
}

/// The first of two entries by name; both where they have one name.
fn pair_of<'a>(
    old: (&'a [u8], u32, u32, &'a [u8]),
    new: (&'a [u8], u32, u32, &'a [u8]),
) -> CellPair<'a> {
    let order = (old.0, old.1, old.2).cmp(&(new.0, new.1, new.2));
    CellPair {
        old: if order.is_le() {
            Some(cell_of(old))
        } else {
            None
        },
        new: if order.is_ge() {
            Some(cell_of(new))
        } else {
            None
        },
    }
}

/// The scan cell of the entry at an index, if there is one.
fn cell_at<'a>(entries: &[(&'a [u8], u32, u32, &'a [u8])], index: usize) -> Option<ScanCell<'a>> {
    match entries.get(index) {
        Some(entry) => Some(cell_of(*entry)),
        None => None,
    }
}

/// The first scan cell, in the order of names, that two sets don't both have on an instance of the same cell; None where there is no
/// such one. Want of memory is the only refusal.
pub fn first_other_cell<'a>(
    alloc: Global,
    a: &'a PatternSet,
    b: &'a PatternSet,
) -> Result<Option<CellPair<'a>>, NoMemory> {
    let old = entries_of(alloc, a.netlist(), a.bits())?;
    let new = entries_of(alloc, b.netlist(), b.bits())?;
    let both = old.len().min(new.len());
    for index in 0..both {
        if !is_same(old[index], new[index]) {
            return Ok(Some(pair_of(old[index], new[index])));
        }
    }
    let left = CellPair {
        old: cell_at(old.as_slice(), both),
        new: cell_at(new.as_slice(), both),
    };
    Ok(if old.len() == new.len() {
        None
    } else {
        Some(left)
    })
}
