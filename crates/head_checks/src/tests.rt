//! What is tested of a declaration and its path.
ghost use Rattle.std.specs.Prelude.{◌≡◌, Bool, IfOk};
ghost use Rattle.head_checks.specs.Heads.{Declared, begins_elsewhere, has_other_length, has_other_inversion, lists_others};

use crate::cells::differ;
use crate::paths::{has_length, path_parity, plus};
use base_types::NoMemory;
use cell_table::CellTable;
use chain_trace::{Path, plain_of};
use netlist_core::Netlist;
use std::alloc::Global;
use stil_types::ScanChainDecl;

/// A test of a declaration beside the path of its ScanOut.
pub(crate) trait Test {
    ghost fails: { Self → Declared → Bool };

    /// Whether it fails; or want of memory.
    fn fails(&self, alloc: Global, block: &ScanChainDecl, path: &Path) -> Result<bool, NoMemory>
        ensures value { IfOk result (λ yes. yes ≡ fails self.now (block.now, path.now)) };
}

/// The path begins at another port than the declared ScanIn.
#[derive(Drop)]
pub(crate) struct OtherPort<'n> {
    pub(crate) netlist: &'n Netlist,
}

impl<'n> Test for OtherPort<'n> {
    ghost fails = { λ t d. begins_elsewhere t.netlist.now d };

    fn fails(&self, _alloc: Global, block: &ScanChainDecl, path: &Path) -> Result<bool, NoMemory> {
        let begins = plain_of(self.netlist.nets.as_slice(), path.input);
        Ok(begins != block.scan_in.bytes())
    }
}

/// The path's bits aren't ScanLength.
#[derive(Drop)]
pub(crate) struct OtherLength<'n> {
    pub(crate) netlist: &'n Netlist,
    pub(crate) table: &'n CellTable,
}

impl<'n> Test for OtherLength<'n> {
    ghost fails = { λ t d. has_other_length t.netlist.now t.table.now d };

    fn fails(&self, _alloc: Global, block: &ScanChainDecl, path: &Path) -> Result<bool, NoMemory> {
        Ok(!has_length(self.netlist, self.table, path, block.length))
    }
}

/// ScanInversion stands there and isn't the path's parity.
#[derive(Drop)]
pub(crate) struct OtherInversion<'n> {
    pub(crate) netlist: &'n Netlist,
    pub(crate) table: &'n CellTable,
}

impl<'n> Test for OtherInversion<'n> {
    ghost fails = { λ t d. has_other_inversion t.netlist.now t.table.now d };

    fn fails(&self, _alloc: Global, block: &ScanChainDecl, path: &Path) -> Result<bool, NoMemory> {
        match block.inversion {
            Some(inversion) => Ok(plus(
                inversion,
                path_parity(self.netlist, self.table, path.steps.as_slice()),
            )),
            None => Ok(false),
        }
    }
}

/// Some chains have ScanCells and this one hasn't, or its list doesn't name the path's bits in order.
#[derive(Drop)]
pub(crate) struct OtherCells<'n> {
    pub(crate) netlist: &'n Netlist,
    pub(crate) table: &'n CellTable,
    pub(crate) listed: bool,
}

impl<'n> Test for OtherCells<'n> {
    ghost fails = { λ t d. lists_others t.netlist.now t.table.now t.listed d };

    fn fails(&self, alloc: Global, block: &ScanChainDecl, path: &Path) -> Result<bool, NoMemory> {
        differ(
            alloc,
            self.netlist,
            self.table,
            self.listed,
            path,
            &block.cells,
        )
    }
}
