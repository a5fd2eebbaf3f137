//! What is kept of a netlist and patterns.
ghost use Rattle.std.specs.Prelude.{◌≡◌, ◌<◌, ◌≤◌, ◌^◌, length, IfOk, OnOk};
ghost use Rattle.base_types.specs.declared.fault.Fault.{Fault};
ghost use Rattle.base_types.specs.FirstFault.{IfFault, IsFirstFault};
ghost use Rattle.stil_calls.specs.declared.judging.Judging.TheVariants.{Lengths};
ghost use Rattle.stil_calls.specs.Statements.{IsFaultOf};
ghost use Rattle.stil_head.specs.Heads.{DenotesHead};
ghost use Rattle.stil_reader.specs.Patterns.{patterns_told};
ghost use Rattle.declared_chains.specs.Faults.{HoldsInPlay};
ghost use Rattle.same_files.specs.Sets.{IsSet, AreNamed, AreNames};

use crate::cells::{ScanCell, scan_cell};
use base_types::{Name, ReadFault};
use chain_trace::PathBits;
use declared_chains::{Declared, read_declared};
use netlist_core::Netlist;
use std::alloc::Global;
use std::marker::Model;
use stil_head::head_len;
use stil_reader::{PatternCursor, PatternItem, StilHead};
use stil_tester::Chains;

/// What is kept of a netlist and patterns for it: the head, the netlist, the bits of each chain's path, the chains, and the names of the
/// Patterns; the statements are not.
#[derive(Drop)]
pub struct PatternSet {
    declared: Declared,
    names: Vec<Name>,
}

impl Model for PatternSet {
    ghost use Rattle.same_files.specs.Sets.{ReadSet, AreNamed};

    ghost Value = { ReadSet };

    ghost view = { λ s. record { head = s.declared.head; netlist = s.declared.netlist; bits = s.declared.bits; chains = s.declared.chains; names = s.names.items } };

    ghost invariant = { λ s. AreNamed s.declared.netlist s.declared.bits };
}

impl PatternSet {
    /// The head of the patterns.
    pub fn head(&self) -> &StilHead
        ensures value { result.now ≡ self.now.head }
    {
        &self.declared.head
    }

    /// The chains that the head declares, their cells numbered by the names of the instances, then by scan path and bit.
    pub fn chains(&self) -> &Chains
        ensures value { result.now ≡ self.now.chains }
    {
        &self.declared.chains
    }

    /// The names of the Patterns in order.
    pub fn names(&self) -> &[Name]
        ensures value { result.now ≡ self.now.names }
    {
        self.names.as_slice()
    }

    /// The netlist.
    pub(crate) fn netlist(&self) -> &Netlist
        ensures value { result.now ≡ self.now.netlist }
    {
        &self.declared.netlist
    }

    /// The bits of each chain's path.
    pub(crate) fn bits(&self) -> &[PathBits]
        ensures value { result.now ≡ self.now.bits }
        ensures named { AreNamed self.now.netlist self.now.bits }
    {
        self.declared.bits.as_slice()
    }

    /// The scan cell at a place of a chain, the place at the scan input being 0, if there is one.
    pub fn scan_cell(&self, chain: u32, place: u32) -> Option<ScanCell<'_>> {
        let path = self.declared.bits.as_slice().get(chain as usize)?;
        let bit = path.bits.as_slice().get(place as usize)?;
        Some(scan_cell(&self.declared.netlist, *bit))
    }
}

/// The names of the Patterns behind a head, where nothing is wrong with them; or their first fault. One statement is held at a time.
fn read_names(alloc: Global, stil: &[u8], head: &StilHead) -> Result<Vec<Name>, ReadFault>
    requires size { length stil.now < 2 ^ 32 }
    requires denoted { DenotesHead stil.now head.now }
    ensures value { IfOk result (λ names. AreNames (patterns_told Lengths head.now stil.now) names.items) }
    ensures fault { IfFault result (λ fault. IsFaultOf (patterns_told Lengths head.now stil.now).fault fault) }
{
    let mut names = Vec::new(alloc);
    let mut patterns = PatternCursor::behind_head(stil, head);
    while let Some(item) = patterns.next(alloc)? {
        if let PatternItem::Named(name) = item {
            names.push(name)?;
        }
    }
    Ok(names)
}

/// What a Verilog text of less than 4 GiB and a STIL text of at most 67108864 bytes mean by the cells of a table.
///
/// Refused by the first fault, that of the least kind: of the table (TableSyntax, TableShape), of the Verilog (VerilogSyntax,
/// SecondModule, VerilogNumber, VerilogTwice, BadSelect), of the head (StilSyntax, StilTwice, Unsupported), of the paths of its
/// chains (NoPort, TooManyPaths, NoDriver, TwoDrivers, Loop, SharedCell), of its declarations beside these (WrongPort,
/// LengthDiffers, InversionDiffers, CellsDiffer), TooManyBits, or of the patterns, that of the earliest statement (PatternSyntax,
/// PatternUnsupported, ScanCharacter, ForeignData, ShortLoad, LongCompare, TooManyShifts, StatementSize).
pub fn read_set(
    alloc: Global,
    table: &[u8],
    verilog: &[u8],
    stil: &[u8],
) -> Result<PatternSet, ReadFault>
    requires small { length verilog.now < 2 ^ 32 }
    requires small_stil { length stil.now ≤ 67108864 }
    ensures set { IfOk result (IsSet table.now verilog.now stil.now) }
    ensures fault { IfFault result (IsFirstFault (HoldsInPlay table.now verilog.now stil.now)) }
    ensures no_fault { OnOk result ((fault : Fault) → HoldsInPlay table.now verilog.now stil.now fault → ⊥) }
{
    let (text, _patterns) = stil.split_at(head_len(stil));
    let declared = read_declared(alloc, table, verilog, text)?;
    let names = read_names(alloc, stil, &declared.head)?;
    Ok(PatternSet { declared, names })
}
