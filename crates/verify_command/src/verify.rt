//! Two sets of files beside each other.
ghost use Rattle.std.specs.Prelude.{◌≡◌, ◌↔◌, ◌≤◌, ◌<◌, ◌^◌, length, IfOk, OnOk};
ghost use Rattle.base_types.specs.declared.fault.Fault.{Fault as ghost_fault};
ghost use Rattle.base_types.specs.FirstFault.{IfFault, IsFirstFault};
ghost use Rattle.declared_chains.specs.Faults.{HoldsInPlay};
ghost use Rattle.same_files.specs.Same.{AreSameFiles};
ghost use Rattle.same_files.specs.Sets.{IsSet};
ghost use Rattle.verify_command.specs.Faults.{HoldsInVerify, IsNewFault, at_new, new_file};
ghost use Rattle.verify_command.specs.Texts.{IsVerifyText, same_text};

use crate::text::compared;
use base_types::{Fault, FileKind, ReadFault, Text};
use same_files::{PatternSet, read_set};
use std::alloc::Global;

/// The file of the second set that is read as this one of the first.
fn new_file(file: FileKind) -> FileKind
    ensures value { result ≡ new_file file }
{
    match file {
        FileKind::Verilog => FileKind::NewVerilog,
        FileKind::Stil => FileKind::NewStil,
        other => other,
    }
}

/// A fault at the files of the second set.
fn at_new(fault: Fault) -> Fault
    ensures value { result ≡ at_new fault }
{
    Fault {
        kind: fault.kind,
        file: new_file(fault.file),
        spot: fault.spot,
    }
}

/// What the files of the second set mean, a Verilog of less than 4 GiB and a STIL of at most 67108864
/// bytes.
///
/// Refused by the first fault of these files, as `play` has it, at the files of the second set.
pub fn read_new(
    alloc: Global,
    table: &[u8],
    verilog: &[u8],
    stil: &[u8],
) -> Result<PatternSet, ReadFault>
    requires small { length verilog.now < 2 ^ 32 }
    requires small_stil { length stil.now ≤ 67108864 }
    ensures set { IfOk result (IsSet table.now verilog.now stil.now) }
    ensures fault { IfFault result (IsNewFault (HoldsInPlay table.now verilog.now stil.now)) }
    ensures no_fault { OnOk result ((fault : ghost_fault) → HoldsInPlay table.now verilog.now stil.now fault → ⊥) }
{
    match read_set(alloc, table, verilog, stil) {
        Ok(set) => Ok(set),
        Err(ReadFault::Fault(fault)) => Err(ReadFault::Fault(at_new(fault))),
        Err(ReadFault::NoMemory) => Err(ReadFault::NoMemory),
    }
}

/// What is said of two sets of files by the cells of one table: `same`, or the first of `differs head`, `differs cells`,
/// `differs patterns` and `differs NAME K` that holds, with the plain name of a Pattern and the place from 1 of the statement in it that
/// differs; a line. Each Verilog is of less than 4 GiB, each STIL of at most 67108864 bytes.
///
/// Refused by the first fault of the first set, as `play` has it; where there is none, by that of the second set, at its files.
pub fn verify_text(
    alloc: Global,
    table: &[u8],
    verilog: &[u8],
    stil: &[u8],
    new_verilog: &[u8],
    new_stil: &[u8],
) -> Result<Text, ReadFault>
    requires small { length verilog.now < 2 ^ 32 }
    requires small_stil { length stil.now ≤ 67108864 }
    requires small_new { length new_verilog.now < 2 ^ 32 }
    requires small_new_stil { length new_stil.now ≤ 67108864 }
    ensures text { IfOk result (IsVerifyText table.now verilog.now stil.now new_verilog.now new_stil.now) }
    // What it is worth.
    ensures same { IfOk result (λ text. (text ≡ same_text) ↔ AreSameFiles table.now verilog.now stil.now new_verilog.now new_stil.now) }
    ensures fault { IfFault result (IsFirstFault (HoldsInVerify table.now verilog.now stil.now new_verilog.now new_stil.now)) }
    ensures no_fault { OnOk result ((fault : ghost_fault) → HoldsInVerify table.now verilog.now stil.now new_verilog.now new_stil.now fault → ⊥) }
{
    let old = read_set(alloc, table, verilog, stil)?;
    let new = read_new(alloc, table, new_verilog, new_stil)?;
    Ok(compared(alloc, &old, stil, &new, new_stil)?)
}
