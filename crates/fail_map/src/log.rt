//! A log mapped over whole sets of patterns.
ghost use Rattle.std.specs.Prelude.{◌≡◌, All, IfOk, OnOk};
ghost use Rattle.base_types.specs.declared.fault.Fault.{Fault as GhostFault};
ghost use Rattle.base_types.specs.FirstFault.{IfFault, IsFirstFault};
ghost use Rattle.scan_verify.specs.Patterns.{IsReady};
ghost use Rattle.scan_verify.specs.Sets.{AreSamePatterns};
ghost use Rattle.fail_map.specs.Mapped.{IsMappedLog, HoldsInLines};
ghost use Rattle.fail_map.specs.Progress.{played};

use crate::line::LogLine;
use crate::mapping::LogMapping;
use base_types::ReadFault;
use retarget::Map;
use std::alloc::Global;
use stil_reader::Stil;

/// The log of old patterns that a log of new ones stands for, which do the same (IEEE 1450-1999,
/// Pattern); or its first fault: LogPlace at the first line that names no comparison of the new
/// patterns, and where there is none, LogTwice at the first line that stood before; or want of
/// memory. More than 2^64 - 2 scan calls of one Pattern count as want of memory. It takes time near
/// linear in the lines and the statements, whatever number a Loop has.
pub fn map_log(
    alloc: Global,
    map: &Map,
    old: &Stil,
    new: &Stil,
    log: &[LogLine],
) -> Result<Vec<LogLine>, ReadFault>
    requires old_ready { All (IsReady map.now.0) old.now.statements }
    requires new_ready { All (IsReady map.now.1) new.now.statements }
    requires same { AreSamePatterns map.now.0 map.now.1 old.now.patterns old.now.statements new.now.patterns new.now.statements }
    ensures mapped { IfOk result (λ mapped. IsMappedLog (played map.now.0 old.now.statements) (played map.now.1 new.now.statements) log.now mapped.items) }
    ensures fault { IfFault result (IsFirstFault (HoldsInLines (played map.now.1 new.now.statements) log.now)) }
    ensures no_fault { OnOk result ((fault : GhostFault) → HoldsInLines (played map.now.1 new.now.statements) log.now fault → ⊥) }
{
    // The map knows that both chains have the same cells.
    let _chains = map.old_chains();
    let mut mapping = LogMapping::new(alloc, log)?;
    let old = old.statements.as_slice();
    let new = new.statements.as_slice();
    for index in 0..old.len() {
        mapping.pass(alloc, map, &old[index], &new[index])?;
    }
    mapping.finish(alloc)
}
