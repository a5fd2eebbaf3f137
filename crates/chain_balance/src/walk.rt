//! Moves along a list of paths.
ghost use Rattle.std.specs.Prelude.{◌≡◌, ◌<◌, ◌≤◌, ◌+◌, length, nat_eq, count_by, slice_index_or, OnOk};
ghost use Rattle.chain_balance.specs.Balance.{AreOnPaths, HaveOneBit};
ghost use Rattle.chain_balance.specs.Gains.{IsWork};
ghost use Rattle.chain_balance.specs.Steps.{entry_at, AreReached};

use crate::entry::Entry;
use crate::gains::Gain;
use crate::transfer::move_unit;
use crate::work::Work;
use base_types::NoMemory;
use chain_rules::Rules;

/// Takes a hole, a path with at least two bits fewer than the most, back along the entries by which it was reached, until a path with
/// the most bits gave one.
pub(crate) fn walk_back(
    rules: &Rules,
    fixed: &[u32],
    work: &mut Work,
    most: u32,
    entries: &[Entry],
    hole: usize,
) -> Result<(), NoMemory>
    requires one { HaveOneBit rules.now }
    requires paths { AreOnPaths rules.now (length fixed.now) }
    requires is { IsWork rules.now fixed.now work.old most }
    requires reached { AreReached rules.now work.old.plan entries.now hole }
    requires hole { slice_index_or work.old.paths.items (entry_at entries.now hole).path 0 + 2 ≤ most }
    requires top { slice_index_or work.old.paths.items (entry_at entries.now 0).path 0 ≡ most }
    ensures is { OnOk result (IsWork rules.now fixed.now work.new most) }
    ensures fewer { OnOk result (count_by (nat_eq most) work.new.paths.items < count_by (nat_eq most) work.old.paths.items) }
{
    let mut at = hole;
    while 0 < at {
        let entry = entries[at];
        let path = rules.chains.as_slice()[entry.giver].path as usize;
        let loads = work.paths.as_slice();
        let is_top = loads[path] == most;
        let gain = Gain {
            giver: entry.giver,
            place: 0,
            taker: entry.taker,
        };
        move_unit(rules, fixed, work, most, gain)?;
        if is_top {
            return Ok(());
        }
        at = entry.parent;
    }
    Ok(())
}
