//! Puts units into chains of shorter paths, one by one, until none may go.
ghost use Rattle.std.specs.Prelude.{◌≡◌, ◌<◌, ◌≤◌, ℕ, length, true, false, nat_eq, count_by, IfOk, OnOk};
ghost use Rattle.chain_balance.specs.Balance.{AreOnPaths, IsEven, longest};
ghost use Rattle.chain_balance.specs.Gains.{IsWork, NoGain};
ghost use Rattle.chain_balance.specs.Rooms.{AreGroups};
ghost use Rattle.chain_rules.specs.Legality.{IsLegal};

use crate::gains::first_gain;
use crate::rooms::Roomiest;
use crate::transfer::go;
use crate::work::{Work, count_of, greatest};
use base_types::NoMemory;
use chain_rules::Rules;

/// Lets units go while a path has the most bits: whether none has so many any more, or else no unit may go.
fn lower_level(
    rules: &Rules,
    fixed: &[u32],
    work: &mut Work,
    groups: &[usize],
    most: u32,
    best: &mut [Roomiest],
) -> Result<bool, NoMemory>
    requires is { IsWork rules.now fixed.now work.old most }
    requires paths { AreOnPaths rules.now (length fixed.now) }
    requires groups { AreGroups rules.now groups.now }
    requires count { length best.old ≡ length rules.now.chains }
    ensures count { length best.new ≡ length best.old }
    ensures is { OnOk result (IsWork rules.now fixed.now work.new most) }
    ensures lower { IfOk result (λ lower. lower ≡ true → count_by (nat_eq most) work.new.paths.items ≡ 0) }
    ensures stuck { IfOk result (λ lower. lower ≡ false → (0 < count_by (nat_eq most) work.new.paths.items)
        × NoGain rules.now work.new.paths.items most work.new.plan) }
{
    while 0 < count_of(work.paths.as_slice(), most) {
        let Some(gain) = first_gain(rules, fixed, work, groups, most, best) else {
            return Ok(false);
        };
        go(rules, fixed, work, most, gain)?;
    }
    Ok(true)
}

/// The same, level by level.
pub(crate) fn lower(
    rules: &Rules,
    fixed: &[u32],
    work: &mut Work,
    groups: &[usize],
    best: &mut [Roomiest],
) -> Result<(), NoMemory>
    requires is { IsWork rules.now fixed.now work.old (longest rules.now fixed.now work.old.plan) }
    requires paths { AreOnPaths rules.now (length fixed.now) }
    requires groups { AreGroups rules.now groups.now }
    requires count { length best.old ≡ length rules.now.chains }
    ensures legal { OnOk result (IsLegal rules.now work.new.plan) }
    ensures even { OnOk result (IsEven rules.now fixed.now work.new.plan) }
    ensures no_longer { OnOk result (longest rules.now fixed.now work.new.plan ≤ longest rules.now fixed.now work.old.plan) }
{
    let mut most = greatest(work.paths.as_slice());
    while 0 < most {
        if !lower_level(rules, fixed, work, groups, most, best)? {
            return Ok(());
        }
        most = greatest(work.paths.as_slice());
    }
    Ok(())
}
