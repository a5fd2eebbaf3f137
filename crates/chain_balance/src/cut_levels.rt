//! Lowers the longest path where each unit has one bit, until a cut shows that none can be lower.
ghost use Rattle.std.specs.Prelude.{◌≡◌, ◌<◌, ◌≤◌, ℕ, length, nat_eq, count_by, IfOk, OnOk, IfSome, MatchOption};
ghost use Rattle.chain_balance.specs.Balance.{AreOnPaths, HaveOneBit, IsEven, longest};
ghost use Rattle.chain_balance.specs.Gains.{IsWork};
ghost use Rattle.chain_balance.specs.Rooms.{AreGroups};
ghost use Rattle.chain_balance.specs.Searches.{IsEnd, IsReachedCut};
ghost use Rattle.chain_rules.specs.Legality.{IsLegal};

use crate::gains::first_gain;
use crate::rooms::Roomiest;
use crate::search::{Reached, reach};
use crate::transfer::go;
use crate::walk::walk_back;
use crate::work::{Work, count_of, first_longest, greatest};
use base_types::NoMemory;
use chain_rules::Rules;
use std::alloc::Global;

/// Takes the most bits from one path, or answers the cut which shows that this can't be.
fn cut_step(
    alloc: Global,
    rules: &Rules,
    fixed: &[u32],
    work: &mut Work,
    groups: &[usize],
    most: u32,
    best: &mut [Roomiest],
) -> Result<Option<Vec<bool>>, NoMemory>
    requires one { HaveOneBit rules.now }
    requires is { IsWork rules.now fixed.now work.old most }
    requires paths { AreOnPaths rules.now (length fixed.now) }
    requires groups { AreGroups rules.now groups.now }
    requires count { length best.old ≡ length rules.now.chains }
    requires some { 0 < count_by (nat_eq most) work.old.paths.items }
    ensures count { length best.new ≡ length best.old }
    ensures is { OnOk result (IsWork rules.now fixed.now work.new most) }
    ensures value { IfOk result (λ cut. MatchOption cut (count_by (nat_eq most) work.new.paths.items < count_by (nat_eq most) work.old.paths.items)
        (λ set. IsEnd rules.now fixed.now work.new most set.items)) }
{
    if let Some(gain) = first_gain(rules, fixed, work, groups, most, best) {
        go(rules, fixed, work, most, gain)?;
        return Ok(None);
    }
    let top = first_longest(work.paths.as_slice(), most);
    match reach(alloc, rules, fixed, work, groups, most, top)? {
        Reached::All(set) => Ok(Some(set)),
        Reached::Hole(entries) => {
            let hole = entries.len() - 1;
            walk_back(rules, fixed, work, most, entries.as_slice(), hole)?;
            Ok(None)
        }
    }
}

/// Takes the most bits from one path after another, until none has so many, or answers the cut which shows that this can't be.
fn cut_level(
    alloc: Global,
    rules: &Rules,
    fixed: &[u32],
    work: &mut Work,
    groups: &[usize],
    most: u32,
    best: &mut [Roomiest],
) -> Result<Option<Vec<bool>>, NoMemory>
    requires one { HaveOneBit rules.now }
    requires is { IsWork rules.now fixed.now work.old most }
    requires paths { AreOnPaths rules.now (length fixed.now) }
    requires groups { AreGroups rules.now groups.now }
    requires count { length best.old ≡ length rules.now.chains }
    ensures count { length best.new ≡ length best.old }
    ensures is { OnOk result (IsWork rules.now fixed.now work.new most) }
    ensures value { IfOk result (λ cut. MatchOption cut (count_by (nat_eq most) work.new.paths.items ≡ 0)
        (λ set. IsEnd rules.now fixed.now work.new most set.items)) }
{
    while 0 < count_of(work.paths.as_slice(), most) {
        let cut = cut_step(alloc, rules, fixed, work, groups, most, best)?;
        if let Some(set) = cut {
            return Ok(Some(set));
        }
    }
    Ok(None)
}

/// The same, level by level, until there is a cut.
pub(crate) fn cut(
    alloc: Global,
    rules: &Rules,
    fixed: &[u32],
    work: &mut Work,
    groups: &[usize],
    best: &mut [Roomiest],
) -> Result<Vec<bool>, NoMemory>
    requires one { HaveOneBit rules.now }
    requires some { 0 < length fixed.now }
    requires is { IsWork rules.now fixed.now work.old (longest rules.now fixed.now work.old.plan) }
    requires paths { AreOnPaths rules.now (length fixed.now) }
    requires groups { AreGroups rules.now groups.now }
    requires count { length best.old ≡ length rules.now.chains }
    ensures legal { OnOk result (IsLegal rules.now work.new.plan) }
    ensures even { OnOk result (IsEven rules.now fixed.now work.new.plan) }
    ensures no_longer { OnOk result (longest rules.now fixed.now work.new.plan ≤ longest rules.now fixed.now work.old.plan) }
    ensures value { IfOk result (λ set. IsReachedCut rules.now fixed.now work.new.plan set.items) }
{
    let mut most = greatest(work.paths.as_slice());
    loop {
        let cut = cut_level(alloc, rules, fixed, work, groups, most, best)?;
        if let Some(set) = cut {
            return Ok(set);
        }
        most = greatest(work.paths.as_slice());
    }
}
