//! The public call: a plan whose longest path is short.
ghost use Rattle.std.specs.Prelude.{◌≡◌, ◌<◌, ◌≤◌, ◌+◌, ◌^◌, ◌↔◌, ℕ, length, true, IsTrue, Some, None, is_some, IfOk, OnOk, OnErr, IfSome};
ghost use Rattle.std.specs.List.{concat, sum};
ghost use Rattle.chain_rules.specs.Legality.{bits_of, IsLegal};
ghost use Rattle.chain_balance.specs.Balance.{AreOnPaths, HasCut, IsCut, IsEven, IsReachedSet, longest};
ghost use Rattle.chain_balance.specs.Gains.{IsWork};
ghost use Rattle.chain_balance.specs.Searches.{IsReachedCut};

use crate::cut_levels::cut;
use crate::even::lower;
use crate::groups::groups_of;
use crate::paths::have_one_bit;
use crate::rooms::Roomiest;
use crate::work::{Work, work_on};
use base_types::NoMemory;
use chain_rules::{Plan, Rules};
use std::alloc::Global;

/// Whether each unit has one bit, and there is a path.
fn has_cut(rules: &Rules, fixed: &[u32]) -> bool
    ensures value { IsTrue result ↔ HasCut rules.now fixed.now }
{
    if fixed.is_empty() {
        return false;
    }
    have_one_bit(rules)
}

/// The same on a plan whose bits are kept.
fn balance_work(
    alloc: Global,
    rules: &Rules,
    fixed: &[u32],
    work: &mut Work,
) -> Result<Option<Vec<bool>>, NoMemory>
    requires is { IsWork rules.now fixed.now work.old (longest rules.now fixed.now work.old.plan) }
    requires paths { AreOnPaths rules.now (length fixed.now) }
    ensures legal { OnOk result (IsLegal rules.now work.new.plan) }
    ensures even { OnOk result (IsEven rules.now fixed.now work.new.plan) }
    ensures no_longer { OnOk result (longest rules.now fixed.now work.new.plan ≤ longest rules.now fixed.now work.old.plan) }
    ensures cut_where { IfOk result (λ cut. IsTrue (is_some cut) ↔ HasCut rules.now fixed.now) }
    ensures cut { IfOk result (λ cut. IfSome cut (λ set. IsReachedCut rules.now fixed.now work.new.plan set.items)) }
{
    let groups = groups_of(alloc, rules)?;
    let mut best = vec![in alloc; Roomiest::NONE; rules.chains.as_slice().len()]?;
    if !has_cut(rules, fixed) {
        lower(rules, fixed, work, groups.as_slice(), best.as_mut_slice())?;
        return Ok(None);
    }
    let set = cut(
        alloc,
        rules,
        fixed,
        work,
        groups.as_slice(),
        best.as_mut_slice(),
    )?;
    Ok(Some(set))
}

/// Puts units into chains of other paths, so that the longest path is short: afterwards no single unit can go so that the plan stays
/// legal and both paths are then shorter than the longest one. A pinned unit never goes, and stays the last of its chain.
///
/// `fixed` has for each path its bits outside all units; these and the bits of all units are together less than 2^32, and the plan is
/// legal. Where each unit has one bit and there is a path, the answer is the set of the paths that are reached from the first longest
/// one, step by step by giving, which shows that no legal plan has a shorter longest path (`least_law`). After want of memory, its only
/// error, the plan is as before.
///
/// A unit that goes costs as much as there are chains and paths, and the units of two chains.
pub fn balance(
    alloc: Global,
    rules: &Rules,
    fixed: &[u32],
    plan: &mut Plan,
) -> Result<Option<Vec<bool>>, NoMemory>
    requires legal { IsLegal rules.now plan.old }
    requires small { sum fixed.now + bits_of rules.now (concat plan.old.chains) < 2 ^ 32 }
    requires paths { AreOnPaths rules.now (length fixed.now) }
    ensures legal { OnOk result (IsLegal rules.now plan.new) }
    ensures even { OnOk result (IsEven rules.now fixed.now plan.new) }
    ensures no_longer { OnOk result (longest rules.now fixed.now plan.new ≤ longest rules.now fixed.now plan.old) }
    ensures cut_where { IfOk result (λ cut. IsTrue (is_some cut) ↔ HasCut rules.now fixed.now) }
    ensures cut { IfOk result (λ cut. IfSome cut (λ set. IsCut rules.now fixed.now plan.new set.items)) }
    ensures reached { IfOk result (λ cut. IfSome cut (λ set. IsReachedSet rules.now fixed.now plan.new set.items)) }
    ensures unchanged { OnErr result (plan.new ≡ plan.old) }
{
    let mut work = work_on(alloc, rules, fixed, plan)?;
    let cut = balance_work(alloc, rules, fixed, &mut work)?;
    *plan = work.plan;
    Ok(cut)
}
