//! Whether each unit of a plan stands in a chain of its own partition, by notes that stand on the stack.
ghost use Rattle.std.specs.Prelude.{◌≡◌, ◌↔◌, ℕ, ◌+◌, ◌-◌, ◌<◌, ◌≤◌, cond, nat_eq, length, slice_index_or, IsTrue, Some, None, All, IsPermutation};
ghost use Rattle.std.specs.Option.{option_or};
ghost use Rattle.std.specs.List.{concat, list_any, range_with_len};
ghost use Rattle.chain_rules.specs.Legality.{chain_at, rule_at, partition_of};

use crate::plan::Plan;
use crate::unit::Rules;

/// How many units are noted at a time.
const WINDOW: usize = 4096;

/// Notes the partition of a read chain at each of its units, among those from `low` on, that has none yet.
fn note_units(owners: &mut [Option<u32>], low: usize, us: &[u32], partition: u32)
    ensures count { length owners.new ≡ length owners.old }
    ensures value { (k : ℕ) → k < length owners.old → slice_index_or owners.new k None ≡ option_or (slice_index_or owners.old k None) (cond (list_any (λ v. nat_eq v (low + k)) us.now) (Some partition) None) }
{
    for u in us {
        let unit = *u as usize;
        if low <= unit && unit - low < owners.len() && owners[unit - low].is_none() {
            owners[unit - low] = Some(partition);
        }
    }
}

/// Notes the partition of each unit from `low` on, as many as there are notes.
fn note_owners(owners: &mut [Option<u32>], low: usize, rules: &Rules)
    requires none { (k : ℕ) → k < length owners.old → slice_index_or owners.old k None ≡ None }
    ensures count { length owners.new ≡ length owners.old }
    ensures value { (k : ℕ) → k < length owners.old → slice_index_or owners.new k None ≡ partition_of rules.now (low + k) }
{
    let chains = rules.chains.as_slice();
    let known = rules.read.len().min(chains.len());
    for chain in 0..known {
        note_units(
            owners,
            low,
            rules.read.chain(chain),
            chains[chain].partition,
        );
    }
}

/// Whether a unit has a partition for its note, if it is noted.
fn is_noted(owners: &[Option<u32>], low: usize, unit: u32, partition: u32) -> bool
    ensures value { IsTrue result ↔ (low ≤ unit → unit < low + length owners.now → slice_index_or owners.now (unit - low) None ≡ Some partition) }
{
    let unit = unit as usize;
    if unit < low || owners.len() <= unit - low {
        return true;
    }
    owners[unit - low] == Some(partition)
}

/// Whether each unit of a chain that is noted has a partition for its note.
fn are_noted(owners: &[Option<u32>], low: usize, us: &[u32], partition: u32) -> bool
    ensures value { IsTrue result ↔ All (λ u. low ≤ u → u < low + length owners.now → slice_index_or owners.now (u - low) None ≡ Some partition) us.now }
{
    us.iter().all(|u| is_noted(owners, low, *u, partition))
}

/// Whether each of the units from `low` on that are noted at a time stands in a chain of its own partition.
fn are_own_from(rules: &Rules, plan: &Plan, low: usize) -> bool
    requires chains { length plan.now.chains ≡ length rules.now.chains }
    ensures value { IsTrue result ↔ ((c : ℕ) → c < length plan.now.chains → All (λ u. low ≤ u → u < low + 4096 → partition_of rules.now u ≡ Some (rule_at rules.now c).partition) (chain_at plan.now c)) }
{
    let mut owners = [None; WINDOW];
    note_owners(&mut owners, low, rules);
    let chains = rules.chains.as_slice();
    for chain in 0..plan.len() {
        if !are_noted(&owners, low, plan.chain(chain), chains[chain].partition) {
            return false;
        }
    }
    true
}

/// Whether each unit of a plan stands in a chain of its own partition. It goes over both plans once for each window of
/// units, and takes no memory.
pub(crate) fn are_own(rules: &Rules, plan: &Plan) -> bool
    requires chains { length plan.now.chains ≡ length rules.now.chains }
    requires once { IsPermutation (range_with_len 0 (length rules.now.units)) (concat plan.now.chains) }
    ensures value { IsTrue result ↔ ((c : ℕ) → c < length plan.now.chains → All (λ u. partition_of rules.now u ≡ Some (rule_at rules.now c).partition) (chain_at plan.now c)) }
{
    for window in 0..rules.units.as_slice().len() / WINDOW + 1 {
        if !are_own_from(rules, plan, window * WINDOW) {
            return false;
        }
    }
    true
}
