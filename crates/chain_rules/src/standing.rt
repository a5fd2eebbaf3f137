//! Whether each unit stands in a plan, by marks that stand on the stack.
ghost use Rattle.std.specs.Prelude.{◌≡◌, ◌↔◌, ℕ, ◌+◌, ◌<◌, ◌≤◌, ◌||◌, false, nat_eq, length, slice_index_or, IsTrue, Contains};
ghost use Rattle.std.specs.List.{concat, list_any};

use crate::plan::Plan;

/// How many units are marked at a time.
const WINDOW: usize = 16384;

/// Marks the units of a chain among those from `low` on, as many as there are marks.
fn mark_units(marks: &mut [bool], low: usize, us: &[u32])
    ensures count { length marks.new ≡ length marks.old }
    ensures value { (k : ℕ) → k < length marks.old → slice_index_or marks.new k false ≡ (slice_index_or marks.old k false || list_any (λ v. nat_eq v (low + k)) us.now) }
{
    for u in us {
        let unit = *u as usize;
        if low <= unit && unit - low < marks.len() {
            marks[unit - low] = true;
        }
    }
}

/// Whether each of the marks is set.
fn are_set(marks: &[bool]) -> bool
    ensures value { IsTrue result ↔ ((k : ℕ) → k < length marks.now → IsTrue (slice_index_or marks.now k false)) }
{
    for mark in marks {
        if !*mark {
            return false;
        }
    }
    true
}

/// Whether each of so many units from `low` on stands in some chain.
fn stand_from(plan: &Plan, low: usize, count: usize) -> bool
    requires few { count ≤ 16384 }
    ensures value { IsTrue result ↔ ((k : ℕ) → k < count → Contains (concat plan.now.chains) (low + k)) }
{
    let mut marks = [false; WINDOW];
    for chain in 0..plan.len() {
        mark_units(&mut marks, low, plan.chain(chain));
    }
    are_set(&marks[..count])
}

/// Whether each unit below a number stands in some chain. It goes over the plan once for each window of units, and takes no
/// memory.
pub(crate) fn all_stand(plan: &Plan, units: usize) -> bool
    ensures value { IsTrue result ↔ ((u : ℕ) → u < units → Contains (concat plan.now.chains) u) }
{
    let mut low = 0;
    while low < units {
        let left = units - low;
        let count = if left < WINDOW { left } else { WINDOW };
        if !stand_from(plan, low, count) {
            return false;
        }
        low += count;
    }
    true
}
