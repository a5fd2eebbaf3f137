//! Settles a plan for all steps.
ghost use Rattle.std.specs.Prelude.{◌≡◌, ℕ, ◌*◌, ◌<◌, ◌≤◌, length, IfOk, OnOk, OnErr};
ghost use Rattle.chain_rules.specs.Legality.{IsLegal};
ghost use Rattle.wire_cost.specs.Lengths.{plan_length_of};
ghost use Rattle.order_search.specs.Searches.{AreSearchable};
ghost use Rattle.order_search.specs.Steps.{IsSettled};
ghost use Rattle.order_search.specs.declared.effort.Effort.TheVariants.{Full, Order};
ghost use Rattle.partition_moves.specs.Roomy.{IsKept};
ghost use Rattle.partition_moves.specs.Together.{AreTogetherBy};
ghost use Rattle.partition_moves.specs.Within.{IsRoomFor};

use crate::Block;
use crate::moves::move_pass;
use crate::partitions::Partitions;
use crate::room::Room;
use crate::swaps::swap_pass;
use crate::work::Work;
use base_types::NoMemory;
use chain_rules::{Plan, Rules};
use std::alloc::Global;
use wire_cost::{Ends, Sums};

/// Reverses runs of units within the chains until none makes the plan shorter.
fn settle_orders(rules: &Rules, ends: &Ends, plan: &mut Work, sums: &mut Sums)
    requires searchable { AreSearchable rules.now ends.now }
    requires legal { IsLegal rules.now plan.old.plan }
    requires kept { IsKept rules.now plan.old }
    requires sums { length rules.now.units ≤ sums.old.room }
    ensures legal { IsLegal rules.now plan.new.plan }
    ensures kept { IsKept rules.now plan.new }
    ensures no_longer { plan_length_of ends.now plan.new.plan ≤ plan_length_of ends.now plan.old.plan }
    ensures settled { IsSettled Order rules.now ends.now plan.new.plan }
    ensures room { sums.new.room ≡ sums.old.room }
{
    for c in 0..plan.len() {
        plan.settle_chain(rules, ends, c, sums);
    }
}

/// Takes steps until none makes the plan shorter.
fn settle_steps(
    rules: &Rules,
    ends: &Ends,
    parts: &Partitions,
    plan: &mut Work,
    blocks: &mut [Block],
    sums: &mut Sums,
)
    requires searchable { AreSearchable rules.now ends.now }
    requires parts { AreTogetherBy rules.now parts.now }
    requires legal { IsLegal rules.now plan.old.plan }
    requires kept { IsKept rules.now plan.old }
    requires room { length rules.now.units < 32 * length blocks.old }
    requires sums { length rules.now.units ≤ sums.old.room }
    ensures legal { IsLegal rules.now plan.new.plan }
    ensures no_longer { plan_length_of ends.now plan.new.plan ≤ plan_length_of ends.now plan.old.plan }
    ensures settled { IsSettled Full rules.now ends.now plan.new.plan }
{
    let mut again = true;
    'passes: while again {
        settle_orders(rules, ends, plan, sums);
        again = move_pass(rules, ends, parts, plan, blocks);
        if !again {
            again = swap_pass(rules, ends, parts, plan, blocks);
        }
    }
}

/// Reverses runs of units, moves units within their partition and exchanges units of two chains until no such step leaves
/// the plan legal and makes it shorter. It takes no memory: all room was taken before, and nothing can refuse a step.
///
/// It goes over all chains and units again and again, and ends after one whole pass without a gain.
pub fn settle_all_within(rules: &Rules, ends: &Ends, plan: &mut Plan, room: Room)
    requires searchable { AreSearchable rules.now ends.now }
    requires legal { IsLegal rules.now plan.old }
    requires room { IsRoomFor rules.now plan.old room }
    ensures legal { IsLegal rules.now plan.new }
    ensures no_longer { plan_length_of ends.now plan.new ≤ plan_length_of ends.now plan.old }
    ensures settled { IsSettled Full rules.now ends.now plan.new }
{
    let Room {
        mut work,
        mut blocks,
        mut sums,
        parts,
    } = room;
    settle_steps(
        rules,
        ends,
        &parts,
        &mut work,
        blocks.as_mut_slice(),
        &mut sums,
    );
    *plan = work.into_plan();
}

/// As `settle_all_within`, in room of its own. After want of memory the plan is as before; all room is taken before the
/// first step.
pub fn settle_all(
    alloc: Global,
    rules: &Rules,
    ends: &Ends,
    plan: &mut Plan,
) -> Result<(), NoMemory>
    requires searchable { AreSearchable rules.now ends.now }
    requires legal { IsLegal rules.now plan.old }
    ensures legal { OnOk result (IsLegal rules.now plan.new) }
    ensures no_longer { OnOk result (plan_length_of ends.now plan.new ≤ plan_length_of ends.now plan.old) }
    ensures settled { OnOk result (IsSettled Full rules.now ends.now plan.new) }
    ensures unchanged { OnErr result (plan.new ≡ plan.old) }
{
    let room = Room::make(alloc, rules, plan)?;
    settle_all_within(rules, ends, plan, room);
    Ok(())
}
