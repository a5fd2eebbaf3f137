//! The contracts of `partition_moves`.
ghost use Rattle.chain_rules.specs.Legality.{IsLegal};
ghost use Rattle.order_search.specs.Searches.{AreSearchable};
ghost use Rattle.order_search.specs.Steps.{IsSettled};
ghost use Rattle.order_search.specs.declared.effort.Effort.TheVariants.{Full};
ghost use Rattle.partition_moves.specs.Within.{IsRoomFor};
ghost use Rattle.std.specs.Prelude.{IfOk, OnErr, OnOk, ◌≡◌, ◌≤◌};
ghost use Rattle.wire_cost.specs.Lengths.{plan_length_of};

use base_types::NoMemory;
use chain_rules::{Plan, Rules};
use partition_moves::Room;
use std::alloc::Global;
use wire_cost::Ends;

/// As `partition_moves::settle_all`.
pub fn settle_all(
    alloc: Global,
    rules: &Rules,
    ends: &Ends,
    plan: &mut Plan,
) -> Result<(), NoMemory>
    requires searchable { AreSearchable rules.now ends.now }
    requires legal { IsLegal rules.now plan.old }
    ensures legal { OnOk result (IsLegal rules.now plan.new) }
    ensures no_longer { OnOk result (plan_length_of ends.now plan.new ≤ plan_length_of ends.now plan.old) }
    ensures settled { OnOk result (IsSettled Full rules.now ends.now plan.new) }
    ensures unchanged { OnErr result (plan.new ≡ plan.old) }
{
    partition_moves::settle_all(alloc, rules, ends, plan)
}

/// As `partition_moves::Room::make`.
pub fn room_make(alloc: Global, rules: &Rules, plan: &Plan) -> Result<Room, NoMemory>
    requires legal { IsLegal rules.now plan.now }
    ensures room { IfOk result (λ room. IsRoomFor rules.now plan.now room) }
{
    partition_moves::Room::make(alloc, rules, plan)
}

/// As `partition_moves::settle_all_within`.
pub fn settle_all_within(rules: &Rules, ends: &Ends, plan: &mut Plan, room: Room)
    requires searchable { AreSearchable rules.now ends.now }
    requires legal { IsLegal rules.now plan.old }
    requires room { IsRoomFor rules.now plan.old room }
    ensures legal { IsLegal rules.now plan.new }
    ensures no_longer { plan_length_of ends.now plan.new ≤ plan_length_of ends.now plan.old }
    ensures settled { IsSettled Full rules.now ends.now plan.new }
{
    partition_moves::settle_all_within(rules, ends, plan, room)
}
