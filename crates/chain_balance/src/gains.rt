//! Units that may go to a shorter path.
ghost use Rattle.std.specs.Prelude.{◌≡◌, ◌<◌, ◌≤◌, ◌↔◌, ◌+◌, ℕ, length, slice_index_or, IsTrue, MatchOption};
ghost use Rattle.chain_rules.specs.Legality.{chain_at, bits_of, IsLegal};
ghost use Rattle.chain_balance.specs.Balance.{AreOnPaths};
ghost use Rattle.chain_balance.specs.Gains.{at_place, CanLeave, GivesNone, IsGainTo, IsWork, NoGain, OneMayGo};
ghost use Rattle.chain_balance.specs.Rooms.{AreGroups, AreRoomiest, room_at};

use crate::paths::{is_pinned, unit_bits};
use crate::rooms::{Roomiest, note_rooms};
use crate::work::Work;
use chain_rules::{Plan, Rules};

/// A unit by its chain and its place there, and the chain to whose front it goes.
#[derive(Clone, Copy)]
pub(crate) struct Gain {
    pub(crate) giver: usize,
    pub(crate) place: usize,
    pub(crate) taker: usize,
}

/// Whether the unit at a place can leave a chain that holds so many bits, and has at most so many itself.
fn can_leave(rules: &Rules, plan: &Plan, held: u32, room: u32, giver: usize, place: usize) -> bool
    requires legal { IsLegal rules.now plan.now }
    requires giver { giver < length rules.now.chains }
    requires held { held ≡ bits_of rules.now (chain_at plan.now giver) }
    requires place { place < length (chain_at plan.now giver) }
    ensures value { IsTrue result ↔ CanLeave rules.now plan.now giver room place }
{
    let us = plan.chain(giver);
    if us.len() < 2 {
        return false;
    }
    let bits = unit_bits(rules, us[place]);
    if bits == 0 || bits > room {
        return false;
    }
    if rules.chains.as_slice()[giver].keeps_bit && bits >= held {
        return false;
    }
    place + 1 < us.len() || !is_pinned(rules, us[place])
}

/// The first unit that can leave a chain, with at most so many bits.
fn first_leaving(rules: &Rules, plan: &Plan, held: u32, room: u32, giver: usize) -> Option<usize>
    requires legal { IsLegal rules.now plan.now }
    requires giver { giver < length rules.now.chains }
    requires held { held ≡ bits_of rules.now (chain_at plan.now giver) }
    ensures value { MatchOption result ((place : ℕ) → ¬ CanLeave rules.now plan.now giver room place) (λ place. CanLeave rules.now plan.now giver room place) }
{
    if room == 0 {
        return None;
    }
    for place in 0..plan.chain(giver).len() {
        if can_leave(rules, plan, held, room, giver, place) {
            return Some(place);
        }
    }
    None
}

/// A unit of a chain that may go to the front of the chain with the most room.
fn gain_from(
    rules: &Rules,
    fixed: &[u32],
    work: &Work,
    most: u32,
    best: Roomiest,
    giver: usize,
) -> Option<Gain>
    requires is { IsWork rules.now fixed.now work.now most }
    requires paths { AreOnPaths rules.now (length fixed.now) }
    requires giver { giver < length rules.now.chains }
    ensures value { MatchOption result (GivesNone rules.now work.now.paths.items most work.now.plan best.room giver) (λ gain. IsGainTo rules.now work.now.paths.items most work.now.plan best giver gain) }
{
    let path = rules.chains.as_slice()[giver].path as usize;
    if work.paths[path] != most {
        return None;
    }
    match first_leaving(rules, &work.plan, work.chains[giver], best.room, giver) {
        Some(place) => Some(Gain {
            giver,
            place,
            taker: best.chain,
        }),
        None => None,
    }
}

/// The first unit of a longest path that may go to the front of a chain of another path, and where it goes.
pub(crate) fn first_gain(
    rules: &Rules,
    fixed: &[u32],
    work: &Work,
    groups: &[usize],
    most: u32,
    best: &mut [Roomiest],
) -> Option<Gain>
    requires is { IsWork rules.now fixed.now work.now most }
    requires paths { AreOnPaths rules.now (length fixed.now) }
    requires groups { AreGroups rules.now groups.now }
    requires count { length best.old ≡ length rules.now.chains }
    ensures count { length best.new ≡ length best.old }
    ensures value { MatchOption result (NoGain rules.now work.now.paths.items most work.now.plan)
        (λ gain. OneMayGo rules.now work.now.paths.items most work.now.plan (at_place gain.giver gain.place) (at_place gain.taker 0)) }
{
    note_rooms(rules, fixed, work, groups, most, best);
    for giver in 0..rules.chains.as_slice().len() {
        if let Some(gain) = gain_from(rules, fixed, work, most, best[groups[giver]], giver) {
            return Some(gain);
        }
    }
    None
}
