//! How many bits chains may take, and which chain of a partition may take the most.
ghost use Rattle.std.specs.Prelude.{◌≡◌, ◌<◌, ℕ, length};
ghost use Rattle.chain_balance.specs.Rooms.{AreGroups, AreRoomiest, best_at, noted, room_at};
ghost use Rattle.chain_balance.specs.Gains.{IsWork};
ghost use Rattle.chain_balance.specs.Balance.{AreOnPaths};

use crate::work::Work;
use chain_rules::Rules;

/// A chain, and how many bits it may take.
#[derive(Clone, Copy)]
pub(crate) struct Roomiest {
    pub(crate) chain: usize,
    pub(crate) room: u32,
}

impl Roomiest {
    /// No room at all.
    pub(crate) const NONE: Roomiest = Roomiest { chain: 0, room: 0 };
}

/// How many bits a chain may take, so that it keeps to its bound and its path has fewer than the most.
fn room_of(rules: &Rules, fixed: &[u32], work: &Work, most: u32, chain: usize) -> u32
    requires is { IsWork rules.now fixed.now work.now most }
    requires paths { AreOnPaths rules.now (length fixed.now) }
    requires chain { chain < length rules.now.chains }
    ensures value { result ≡ room_at rules.now work.now.paths.items work.now.chains.items most chain }
{
    let rule = rules.chains.as_slice()[chain];
    let load = work.paths[rule.path as usize];
    if load == most {
        return 0;
    }
    (most - load - 1).min(rule.bound - work.chains[chain])
}

/// Notes a chain at its group, where it has more room than the one that is noted there.
fn note_room(best: &mut [Roomiest], group: usize, chain: usize, room: u32)
    requires within { group < length best.old }
    ensures value { best.new ≡ noted best.old group chain room }
{
    if best[group].room < room {
        best[group] = Roomiest { chain, room };
    }
}

/// Forgets what is noted.
fn clear(best: &mut [Roomiest])
    ensures count { length best.new ≡ length best.old }
    ensures none { (k : ℕ) → (best_at best.new k).room ≡ 0 }
{
    for place in 0..best.len() {
        best[place] = Roomiest::NONE;
    }
}

/// Notes at each group the chain that may take the most bits.
pub(crate) fn note_rooms(
    rules: &Rules,
    fixed: &[u32],
    work: &Work,
    groups: &[usize],
    most: u32,
    best: &mut [Roomiest],
)
    requires is { IsWork rules.now fixed.now work.now most }
    requires paths { AreOnPaths rules.now (length fixed.now) }
    requires groups { AreGroups rules.now groups.now }
    requires count { length best.old ≡ length rules.now.chains }
    ensures count { length best.new ≡ length best.old }
    ensures value { AreRoomiest groups.now (room_at rules.now work.now.paths.items work.now.chains.items most) best.new (length rules.now.chains) }
{
    clear(best);
    for chain in 0..rules.chains.as_slice().len() {
        let room = room_of(rules, fixed, work, most, chain);
        note_room(best, groups[chain], chain, room);
    }
}
