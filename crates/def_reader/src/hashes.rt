//! Hashes that are told apart.
ghost use Rattle.std.specs.Prelude.{◌≡◌, true};
ghost use Rattle.def_reader.specs.Hashes.{tag_of, home_of, name_hash, pair_hash, pin_hash, Adds};

use crate::design::NetPin;
use base_types::NoMemory;
use std::alloc::Global;
use std::hash::{FoldHasher, Hasher};

// How many slots are looked at for a hash, so that hashes by design cost no more. With twice as many slots as hashes, runs of so many
// full ones don't come by chance.
const RUN: usize = 128;

const HALF: u64 = 0x1_0000_0000;

/// Hashes that are told apart, each by one half: it stands in the first slot that was empty, from one on that the other half names. Two
/// of one hash are never both added; some that are apart may not be added either.
#[derive(Drop)]
pub(crate) struct Hashes {
    slots: Vec<u32>,
}

/// What stands for a hash.
fn tag_of(hash: u64) -> u32
    ensures value { result ≡ tag_of hash }
{
    ((hash / HALF) as u32).max(1)
}

impl Hashes {
    /// None yet, and room for so many; or want of memory.
    pub(crate) fn with_room(alloc: Global, count: usize) -> Result<Hashes, NoMemory> {
        let slots = count.saturating_mul(2).saturating_add(RUN);
        Ok(Hashes {
            slots: vec![in alloc; 0; slots]?,
        })
    }

    /// The first slot that is looked at for a hash.
    fn home(&self, hash: u64) -> usize
        ensures value { result ≡ home_of self.now.slots.items hash }
    {
        let homes = self.slots.len().saturating_sub(RUN) as u64;
        ((hash % HALF).wrapping_mul(homes) / HALF) as usize
    }

    /// Adds a hash, and says whether it did. It didn't stand there then.
    pub(crate) fn add(&mut self, hash: u64) -> bool
        ensures added { result ≡ true → Adds self.old self.new hash }
    {
        let tag = tag_of(hash);
        let home = self.home(hash);
        let end = home.saturating_add(RUN).min(self.slots.len());
        for at in home..end {
            let slot = self.slots[at];
            if slot == 0 {
                self.slots[at] = tag;
                return true;
            }
            if slot == tag {
                return false;
            }
        }
        false
    }
}

/// The hash of a name.
#[tactic(auto, unfolding(crate::specs::Hashes::name_hash))]
pub(crate) fn name_hash(name: &[u8]) -> u64
    ensures value { result ≡ name_hash name.now }
{
    let mut hasher = FoldHasher::default();
    hasher.write(name);
    hasher.finish()
}

/// The hash of two words.
#[tactic(auto, unfolding(crate::specs::Hashes::pair_hash))]
fn pair_hash(first: &[u8], second: &[u8]) -> u64
    ensures value { result ≡ pair_hash first.now second.now }
{
    let mut hasher = FoldHasher::default();
    hasher.write(first);
    hasher.write(second);
    hasher.finish()
}

/// The hash of a connection.
pub(crate) fn pin_hash(pin: &NetPin) -> u64
    ensures value { result ≡ pin_hash pin.now }
{
    match pin {
        NetPin::Cell { component, pin } => pair_hash(component.bytes(), pin.bytes()),
        NetPin::Port(name) => pair_hash(b"PIN", name.bytes()),
    }
}
