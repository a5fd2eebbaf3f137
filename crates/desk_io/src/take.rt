ghost use Rattle.std.specs.Prelude.{◌≡◌, ◌<◌, ◌≤◌, List, ℕ, length, IfOk, IsErrOf};
ghost use Rattle.desk_io.specs.Desk.{IsOpen, IsInput, SameElsewhere, SameNames};
ghost use Rattle.desk_io.specs.Prefixes.{IsAtEnd, HasTaken, HasTakenAndFailed};

use crate::desk::{Desk, Failed};
use crate::slot::Slot;
use base_types::Text;
use std::alloc::Global;
use thiserror::Error;

/// How many bytes a read may give at once.
const ROOM: usize = 4096;

/// Why an input wasn't taken whole.
#[derive(Clone, Copy, Debug, PartialEq, Eq, Error)]
pub enum TakeFault {
    /// A call of the desk failed: the slot's count of faults rose.
    #[error("the input couldn't be read")]
    Read,
    /// More bytes were taken than the limit.
    #[error("the input is too large")]
    TooLarge,
    /// Memory ran out, which says nothing of the input.
    #[error("memory ran out")]
    NoMemory,
}

/// All bytes of an open input slot to its end, of which there are at most `limit`.
///
/// The slot stays open. After a refusal the bytes that were taken are gone from its front.
pub fn take_all<D: Desk>(
    alloc: Global,
    desk: &mut D,
    slot: Slot,
    limit: u64,
) -> Result<Text, TakeFault>
    requires input { IsInput slot }
    requires open { IsOpen (D.state desk.old slot) }

    ensures ok { IfOk result (λ text. HasTaken text (D.state desk.old slot) (D.state desk.new slot)) }
    ensures to_the_end { IfOk result (λ text. IsAtEnd (D.state desk.new slot)) }
    ensures small { IfOk result (λ text. length text ≤ limit) }

    ensures too_large { IsErrOf result TakeFault.TooLarge →
        ((taken : List ℕ) × (limit < length taken) × HasTaken taken (D.state desk.old slot) (D.state desk.new slot)) }
    ensures no_memory { IsErrOf result TakeFault.NoMemory →
        ((taken : List ℕ) × (length taken ≤ limit) × HasTaken taken (D.state desk.old slot) (D.state desk.new slot)) }
    ensures read { IsErrOf result TakeFault.Read →
        ((taken : List ℕ) × (length taken ≤ limit) × HasTakenAndFailed taken (D.state desk.old slot) (D.state desk.new slot)) }

    ensures still_open { IsOpen (D.state desk.new slot) }
    ensures elsewhere { SameElsewhere slot (D.state desk.old) (D.state desk.new) }
    ensures names { SameNames (D.allows desk.old) (D.allows desk.new) }
{
    let mut bytes = Vec::new(alloc);
    let mut room = [0u8; ROOM];
    loop {
        match desk.read(slot, &mut room) {
            Err(Failed) => return Err(TakeFault::Read),
            Ok(0) => return Ok(Text::of(bytes)),
            Ok(count) => {
                let taken = &room[..count];
                if taken.len() as u64 > limit - bytes.len() as u64 {
                    return Err(TakeFault::TooLarge);
                }
                bytes
                    .extend_from_slice(taken)
                    .map_err(|_| TakeFault::NoMemory)?;
            }
        }
    }
}
