ghost use Rattle.std.specs.Prelude.{◌≡◌, ◌≤◌, [], length, IsTrue, IfOk, OnOk, OnErr, IsErrOf};
ghost use Rattle.desk_io.specs.declared.slot.Slot.TheVariants.{Console};
ghost use Rattle.desk_io.specs.Desk.{IsInput, IsOutput, IsUnopened, SameElsewhere, SameNames};
ghost use Rattle.desk_io.specs.Causes.{HasRisen};
ghost use Rattle.desk_io.specs.Prefixes.{HasTakenFile, IsTooLarge, HasFailedToTake, HasRunOut, HasPutFile, HoldsPrefix};

use crate::desk::Desk;
use crate::put::{PutFault, put_all};
use crate::slot::Slot;
use crate::take::{TakeFault, take_all};
use base_types::Text;
use std::alloc::Global;

/// Opens an input, takes all its bytes, of which there are at most `limit`, and closes it.
///
/// An input with more bytes is closed too. After another refusal it is left as the failing call left it.
pub fn take_file<D: Desk>(
    alloc: Global,
    desk: &mut D,
    slot: Slot,
    name: &str,
    limit: u64,
) -> Result<Text, TakeFault>
    requires input { IsInput slot }
    requires unopened { IsUnopened (D.state desk.old slot) }
    requires allowed { IsTrue (D.allows desk.old slot name.now) }

    ensures ok { IfOk result (λ text. HasTakenFile text (D.state desk.old slot) (D.state desk.new slot)) }
    ensures small { IfOk result (λ text. length text ≤ limit) }
    ensures too_large { IsErrOf result TakeFault.TooLarge → IsTooLarge limit (D.state desk.old slot) (D.state desk.new slot) }
    ensures read { IsErrOf result TakeFault.Read → HasFailedToTake (D.state desk.old slot) (D.state desk.new slot) }
    ensures no_memory { IsErrOf result TakeFault.NoMemory → HasRunOut (D.state desk.old slot) (D.state desk.new slot) }

    ensures elsewhere { SameElsewhere slot (D.state desk.old) (D.state desk.new) }
    ensures names { SameNames (D.allows desk.old) (D.allows desk.new) }
{
    desk.open(slot, name).map_err(|_| TakeFault::Read)?;
    let taken = take_all(alloc, desk, slot, limit);
    match taken {
        Ok(text) => {
            desk.close(slot).map_err(|_| TakeFault::Read)?;
            Ok(text)
        }
        Err(TakeFault::TooLarge) => {
            desk.close(slot).map_err(|_| TakeFault::Read)?;
            Err(TakeFault::TooLarge)
        }
        Err(TakeFault::Read) => Err(TakeFault::Read),
        Err(TakeFault::NoMemory) => Err(TakeFault::NoMemory),
    }
}

/// Opens an output or the console, writes all the bytes and closes it; takes no memory.
///
/// After a refusal the slot is left as the failing call left it, and holds a prefix of the bytes.
pub fn put_file<D: Desk>(desk: &mut D, slot: Slot, name: &str, bytes: &[u8]) -> Result<(), PutFault>
    requires output { IsOutput slot }
    requires unopened { IsUnopened (D.state desk.old slot) }
    requires allowed { IsTrue (D.allows desk.old slot name.now) }
    requires console { slot ≡ Console → name.now ≡ [] }

    ensures ok { OnOk result (HasPutFile bytes.now (D.state desk.old slot) (D.state desk.new slot)) }
    ensures prefix { OnErr result (HoldsPrefix bytes.now (D.state desk.old slot) (D.state desk.new slot)) }
    ensures risen { OnErr result (HasRisen (D.state desk.old slot).faults (D.state desk.new slot).faults) }

    ensures unread { (D.state desk.new slot).unread ≡ (D.state desk.old slot).unread }
    ensures elsewhere { SameElsewhere slot (D.state desk.old) (D.state desk.new) }
    ensures names { SameNames (D.allows desk.old) (D.allows desk.new) }
{
    desk.open(slot, name).map_err(|_| PutFault::Write)?;
    put_all(desk, slot, bytes)?;
    desk.close(slot).map_err(|_| PutFault::Write)?;
    Ok(())
}
