ghost use Rattle.std.specs.Prelude.{◌≡◌, [], OnOk, OnErr};
ghost use Rattle.desk_io.specs.Desk.{IsOpen, IsOutput, SameElsewhere, SameNames};
ghost use Rattle.desk_io.specs.Prefixes.{HasPut, HasPutAndFailed};

use crate::desk::{Desk, Failed};
use crate::slot::Slot;
use thiserror::Error;

/// Why not all bytes were written.
#[derive(Clone, Copy, Debug, PartialEq, Eq, Error)]
pub enum PutFault {
    /// A call of the desk failed, or a write took nothing: the slot's count of faults rose.
    #[error("the output couldn't be written")]
    Write,
}

/// Writes all the bytes to an open output slot or to the open console, with no call where there are none.
///
/// The slot stays open. After a refusal a prefix of the bytes was written.
pub fn put_all<D: Desk>(desk: &mut D, slot: Slot, bytes: &[u8]) -> Result<(), PutFault>
    requires output { IsOutput slot }
    requires open { IsOpen (D.state desk.old slot) }
    ensures ok { OnOk result (HasPut bytes.now (D.state desk.old slot) (D.state desk.new slot)) }
    ensures failed { OnErr result (HasPutAndFailed bytes.now (D.state desk.old slot) (D.state desk.new slot)) }
    ensures no_call { bytes.now ≡ [] → desk.new ≡ desk.old }
    ensures still_open { IsOpen (D.state desk.new slot) }
    ensures elsewhere { SameElsewhere slot (D.state desk.old) (D.state desk.new) }
    ensures names { SameNames (D.allows desk.old) (D.allows desk.new) }
{
    let mut rest = bytes;
    while !rest.is_empty() {
        match desk.write(slot, rest) {
            Err(Failed) => return Err(PutFault::Write),
            Ok(0) => return Err(PutFault::Write),
            Ok(count) => rest = rest.split_at(count).1,
        }
    }
    Ok(())
}
