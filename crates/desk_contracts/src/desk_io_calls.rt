//! The contracts of `desk_io`.
ghost use Rattle.desk_io.specs.Causes.{HasFailed, HasRisen, SameCounts, SomeRose};
ghost use Rattle.desk_io.specs.Desk.{IsInput, IsOpen, IsOutput, IsUnopened, SameElsewhere, SameNames, closed, opened};
ghost use Rattle.desk_io.specs.Inputs.{AreTextsOf, HasStopped, HasTakenInputs, HoldsFiles, InputsUnopened, IsFirstTooLarge};
ghost use Rattle.desk_io.specs.Memory.{FailsToWrite, IsFailing, TakesNothing, next_call, slots_of, unread_at, written_at};
ghost use Rattle.desk_io.specs.Names.{AllowsNames, OnlyNamed};
ghost use Rattle.desk_io.specs.Outputs.{HasPutOutputs, HasStoppedPutting, HoldsPrefixes, OutputsUnopened};
ghost use Rattle.desk_io.specs.Prefixes.{HasFailedToTake, HasPut, HasPutAndFailed, HasPutFile, HasRead, HasRunOut, HasTaken, HasTakenAndFailed, HasTakenFile, HasWritten, HoldsPrefix, IsAtEnd, IsTooLarge};
ghost use Rattle.desk_io.specs.declared.slot.Slot.{Slot};
ghost use Rattle.desk_io.specs.declared.slot.Slot.TheVariants.{Console};
ghost use Rattle.std.specs.Prelude.{IfOk, IsErr, IsErrOf, IsTrue, List, OnErr, OnOk, [], length, min, ℕ, ◌-◌, ◌<◌, ◌↔◌, ◌≡◌, ◌≤◌};

use base_types::Text;
use desk_io::{
    Desk, Failed, INPUTS, Inputs, InputsFault, MemoryDesk, Names, Outputs, PutFault, Slot,
    TakeFault,
};
use std::alloc::Global;

const OUTPUTS: usize = 5;

/// As `desk_io::Desk::open`.
pub fn desk_open<D: Desk>(desk: &mut D, slot: Slot, name: &str) -> Result<(), Failed>
    requires unopened { IsUnopened (D.state desk.old slot) }
    requires allowed { IsTrue (D.allows desk.old slot name.now) }
    requires console { slot ≡ Console → name.now ≡ [] }
    ensures ok { OnOk result (D.state desk.new slot ≡ opened (D.state desk.old slot)) }
    ensures failed { OnErr result (HasFailed (D.state desk.old slot) (D.state desk.new slot)) }
    ensures elsewhere { SameElsewhere slot (D.state desk.old) (D.state desk.new) }
    ensures names { SameNames (D.allows desk.old) (D.allows desk.new) }
{
    desk.open(slot, name)
}

/// As `desk_io::Desk::read`.
pub fn desk_read<D: Desk>(desk: &mut D, slot: Slot, room: &mut [u8]) -> Result<usize, Failed>
    requires input { IsInput slot }
    requires open { IsOpen (D.state desk.old slot) }
    requires room { 0 < length room.old }
    ensures ok { IfOk result (λ count. HasRead count room.new (D.state desk.old slot) (D.state desk.new slot)) }
    ensures failed { OnErr result (HasFailed (D.state desk.old slot) (D.state desk.new slot)) }
    ensures elsewhere { SameElsewhere slot (D.state desk.old) (D.state desk.new) }
    ensures names { SameNames (D.allows desk.old) (D.allows desk.new) }
{
    desk.read(slot, room)
}

/// As `desk_io::Desk::write`.
pub fn desk_write<D: Desk>(desk: &mut D, slot: Slot, piece: &[u8]) -> Result<usize, Failed>
    requires output { IsOutput slot }
    requires open { IsOpen (D.state desk.old slot) }
    requires piece { 0 < length piece.now }
    ensures ok { IfOk result (λ count. HasWritten count piece.now (D.state desk.old slot) (D.state desk.new slot)) }
    ensures failed { OnErr result (HasFailed (D.state desk.old slot) (D.state desk.new slot)) }
    ensures elsewhere { SameElsewhere slot (D.state desk.old) (D.state desk.new) }
    ensures names { SameNames (D.allows desk.old) (D.allows desk.new) }
{
    desk.write(slot, piece)
}

/// As `desk_io::Desk::close`.
pub fn desk_close<D: Desk>(desk: &mut D, slot: Slot) -> Result<(), Failed>
    requires open { IsOpen (D.state desk.old slot) }
    ensures ok { OnOk result (D.state desk.new slot ≡ closed (D.state desk.old slot)) }
    ensures failed { OnErr result (HasFailed (D.state desk.old slot) (D.state desk.new slot)) }
    ensures elsewhere { SameElsewhere slot (D.state desk.old) (D.state desk.new) }
    ensures names { SameNames (D.allows desk.old) (D.allows desk.new) }
{
    desk.close(slot)
}

/// As `desk_io::take_all`.
pub fn take_all<D: Desk>(
    alloc: Global,
    desk: &mut D,
    slot: Slot,
    limit: u64,
) -> Result<Text, TakeFault>
    requires input { IsInput slot }
    requires open { IsOpen (D.state desk.old slot) }

    ensures ok { IfOk result (λ text. HasTaken text (D.state desk.old slot) (D.state desk.new slot)) }
    ensures to_the_end { IfOk result (λ text. IsAtEnd (D.state desk.new slot)) }
    ensures small { IfOk result (λ text. length text ≤ limit) }

    ensures too_large { IsErrOf result TakeFault.TooLarge →
        ((taken : List ℕ) × (limit < length taken) × HasTaken taken (D.state desk.old slot) (D.state desk.new slot)) }
    ensures no_memory { IsErrOf result TakeFault.NoMemory →
        ((taken : List ℕ) × (length taken ≤ limit) × HasTaken taken (D.state desk.old slot) (D.state desk.new slot)) }
    ensures read { IsErrOf result TakeFault.Read →
        ((taken : List ℕ) × (length taken ≤ limit) × HasTakenAndFailed taken (D.state desk.old slot) (D.state desk.new slot)) }

    ensures still_open { IsOpen (D.state desk.new slot) }
    ensures elsewhere { SameElsewhere slot (D.state desk.old) (D.state desk.new) }
    ensures names { SameNames (D.allows desk.old) (D.allows desk.new) }
{
    desk_io::take_all(alloc, desk, slot, limit)
}

/// As `desk_io::take_file`.
pub fn take_file<D: Desk>(
    alloc: Global,
    desk: &mut D,
    slot: Slot,
    name: &str,
    limit: u64,
) -> Result<Text, TakeFault>
    requires input { IsInput slot }
    requires unopened { IsUnopened (D.state desk.old slot) }
    requires allowed { IsTrue (D.allows desk.old slot name.now) }

    ensures ok { IfOk result (λ text. HasTakenFile text (D.state desk.old slot) (D.state desk.new slot)) }
    ensures small { IfOk result (λ text. length text ≤ limit) }
    ensures too_large { IsErrOf result TakeFault.TooLarge → IsTooLarge limit (D.state desk.old slot) (D.state desk.new slot) }
    ensures read { IsErrOf result TakeFault.Read → HasFailedToTake (D.state desk.old slot) (D.state desk.new slot) }
    ensures no_memory { IsErrOf result TakeFault.NoMemory → HasRunOut (D.state desk.old slot) (D.state desk.new slot) }

    ensures elsewhere { SameElsewhere slot (D.state desk.old) (D.state desk.new) }
    ensures names { SameNames (D.allows desk.old) (D.allows desk.new) }
{
    desk_io::take_file(alloc, desk, slot, name, limit)
}

/// As `desk_io::take_inputs`.
pub fn take_inputs<D: Desk>(
    alloc: Global,
    names: &Names,
    desk: &mut D,
) -> Result<Inputs, InputsFault>
    requires unopened { InputsUnopened (D.state desk.old) }
    requires allowed { AllowsNames names.now (D.allows desk.old) }

    ensures ok { IfOk result (λ texts. HasTakenInputs names.now INPUTS texts (D.state desk.old) (D.state desk.new)) }
    ensures stopped { HasStopped names.now (D.state desk.old) (D.state desk.new) result }

    // Over a desk that tells its bytes: the texts are the files, or the file is the first that is too large.
    ensures texts { (files : Slot → List ℕ) → HoldsFiles names.now files (D.state desk.old) →
        IfOk result (λ texts. AreTextsOf names.now files texts) }
    ensures too_large { (files : Slot → List ℕ) → HoldsFiles names.now files (D.state desk.old) →
        (slot : Slot) → IsErrOf result (InputsFault.TooLarge slot) → IsFirstTooLarge names.now files slot }

    // A count rises only where `Read` is answered, and that of an input then.
    ensures read { IsErrOf result InputsFault.Read → SomeRose IsInput (D.state desk.old) (D.state desk.new) }
    ensures counts { (IsErrOf result InputsFault.Read → ⊥) → SameCounts (D.state desk.old) (D.state desk.new) }

    ensures elsewhere { OnlyNamed names.now IsInput (D.state desk.old) (D.state desk.new) }
    ensures names { SameNames (D.allows desk.old) (D.allows desk.new) }
{
    desk_io::take_inputs(alloc, names, desk)
}

/// As `desk_io::put_all`.
pub fn put_all<D: Desk>(desk: &mut D, slot: Slot, bytes: &[u8]) -> Result<(), PutFault>
    requires output { IsOutput slot }
    requires open { IsOpen (D.state desk.old slot) }
    ensures ok { OnOk result (HasPut bytes.now (D.state desk.old slot) (D.state desk.new slot)) }
    ensures failed { OnErr result (HasPutAndFailed bytes.now (D.state desk.old slot) (D.state desk.new slot)) }
    ensures no_call { bytes.now ≡ [] → desk.new ≡ desk.old }
    ensures still_open { IsOpen (D.state desk.new slot) }
    ensures elsewhere { SameElsewhere slot (D.state desk.old) (D.state desk.new) }
    ensures names { SameNames (D.allows desk.old) (D.allows desk.new) }
{
    desk_io::put_all(desk, slot, bytes)
}

/// As `desk_io::put_file`.
pub fn put_file<D: Desk>(desk: &mut D, slot: Slot, name: &str, bytes: &[u8]) -> Result<(), PutFault>
    requires output { IsOutput slot }
    requires unopened { IsUnopened (D.state desk.old slot) }
    requires allowed { IsTrue (D.allows desk.old slot name.now) }
    requires console { slot ≡ Console → name.now ≡ [] }

    ensures ok { OnOk result (HasPutFile bytes.now (D.state desk.old slot) (D.state desk.new slot)) }
    ensures prefix { OnErr result (HoldsPrefix bytes.now (D.state desk.old slot) (D.state desk.new slot)) }
    ensures risen { OnErr result (HasRisen (D.state desk.old slot).faults (D.state desk.new slot).faults) }

    ensures unread { (D.state desk.new slot).unread ≡ (D.state desk.old slot).unread }
    ensures elsewhere { SameElsewhere slot (D.state desk.old) (D.state desk.new) }
    ensures names { SameNames (D.allows desk.old) (D.allows desk.new) }
{
    desk_io::put_file(desk, slot, name, bytes)
}

/// As `desk_io::put_outputs`.
pub fn put_outputs<D: Desk>(names: &Names, outputs: &Outputs, desk: &mut D) -> Result<(), PutFault>
    requires unopened { OutputsUnopened names.now (D.state desk.old) }
    requires allowed { AllowsNames names.now (D.allows desk.old) }

    ensures ok { OnOk result (HasPutOutputs names.now outputs.now OUTPUTS (D.state desk.old) (D.state desk.new)) }
    ensures failed { OnErr result (HasStoppedPutting names.now outputs.now (D.state desk.old) (D.state desk.new)) }

    // Each output holds a prefix of its text, whatever is answered.
    ensures prefixes { HoldsPrefixes outputs.now (D.state desk.old) (D.state desk.new) }

    // A count rises only where a fault is answered, and that of an output then.
    ensures write { OnErr result (SomeRose IsOutput (D.state desk.old) (D.state desk.new)) }
    ensures counts { OnOk result (SameCounts (D.state desk.old) (D.state desk.new)) }

    ensures elsewhere { OnlyNamed names.now IsOutput (D.state desk.old) (D.state desk.new) }
    ensures names { SameNames (D.allows desk.old) (D.allows desk.new) }
{
    desk_io::put_outputs(names, outputs, desk)
}

/// As `desk_io::MemoryDesk::open`.
pub fn memory_desk_open(memory_desk: &mut MemoryDesk, slot: Slot, name: &str) -> Result<(), Failed>
    requires unopened { IsUnopened (slots_of memory_desk.old slot) }
    ensures fails { IsErr result ↔ IsFailing memory_desk.old }
    ensures ok { OnOk result (slots_of memory_desk.new slot ≡ opened (slots_of memory_desk.old slot)) }
    ensures failed { OnErr result (HasFailed (slots_of memory_desk.old slot) (slots_of memory_desk.new slot)) }
    ensures elsewhere { SameElsewhere slot (slots_of memory_desk.old) (slots_of memory_desk.new) }
    ensures same { memory_desk.new ≡ record memory_desk.old { calls = next_call memory_desk.old; parts = memory_desk.new.parts } }
{
    memory_desk.open(slot, name)
}

/// As `desk_io::MemoryDesk::read`.
pub fn memory_desk_read(
    memory_desk: &mut MemoryDesk,
    slot: Slot,
    room: &mut [u8],
) -> Result<usize, Failed>
    requires input { IsInput slot }
    requires open { IsOpen (slots_of memory_desk.old slot) }
    requires room { 0 < length room.old }
    ensures fails { IsErr result ↔ IsFailing memory_desk.old }
    ensures moved { IfOk result (λ count. count ≡ min memory_desk.old.portion (min (length room.old) (length (unread_at memory_desk.old slot)))) }
    ensures ok { IfOk result (λ count. HasRead count room.new (slots_of memory_desk.old slot) (slots_of memory_desk.new slot)) }
    ensures failed { OnErr result (HasFailed (slots_of memory_desk.old slot) (slots_of memory_desk.new slot)) }
    ensures elsewhere { SameElsewhere slot (slots_of memory_desk.old) (slots_of memory_desk.new) }
    ensures same { memory_desk.new ≡ record memory_desk.old { calls = next_call memory_desk.old; parts = memory_desk.new.parts } }
{
    memory_desk.read(slot, room)
}

/// As `desk_io::MemoryDesk::write`.
pub fn memory_desk_write(
    memory_desk: &mut MemoryDesk,
    slot: Slot,
    piece: &[u8],
) -> Result<usize, Failed>
    requires output { IsOutput slot }
    requires open { IsOpen (slots_of memory_desk.old slot) }
    requires piece { 0 < length piece.now }
    ensures fails { IsErr result ↔ FailsToWrite memory_desk.old slot }
    ensures nothing { IfOk result (λ count. TakesNothing memory_desk.old → count ≡ 0) }
    ensures moved { IfOk result (λ count. (TakesNothing memory_desk.old → ⊥) → count ≡ min memory_desk.old.portion (min (length piece.now) (memory_desk.old.room - length (written_at memory_desk.old slot)))) }
    ensures ok { IfOk result (λ count. HasWritten count piece.now (slots_of memory_desk.old slot) (slots_of memory_desk.new slot)) }
    ensures failed { OnErr result (HasFailed (slots_of memory_desk.old slot) (slots_of memory_desk.new slot)) }
    ensures elsewhere { SameElsewhere slot (slots_of memory_desk.old) (slots_of memory_desk.new) }
    ensures same { memory_desk.new ≡ record memory_desk.old { calls = next_call memory_desk.old; parts = memory_desk.new.parts } }
{
    memory_desk.write(slot, piece)
}

/// As `desk_io::MemoryDesk::close`.
pub fn memory_desk_close(memory_desk: &mut MemoryDesk, slot: Slot) -> Result<(), Failed>
    requires open { IsOpen (slots_of memory_desk.old slot) }
    ensures fails { IsErr result ↔ IsFailing memory_desk.old }
    ensures ok { OnOk result (slots_of memory_desk.new slot ≡ closed (slots_of memory_desk.old slot)) }
    ensures failed { OnErr result (HasFailed (slots_of memory_desk.old slot) (slots_of memory_desk.new slot)) }
    ensures elsewhere { SameElsewhere slot (slots_of memory_desk.old) (slots_of memory_desk.new) }
    ensures same { memory_desk.new ≡ record memory_desk.old { calls = next_call memory_desk.old; parts = memory_desk.new.parts } }
{
    memory_desk.close(slot)
}
