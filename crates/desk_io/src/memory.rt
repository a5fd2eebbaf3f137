ghost use Rattle.std.specs.Prelude.{◌≡◌, ◌<◌, ◌-◌, ◌↔◌, ℕ, [], true, length, min, IsErr, OnOk, OnErr, IfOk, Some};
ghost use Rattle.desk_io.specs.declared.slot.Slot.{Slot};
ghost use Rattle.desk_io.specs.Desk.{IsUnopened, IsInput, IsOpen, IsOutput, opened, closed, SameElsewhere};
ghost use Rattle.desk_io.specs.Causes.{HasFailed};
ghost use Rattle.desk_io.specs.Prefixes.{HasRead, HasWritten};
ghost use Rattle.desk_io.specs.Memory.{slots_of, fresh_slot, unread_at, written_at, next_call, IsFailing, TakesNothing, FailsToWrite};

use crate::desk::{Desk, Failed};
use crate::files::file_bytes;
use crate::part::Part;
use crate::slot::{INPUTS, SLOTS, Slot, Stage};
use base_types::{NoMemory, Text};
use std::alloc::Global;
use std::marker::Model;

/// A desk over files in memory, whose calls fail by their numbers.
///
/// Calls are numbered from 1 over all slots. A read or write moves as many bytes as there are and fit, at most a
/// portion. It tells all bytes and allows every name.
#[derive(Drop)]
pub struct MemoryDesk {
    files: Vec<(Slot, Text)>,
    failing: Vec<u64>,
    empty_writes: Vec<u64>,
    portion: usize,
    room: usize,
    parts: Vec<Part>,
    calls: u64,
}

impl Model for MemoryDesk {
    ghost use Rattle.desk_io.specs.Memory.{MemoryState, IsMemoryDesk};

    ghost Value = { MemoryState };

    ghost view = { λ desk. record { files = desk.files.items; failing = desk.failing.items; empty_writes = desk.empty_writes.items; portion = desk.portion; room = desk.room; parts = desk.parts.items; calls = desk.calls } };

    ghost invariant = { λ desk. IsMemoryDesk (record { files = desk.files.items; failing = desk.failing.items; empty_writes = desk.empty_writes.items; portion = desk.portion; room = desk.room; parts = desk.parts.items; calls = desk.calls }) };
}

impl MemoryDesk {
    /// A desk over these files, which are those of input slots, one for a slot at most; another input holds no bytes.
    ///
    /// The calls whose numbers are in `failing` fail. The writes whose numbers are in `empty_writes`, and not in
    /// `failing`, take nothing. A write to a slot that holds `room` written bytes fails. The memory for them is taken
    /// here, and no later call takes any.
    pub fn new(
        alloc: Global,
        files: Vec<(Slot, Text)>,
        failing: Vec<u64>,
        empty_writes: Vec<u64>,
        portion: usize,
        room: usize,
    ) -> Result<MemoryDesk, NoMemory>
        requires { 0 < portion }
        ensures slots { IfOk result (λ desk. (slot : Slot) → slots_of desk slot ≡ fresh_slot files.items slot) }
        ensures failing { IfOk result (λ desk. desk.failing ≡ failing.items) }
        ensures empty_writes { IfOk result (λ desk. desk.empty_writes ≡ empty_writes.items) }
        ensures portion { IfOk result (λ desk. desk.portion ≡ portion) }
        ensures room { IfOk result (λ desk. desk.room ≡ room) }
        ensures calls { IfOk result (λ desk. desk.calls ≡ 0) }
    {
        let mut parts = Vec::new(alloc);
        for at in 0..SLOTS {
            let space = if at < INPUTS { 0 } else { room };
            parts.push(Part::new(alloc, space)?)?;
        }
        Ok(MemoryDesk {
            files,
            failing,
            empty_writes,
            portion,
            room,
            parts,
            calls: 0,
        })
    }

    /// What was written to a slot; takes no memory.
    pub fn written(&self, slot: Slot) -> &[u8]
        ensures value { result.now ≡ written_at self.now slot }
    {
        let part = &self.parts[slot.number()];
        part.written()
    }

    /// The slot's count of faults; takes no memory.
    pub fn faults(&self, slot: Slot) -> u64
        ensures value { result ≡ (slots_of self.now slot).faults }
    {
        let part = &self.parts[slot.number()];
        part.faults()
    }

    /// How many calls there were; takes no memory.
    pub fn calls(&self) -> u64
        ensures value { result ≡ self.now.calls }
    {
        self.calls
    }

    /// Counts a call on the slot, which fails where it is one of the failing ones.
    fn begin(&mut self, slot: Slot) -> Result<(), Failed>
        ensures fails { IsErr result ↔ IsFailing self.old }
        ensures ok { OnOk result (self.new ≡ record self.old { calls = next_call self.old }) }
        ensures failed { OnErr result (HasFailed (slots_of self.old slot) (slots_of self.new slot)) }
        ensures elsewhere { SameElsewhere slot (slots_of self.old) (slots_of self.new) }
        ensures same { self.new ≡ record self.old { calls = next_call self.old; parts = self.new.parts } }
    {
        self.calls = self.calls.saturating_add(1);
        if self.failing.contains(&self.calls) {
            let part = &mut self.parts[slot.number()];
            part.fail();
            return Err(Failed);
        }
        Ok(())
    }
}

impl Desk for MemoryDesk {
    ghost state = { slots_of };

    ghost allows = { λ desk slot name. true };

    fn open(&mut self, slot: Slot, _name: &str) -> Result<(), Failed>
        requires unopened { IsUnopened (slots_of self.old slot) }
        ensures fails { IsErr result ↔ IsFailing self.old }
        ensures ok { OnOk result (slots_of self.new slot ≡ opened (slots_of self.old slot)) }
        ensures failed { OnErr result (HasFailed (slots_of self.old slot) (slots_of self.new slot)) }
        ensures elsewhere { SameElsewhere slot (slots_of self.old) (slots_of self.new) }
        ensures same { self.new ≡ record self.old { calls = next_call self.old; parts = self.new.parts } }
    {
        self.begin(slot)?;
        let part = &mut self.parts[slot.number()];
        part.set_stage(Stage::Open);
        Ok(())
    }

    fn read(&mut self, slot: Slot, room: &mut [u8]) -> Result<usize, Failed>
        requires input { IsInput slot }
        requires open { IsOpen (slots_of self.old slot) }
        requires room { 0 < length room.old }
        ensures fails { IsErr result ↔ IsFailing self.old }
        ensures moved { IfOk result (λ count. count ≡ min self.old.portion (min (length room.old) (length (unread_at self.old slot)))) }
        ensures ok { IfOk result (λ count. HasRead count room.new (slots_of self.old slot) (slots_of self.new slot)) }
        ensures failed { OnErr result (HasFailed (slots_of self.old slot) (slots_of self.new slot)) }
        ensures elsewhere { SameElsewhere slot (slots_of self.old) (slots_of self.new) }
        ensures same { self.new ≡ record self.old { calls = next_call self.old; parts = self.new.parts } }
    {
        self.begin(slot)?;
        let file = file_bytes(&self.files, slot);
        let part = &mut self.parts[slot.number()];
        Ok(part.read(file, room, self.portion))
    }

    fn write(&mut self, slot: Slot, piece: &[u8]) -> Result<usize, Failed>
        requires output { IsOutput slot }
        requires open { IsOpen (slots_of self.old slot) }
        requires piece { 0 < length piece.now }
        ensures fails { IsErr result ↔ FailsToWrite self.old slot }
        ensures nothing { IfOk result (λ count. TakesNothing self.old → count ≡ 0) }
        ensures moved { IfOk result (λ count. (TakesNothing self.old → ⊥) → count ≡ min self.old.portion (min (length piece.now) (self.old.room - length (written_at self.old slot)))) }
        ensures ok { IfOk result (λ count. HasWritten count piece.now (slots_of self.old slot) (slots_of self.new slot)) }
        ensures failed { OnErr result (HasFailed (slots_of self.old slot) (slots_of self.new slot)) }
        ensures elsewhere { SameElsewhere slot (slots_of self.old) (slots_of self.new) }
        ensures same { self.new ≡ record self.old { calls = next_call self.old; parts = self.new.parts } }
    {
        self.begin(slot)?;
        let takes_nothing = self.empty_writes.contains(&self.calls);
        let part = &mut self.parts[slot.number()];
        if takes_nothing {
            part.fail();
            return Ok(0);
        }
        if part.is_full() {
            part.fail();
            return Err(Failed);
        }
        Ok(part.write(piece, self.portion))
    }

    fn close(&mut self, slot: Slot) -> Result<(), Failed>
        requires open { IsOpen (slots_of self.old slot) }
        ensures fails { IsErr result ↔ IsFailing self.old }
        ensures ok { OnOk result (slots_of self.new slot ≡ closed (slots_of self.old slot)) }
        ensures failed { OnErr result (HasFailed (slots_of self.old slot) (slots_of self.new slot)) }
        ensures elsewhere { SameElsewhere slot (slots_of self.old) (slots_of self.new) }
        ensures same { self.new ≡ record self.old { calls = next_call self.old; parts = self.new.parts } }
    {
        self.begin(slot)?;
        let part = &mut self.parts[slot.number()];
        part.set_stage(Stage::Closed);
        Ok(())
    }

    fn note(&mut self, _line: &str) {}
}
