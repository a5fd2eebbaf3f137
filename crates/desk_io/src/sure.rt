ghost use Rattle.std.specs.Prelude.{◌≡◌, ◌<◌, true, length, min, IfOk};
ghost use Rattle.desk_io.specs.declared.slot.Slot.{Slot};
ghost use Rattle.desk_io.specs.Desk.{SameElsewhere};
ghost use Rattle.desk_io.specs.Prefixes.{HasRead};
ghost use Rattle.desk_io.specs.Sure.{sure_slots, sure_unread, fresh_sure_slot};

use crate::desk::{Desk, Failed};
use crate::files::{file_bytes, move_bytes};
use crate::slot::{SLOTS, Slot, Stage};
use base_types::Text;
use std::marker::Model;

/// A desk over files in memory whose calls never fail, and which drops what is written.
///
/// A read moves as many bytes as there are and fit, and a write takes the whole piece. The desk tells its inputs, and
/// nothing of what was written. It allows every name.
#[derive(Drop)]
pub struct SureDesk {
    files: Vec<(Slot, Text)>,
    taken: [usize; SLOTS],
    stages: [Stage; SLOTS],
}

impl Model for SureDesk {
    ghost use Rattle.desk_io.specs.Sure.{SureState, IsWithinFiles};

    ghost Value = { SureState };

    ghost view = { λ desk. record { files = desk.files.items; taken = desk.taken; stages = desk.stages } };

    ghost invariant = { λ desk. IsWithinFiles (record { files = desk.files.items; taken = desk.taken; stages = desk.stages }) };
}

impl SureDesk {
    /// A desk over these files, which are those of input slots, one for a slot at most; another input holds no bytes.
    /// It takes no memory.
    pub fn new(files: Vec<(Slot, Text)>) -> SureDesk
        ensures slots { (slot : Slot) → sure_slots result slot ≡ fresh_sure_slot files.items slot }
    {
        SureDesk {
            files,
            taken: [0; SLOTS],
            stages: [Stage::Unopened; SLOTS],
        }
    }
}

impl Desk for SureDesk {
    ghost state = { sure_slots };

    ghost allows = { λ desk slot name. true };

    fn open(&mut self, slot: Slot, _name: &str) -> Result<(), Failed> {
        self.stages[slot.number()] = Stage::Open;
        Ok(())
    }

    fn read(&mut self, slot: Slot, room: &mut [u8]) -> Result<usize, Failed>
        requires room { 0 < length room.old }
        ensures moved { result ≡ Ok (min (length room.old) (length (sure_unread self.old slot))) }
        ensures ok { IfOk result (λ count. HasRead count room.new (sure_slots self.old slot) (sure_slots self.new slot)) }
        ensures elsewhere { SameElsewhere slot (sure_slots self.old) (sure_slots self.new) }
    {
        let at = slot.number();
        let portion = room.len();
        let count = move_bytes(file_bytes(&self.files, slot), self.taken[at], room, portion);
        self.taken[at] += count;
        Ok(count)
    }

    fn write(&mut self, _slot: Slot, piece: &[u8]) -> Result<usize, Failed>
        requires piece { 0 < length piece.now }
        ensures whole { result ≡ Ok (length piece.now) }
        ensures unchanged { self.new ≡ self.old }
    {
        Ok(piece.len())
    }

    fn close(&mut self, slot: Slot) -> Result<(), Failed> {
        self.stages[slot.number()] = Stage::Closed;
        Ok(())
    }

    fn note(&mut self, _line: &str) {}
}
