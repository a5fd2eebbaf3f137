//! The contracts of `stil_input`.
ghost use Rattle.desk_io.specs.Desk.{SameElsewhere, SameNames};
ghost use Rattle.desk_io.specs.declared.slot.Slot.TheVariants.{Stil};
ghost use Rattle.std.specs.Prelude.{false, true, ◌≡◌};
ghost use Rattle.stil_input.specs.Inputs.{Draws, Gives, GivesHead};

use base_types::Text;
use desk_io::Desk;
use std::alloc::Global;
use stil_input::{Said, StilInput, StilStop};
use stil_reader::StilHead;

/// As `stil_input::StilInput::next_head`.
pub fn stil_input_next_head<D: Desk>(
    stil_input: &mut StilInput,
    alloc: Global,
    desk: &mut D,
) -> Result<Text, StilStop>
    requires draws { Draws stil_input.old (D.state desk.old Stil) }
    requires in_head { stil_input.old.in_head ≡ true }
    ensures gives { GivesHead stil_input.old stil_input.new (D.state desk.old Stil) (D.state desk.new Stil) result }
    ensures elsewhere { SameElsewhere Stil (D.state desk.old) (D.state desk.new) }
    ensures names { SameNames (D.allows desk.old) (D.allows desk.new) }
{
    stil_input.next_head(alloc, desk)
}

/// As `stil_input::StilInput::next`.
pub fn stil_input_next<D: Desk>(
    stil_input: &mut StilInput,
    alloc: Global,
    head: &StilHead,
    desk: &mut D,
) -> Result<Said, StilStop>
    requires draws { Draws stil_input.old (D.state desk.old Stil) }
    requires behind_head { stil_input.old.in_head ≡ false }
    ensures gives { Gives head.now stil_input.old stil_input.new (D.state desk.old Stil) (D.state desk.new Stil) result }
    ensures elsewhere { SameElsewhere Stil (D.state desk.old) (D.state desk.new) }
    ensures names { SameNames (D.allows desk.old) (D.allows desk.new) }
{
    stil_input.next(alloc, head, desk)
}
