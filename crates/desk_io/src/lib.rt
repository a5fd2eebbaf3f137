//! The outside of a run: slots that are opened, read, written and closed, and the loops over them.
//!
//! Floor: ground, on base_types and `thiserror`.
//! Contract: a call changes only its own slot; what was taken is the front of what the slot held, and what was put is
//! a prefix of the text; a failure shows in the slot's count of faults. Begin with `desk.rt` and `specs/Desk.antt`.
#![tactic(auto)]

mod desk;
mod file;
mod files;
mod inputs;
mod memory;
mod names;
mod outputs;
mod part;
mod put;
mod slot;
mod sure;
mod take;

pub use desk::{Desk, Failed};
pub use file::{put_file, take_file};
pub use inputs::{Inputs, InputsFault, limit_of, take_inputs};
pub use memory::MemoryDesk;
pub use names::{Names, name_of};
pub use outputs::{Outputs, put_outputs};
pub use put::{PutFault, put_all};
pub use slot::{INPUTS, SLOTS, Slot, Stage, Way, slot_of};
pub use sure::SureDesk;
pub use take::{TakeFault, take_all};
