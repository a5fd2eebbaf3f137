//! The text of `failmap`: the log of fails that a first set of files would give, where a log is one
//! of a second set that means the same.
//!
//! Floor: top, on base_types, stil_types, stil_reader, stil_tester, stil_written, retarget, same_files, verify_command,
//! fail_map, declared_chains and `itoa`.
//! Contract: `failmap_text` says what `specs/Texts.antt` says, or answers the first fault of
//! `specs/Faults.antt`. What a log is, and which one stands for another, say the specs of fail_map.
//! Begin with `failmap.rt`.
#![tactic(auto)]

mod failmap;
mod pairs;
mod text;

pub use failmap::failmap_text;
