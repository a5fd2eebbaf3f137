//! The contracts of the outside of a run and the words once more, word for word. `scripts/freeze-contracts` writes this crate.
//!
//! Floor: contracts, on base_types, scan_words, desk_io, stil_reader and stil_input.
//! Each function is a public call's contract with the call as its body, so a contract that promises less is not proved here.
#![tactic(auto)]

pub mod desk_io_calls;
pub mod scan_words_calls;
pub mod stil_input_calls;
