//! The contracts of what patterns mean once more, word for word. `scripts/freeze-contracts` writes this crate.
//!
//! Floor: contracts, on base_types, stil_types, stil_calls, stil_reader, stil_tester, retarget, stil_writer,
//! retargeted_patterns and scan_verify.
//! Each function is a public call's contract with the call as its body, so a contract that promises less is not proved here.
#![tactic(auto)]

pub mod retarget_calls;
pub mod retargeted_patterns_calls;
pub mod scan_verify_calls;
pub mod stil_tester_calls;
pub mod stil_writer_calls;
