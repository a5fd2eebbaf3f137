//! STIL patterns whose scan calls are moved to other chains (IEEE 1450-1999, Pattern): what is written of them stands for what was read.
//!
//! Floor: writers, on base_types, token_forms, stil_tokens, stil_types, stil_syntax, stil_parts, stil_blocks,
//! stil_head, stil_calls, stil_reader, stil_tester, stil_written, stil_writer and list_laws.
//! Contract: `all_law` says it of a whole text, `scan_law` and `loop_law` of one statement, `ports_law` that a head's ports can be
//! written, and `sums_law` counts what is run (`specs/Laws.antt`, `specs/Sums.antt`). Begin with `laws.rt`.
#![tactic(auto)]

mod laws;

pub use laws::{all_law, loop_law, ports_law, scan_law, sums_law};
