//! The head of a STIL text, up to its first Pattern: the scan chains that it declares, the procedures and macros that patterns
//! call, and the words that it adds (IEEE 1450-1999, in this profile).
//!
//! Floor: readers, on base_types, token_forms, stil_tokens, stil_parts, stil_types, stil_syntax, stil_blocks, list_laws
//! and `indexmap`.
//! Contract: `read_head` gives what `specs/Heads.antt` says that a text's head denotes, and refuses exactly as `specs/Faults.antt`
//! says. Begin with `head.rt`.
//!
//! What is read: the statement `STIL 1.0`; in `ScanStructures` each `ScanChain` with its length, its two ports, its inversion and its
//! cells; in `Procedures` and `MacroDefs` each `name { .. }`, and whether it holds a Shift; the names in `UserKeywords`. Other
//! statements of the listed words pass unread.
#![tactic(auto)]

mod ends;
mod head;
mod marks;
mod names;
mod shift;
mod syntax;
mod truth;
mod twice;
mod unsupported;

pub use ends::head_len;
pub use head::read_head;
pub use shift::InShift;
