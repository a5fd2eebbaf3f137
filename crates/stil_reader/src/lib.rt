//! STIL texts: their heads, and the patterns beside these (IEEE 1450-1999, in this profile).
//!
//! Floor: readers, on base_types, token_forms, stil_tokens, stil_parts, stil_types, stil_syntax, stil_head, stil_calls
//! and list_laws.
//! Contract: `read_stil` answers what the text denotes, or its first fault (`specs/Patterns.antt`); `read_judged` answers
//! the same beside a head, judges loads and compares too, and hands out all bytes between the statements. What a text
//! says, in order, stands in `specs/Sayings.antt`; `PatternCursor` takes the names and statements of this one after the other
//! (`specs/Cursors.antt`). `read_head` is handed on from stil_head. Begin with `read.rt`.
#![tactic(auto)]

mod cursor;
mod laws;
mod read;
mod reading;
mod step;
mod stil;

pub use cursor::{PatternCursor, PatternItem};
pub use laws::whole_law;
pub use read::{read_judged, read_stil};
pub use stil::{Judged, Stil};
pub use stil_head::read_head;
pub use stil_types::{BodyStatement, Callee, PatternStatement, ScanCall, ScanChainDecl, StilHead};
