//! The parts of a STIL text, whole or in pieces: what stands first at a point of it, gaps, statements and faults of size
//! (IEEE 1450-1999, clause 6).
//!
//! Floor: readers, on lane_kernels, base_types, token_forms, stil_tokens and `memchr`.
//! Contract: `decide` answers what comes of a text at a point, whatever may follow (`specs/Deciding.antt`); what a text
//! denotes stands in `specs/Coming.antt`, and what a part and a head are by tokens in `specs/ByTokens.antt`. Begin with
//! `choice.rt`.
#![tactic(auto)]

mod choice;
mod gap;
mod head;
mod laws;
mod part;
mod scan;
mod word;

pub use choice::{Decision, LARGEST, decide};
pub use gap::{Comment, Gap, MOST, Place, Point, gap_at};
pub use head::HeadTurn;
pub use laws::{bytes_law, end_law, head_law, head_place_law, opens_law, shown_law};
pub use part::{Part, PartFault, Search, begin_at, part_len, search_part};
pub use scan::{After, Found, Mode, Scan, Scanned, scan_on};
pub use word::Word;
