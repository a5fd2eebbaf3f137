//! A STIL text that comes in pieces: its head, and then its gaps and statements, one after the other.
//!
//! Floor: readers, on lane_kernels, base_types, stil_tokens, stil_parts, stil_types, stil_calls and stil_reader.
//! Contract: each answer of a `StilStream` is what comes next of the text, whatever may follow, and more bytes are wanted
//! exactly where those that are kept show nothing (`specs/Streams.antt`); what a text says stands in `specs/Sayings.antt`.
//! The kept bytes never number more than 67108864 and one piece. Begin with `stream.rt`.
#![tactic(auto)]

mod next;
mod stream;
mod walk;

pub use next::{HeadNext, Next};
pub use stream::StilStream;
