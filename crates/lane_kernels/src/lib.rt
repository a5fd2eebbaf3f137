//! Kernels over lanes: the searches and flips in which the program spends its time.
//!
//! Floor: planning, on nothing. No call takes memory.
//! Contract: each call equals its plain definition of `specs/Kernels.antt` at every length. The module `plain` has the
//! same calls under the same contracts, one element at a time. Begin with `plain.rt`; `bytes.rt` and `gain.rt` add to
//! it blocks of lanes, each followed by a tail of single elements.
#![tactic(auto)]

mod bytes;
mod gain;
pub mod plain;

pub use bytes::{any_byte_outside, count_byte, flip_where};
pub use gain::first_gain;
