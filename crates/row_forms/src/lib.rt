//! What the programs of tests share: cases that a program counts, and how names, faults and tokens are printed.
//!
//! Floor: tests, on token_forms, base_types and `toml`.
//! Contract: none beyond that nothing fails but with a message.
#![tactic(auto)]

mod cases;
mod faults;
mod parts;
mod row;
mod tokens;

pub use cases::{Cases, print_cases};
pub use faults::{fault_text, word};
pub use parts::{Part, put};
pub use row::items_of;
pub use tokens::{barred, push_size};
