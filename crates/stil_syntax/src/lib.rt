//! The forms of the statements of STIL patterns, by their tokens and by the head (IEEE 1450-1999, Pattern statements, in
//! this profile).
//!
//! Floor: readers, on base_types, token_forms, stil_tokens and stil_types.
//! Contract: `shape_of` answers the form that `specs/Shapes.antt` says some tokens have; the data of a scan call are spelled
//! as `specs/Grammar.antt` says. Begin with `shape.rt`.
//!
//! What is read: labels and a word; of a `Call` or `Macro` of a scan procedure its items `name = data ;`; of a `Loop` whose
//! block holds a scan call directly its number and the tokens of its block. Other statements pass unread.
#![tactic(auto)]

mod callee;
mod digits;
mod item;
mod labels;
mod laws;
mod loops;
mod name;
mod shape;
mod stretch;
mod words;

pub use digits::{count_from, counted, is_digit};
pub use item::{Data, Entry, Item, Items};
pub use labels::{begins_behind, behind_labels, closes_nothing};
pub use laws::form_law;
pub use loops::{body_statement, in_block};
pub use name::NameText;
pub use shape::{Shape, shape_of};
pub use stretch::Stretch;
pub use words::is_word;
