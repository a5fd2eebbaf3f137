//! Types that every crate needs: names, texts, words, lists, places, kinds of fault and faults, and the lines of a text.
//!
//! Floor: ground, on `memchr`.
//! Contract: what each type is seen as stands at its `impl Model`; kinds, faults and their order in `specs/Faults.antt` and
//! `specs/FirstFault.antt`. Begin with `fault.rt`.
#![tactic(auto)]

mod boxed;
mod escapes;
mod fault;
mod kind;
mod laws;
mod lines;
mod memory;
mod name;
mod rows;
mod span;
mod stop;
mod word;

pub use boxed::Boxed;
pub use escapes::plain_name;
pub use fault::{Fault, FileKind, ReadFault, Spot};
pub use kind::Kind;
pub use laws::fault_law;
pub use lines::{Lines, line_of};
pub use memory::NoMemory;
pub use name::{Name, Text};
pub use rows::Rows;
pub use span::{Point, Span};
pub use stop::Stop;
pub use word::Word;
