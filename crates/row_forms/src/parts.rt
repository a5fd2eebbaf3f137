//! Texts that are put together. A `format!` costs the prover two seconds and more wherever it stands; these parts cost it once.
use crate::faults::word;
use base_types::NoMemory;
use std::fmt::Write;

/// A part of a text.
#[derive(Clone, Copy)]
pub enum Part<'t> {
    /// A text as it stands.
    Text(&'t str),
    /// A name by its bytes.
    Word(&'t [u8]),
    /// A number.
    Number(u64),
    /// A number with its sign, where it is below 0.
    Signed(i64),
}

/// Puts parts behind a text, one after another. Err where memory is wanted.
pub fn put(text: &mut String, parts: &[Part<'_>]) -> Result<(), NoMemory> {
    for part in parts {
        match part {
            Part::Text(part) => text.push_str(part)?,
            Part::Word(part) => text.push_str(word(part))?,
            Part::Number(number) => write!(text, "{number}")?,
            Part::Signed(number) => write!(text, "{number}")?,
        }
    }
    Ok(())
}
