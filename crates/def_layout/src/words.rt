//! Words that blanks part.
ghost use Rattle.std.specs.Prelude.{◌≡◌, ◌++◌, ◌∷◌, OnOk, decimal};

use base_types::NoMemory;
use std::alloc::Global;

/// Appends a blank and a word.
pub(crate) fn push_word(out: &mut Vec<u8>, word: &[u8]) -> Result<(), NoMemory>
    ensures value { OnOk result (out.new.items ≡ out.old.items ++ 32 ∷ word.now) }
{
    out.extend_from_slice(b" ")?;
    out.extend_from_slice(word)?;
    Ok(())
}

/// Appends a blank and a number.
pub(crate) fn push_number(alloc: Global, out: &mut Vec<u8>, number: u32) -> Result<(), NoMemory>
    ensures value { OnOk result (out.new.items ≡ out.old.items ++ 32 ∷ decimal number) }
{
    let number = format!(in alloc; " {number}")?;
    out.extend_from_slice(number.as_bytes())?;
    Ok(())
}
