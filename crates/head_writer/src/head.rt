//! The text of a head with other chains.
ghost use Rattle.std.specs.Prelude.{◌≡◌, ◌<◌, ◌^◌, length, IfOk};
ghost use Rattle.splice.specs.Spliced.{AreRising};
ghost use Rattle.head_text.specs.Written.{head_edits, written_head};
ghost use Rattle.head_writer.specs.NewChains.{new_chains};

use crate::cells::all_named;
use crate::edits::head_edits;
use crate::names::BitNames;
use base_types::{NoMemory, Text};
use chain_trace::PathBits;
use splice::spliced;
use std::alloc::Global;
use stil_types::StilHead;

/// The bytes of a STIL head (IEEE 1450-1999, ScanStructures), which are given, where each chain has the bits of a new path in place of those
/// of its read one: ScanLength is the number of bits, ScanInversion, where it stands, the inversion of the whole path, and ScanCells, where it
/// stands, the bits by the names that they had in the read ScanCells, with a `!` where the path inverts if any read list has a `!`. All other
/// bytes are as they were. The numbers and lists lie in the bytes one behind the other, as they do where the head was read from them. It
/// refuses nothing but memory, and takes time that is linear in the bytes and the bits, but for their hashes.
pub fn stil_head(
    alloc: Global,
    text: &[u8],
    head: &StilHead,
    old: &[PathBits],
    new: &[PathBits],
) -> Result<Text, NoMemory>
    requires size { length text.now < 2 ^ 32 }
    requires rising { AreRising 0 (length text.now) (head_edits head.now.marks head.now.chains (new_chains text.now head.now old.now new.now)) }
    ensures value { IfOk result (λ out. out ≡ written_head (new_chains text.now head.now old.now new.now) head.now text.now) }
{
    let named = all_named(alloc, text, head.chains.as_slice(), old)?;
    let names = BitNames::of(alloc, named.as_slice())?;
    let edits = head_edits(alloc, head, &names, new)?;
    spliced(alloc, text, edits.as_slice())
}
