//! Whether two sets of files that are read are the same to a tester.
ghost use Rattle.std.specs.Prelude.{◌↔◌, ◌<◌, ◌^◌, length, IfOk, IsTrue};
ghost use Rattle.same_files.specs.Sets.{ArePatternsOf};
ghost use Rattle.verify_command.specs.Steps.{AreSameSets};

use crate::places::first_place;
use crate::text::head_text;
use base_types::NoMemory;
use same_files::{PatternSet, have_same_cells};
use scan_verify::{have_same_names, same_head};
use std::alloc::Global;

/// Whether two sets, each with its STIL text of less than 4 GiB, are the same to a tester: equal
/// heads but for lengths, inversions and cells, as many chains with the same scan cells, Patterns
/// of equal names, and the same statements but for the data of scan calls, which show the same. One
/// statement of each is held at a time; want of memory is the only refusal.
pub fn are_same_sets(
    alloc: Global,
    old: &PatternSet,
    stil: &[u8],
    new: &PatternSet,
    new_stil: &[u8],
) -> Result<bool, NoMemory>
    requires size { length stil.now < 2 ^ 32 }
    requires new_size { length new_stil.now < 2 ^ 32 }
    requires old_patterns { ArePatternsOf stil.now old.now }
    requires new_patterns { ArePatternsOf new_stil.now new.now }
    ensures value { IfOk result (λ same. IsTrue same ↔ AreSameSets old.now stil.now new.now new_stil.now) }
{
    if !same_head(head_text(stil, old), head_text(new_stil, new)) {
        return Ok(false);
    }
    if !have_same_cells(alloc, old, new)? {
        return Ok(false);
    }
    if !have_same_names(old.names(), new.names()) {
        return Ok(false);
    }
    match first_place(alloc, old, stil, new, new_stil)? {
        Some(_differs) => Ok(false),
        None => Ok(true),
    }
}
