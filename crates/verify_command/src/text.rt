//! What is said of two sets of files.
ghost use Rattle.std.specs.Prelude.{◌≡◌, ◌<◌, ◌≤◌, ◌^◌, length, slice_index_or, [], IfOk};
ghost use Rattle.base_types.specs.Names.{plain_name};
ghost use Rattle.stil_head.specs.Ends.{head_text};
ghost use Rattle.same_files.specs.Sets.{ArePatternsOf, meant_by};
ghost use Rattle.verify_command.specs.Texts.{Says, place_text, differs_text};
ghost use Rattle.verify_command.specs.Steps.{AreAlikeSets};

use crate::places::{Place, first_place, one_more};
use base_types::{Name, NoMemory, Text, plain_name};
use itoa::Buffer;
use same_files::{PatternSet, have_same_cells};
use scan_verify::{have_same_names, same_head};
use std::alloc::Global;

/// The plain name of the Pattern of a number.
fn pattern_name(alloc: Global, names: &[Name], pattern: u32) -> Result<Name, NoMemory>
    ensures value { IfOk result (λ name. name ≡ plain_name (slice_index_or names.now pattern [])) }
{
    match names.get(pattern as usize) {
        Some(name) => plain_name(alloc, name.bytes()),
        None => Ok(Name::of(Vec::new(alloc))),
    }
}

/// The line of a difference: the plain name of the Pattern, and the place from 1 of the statement among those of this Pattern.
fn difference_text(alloc: Global, names: &[Name], place: Place) -> Result<Text, NoMemory>
    ensures value { IfOk result (λ text. text ≡ differs_text (place_text (slice_index_or names.now place.pattern []) place.before)) }
{
    let name = pattern_name(alloc, names, place.pattern)?;
    let number = one_more(place.before)?;
    let mut digits = Buffer::new();
    let mut text = Vec::new(alloc);
    text.extend_from_slice(b"differs ")?;
    text.extend_from_slice(name.bytes())?;
    text.push(b' ')?;
    text.extend_from_slice(digits.format(number).as_bytes())?;
    text.push(b'\n')?;
    Ok(Text::of(text))
}

/// The head's text.
pub(crate) fn head_text<'a>(stil: &'a [u8], set: &PatternSet) -> &'a [u8]
    requires patterns { ArePatternsOf stil.now set.now }
    ensures value { result.now ≡ head_text stil.now }
    ensures within { length result.now ≤ length stil.now }
{
    let (text, _patterns) = stil.split_at(set.head().end as usize);
    text
}

/// What is said of two sets: `same`, or what differs first.
pub(crate) fn compared(
    alloc: Global,
    old: &PatternSet,
    stil: &[u8],
    new: &PatternSet,
    new_stil: &[u8],
) -> Result<Text, NoMemory>
    requires size { length stil.now < 2 ^ 32 }
    requires new_size { length new_stil.now < 2 ^ 32 }
    requires old_patterns { ArePatternsOf stil.now old.now }
    requires new_patterns { ArePatternsOf new_stil.now new.now }
    ensures value { IfOk result (Says (meant_by old.now stil.now) (meant_by new.now new_stil.now) (AreAlikeSets old.now new.now)) }
{
    if !same_head(head_text(stil, old), head_text(new_stil, new)) {
        return Text::copy(alloc, b"differs head\n");
    }
    if !have_same_cells(alloc, old, new)? {
        return Text::copy(alloc, b"differs cells\n");
    }
    if !have_same_names(old.names(), new.names()) {
        return Text::copy(alloc, b"differs patterns\n");
    }
    match first_place(alloc, old, stil, new, new_stil)? {
        Some(place) => difference_text(alloc, old.names(), place),
        None => Text::copy(alloc, b"same\n"),
    }
}
