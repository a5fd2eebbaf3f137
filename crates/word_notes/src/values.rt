//! What is wrong with options and values that are spelled right.

use crate::parts::{Given, GivenOption};
use crate::reason::Reason;
use base_types::NoMemory;
use scan_words::{Need, OptionForm, OptionName, ValueForm, Verb, has_form};
use std::alloc::Global;

/// How often an option stands.
#[derive(Clone, Copy, Debug)]
enum Count<'a> {
    Never,
    Once(&'a str),
    Again,
}

/// How often an option stands among those that are given.
fn count_of<'a>(given: &[GivenOption<'a>], name: OptionName) -> Count<'a> {
    let mut count = Count::Never;
    for option in given {
        if option.name == name {
            count = match count {
                Count::Never => Count::Once(option.value),
                _ => return Count::Again,
            };
        }
    }
    count
}

/// Whether an option stands.
fn is_given(given: &[GivenOption<'_>], name: OptionName) -> bool {
    given.iter().any(|option| option.name == name)
}

/// Why an option that stands may not stand so.
fn own_reason<'a>(given: &[GivenOption<'a>], option: &OptionForm) -> Option<Reason<'a>> {
    let name = option.name;
    match (count_of(given, name), option.need) {
        (Count::Again, _) => Some(Reason::Again(name)),
        (Count::Once(_), Need::With(other)) if !is_given(given, other) => {
            Some(Reason::Without(name, other))
        }
        (Count::Never, Need::With(other)) if is_given(given, other) => {
            Some(Reason::Without(other, name))
        }
        (Count::Once(value), _) if !has_form(name.value_form(), value) => {
            Some(Reason::WrongValue(name, value))
        }
        _ => None,
    }
}

/// The options that a command needs and that don't stand.
fn missing_in(
    alloc: Global,
    verb: Verb,
    given: &[GivenOption<'_>],
) -> Result<Vec<OptionName>, NoMemory> {
    let mut missing = Vec::new(alloc);
    for option in verb.options() {
        if option.need == Need::Needed && !is_given(given, option.name) {
            missing.push(option.name)?;
        }
    }
    Ok(missing)
}

/// Whether no two options of the form may have one value.
fn is_apart(form: ValueForm) -> bool {
    matches!(form, ValueForm::File | ValueForm::Pin)
}

/// The first two options with one value that may not have one, in the order in which they stand.
fn same_reason<'a>(given: &[GivenOption<'a>]) -> Option<Reason<'a>> {
    for (place, one) in given.iter().enumerate() {
        let form = one.name.value_form();
        for other in given.iter().skip(place) {
            let is_other = other.name != one.name;
            if is_other
                && is_apart(form)
                && other.name.value_form() == form
                && other.value == one.value
            {
                return Some(Reason::Same(one.name, other.name, one.value));
            }
        }
    }
    None
}

/// Why what is given isn't what the command takes, by its table: of an option by itself, then what is left out, then values that are the
/// same.
pub(crate) fn value_reason<'a>(
    alloc: Global,
    verb: Verb,
    given: &Given<'a>,
) -> Result<Option<Reason<'a>>, NoMemory> {
    let options = given.options.as_slice();
    for option in verb.options() {
        if let Some(reason) = own_reason(options, option) {
            return Ok(Some(reason));
        }
    }
    let missing = missing_in(alloc, verb, options)?;
    if !missing.is_empty() {
        return Ok(Some(Reason::Missing(verb, missing)));
    }
    if let Some(reason) = same_reason(options) {
        return Ok(Some(reason));
    }
    if verb.takes_further() && !given.has_further {
        return Ok(Some(Reason::NoFurther(verb)));
    }
    Ok(None)
}
