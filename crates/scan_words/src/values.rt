ghost use Rattle.std.specs.Prelude.{◌≡◌, ◌++◌, IfOk, OnOk, map, option_map};
ghost use Rattle.scan_words.specs.declared.table.ValueForm.TheVariants as forms;
ghost use Rattle.scan_words.specs.Command.{raw_of};
ghost use Rattle.scan_words.specs.Table.{option_text, is_given, may_lack, may_stand, option_value, value_list, each_value, values_like, are_distinct, are_apart};
ghost use Rattle.scan_words.specs.Form.{is_name};
ghost use Rattle.scan_words.specs.Orders.{values_by};

use crate::table::{Need, OptionForm, OptionName, ValueForm, has_form, is_like};
use base_types::{NoMemory, Rows, Word};
use clap::ArgMatches;
use std::alloc::Global;

fn is_given(name: OptionName, matches: &ArgMatches<'_>) -> bool
    ensures { result ≡ is_given (raw_of matches.now (option_text name)) }
{
    match matches.get_strs(name.text()) {
        Some([]) => false,
        Some(_) => true,
        None => false,
    }
}

/// Whether an option may be left out.
fn may_lack(need: Need, matches: &ArgMatches<'_>) -> bool
    ensures { result ≡ may_lack need (raw_of matches.now) }
{
    match need {
        Need::Needed => false,
        Need::Optional => true,
        Need::With(other) => !is_given(other, matches),
    }
}

/// Whether an option may stand.
fn may_stand(need: Need, matches: &ArgMatches<'_>) -> bool
    ensures { result ≡ may_stand need (raw_of matches.now) }
{
    match need {
        Need::With(other) => is_given(other, matches),
        _ => true,
    }
}

/// The value of an option, if it is given as the table asks, and no value where it may be left out.
fn option_value<'m>(option: OptionForm, matches: &'m ArgMatches<'_>) -> Option<Option<&'m str>>
    ensures { option_map (λ value. option_map (λ v. v.now) value) result ≡ option_value option (raw_of matches.now) }
{
    match matches.get_strs(option.name.text()) {
        Some([value]) => {
            let form = option.name.value_form();
            if may_stand(option.need, matches) && has_form(form, *value) {
                Some(Some(*value))
            } else {
                None
            }
        }
        Some([_, _, ..]) => None,
        Some([]) | None => {
            if may_lack(option.need, matches) {
                Some(None)
            } else {
                None
            }
        }
    }
}

/// Appends the value, if there is one.
fn push_value(alloc: Global, values: &mut Rows<Word>, value: Option<&str>) -> Result<(), NoMemory>
    ensures { OnOk result (values.new ≡ values.old ++ value_list (option_map (λ v. v.now) value.entry)) }
{
    match value {
        Some(value) => {
            values.push(Word::copy(alloc, value)?)?;
            Ok(())
        }
        None => Ok(()),
    }
}

/// The values of a table's options, in its order.
fn each_value(
    alloc: Global,
    table: &[OptionForm],
    matches: &ArgMatches<'_>,
) -> Result<Option<Rows<Word>>, NoMemory>
    ensures { IfOk result (λ values. values ≡ each_value (raw_of matches.now) table.now) }
{
    let mut values = Rows::new(alloc);
    for option in table {
        match option_value(*option, matches) {
            Some(value) => push_value(alloc, &mut values, value)?,
            None => return Ok(None),
        }
    }
    Ok(Some(values))
}

/// The values that stand with the options of a form.
fn values_like<'m>(
    alloc: Global,
    form: ValueForm,
    table: &[OptionForm],
    matches: &'m ArgMatches<'_>,
) -> Result<Vec<&'m str>, NoMemory>
    ensures { IfOk result (λ values. map (λ v. v.now) values.items ≡ values_like form (raw_of matches.now) table.now) }
{
    let mut values = Vec::new(alloc);
    for option in table {
        if is_like(form, option.name.value_form()) {
            if let Some(given) = matches.get_strs(option.name.text()) {
                values.extend_from_slice(given)?;
            }
        }
    }
    Ok(values)
}

/// Whether the text is one of some.
fn is_among(values: &[&str], value: &str) -> bool
    ensures { result ≡ is_name (map (λ v. v.now) values.now) value.now }
{
    values.contains(&value)
}

/// Whether no two of some texts are the same.
fn are_distinct(values: &[&str]) -> bool
    ensures { result ≡ are_distinct (map (λ v. v.now) values.now) }
{
    match values {
        [] => true,
        [value, rest @ ..] => !is_among(rest, *value) && are_distinct(rest),
    }
}

/// Whether the files of a command are pairwise different, and its pins.
fn are_apart(
    alloc: Global,
    table: &[OptionForm],
    matches: &ArgMatches<'_>,
) -> Result<bool, NoMemory>
    ensures { IfOk result (λ apart. apart ≡ are_apart (raw_of matches.now) table.now) }
{
    let files = values_like(alloc, ValueForm::File, table, matches)?;
    let pins = values_like(alloc, ValueForm::Pin, table, matches)?;
    Ok(are_distinct(&files) && are_distinct(&pins))
}

/// The values that a table asks for, where the words give them so.
pub(crate) fn values_by(
    alloc: Global,
    table: &[OptionForm],
    matches: &ArgMatches<'_>,
) -> Result<Option<Rows<Word>>, NoMemory>
    ensures { IfOk result (λ values. values ≡ values_by (raw_of matches.now) table.now) }
{
    let Some(values) = each_value(alloc, table, matches)? else {
        return Ok(None);
    };
    if are_apart(alloc, table, matches)? {
        Ok(Some(values))
    } else {
        Ok(None)
    }
}
