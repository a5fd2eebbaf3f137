//! Why words are of no written form, in words for a user.

use scan_words::{OptionName, ValueForm, Verb};
use std::fmt;
use std::fmt::{Display, Formatter};

/// Why words are of no written form.
#[derive(Debug, Drop)]
pub(crate) enum Reason<'a> {
    /// There is no word.
    NoCommand,
    /// The first word is no command.
    NoSuchCommand(&'a str),
    /// The word of this number is empty.
    EmptyWord(usize),
    /// The word of this number is no text.
    NoText(usize),
    /// Help is asked for.
    Help,
    /// No command has the option.
    NoSuchOption(Verb, &'a str),
    /// Other commands have the option.
    OthersOption(Verb, OptionName),
    /// The option stands with one hyphen.
    OneHyphen(Verb, OptionName),
    /// No word stands behind the option.
    NoValue(OptionName),
    /// The value of the option is empty.
    EmptyValue(OptionName),
    /// What stands as the option's value begins with a hyphen.
    HyphenValue(OptionName, &'a str),
    /// The command takes no further words.
    Further(Verb, &'a str),
    /// These options are left out.
    Missing(Verb, Vec<OptionName>),
    /// The command's further words are left out.
    NoFurther(Verb),
    /// The option stands more than once.
    Again(OptionName),
    /// The first option stands, and the second doesn't.
    Without(OptionName, OptionName),
    /// The option's value isn't of its form.
    WrongValue(OptionName, &'a str),
    /// Both options have this value.
    Same(OptionName, OptionName, &'a str),
}

/// What the value of an option is to be, as `has_form` tests it.
fn wanted_value(form: ValueForm) -> &'static str {
    match form {
        ValueForm::File => "the name of a file",
        ValueForm::Pin => "the name of a pin",
        ValueForm::Name => "a name",
        ValueForm::Effort => "order or full",
        ValueForm::Device => "hold or mix",
        ValueForm::Rounds => "a number from 0 to 1000 without sign or leading zero",
        ValueForm::Units => "a number from 8 to 16384 without sign or leading zero",
    }
}

/// What two options with one value both name.
fn named_value(form: ValueForm) -> &'static str {
    match form {
        ValueForm::File => "file",
        ValueForm::Pin => "pin",
        _ => "value",
    }
}

/// Writes the options behind one another.
fn write_options<W: fmt::Write>(f: &mut Formatter<W>, options: &[OptionName]) -> fmt::Result {
    let mut between = " ";
    for option in options {
        let name = option.text();
        write!(f, "{between}--{name}")?;
        between = ", ";
    }
    Ok(())
}

impl Reason<'_> {
    /// Writes a reason that concerns the spelling of words.
    fn write_spelling<W: fmt::Write>(&self, f: &mut Formatter<W>) -> fmt::Result {
        match self {
            Reason::NoCommand => f.write_str("no command is given"),
            Reason::NoSuchCommand(word) => write!(f, "{word} is no command"),
            Reason::EmptyWord(number) => write!(f, "word {number} is empty"),
            Reason::NoText(number) => write!(f, "word {number} isn't UTF-8"),
            Reason::NoSuchOption(verb, word) => write!(f, "{} has no option {word}", verb.name()),
            Reason::OthersOption(verb, option) => {
                write!(f, "{} takes no --{}", verb.name(), option.text())
            }
            Reason::OneHyphen(verb, option) => {
                let name = option.text();
                write!(f, "{} has no option -{name}, but --{name}", verb.name())
            }
            Reason::NoValue(option) => write!(f, "--{} has no value", option.text()),
            Reason::EmptyValue(option) => write!(f, "the value of --{} is empty", option.text()),
            Reason::HyphenValue(option, word) => {
                write!(f, "--{} has no value, but {word} behind it", option.text())
            }
            Reason::Further(verb, word) => write!(f, "{} takes no word {word}", verb.name()),
            _ => Ok(()),
        }
    }
}

impl Display for Reason<'_> {
    fn fmt<W: fmt::Write>(&self, f: &mut Formatter<W>) -> fmt::Result {
        match self {
            Reason::Missing(verb, options) => {
                write!(f, "{} lacks", verb.name())?;
                write_options(f, options)
            }
            Reason::NoFurther(verb) => write!(f, "{} lacks the names of instances", verb.name()),
            Reason::Again(option) => write!(f, "--{} stands more than once", option.text()),
            Reason::Without(option, other) => {
                write!(f, "--{} stands without --{}", option.text(), other.text())
            }
            Reason::WrongValue(option, value) => {
                let wanted = wanted_value(option.value_form());
                write!(f, "--{} is {wanted}, not {value}", option.text())
            }
            Reason::Same(one, other, value) => {
                let what = named_value(one.value_form());
                write!(
                    f,
                    "--{} and --{} name one {what}, {value}",
                    one.text(),
                    other.text()
                )
            }
            _ => self.write_spelling(f),
        }
    }
}
