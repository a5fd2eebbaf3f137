//! The words behind a command one by one: as `read_words` takes them, and what is wrong with one that it doesn't take.

use crate::reason::Reason;
use base_types::{NoMemory, Word};
use scan_words::{OptionName, Verb, is_value, long_of, verbs};
use std::alloc::Global;

/// An option with a value that stands among the words.
#[derive(Clone, Copy, Debug)]
pub(crate) struct GivenOption<'a> {
    pub(crate) name: OptionName,
    pub(crate) value: &'a str,
}

/// What stands among words that are spelled right.
#[derive(Debug, Drop)]
pub(crate) struct Given<'a> {
    pub(crate) options: Vec<GivenOption<'a>>,
    /// Whether a further word stands.
    pub(crate) has_further: bool,
}

/// What a word says that is no option's value.
#[derive(Debug, Drop)]
enum Piece<'a> {
    /// It is a further word.
    Further,
    /// It is an option, whose value comes next.
    Alone(OptionName),
    /// It is an option with its value.
    Attached(GivenOption<'a>),
    /// It may not stand.
    Wrong(Reason<'a>),
}

/// The command's option of a name.
fn option_of(verb: Verb, name: &str) -> Option<OptionName> {
    for option in verb.options() {
        if option.name.is_called(name) {
            return Some(option.name);
        }
    }
    None
}

/// The option of a name, of whatever command.
fn any_option_of(name: &str) -> Option<OptionName> {
    for verb in verbs() {
        if let Some(option) = option_of(*verb, name) {
            return Some(option);
        }
    }
    None
}

/// A word without the value that is attached to it.
fn without_value(word: &str) -> &str {
    match word.split_once('=') {
        Some((name, _value)) => name,
        None => word,
    }
}

/// Why a word that begins with a hyphen is no option of the command.
fn no_option<'a>(verb: Verb, word: &'a str) -> Reason<'a> {
    if let Some((name, _value)) = long_of(word) {
        return match any_option_of(name) {
            Some(option) => Reason::OthersOption(verb, option),
            None => Reason::NoSuchOption(verb, without_value(word)),
        };
    }
    let word = without_value(word);
    match word.strip_prefix('-') {
        Some(name) => match option_of(verb, name) {
            Some(option) => Reason::OneHyphen(verb, option),
            None => Reason::NoSuchOption(verb, word),
        },
        None => Reason::NoSuchOption(verb, word),
    }
}

/// Why this can't be the value of an option.
fn no_value<'a>(option: OptionName, value: &'a str) -> Reason<'a> {
    if value.is_empty() {
        Reason::EmptyValue(option)
    } else {
        Reason::HyphenValue(option, value)
    }
}

/// What the word of this number says.
fn piece_of<'a>(verb: Verb, number: usize, word: &'a str) -> Piece<'a> {
    if is_value(word) {
        return if verb.takes_further() {
            Piece::Further
        } else {
            Piece::Wrong(Reason::Further(verb, word))
        };
    }
    match word {
        "" => return Piece::Wrong(Reason::EmptyWord(number)),
        "--help" | "-h" => return Piece::Wrong(Reason::Help),
        _ => {}
    }
    let Some((name, attached)) = long_of(word) else {
        return Piece::Wrong(no_option(verb, word));
    };
    match (option_of(verb, name), attached) {
        (None, _) => Piece::Wrong(no_option(verb, word)),
        (Some(option), None) => Piece::Alone(option),
        (Some(name), Some(value)) if is_value(value) => {
            Piece::Attached(GivenOption { name, value })
        }
        (Some(option), Some(value)) => Piece::Wrong(no_value(option, value)),
    }
}

/// Why the words behind a command aren't options of its table with their values, and further words where it takes them. The first of them
/// that is wrong decides.
pub(crate) fn spelling_reason<'a>(verb: Verb, words: &'a [Word]) -> Option<Reason<'a>> {
    let mut waiting = None;
    let mut number: usize = 1;
    for word in words {
        let word = word.as_str();
        number = number.saturating_add(1);
        if let Some(option) = waiting {
            if !is_value(word) {
                return Some(no_value(option, word));
            }
            waiting = None;
            continue;
        }
        match piece_of(verb, number, word) {
            Piece::Further | Piece::Attached(_) => {}
            Piece::Alone(option) => waiting = Some(option),
            Piece::Wrong(reason) => return Some(reason),
        }
    }
    match waiting {
        Some(option) => Some(Reason::NoValue(option)),
        None => None,
    }
}

/// What stands among words of which none is wrong.
pub(crate) fn given_in<'a>(
    alloc: Global,
    verb: Verb,
    words: &'a [Word],
) -> Result<Given<'a>, NoMemory> {
    let mut options = Vec::new(alloc);
    let mut has_further = false;
    let mut waiting = None;
    for word in words {
        let value = word.as_str();
        if let Some(name) = waiting {
            options.push(GivenOption { name, value })?;
            waiting = None;
            continue;
        }
        match piece_of(verb, 0, value) {
            Piece::Further => has_further = true,
            Piece::Alone(option) => waiting = Some(option),
            Piece::Attached(option) => options.push(option)?,
            Piece::Wrong(_reason) => {}
        }
    }
    Ok(Given {
        options,
        has_further,
    })
}
