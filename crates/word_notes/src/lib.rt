//! Tells why words are of no written form, and which form is wanted.
//!
//! Floor: top, on scan_words and base_types.
//! No clause speaks of it: the lines go to standard error. The forms are those of the table of commands, and a reason is given where
//! `read_words` answers None. Begin with `explain`.
#![tactic(auto)]

mod parts;
mod reason;
mod usage;
mod values;

use base_types::{NoMemory, Word};
use parts::{given_in, spelling_reason};
use reason::Reason;
use scan_words::Verb;
use std::alloc::Global;
pub use usage::{PROGRAM, SHORT_USAGE, VERSION};
use usage::{form_lines, head_line, usage_lines};
use values::value_reason;

/// Why the words behind a command are of no form, where that is found and they don't ask for help.
fn reason_behind<'a>(
    alloc: Global,
    verb: Verb,
    words: &'a [Word],
) -> Result<Option<Reason<'a>>, NoMemory> {
    match spelling_reason(verb, words) {
        Some(Reason::Help) => Ok(None),
        Some(reason) => Ok(Some(reason)),
        None => {
            let given = given_in(alloc, verb, words)?;
            value_reason(alloc, verb, &given)
        }
    }
}

/// Appends the line of a reason.
fn push_reason(
    alloc: Global,
    lines: &mut Vec<String>,
    reason: &Reason<'_>,
) -> Result<(), NoMemory> {
    lines.push(format!(in alloc; "note: {reason}")?)?;
    Ok(())
}

/// The lines of words that name no command.
fn explain_without_command(
    alloc: Global,
    reason: Option<Reason<'_>>,
) -> Result<Vec<String>, NoMemory> {
    let mut lines = Vec::new(alloc);
    if let Some(reason) = reason {
        push_reason(alloc, &mut lines, &reason)?;
    }
    usage_lines(alloc, &mut lines)?;
    Ok(lines)
}

/// The lines of words that name a command: why they are of no form, and the command's form.
fn explain_command(
    alloc: Global,
    verb: Verb,
    reason: Option<Reason<'_>>,
) -> Result<Vec<String>, NoMemory> {
    let mut lines = Vec::new(alloc);
    if let Some(reason) = reason {
        push_reason(alloc, &mut lines, &reason)?;
    }
    form_lines(alloc, &mut lines, verb)?;
    Ok(lines)
}

/// The lines that a user is told of words that are of no form: the first reason that is found, then the form of the command, or the whole
/// usage where no command is named. Who asks for help gets no reason, and who asks for the version that alone.
pub fn explain(alloc: Global, words: &[Word]) -> Result<Vec<String>, NoMemory> {
    let Some((command, behind)) = words.split_first() else {
        return explain_without_command(alloc, Some(Reason::NoCommand));
    };
    match command.as_str() {
        "--help" | "-h" => explain_without_command(alloc, None),
        "--version" | "-V" => {
            let mut lines = Vec::new(alloc);
            lines.push(head_line(alloc)?)?;
            Ok(lines)
        }
        "" => explain_without_command(alloc, Some(Reason::EmptyWord(1))),
        word => match Verb::of(word) {
            Some(verb) => explain_command(alloc, verb, reason_behind(alloc, verb, behind)?),
            None => explain_without_command(alloc, Some(Reason::NoSuchCommand(word))),
        },
    }
}

/// The lines that a user is told where a word is no text, by its number, from 1. The first word is given where it is a text.
pub fn explain_no_text(
    alloc: Global,
    first: Option<&str>,
    number: usize,
) -> Result<Vec<String>, NoMemory> {
    let reason = Some(Reason::NoText(number));
    match first.and_then(Verb::of) {
        Some(verb) => explain_command(alloc, verb, reason),
        None => explain_without_command(alloc, reason),
    }
}
