//! The words behind the program's name, and what a user is told of words that are of no form.
use crate::progress::shown_text;
use base_types::{NoMemory, Word};
use std::alloc::Global;
use std::env;
use std::env::FillError;
use std::io::ErrorKind;
use std::rt::Env;
use word_notes::{SHORT_USAGE, explain, explain_no_text as explain_number};

/// The most bytes of a word that are looked at where one is no text.
const ROOM: usize = 4096;

/// Why there are no words.
#[derive(Clone, Copy, Debug)]
pub(crate) enum NoWords {
    NoMemory,
    /// A word is no text.
    NoText,
}

/// The words behind the program's name.
pub(crate) fn words_of(rt: &HostRuntime, alloc: Global) -> Result<Vec<Word>, NoWords> {
    let mut words = Vec::new(alloc);
    let all = match env::args(rt) {
        Ok(all) => all,
        Err(error) if error.kind() == ErrorKind::OutOfMemory => return Err(NoWords::NoMemory),
        Err(_) => return Err(NoWords::NoText),
    };
    for word in all.skip(1) {
        if words.push(Word::of(word)).is_err() {
            return Err(NoWords::NoMemory);
        }
    }
    Ok(words)
}

/// Tells the lines, or the shortest usage where memory is short for them. What standard error doesn't take is lost: the status says it.
fn tell_lines(rt: &HostRuntime, lines: Result<Vec<String>, NoMemory>) {
    match lines {
        Ok(lines) => {
            for line in &lines {
                if let Some(line) = shown_text(rt.alloc(), line.as_str()) {
                    let _told = rt.eprintln(line.as_str());
                }
            }
        }
        Err(NoMemory) => {
            let _told = rt.eprintln(SHORT_USAGE);
        }
    }
}

/// Tells why words are of no form, and which form is wanted.
pub(crate) fn explain_words(rt: &HostRuntime, words: &[Word]) {
    tell_lines(rt, explain(rt.alloc(), words));
}

/// Tells which word is no text, and which form is wanted.
pub(crate) fn explain_no_text(rt: &HostRuntime) {
    let mut room = [0u8; ROOM];
    let mut first = None;
    let mut number: usize = 0;
    for at in 1..usize::MAX {
        number = at;
        let count = match rt.arg(at, &mut room) {
            Ok(count) => count,
            Err(FillError::TooLong) => continue,
            Err(FillError::NotPresent) => break,
        };
        match str::from_utf8(&room[..count]) {
            Ok(text) if at == 1 => first = String::from_str(rt.alloc(), text).ok(),
            Ok(_) => {}
            Err(_) => break,
        }
    }
    let first = first.as_ref().map(|word| word.as_str());
    tell_lines(rt, explain_number(rt.alloc(), first, number));
}
