//! The command line program over real files.
//!
//! Floor: top, on desk_io, scan_job, base_types and word_notes.
#![tactic(auto)]

mod failure;
mod file_desk;
mod progress;
mod words;

use file_desk::FileDesk;
use scan_job::run;
use std::fs;
use std::fs::File;
use std::process::ExitCode;
use words::{NoWords, explain_no_text, explain_words, words_of};

/// The status of words that are of no written form.
const NO_FORM: u8 = 1;

/// The status of want of memory.
const NO_MEMORY: u8 = 5;

/// Takes the descriptors 0 to 2 where the caller left them closed, as a file of the run that got one would hold notes. What
/// takes them is a folder, which can neither be read nor written: a run without standard output fails at its console, and a
/// closed descriptor that is named as a file fails too.
fn take_standard(rt: &HostRuntime) -> [Option<File>; 3] {
    let take = |place: &str| match fs::metadata(rt, place) {
        Ok(_open) => None,
        Err(_) => fs::open(rt, "/").ok(),
    };
    [take("/dev/stdin"), take("/dev/stdout"), take("/dev/stderr")]
}

/// Does what the words ask for, and tells why it isn't done where no line on the console does.
fn run_words(rt: HostRuntime) -> u8 {
    let alloc = rt.alloc();
    let mut desk = FileDesk::new(rt);
    let words = match words_of(&rt, alloc) {
        Ok(words) => words,
        Err(NoWords::NoMemory) => {
            desk.tell_no_memory();
            return NO_MEMORY;
        }
        Err(NoWords::NoText) => {
            explain_no_text(&rt);
            return NO_FORM;
        }
    };
    let status = run(alloc, &words, &mut desk);
    desk.end();
    match status {
        NO_FORM => explain_words(&rt, &words),
        NO_MEMORY => desk.tell_no_memory(),
        _ => {}
    }
    status
}

fn main(rt: HostRuntime) -> ExitCode {
    let standard = take_standard(&rt);
    let status = run_words(rt);
    drop(standard);
    ExitCode::from(status)
}
