//! Which call on which file failed, and why, in words for a user.
use desk_io::Slot;
use std::alloc::Global;
use std::io;
use std::io::ErrorKind;

/// What was to be done with a file.
#[derive(Clone, Copy, Debug)]
pub(crate) enum Act {
    Open,
    Read,
    Write,
    /// To have the system put on the disk what was written.
    Sync,
}

/// Why it failed.
#[derive(Clone, Copy, Debug)]
pub(crate) enum Cause {
    /// The system's own reason.
    System(io::Error),
    /// It is a file that the run has opened at this slot.
    FileOf(Slot),
    /// It is the file to which standard error goes.
    FileOfNotes,
    /// The slot has no file.
    NoFile,
    /// A call wrote nothing.
    NoneWritten,
}

/// A call of a desk that failed.
#[derive(Clone, Copy, Debug)]
pub(crate) struct Failure {
    pub(crate) slot: Slot,
    pub(crate) act: Act,
    pub(crate) cause: Cause,
}

/// The option at whose value a slot is opened.
fn option_of(slot: Slot) -> &'static str {
    match slot {
        Slot::Table => "--table",
        Slot::Lef => "--lef",
        Slot::Verilog => "--verilog",
        Slot::Def => "--def",
        Slot::Stil => "--stil",
        Slot::NewVerilog => "--new-verilog",
        Slot::NewStil => "--new-stil",
        Slot::Log => "--log",
        Slot::OutVerilog => "--out-verilog",
        Slot::OutDef => "--out-def",
        Slot::OutStil => "--out-stil",
        Slot::OutSvg => "--out-svg",
        Slot::Console => "the console",
    }
}

/// A slot and the name of its file, where it has one; None for want of memory.
pub(crate) fn file_text(alloc: Global, slot: Slot, name: &str) -> Option<String> {
    let option = option_of(slot);
    let text = match name {
        "" => String::from_str(alloc, option),
        name => format!(in alloc; "{option} {name}"),
    };
    text.ok()
}

/// The system's reason, without its number. At a descriptor that is closed it finds a directory, as `main` puts one there.
fn reason_text(alloc: Global, name: &str, error: io::Error) -> Option<String> {
    if error.kind() == ErrorKind::IsADirectory && name.starts_with("/dev/") {
        return String::from_str(alloc, "it is closed or a directory").ok();
    }
    let text = format!(in alloc; "{error}").ok()?;
    match text.split_once(" (os error ") {
        Some((reason, _number)) => String::from_str(alloc, reason).ok(),
        None => Some(text),
    }
}

impl Act {
    /// What couldn't be done with the file.
    fn text(self) -> &'static str {
        match self {
            Act::Open => "opened",
            Act::Read => "read",
            Act::Write => "written",
            Act::Sync => "kept on its device",
        }
    }
}

impl Cause {
    /// Why it failed at a file of this name; None for want of memory.
    fn text(self, alloc: Global, name: &str) -> Option<String> {
        match self {
            Cause::System(error) => reason_text(alloc, name, error),
            Cause::FileOf(slot) => {
                let option = option_of(slot);
                format!(in alloc; "it is the file of {option}").ok()
            }
            Cause::FileOfNotes => String::from_str(alloc, "it is the file of standard error").ok(),
            Cause::NoFile => String::from_str(alloc, "it has no file").ok(),
            Cause::NoneWritten => String::from_str(alloc, "it takes no more").ok(),
        }
    }
}

impl Failure {
    /// The line that tells of it, for a file of this name; None for want of memory.
    pub fn text(&self, alloc: Global, name: &str) -> Option<String> {
        let file = file_text(alloc, self.slot, name)?;
        let act = self.act.text();
        let cause = self.cause.text(alloc, name)?;
        format!(in alloc; "note: {file} can't be {act}: {cause}").ok()
    }
}
