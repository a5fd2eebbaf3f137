// The desk over real files and standard output.
ghost use Rattle.std.specs.Prelude.{◌≡◌, None, true, slice_index, slice_index_or};
ghost use Rattle.std.specs.Io.{ReadsAtMost, WritesAtMost};
ghost use Rattle.desk_io.specs.declared.slot.Slot.{Slot};
ghost use Rattle.desk_io.specs.declared.slot.Stage.TheVariants.{Unopened};
ghost use Rattle.desk_io.specs.Number.{number};

use crate::failure::{Act, Cause, Failure, file_text};
use crate::progress::{Progress, shown_text};
use desk_io::{Desk, Failed, SLOTS, Slot, Stage, Way};
use std::alloc::Global;
use std::fs::{File, Metadata};
use std::io::{ErrorKind, Read, Write};
use std::os::unix::fs::MetadataExt;
use std::{fs, io};

/// How often a call is made anew where a signal interrupts it.
const TURNS: usize = 1000;

/// Where the figures go, as a file.
const CONSOLE: &str = "/dev/stdout";

/// Where the notes go, as a file.
const NOTES: &str = "/dev/stderr";

/// What is told of want of memory, where nothing more is known or there is none for it.
const NO_MEMORY: &str = "note: memory was refused";

/// Reads once more where a signal interrupted it.
fn read_file(file: &mut File, room: &mut [u8]) -> io::Result<usize>
    ensures count { ReadsAtMost result room.new }
{
    for _ in 0..TURNS {
        match file.read(room) {
            Err(error) if error.kind() == ErrorKind::Interrupted => {}
            answer => return answer,
        }
    }
    file.read(room)
}

/// Writes once more where a signal interrupted it.
fn write_file<W: Write>(file: &mut W, piece: &[u8]) -> io::Result<usize>
    ensures count { WritesAtMost result piece.now }
{
    for _ in 0..TURNS {
        match file.write(piece) {
            Err(error) if error.kind() == ErrorKind::Interrupted => {}
            answer => return answer,
        }
    }
    file.write(piece)
}

/// Whether it is a pipe or a device, or something else that has no text of its own.
fn is_special(file: &File) -> bool {
    match file.metadata() {
        Ok(attributes) => !attributes.is_file(),
        Err(_) => false,
    }
}

/// Has the system put what was written on the disk, so that what it couldn't keep is told now and not lost. A pipe and
/// a device have nothing to put there, which the system says by one of three errors.
fn sync_file(file: &File) -> io::Result<()> {
    match file.sync_all() {
        Err(error) => match error.kind() {
            ErrorKind::InvalidInput | ErrorKind::Unsupported | ErrorKind::ReadOnlyFilesystem
                if is_special(file) => { Ok(()) }
            _ => Err(error),
        },
        done => done,
    }
}

/// A file by its device and its number there, whatever it is named.
#[derive(Clone, Copy, PartialEq, Eq)]
struct Identity {
    device: u64,
    number: u64,
}

/// Which file these are the attributes of, where it is no pipe and no device.
fn identity_of(attributes: io::Result<Metadata>) -> Option<Identity> {
    let attributes = attributes.ok()?;
    if attributes.is_file() {
        Some(Identity {
            device: attributes.dev(),
            number: attributes.ino(),
        })
    } else {
        None
    }
}

/// What is known of a slot that was to be opened.
#[derive(Drop)]
struct Use {
    slot: Slot,
    /// The name of its file; none for want of memory.
    name: Option<String>,
    /// Which file was opened.
    file: Option<Identity>,
}

/// What is known of all slots that were to be opened, and why a call failed.
#[derive(Drop)]
struct Uses {
    slots: [Option<Use>; SLOTS],
    failure: Option<Failure>,
}

impl Uses {
    /// No slot was to be opened.
    fn new() -> Uses {
        Uses {
            slots: [
                None, None, None, None, None, None, None, None, None, None, None, None, None,
            ],
            failure: None,
        }
    }

    /// Notes why a call failed.
    fn fail(&mut self, slot: Slot, act: Act, cause: Cause) {
        self.failure = Some(Failure { slot, act, cause });
    }

    /// Notes why a slot can't be opened by a name.
    fn refuse(&mut self, alloc: Global, slot: Slot, name: &str, cause: Cause) {
        self.note(alloc, slot, name, None);
        self.fail(slot, Act::Open, cause);
    }

    /// Notes by which name a slot is opened, and which file that is.
    fn note(&mut self, alloc: Global, slot: Slot, name: &str, file: Option<Identity>) {
        self.slots[slot.number()] = Some(Use {
            slot,
            name: String::from_str(alloc, name).ok(),
            file,
        });
    }

    /// At which slot the file was opened, under whatever name.
    fn slot_of(&self, file: Option<Identity>) -> Option<Slot> {
        for known in &self.slots {
            if let Some(known) = known {
                if file.is_some() && known.file == file {
                    return Some(known.slot);
                }
            }
        }
        None
    }

    /// The name of a slot's file, empty where it isn't known.
    fn name_of(&self, slot: Slot) -> &str {
        match &self.slots[slot.number()] {
            Some(
                Use {
                    name: Some(name),
                    ..
                },
            ) => name.as_str(),
            _ => "",
        }
    }
}

/// Real files, opened by their names, and standard output as the console. How far it is, it tells on a terminal, and at the end why a call
/// failed.
#[derive(Drop)]
pub struct FileDesk {
    rt: HostRuntime,
    files: [Option<File>; SLOTS],
    uses: Uses,
    stages: [Stage; SLOTS],
    faults: [u64; SLOTS],
    progress: Progress,
}

impl FileDesk {
    /// A desk whose slots are all unopened, with no fault counted.
    pub fn new(rt: HostRuntime) -> FileDesk
        ensures unopened { (slot : Slot) → slice_index_or result.stages (number slot) Unopened ≡ Unopened }
        ensures faults { (slot : Slot) → slice_index result.faults (number slot) ≡ 0 }
    {
        FileDesk {
            rt,
            files: [
                None, None, None, None, None, None, None, None, None, None, None, None, None,
            ],
            uses: Uses::new(),
            stages: [Stage::Unopened; SLOTS],
            faults: [0; SLOTS],
            progress: Progress::new(rt),
        }
    }

    /// Which file stands there.
    fn file_at(&self, place: &str) -> Option<Identity> {
        identity_of(fs::metadata(&self.rt, place))
    }

    /// Opens an output, but not over a file that this run has opened, as what is read of it would be lost, nor over one to which
    /// the figures or the notes go, as these would stand in its text.
    fn create(&self, name: &str) -> Result<File, Cause> {
        let file = self.file_at(name);
        if let Some(slot) = self.uses.slot_of(file) {
            return Err(Cause::FileOf(slot));
        }
        if file.is_some() && self.file_at(CONSOLE) == file {
            return Err(Cause::FileOf(Slot::Console));
        }
        if file.is_some() && self.file_at(NOTES) == file {
            return Err(Cause::FileOfNotes);
        }
        fs::create(&self.rt, name).map_err(Cause::System)
    }

    /// Finds that the console isn't a file that this run has opened.
    fn open_console(&self) -> Result<Option<File>, Cause> {
        match self.uses.slot_of(self.file_at(CONSOLE)) {
            Some(slot) => Err(Cause::FileOf(slot)),
            None => Ok(None),
        }
    }

    /// Tells a line on standard error. What that doesn't take is lost, and that is nobody's fault.
    fn tell(&self, line: &str) {
        if let Some(line) = shown_text(self.rt.alloc(), line) {
            let _told = self.rt.eprintln(line.as_str());
        }
    }

    /// What was done with the first file that is still open, where memory suffices for it.
    fn open_file_text(&self) -> Option<String> {
        let alloc = self.rt.alloc();
        for known in &self.uses.slots {
            if let Some(known) = known {
                if self.files[known.slot.number()].is_some() {
                    let file = file_text(alloc, known.slot, self.uses.name_of(known.slot))?;
                    let act = match known.slot.way() {
                        Way::In(_) => "read",
                        Way::Out(_) => "written",
                    };
                    return format!(in alloc; "{NO_MEMORY} while {file} was {act}").ok();
                }
            }
        }
        None
    }

    /// Tells that memory was refused.
    pub fn tell_no_memory(&self) {
        match self.open_file_text() {
            Some(line) => self.tell(line.as_str()),
            None => {
                let _told = self.rt.eprintln(NO_MEMORY);
            }
        }
    }

    /// Takes away what was told of how far it is, and tells which call failed.
    pub fn end(&self) {
        self.progress.erase();
        if let Some(failure) = &self.uses.failure {
            let name = self.uses.name_of(failure.slot);
            if let Some(line) = failure.text(self.rt.alloc(), name) {
                self.tell(line.as_str());
            }
        }
    }
}

impl Desk for FileDesk {
    ghost state = { λ desk slot. record {
      stage = slice_index_or desk.stages (number slot) Unopened;
      unread = None;
      written = None;
      faults = slice_index desk.faults (number slot);
    } };

    ghost allows = { λ desk slot name. true };

    fn open(&mut self, slot: Slot, name: &str) -> Result<(), Failed> {
        let at = slot.number();
        let opened = match (slot, slot.way()) {
            (Slot::Console, _) => self.open_console(),
            (_, Way::In(_)) => fs::open(&self.rt, name).map(Some).map_err(Cause::System),
            (_, Way::Out(_)) => self.create(name).map(Some),
        };
        match opened {
            Ok(file) => {
                self.progress.open(slot, name, &file);
                let identity = file.as_ref().and_then(|file| identity_of(file.metadata()));
                self.uses.note(self.rt.alloc(), slot, name, identity);
                self.files[at] = file;
                self.stages[at] = Stage::Open;
                Ok(())
            }
            Err(cause) => {
                self.uses.refuse(self.rt.alloc(), slot, name, cause);
                self.faults[at] = self.faults[at].saturating_add(1);
                Err(Failed)
            }
        }
    }

    fn read(&mut self, slot: Slot, room: &mut [u8]) -> Result<usize, Failed> {
        let at = slot.number();
        let read = match &mut self.files[at] {
            Some(file) => read_file(file, room).map_err(Cause::System),
            None => Err(Cause::NoFile),
        };
        match read {
            Ok(count) => {
                self.progress.pass(slot, count);
                Ok(count)
            }
            Err(cause) => {
                self.uses.fail(slot, Act::Read, cause);
                self.faults[at] = self.faults[at].saturating_add(1);
                Err(Failed)
            }
        }
    }

    fn write(&mut self, slot: Slot, piece: &[u8]) -> Result<usize, Failed> {
        let at = slot.number();
        let written = match &mut self.files[at] {
            Some(file) => write_file(file, piece),
            None => {
                self.progress.erase();
                write_file(&mut self.rt.stdout(), piece)
            }
        };
        let (answer, cause) = match written {
            Ok(0) => (Ok(0), Cause::NoneWritten),
            Ok(count) => {
                self.progress.pass(slot, count);
                return Ok(count);
            }
            Err(error) => (Err(Failed), Cause::System(error)),
        };
        self.uses.fail(slot, Act::Write, cause);
        self.faults[at] = self.faults[at].saturating_add(1);
        answer
    }

    fn close(&mut self, slot: Slot) -> Result<(), Failed> {
        let at = slot.number();
        let kept = match (slot.way(), &self.files[at]) {
            (Way::Out(_), Some(file)) => sync_file(file),
            _ => Ok(()),
        };
        if let Err(error) = kept {
            self.uses.fail(slot, Act::Sync, Cause::System(error));
            self.faults[at] = self.faults[at].saturating_add(1);
            return Err(Failed);
        }
        self.files[at] = None;
        self.progress.close(slot);
        self.stages[at] = Stage::Closed;
        Ok(())
    }

    fn note(&mut self, line: &str) {
        self.progress.erase();
        for line in line.split('\n') {
            self.tell(line);
        }
    }

    fn searching(&self, done: u64, all: u64) {
        self.progress.search(done, all);
    }
}
