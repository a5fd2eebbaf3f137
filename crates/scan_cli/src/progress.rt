//! How far a run is, on standard error where that is a terminal: by one line, which the next overwrites and of which nothing stays.
use desk_io::{SLOTS, Slot, Way};
use std::alloc::Global;
use std::cell::Cell;
use std::env;
use std::fs::File;
use std::io::IsTerminal;
use std::time::{Duration, Instant};

/// How long a run lasts before it tells how far it is.
const PATIENCE: u64 = 1000;

/// The least time between two lines, in milliseconds.
const PAUSE: u64 = 100;

const MEGABYTE: u64 = 1000000;

/// A file from its opening to its close.
#[derive(Drop)]
struct Stream {
    name: String,
    is_read: bool,
    /// How many bytes were read or written.
    moved: u64,
    /// How many there are to be read, where that is known.
    size: Option<u64>,
}

impl Stream {
    /// What is told of it, in whole megabytes.
    fn text(&self, alloc: Global) -> Option<String> {
        let name = self.name.as_str();
        let moved = self.moved / MEGABYTE;
        let text = match (self.is_read, self.size) {
            (false, _) => format!(in alloc; "writing {name}: {moved} MB"),
            (true, None) => format!(in alloc; "reading {name}: {moved} MB"),
            (true, Some(size)) => {
                let size = size / MEGABYTE;
                format!(in alloc; "reading {name}: {moved} of {size} MB")
            }
        };
        text.ok()
    }
}

/// A text without what would move a terminal's cursor, so that it can stand in a line; none for want of memory.
pub(crate) fn shown_text(alloc: Global, text: &str) -> Option<String> {
    let mut shown = String::new(alloc);
    for c in text.chars() {
        if !c.is_control() {
            shown.push(c).ok()?;
        }
    }
    Some(shown)
}

/// The size of a file that is no pipe or device.
fn size_of(file: &File) -> Option<u64> {
    let attributes = file.metadata().ok()?;
    if attributes.is_file() {
        Some(attributes.len())
    } else {
        None
    }
}

/// Whether standard error is a terminal on which a line can be overwritten.
fn is_told(rt: &HostRuntime) -> bool {
    rt.stderr().is_terminal()
        && match env::var(rt, "TERM") {
            Ok(kind) => kind.as_str() != "dumb",
            Err(_) => false,
        }
}

/// The time in so many milliseconds.
fn time_in(rt: &HostRuntime, milliseconds: u64) -> Option<Instant> {
    let now = Instant::now(rt).ok()?;
    now.checked_add(Duration::from_millis(milliseconds))
}

/// How far a run is.
#[derive(Drop)]
pub(crate) struct Progress {
    rt: HostRuntime,
    streams: [Option<Stream>; SLOTS],
    /// When the next line may be written. There is none where nothing is told.
    next: Cell<Option<Instant>>,
    /// Whether a line stands there.
    is_shown: Cell<bool>,
}

impl Progress {
    /// Of a run that begins now.
    pub fn new(rt: HostRuntime) -> Progress {
        let next = if is_told(&rt) {
            time_in(&rt, PATIENCE)
        } else {
            None
        };
        Progress {
            rt,
            streams: [
                None, None, None, None, None, None, None, None, None, None, None, None, None,
            ],
            next: Cell::new(next),
            is_shown: Cell::new(false),
        }
    }

    /// Whether it is time for a line. If so, the next has to wait.
    fn is_due(&self) -> bool {
        let Some(next) = self.next.get() else {
            return false;
        };
        match Instant::now(&self.rt) {
            Ok(now) if now >= next => {
                self.next.set(now.checked_add(Duration::from_millis(PAUSE)));
                true
            }
            _ => false,
        }
    }

    /// Writes a line over the one that stands there. What goes beyond the terminal's width is cut off, as the rest of a line that is
    /// broken couldn't be overwritten.
    fn show(&self, text: &str) {
        if let Ok(line) = format!(in self.rt.alloc(); "\r\x1b[?7l{text}\x1b[K\x1b[?7h") {
            self.is_shown.set(true);
            // What standard error doesn't take is lost, and that is nobody's fault.
            let _told = self.rt.eprint(line.as_str());
        }
    }

    /// Takes the line away, so that something else can be written.
    pub fn erase(&self) {
        if self.is_shown.replace(false) {
            // As above.
            let _told = self.rt.eprint("\r\x1b[K");
        }
    }

    /// A file was opened at a slot.
    pub fn open(&mut self, slot: Slot, name: &str, file: &Option<File>) {
        let (Some(file), Some(_)) = (file, self.next.get()) else {
            return;
        };
        let Some(name) = shown_text(self.rt.alloc(), name) else {
            return;
        };
        let (is_read, size) = match slot.way() {
            Way::In(_) => (true, size_of(file)),
            Way::Out(_) => (false, None),
        };
        self.streams[slot.number()] = Some(Stream {
            name,
            is_read,
            moved: 0,
            size,
        });
    }

    /// So many bytes were read or written at a slot.
    pub fn pass(&mut self, slot: Slot, count: usize) {
        if let Some(stream) = &mut self.streams[slot.number()] {
            stream.moved = stream.moved.saturating_add(count as u64);
            if self.is_due() {
                self.show_streams();
            }
        }
    }

    /// The file of a slot was closed.
    pub fn close(&mut self, slot: Slot) {
        self.streams[slot.number()] = None;
    }

    /// Tells of all open files.
    fn show_streams(&self) {
        let mut line = String::new(self.rt.alloc());
        for stream in &self.streams {
            if let Some(stream) = stream {
                if !line.is_empty() {
                    let _pushed = line.push_str(", ");
                }
                if let Some(text) = stream.text(self.rt.alloc()) {
                    let _pushed = line.push_str(text.as_str());
                }
            }
        }
        self.show(line.as_str());
    }

    /// Tells how much of the work of a search is done.
    pub fn search(&self, done: u64, all: u64) {
        if self.is_due() {
            let percent = done.saturating_mul(100) / all.max(1);
            if let Ok(text) = format!(in self.rt.alloc(); "searching: {percent} %") {
                self.show(text.as_str());
            }
        }
    }
}
