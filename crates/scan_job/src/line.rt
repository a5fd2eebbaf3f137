ghost use Rattle.std.specs.Prelude.{◌≡◌, ◌++◌, IfOk, OnOk};
ghost use Rattle.scan_job.specs.Faults.{own_word, file_word, spot_text, fault_text};

use base_types::{Fault, FileKind, NoMemory, Spot, Text};
use desk_io::{Names, name_of, slot_of};
use std::alloc::Global;

/// The word of a file that the words don't name, as those that are made in memory; and of the words themselves.
fn own_word<'a>(file: FileKind) -> &'a str
    ensures value { result.now ≡ own_word file }
{
    match file {
        FileKind::Table => "table",
        FileKind::Lef => "lef",
        FileKind::Verilog => "verilog",
        FileKind::Def => "def",
        FileKind::Stil => "stil",
        FileKind::NewVerilog => "new-verilog",
        FileKind::NewStil => "new-stil",
        FileKind::Log => "log",
        FileKind::Words => "words",
    }
}

/// The word by which a fault names its file: the name of the file's slot, if it has one.
fn file_word(names: &Names, file: FileKind) -> &str
    ensures value { result.now ≡ file_word names.now file }
{
    match slot_of(file) {
        Some(slot) => match name_of(names, slot) {
            Some(name) => name,
            None => own_word(file),
        },
        None => own_word(file),
    }
}

/// Appends the place of a fault in its file.
fn push_spot(alloc: Global, line: &mut Vec<u8>, spot: &Spot) -> Result<(), NoMemory>
    ensures value { OnOk result (line.new.items ≡ line.old.items ++ spot_text spot.now) }
{
    match spot {
        Spot::Line(number) => {
            let number = *number;
            let text = format!(in alloc; "{number}")?;
            line.extend_from_slice(text.as_bytes())?;
        }
        Spot::Cell(name) => line.extend_from_slice(name.bytes())?,
        Spot::Nowhere => line.extend_from_slice(b"-")?,
    }
    Ok(())
}

/// The line of a fault: `file:spot: KIND` and a line feed.
pub(crate) fn fault_line(alloc: Global, names: &Names, fault: &Fault) -> Result<Text, NoMemory>
    ensures value { IfOk result (λ text. text ≡ fault_text names.now fault.now) }
{
    let mut line = Vec::new(alloc);
    line.extend_from_slice(file_word(names, fault.file).as_bytes())?;
    line.extend_from_slice(b":")?;
    push_spot(alloc, &mut line, &fault.spot)?;
    line.extend_from_slice(b": ")?;
    line.extend_from_slice(fault.kind.name().as_bytes())?;
    line.extend_from_slice(b"\n")?;
    Ok(Text::of(line))
}
