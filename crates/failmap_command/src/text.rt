//! The text of a log.
ghost use Rattle.std.specs.Prelude.{◌≡◌, ◌++◌, ◌∷◌, [], decimal, IfOk, OnOk};
ghost use Rattle.fail_map.specs.Logs.{row_of, log_text};

use base_types::{NoMemory, Text};
use fail_map::LogLine;
use itoa::Buffer;
use std::alloc::Global;

/// Puts a number and a byte behind the text.
fn push_number(text: &mut Vec<u8>, number: u64, behind: u8) -> Result<(), NoMemory>
    ensures value { OnOk result (text.new.items ≡ text.old.items ++ decimal number ++ behind ∷ []) }
{
    let mut digits = Buffer::new();
    text.extend_from_slice(digits.format(number).as_bytes())?;
    text.push(behind)?;
    Ok(())
}

/// Puts a line behind the text.
fn push_line(text: &mut Vec<u8>, line: &LogLine) -> Result<(), NoMemory>
    ensures value { OnOk result (text.new.items ≡ text.old.items ++ row_of line.now ++ 10 ∷ []) }
{
    push_number(text, line.pattern, b' ')?;
    push_number(text, line.scan, b' ')?;
    push_number(text, line.chain, b' ')?;
    push_number(text, line.index, b'\n')
}

/// The text of a log, each line with its line feed.
pub(crate) fn log_text(alloc: Global, log: &[LogLine]) -> Result<Text, NoMemory>
    ensures value { IfOk result (λ text. text ≡ log_text log.now) }
{
    let mut text = Vec::new(alloc);
    for line in log {
        push_line(&mut text, line)?;
    }
    Ok(Text::of(text))
}
