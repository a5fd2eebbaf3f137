//! Names of ScanCells.
ghost use Rattle.std.specs.Prelude.{◌≡◌, ◌||◌, ◌==◌, IfOk};
ghost use Rattle.std.specs.List.{list_any};
ghost use Rattle.head_checks.specs.CellNames.{slashed, is_counted, counted, is_last_part, is_named, within};

use base_types::NoMemory;
use std::alloc::Global;
use stil_tokens::is_blank;

fn slashed(byte: u8) -> u8
    ensures value { result ≡ slashed byte }
{
    if byte == b'.' { b'/' } else { byte }
}

fn is_counted(byte: u8) -> bool
    ensures value { result ≡ is_counted byte }
{
    !(byte == b'\\' || is_blank(byte))
}

/// The bytes of a name without backslashes and blanks, each point as a slash.
pub(crate) fn counted(alloc: Global, name: &[u8]) -> Result<Vec<u8>, NoMemory>
    ensures value { IfOk result (λ bytes. bytes.items ≡ counted name.now) }
{
    let mut bytes = Vec::with_capacity(alloc, name.len())?;
    for byte in name {
        if is_counted(*byte) {
            bytes.push(slashed(*byte))?;
        }
    }
    Ok(bytes)
}

fn has_slash(bytes: &[u8]) -> bool
    ensures value { result ≡ list_any (λ c. c == 47) bytes.now }
{
    bytes.iter().any(|byte| *byte == b'/')
}

fn is_last_part(bytes: &[u8]) -> bool
    ensures value { result ≡ is_last_part bytes.now }
{
    match bytes {
        [] => true,
        [first, rest @ ..] => *first == b'/' && !has_slash(rest),
    }
}

fn is_named(instance: &[u8], name: &[u8]) -> bool
    ensures value { result ≡ is_named instance.now name.now }
{
    name.starts_with(instance) && is_last_part(&name[instance.len()..])
}

/// An instance's name as names of ScanCells are compared with it: by itself, and behind the module's name and a slash. Contracts see it
/// as the module's name and the instance's, both as they count.
#[derive(Drop)]
pub(crate) struct CellName {
    alone: Vec<u8>,
    within: Vec<u8>,
}

impl CellName {
    /// The name of an instance of a module.
    pub(crate) fn of(alloc: Global, outer: &[u8], instance: &[u8]) -> Result<CellName, NoMemory>
        ensures alone { IfOk result (λ c. c.alone.items ≡ counted instance.now) }
        ensures within { IfOk result (λ c. c.within.items ≡ within (counted outer.now) (counted instance.now)) }
    {
        let alone = counted(alloc, instance)?;
        let mut within = counted(alloc, outer)?;
        within.push(b'/')?;
        within.extend_from_slice(alone.as_slice())?;
        Ok(CellName { alone, within })
    }

    /// Whether a name of ScanCells names a cell of the instance.
    pub(crate) fn has(&self, alloc: Global, name: &[u8]) -> Result<bool, NoMemory>
        ensures value { IfOk result (λ has. has ≡ (is_named self.now.alone.items (counted name.now) || is_named self.now.within.items (counted name.now))) }
    {
        let name = counted(alloc, name)?;
        Ok(
            is_named(self.alone.as_slice(), name.as_slice())
                || is_named(self.within.as_slice(), name.as_slice()),
        )
    }
}
