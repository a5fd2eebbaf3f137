ghost use Rattle.std.specs.Prelude.{◌≡◌, IfOk};
ghost use Rattle.base_types.specs.Names.{plain_name};

use crate::memory::NoMemory;
use crate::name::Name;
use std::alloc::Global;

/// The bytes without backslashes, or want of memory.
pub fn plain_name(alloc: Global, bytes: &[u8]) -> Result<Name, NoMemory>
    ensures value { IfOk result (λ name. name ≡ plain_name bytes.now) }
{
    let mut plain = Vec::new(alloc);
    for b in bytes {
        if *b != b'\\' {
            plain.push(*b)?;
        }
    }
    Ok(Name::of(plain))
}
