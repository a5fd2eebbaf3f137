ghost use Rattle.std.specs.Prelude.{◌≡◌, IfOk};

use crate::memory::NoMemory;
use std::alloc::Global;
use std::marker::Model;

/// How many bytes of a name may lie in the name itself, which is then as large as one that keeps them apart.
const INSIDE: usize = 30;

/// Where a name keeps its bytes.
#[derive(Debug, Drop)]
enum Kept {
    /// The first so many of these.
    Inside { count: u8, bytes: [u8; INSIDE] },
    /// In memory of their own.
    Apart(Vec<u8>),
}

/// A name, which contracts see as its bytes. Up to 30 bytes lie in the name itself.
#[derive(Debug)]
pub struct Name {
    kept: Kept,
}

// By hand, so that it is proved here and not again wherever names are dropped.
impl Drop for Name {
    fn drop(self) {
        let Name { kept: _kept } = self;
    }
}

impl Model for Name {
    ghost use Rattle.std.specs.Prelude.{List, ℕ};
    ghost use Rattle.base_types.specs.Kept.{kept_bytes, IsKept};

    ghost Value = { List ℕ };

    ghost view = { λ name. kept_bytes name.kept };

    ghost invariant = { λ name. IsKept name.kept };
}

impl Name {
    /// The name of these bytes; takes no memory.
    pub fn of(bytes: Vec<u8>) -> Name
        ensures value { result ≡ bytes.items }
    {
        Name {
            kept: Kept::Apart(bytes),
        }
    }

    /// A copy of these bytes, or want of memory.
    pub fn copy(alloc: Global, bytes: &[u8]) -> Result<Name, NoMemory>
        ensures value { IfOk result (λ name. name ≡ bytes.now) }
    {
        if bytes.len() > INSIDE {
            return Ok(Name::of(Vec::from_slice(alloc, bytes)?));
        }
        let mut inside = [0; INSIDE];
        inside[..bytes.len()].copy_from_slice(bytes);
        Ok(Name {
            kept: Kept::Inside {
                count: bytes.len() as u8,
                bytes: inside,
            },
        })
    }

    /// Its bytes. Takes no memory.
    pub fn bytes(&self) -> &[u8]
        ensures value { result.now ≡ self.now }
    {
        match &self.kept {
            Kept::Inside { count, bytes } => &bytes[..*count as usize],
            Kept::Apart(bytes) => bytes.as_slice(),
        }
    }
}

/// The content of a file or of a piece of one, which contracts see as its bytes.
#[derive(Debug)]
pub struct Text {
    bytes: Vec<u8>,
}

impl Drop for Text {
    fn drop(self) {
        let Text { bytes: _bytes } = self;
    }
}

impl Model for Text {
    ghost use Rattle.std.specs.Prelude.{List, ℕ};

    ghost Value = { List ℕ };

    ghost view = { λ text. text.bytes.items };
}

impl Text {
    /// The text of these bytes; takes no memory.
    pub fn of(bytes: Vec<u8>) -> Text
        ensures value { result ≡ bytes.items }
    {
        Text { bytes }
    }

    /// A copy of these bytes, or want of memory.
    pub fn copy(alloc: Global, bytes: &[u8]) -> Result<Text, NoMemory>
        ensures value { IfOk result (λ text. text ≡ bytes.now) }
    {
        Ok(Text {
            bytes: Vec::from_slice(alloc, bytes)?,
        })
    }

    /// Its bytes. Takes no memory.
    pub fn bytes(&self) -> &[u8]
        ensures value { result.now ≡ self.now }
    {
        self.bytes.as_slice()
    }
}
