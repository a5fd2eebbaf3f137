//! What has a name.
ghost use Rattle.std.specs.Prelude.{◌≡◌, ℕ, List};
ghost use Rattle.def_syntax.specs.Frames.{word_of};

use crate::design::{Component, DesignPin, Net, ScanChainText};
use def_syntax::{Section, SectionKind};
use netlist_core::Instance;

/// What has a name, and a line.
pub trait Named {
    ghost name_of: { Self → List ℕ };

    ghost line_of: { Self → ℕ };

    /// Its name.
    fn name(&self) -> &[u8]
        ensures value { result.now ≡ name_of self.now };

    /// Its line.
    fn line(&self) -> u64
        ensures value { result ≡ line_of self.now };
}

impl Named for Component {
    ghost name_of = { λ c. c.name };

    ghost line_of = { λ c. c.line };

    fn name(&self) -> &[u8] {
        self.name.bytes()
    }

    fn line(&self) -> u64 {
        self.line
    }
}

impl Named for Instance {
    ghost name_of = { λ i. i.name };

    ghost line_of = { λ i. i.line };

    fn name(&self) -> &[u8] {
        self.name.bytes()
    }

    fn line(&self) -> u64 {
        self.line
    }
}

impl Named for DesignPin {
    ghost name_of = { λ p. p.name };

    ghost line_of = { λ p. p.line };

    fn name(&self) -> &[u8] {
        self.name.bytes()
    }

    fn line(&self) -> u64 {
        self.line
    }
}

impl Named for Net {
    ghost name_of = { λ n. n.name };

    ghost line_of = { λ n. n.line };

    fn name(&self) -> &[u8] {
        self.name.bytes()
    }

    fn line(&self) -> u64 {
        self.line
    }
}

impl Named for ScanChainText {
    ghost name_of = { λ c. c.name };

    ghost line_of = { λ c. c.line };

    fn name(&self) -> &[u8] {
        self.name.bytes()
    }

    fn line(&self) -> u64 {
        self.line
    }
}

/// The word of a section.
fn word_of(kind: SectionKind) -> &'static [u8]
    ensures value { result.now ≡ word_of kind }
{
    match kind {
        SectionKind::Components => b"COMPONENTS",
        SectionKind::Pins => b"PINS",
        SectionKind::Nets => b"NETS",
        SectionKind::ScanChains => b"SCANCHAINS",
    }
}

impl Named for Section {
    ghost name_of = { λ s. word_of s.kind };

    ghost line_of = { λ s. s.line };

    fn name(&self) -> &[u8] {
        word_of(self.kind)
    }

    fn line(&self) -> u64 {
        self.line
    }
}
