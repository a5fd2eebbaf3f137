//! The contracts of `head_writer`.
ghost use Rattle.head_text.specs.Written.{head_edits, written_head};
ghost use Rattle.head_writer.specs.NewChains.{new_chains};
ghost use Rattle.splice.specs.Spliced.{AreRising};
ghost use Rattle.std.specs.Prelude.{IfOk, length, ◌<◌, ◌^◌, ◌≡◌};

use base_types::{NoMemory, Text};
use chain_trace::PathBits;
use std::alloc::Global;
use stil_types::StilHead;

/// As `head_writer::stil_head`.
pub fn stil_head(
    alloc: Global,
    text: &[u8],
    head: &StilHead,
    old: &[PathBits],
    new: &[PathBits],
) -> Result<Text, NoMemory>
    requires size { length text.now < 2 ^ 32 }
    requires rising { AreRising 0 (length text.now) (head_edits head.now.marks head.now.chains (new_chains text.now head.now old.now new.now)) }
    ensures value { IfOk result (λ out. out ≡ written_head (new_chains text.now head.now old.now new.now) head.now text.now) }
{
    head_writer::stil_head(alloc, text, head, old, new)
}
