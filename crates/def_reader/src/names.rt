//! Plain names, and the words at places of a text.
ghost use Rattle.std.specs.Prelude.{◌≡◌, ◌==◌, IfOk};
ghost use Rattle.std.specs.List.{list_any};
ghost use Rattle.base_types.specs.Names.{plain_name};
ghost use Rattle.def_reader.specs.Words.{word_at};

use base_types::{Name, NoMemory, Span, plain_name};
use std::alloc::Global;

fn has_escape(bytes: &[u8]) -> bool
    ensures value { result ≡ list_any (λ b. b == 92) bytes.now }
{
    bytes.iter().any(|b| *b == b'\\')
}

/// A name without its backslashes.
pub(crate) fn plain(alloc: Global, bytes: &[u8]) -> Result<Name, NoMemory>
    ensures value { IfOk result (λ name. name ≡ plain_name bytes.now) }
{
    if has_escape(bytes) {
        plain_name(alloc, bytes)
    } else {
        Name::copy(alloc, bytes)
    }
}

/// The bytes at a place of a text.
pub(crate) fn word_at(text: &[u8], span: Span) -> &[u8]
    ensures value { result.now ≡ word_at text.now span }
{
    let start = (span.start as usize).min(text.len());
    let rest = &text[start..];
    let len = (span.end.saturating_sub(span.start) as usize).min(rest.len());
    &rest[..len]
}
