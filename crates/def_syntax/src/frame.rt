//! What a statement does to the section that it stands in.
ghost use Rattle.std.specs.Prelude.{◌≡◌};
ghost use Rattle.def_syntax.specs.Frames.{word_of, section_named, opened_by, is_end, is_head, start_of};

use token_forms::Tokens;

/// A section that is read.
#[derive(Clone, Copy)]
pub enum SectionKind {
    Components,
    Pins,
    Nets,
    ScanChains,
}

/// The word that opens a section and stands behind its `END`.
pub(crate) fn word_of(kind: SectionKind) -> &'static [u8]
    ensures value { result.now ≡ word_of kind }
{
    match kind {
        SectionKind::Components => b"COMPONENTS",
        SectionKind::Pins => b"PINS",
        SectionKind::Nets => b"NETS",
        SectionKind::ScanChains => b"SCANCHAINS",
    }
}

/// The section that a word opens.
#[tactic(auto, unfolding(crate::specs::Frames::section_named))]
fn section_named(word: &[u8]) -> Option<SectionKind>
    ensures value { result ≡ section_named word.now }
{
    match word {
        [b'C', ..] if word == b"COMPONENTS".as_slice() => Some(SectionKind::Components),
        [b'P', ..] if word == b"PINS".as_slice() => Some(SectionKind::Pins),
        [b'N', ..] if word == b"NETS".as_slice() => Some(SectionKind::Nets),
        [b'S', ..] if word == b"SCANCHAINS".as_slice() => Some(SectionKind::ScanChains),
        _ => None,
    }
}

/// The section that a statement opens by its first token.
pub(crate) fn opened_by(tokens: &Tokens<'_, '_>) -> Option<SectionKind>
    ensures value { result ≡ opened_by tokens.now }
{
    section_named(tokens.first()?.text)
}

/// Whether a statement is `END` and this word.
pub(crate) fn is_end(word: &[u8], tokens: &Tokens<'_, '_>) -> bool
    ensures value { result ≡ is_end word.now tokens.now }
{
    if tokens.len() != 2 {
        return false;
    }
    let mut rest = tokens.again();
    let Some(first) = rest.next() else {
        return false;
    };
    let Some(second) = rest.next() else {
        return false;
    };
    first.text == b"END".as_slice() && second.text == word
}

/// Whether a statement is a word, any token and `;`.
pub(crate) fn is_head(tokens: &Tokens<'_, '_>) -> bool
    ensures value { result ≡ is_head tokens.now }
{
    let mut rest = tokens.again();
    let _ = rest.next();
    let _ = rest.next();
    match rest.next() {
        Some(third) => rest.is_empty() && third.text == b";".as_slice(),
        None => false,
    }
}

/// Where a statement begins.
pub(crate) fn start_of(tokens: &Tokens<'_, '_>) -> u32
    ensures value { result ≡ start_of tokens.now }
{
    match tokens.first() {
        Some(token) => token.span.start,
        None => 0,
    }
}
