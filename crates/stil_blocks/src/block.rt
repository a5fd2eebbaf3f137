//! What a statement and its block are made of.
ghost use Rattle.std.specs.Prelude.{◌≡◌, drop};
ghost use Rattle.stil_blocks.specs.Statements.{start_of, is_whole, begins_word, begins_run, is_worded, has_word, behind_word, is_end, opens, opens_behind, opens_named, opens_maybe_named, first_text};

use stil_syntax::{Stretch, behind_labels, closes_nothing, is_word};

/// Where a statement begins.
pub fn start_of(s: &Stretch<'_, '_>) -> u32
    ensures value { result ≡ start_of s.now }
{
    s.place().start
}

/// Whether a statement has its end, and in it no `}` closes nothing.
pub fn is_whole(s: &Stretch<'_, '_>) -> bool
    ensures value { result ≡ is_whole s.now }
{
    s.is_closed() && !closes_nothing(s)
}

/// Whether this word stands first.
pub(crate) fn begins_word(tokens: &Stretch<'_, '_>, word: &[u8]) -> bool
    ensures value { result ≡ begins_word word.now tokens.now }
{
    let mut rest = tokens.again();
    match rest.next() {
        Some(token) => token.text == word,
        None => false,
    }
}

/// Whether a statement has a word: a run behind its labels.
#[tactic(auto, unfolding(crate::specs::Statements::is_worded))]
pub fn is_worded(s: &Stretch<'_, '_>) -> bool
    ensures value { result ≡ is_worded s.now }
{
    let mut rest = behind_labels(s);
    match rest.next() {
        Some(token) => is_word(token.text),
        None => false,
    }
}

/// Whether a statement has this word.
#[tactic(auto, unfolding(crate::specs::Statements::has_word))]
pub fn has_word(s: &Stretch<'_, '_>, word: &[u8]) -> bool
    ensures value { result ≡ has_word word.now s.now }
{
    begins_word(&behind_labels(s), word)
}

/// Leaves the first token out.
pub(crate) fn skip(tokens: &mut Stretch<'_, '_>)
    ensures value { tokens.new ≡ drop 1 tokens.old }
{
    let _token = tokens.next();
}

/// Takes the first token, and gives its bytes; none where there is no token.
pub fn take_text<'a>(tokens: &mut Stretch<'a, '_>) -> &'a [u8]
    ensures text { result.now ≡ first_text tokens.old }
    ensures rest { tokens.new ≡ drop 1 tokens.old }
{
    match tokens.next() {
        Some(token) => token.text,
        None => b"",
    }
}

/// What stands behind the word of a statement.
#[tactic(auto, unfolding(crate::specs::Statements::behind_word))]
pub fn behind_word<'a, 's>(s: &Stretch<'a, 's>) -> Stretch<'a, 's>
    ensures value { result ≡ behind_word s.now }
{
    let mut rest = behind_labels(s);
    skip(&mut rest);
    rest
}

/// Whether nothing is left but a `;`.
pub(crate) fn is_end(tokens: &Stretch<'_, '_>) -> bool
    ensures value { result ≡ is_end tokens.now }
{
    let mut rest = tokens.again();
    match rest.next() {
        Some(token) => rest.len() == 0 && token.text == b";".as_slice(),
        None => false,
    }
}

/// Whether a block stands first.
pub(crate) fn opens(tokens: &Stretch<'_, '_>) -> bool
    ensures value { result ≡ opens tokens.now }
{
    begins_word(tokens, b"{")
}

/// Whether a name and a block stand first.
#[tactic(auto, unfolding(crate::specs::Statements::opens_named))]
pub(crate) fn opens_named(tokens: &Stretch<'_, '_>) -> bool
    ensures value { result ≡ opens_named tokens.now }
{
    let mut rest = tokens.again();
    match rest.name() {
        Some(_name) => opens(&rest),
        None => false,
    }
}

/// Whether a block stands first, or a name and a block.
#[tactic(auto, unfolding(crate::specs::Statements::opens_maybe_named))]
pub fn opens_maybe_named(tokens: &Stretch<'_, '_>) -> bool
    ensures value { result ≡ opens_maybe_named tokens.now }
{
    opens(tokens) || opens_named(tokens)
}
