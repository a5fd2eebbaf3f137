//! The tokens of an option that isn't read.
ghost use Rattle.std.specs.Prelude.{◌≡◌, ◌<◌, ◌≤◌, ◌+◌, ◌^◌, false, length, drop, OnOk};
ghost use Rattle.token_forms.specs.Parsing.{Gives, TakesNoMemory};
ghost use Rattle.token_forms.specs.Classes.{Class, Only};
ghost use Rattle.def_syntax.specs.Options.{open_behind, may_stand, rest_at, word_in, unread_at};

use base_types::Stop;
use token_forms::{Parser, TokenText, Word};

/// How many brackets are open behind a token.
fn open_behind(depth: usize, text: &[u8]) -> usize
    requires room { depth + 1 < 2 ^ 64 }
    ensures value { result ≡ open_behind depth text.now }
{
    match text {
        [b'('] => depth + 1,
        [b')'] => depth.saturating_sub(1),
        _ => depth,
    }
}

/// Whether a token stands in an option in which so many brackets are open.
fn may_stand(depth: usize, text: &[u8]) -> bool
    ensures value { result ≡ may_stand depth text.now }
{
    match text {
        [b';'] => false,
        [b'+'] => depth != 0,
        _ => true,
    }
}

/// Takes the first token, where there is one.
fn skip(parser: &mut Parser<'_, '_>)
    ensures value { parser.new.tokens ≡ drop 1 parser.old.tokens }
{
    let _ = parser.tokens.next();
}

/// Takes the tokens that stand in the option.
fn skip_rest(parser: &mut Parser<'_, '_>)
    ensures value { parser.new.tokens ≡ rest_at 0 parser.old.tokens }
    ensures shorter { length parser.new.tokens ≤ length parser.old.tokens }
{
    let most = parser.tokens.len();
    let mut depth = 0;
    while let Some(token) = parser.tokens.first() {
        if !may_stand(depth, token.text) {
            return;
        }
        depth = open_behind(depth, token.text);
        skip(parser);
    }
}

/// The text of the first token, where it stands in an option.
#[tactic(auto, unfolding(crate::specs::Options::word_in))]
fn word_in<'a>(parser: &Parser<'a, '_>) -> Option<TokenText<'a>>
    ensures value { result ≡ word_in 0 parser.now.tokens }
{
    let token = parser.tokens.first()?;
    may_stand(0, token.text).then(|| TokenText::of(token.text))
}

/// Takes the tokens of an option that isn't read, up to a `+` outside brackets or the `;`, and gives the first one's text. An
/// option whose first word is of the kind of those that are read is of no form here.
#[tactic(auto, unfolding(crate::specs::Options::unread_at))]
pub(crate) fn unread<'a, W: Word>(
    parser: &mut Parser<'a, '_>,
) -> Result<Option<TokenText<'a>>, Stop>
    ensures value { (words : _) → W.kind ≡ Only words → Gives result parser.new.tokens (unread_at false words parser.old.tokens) }
    ensures shorter { OnOk result (length parser.new.tokens ≤ length parser.old.tokens) }
{
    if parser.begins_text::<W>() {
        return Err(Stop::NoForm);
    }
    let word = word_in(parser);
    skip_rest(parser);
    Ok(word)
}
