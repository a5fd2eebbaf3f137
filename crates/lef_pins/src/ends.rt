//! Where blocks begin and end.
ghost use Rattle.std.specs.Prelude.{◌≡◌, codes};
ghost use Rattle.std.specs.Str.{bytes_eq};
ghost use Rattle.base_types.specs.Names.{plain_name};
ghost use Rattle.lef_pins.specs.Blocks.{begins_with, begins_named, ends_shapes, ends_named, is_port, is_shapes, begins_shapes};
ghost use Rattle.lef_pins.specs.BlockReading.{begins_with_name, begins_with_any_name};
ghost use Rattle.lef_pins.specs.Reading.{goes_on};

use crate::stretch::Stretch;
use token_forms::Tokens;

fn begins_with(word: &[u8], tokens: &Tokens<'_, '_>) -> bool
    ensures value { result ≡ begins_with word.now tokens.now }
{
    match tokens.first() {
        Some(token) => token.text == word,
        None => false,
    }
}

/// Whether the first token says a name, which is plain.
fn begins_with_name(name: &[u8], tokens: &Tokens<'_, '_>) -> bool
    ensures value { result ≡ begins_with_name name.now tokens.now }
{
    match tokens.first() {
        Some(token) => is_name(token.text, name),
        None => false,
    }
}

/// Whether an END stands first, which closes a port, an OBS or a DENSITY.
pub(crate) fn ends_shapes(rest: &Stretch<'_, '_>) -> bool
    ensures value { result ≡ ends_shapes rest.now }
{
    begins_with(b"END", &rest.tokens())
}

/// Whether a text is this name, once its escapes are taken away.
fn is_name(text: &[u8], name: &[u8]) -> bool
    ensures value { result ≡ bytes_eq (plain_name text.now) name.now }
{
    let mut unread = text;
    let mut left = name;
    while let [byte, others @ ..] = unread {
        if *byte != b'\\' {
            match left {
                [first, behind @ ..] if *first == *byte => left = behind,
                _ => return false,
            }
        }
        unread = others;
    }
    left.is_empty()
}

/// Whether the END of a name, which is plain, stands first, which closes a pin or a macro.
pub(crate) fn ends_named(rest: &Stretch<'_, '_>, name: &[u8]) -> bool
    ensures value { result ≡ ends_named name.now rest.now }
{
    let mut tokens = rest.tokens();
    match tokens.next() {
        Some(token) => token.text == b"END".as_slice() && begins_with_name(name, &tokens),
        None => false,
    }
}

/// Whether a port, an OBS or a DENSITY goes on.
#[tactic(auto, unfolding(crate::specs::Reading::goes_on))]
pub(crate) fn goes_on_shapes(rest: &Stretch<'_, '_>) -> bool
    ensures value { result ≡ goes_on ends_shapes rest.now }
{
    !(rest.len() == 0 || ends_shapes(rest))
}

/// Whether a pin or a macro goes on.
#[tactic(auto, unfolding(crate::specs::Reading::goes_on))]
pub(crate) fn goes_on_named(rest: &Stretch<'_, '_>, name: &[u8]) -> bool
    ensures value { result ≡ goes_on (ends_named name.now) rest.now }
{
    !(rest.len() == 0 || ends_named(rest, name))
}

/// Whether a token stands first that isn't a semicolon.
fn begins_with_any_name(tokens: &Tokens<'_, '_>) -> bool
    ensures value { result ≡ begins_with_any_name tokens.now }
{
    match tokens.first() {
        Some(token) => token.text != b";".as_slice(),
        None => false,
    }
}

/// Whether a word and a name stand first; a semicolon is no name.
pub(crate) fn begins_named(rest: &Stretch<'_, '_>, word: &[u8]) -> bool
    ensures value { result ≡ begins_named word.now rest.now }
{
    let mut tokens = rest.tokens();
    match tokens.next() {
        Some(token) => token.text == word && begins_with_any_name(&tokens),
        None => false,
    }
}

/// Whether a port stands first.
pub(crate) fn begins_port(rest: &Stretch<'_, '_>) -> bool
    ensures value { result ≡ begins_with (codes "PORT") rest.now }
{
    begins_with(b"PORT", &rest.tokens())
}

/// Whether an OBS or a DENSITY stands first.
pub(crate) fn begins_shapes(rest: &Stretch<'_, '_>) -> bool
    ensures value { result ≡ begins_shapes rest.now }
{
    match rest.tokens().first() {
        Some(token) => token.text == b"OBS".as_slice() || token.text == b"DENSITY".as_slice(),
        None => false,
    }
}
