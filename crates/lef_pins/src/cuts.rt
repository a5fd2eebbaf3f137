//! How many tokens of a LEF stand together.
ghost use Rattle.std.specs.Prelude.{◌≡◌, ◌<◌, ◌≤◌, false, length};
ghost use Rattle.def_tokens.specs.DefStatements.{count_with};
ghost use Rattle.lef_pins.specs.BlockReading.{definitions_len, extended_behind, passing_len, outer_len};
ghost use Rattle.lef_pins.specs.Blocks.{inner_len};

use crate::stretch::Stretch;
use def_tokens::statement_len;
use token_forms::Tokens;

/// How many tokens stand up to and with the first of this text; all where there is none.
fn count_with(word: &[u8], mut tokens: Tokens<'_, '_>) -> usize
    ensures value { result ≡ count_with word.now tokens.entry }
    ensures within { result ≤ length tokens.entry }
{
    let mut count = 0;
    while let Some(token) = tokens.next() {
        count += 1;
        if token.text == word {
            break;
        }
    }
    count
}

/// How many tokens behind PROPERTYDEFINITIONS stand up to its END and the token behind it.
fn definitions_len(tokens: Tokens<'_, '_>) -> usize
    ensures value { result ≡ definitions_len tokens.entry }
    ensures within { result ≤ length tokens.entry }
{
    let all = tokens.len();
    let count = count_with(b"END", tokens);
    if count < all { count + 1 } else { all }
}

/// Whether an extension goes on behind a token.
fn extended_behind(extended: bool, text: &[u8]) -> bool
    ensures value { result ≡ extended_behind extended text.now }
{
    if extended {
        text != b"ENDEXT".as_slice()
    } else {
        text == b"BEGINEXT".as_slice()
    }
}

/// How many tokens pass over together: up to and with a `;`, an END and the token behind it, or the END of property
/// definitions and the token behind it, of which none stands in an extension.
#[tactic(auto, unfolding(crate::specs::BlockReading::passing_len))]
fn passing_len(mut tokens: Tokens<'_, '_>) -> usize
    ensures value { result ≡ passing_len false tokens.entry }
    ensures within { result ≤ length tokens.entry }
{
    let mut count = 0;
    let mut extended = false;
    while let Some(token) = tokens.next() {
        count += 1;
        if !extended && token.text == b";".as_slice() {
            return count;
        }
        if !extended && token.text == b"END".as_slice() {
            return count + tokens.len().min(1);
        }
        if !extended && token.text == b"PROPERTYDEFINITIONS".as_slice() {
            return count + definitions_len(tokens);
        }
        extended = extended_behind(extended, token.text);
    }
    count
}

/// How many tokens outside macros pass over together, where no macro begins.
pub(crate) fn outer_len(tokens: &Stretch<'_, '_>) -> usize
    ensures value { result ≡ outer_len tokens.now }
    ensures within { result ≤ length tokens.now }
{
    passing_len(tokens.tokens())
}

/// How many tokens the first statement of a macro has.
#[tactic(auto, unfolding(crate::specs::Blocks::inner_len))]
pub(crate) fn inner_len(tokens: &Stretch<'_, '_>) -> usize
    ensures value { result ≡ inner_len tokens.now }
    ensures within { result ≤ length tokens.now }
{
    let tokens = tokens.tokens();
    let Some(first) = tokens.first() else {
        return 0;
    };
    if first.text == b"MACRO".as_slice() || first.text == b"PIN".as_slice() {
        tokens.len().min(2)
    } else if first.text == b"PORT".as_slice()
        || first.text == b"OBS".as_slice()
        || first.text == b"DENSITY".as_slice()
    {
        1
    } else {
        statement_len(&tokens)
    }
}
