//! The labels of a statement, and the braces in it.
ghost use Rattle.std.specs.Prelude.{◌≡◌, ◌<◌, ◌≤◌, length, Some, None, MatchOption, IfSome};
ghost use Rattle.stil_tokens.specs.StilStatements.{is_only, is_note};
ghost use Rattle.stil_syntax.specs.Shapes.{label_at, behind_labels, closes_nothing, begins_behind};

use crate::stretch::Stretch;
use stil_tokens::{depth_behind, token_ends};

/// What is left behind a label.
#[tactic(auto, unfolding(crate::specs::Shapes::label_at))]
fn label_at<'a, 's>(tokens: &Stretch<'a, 's>) -> Option<Stretch<'a, 's>>
    ensures value { MatchOption result (label_at tokens.now ≡ None) (λ rest. label_at tokens.now ≡ Some rest) }
{
    let mut rest = tokens.again();
    let _name = rest.name()?;
    let colon = rest.next()?;
    if colon.text == b":".as_slice() {
        Some(rest)
    } else {
        None
    }
}

/// What is left behind the labels.
#[tactic(auto, unfolding(crate::specs::Shapes::behind_within))]
pub fn behind_labels<'a, 's>(tokens: &Stretch<'a, 's>) -> Stretch<'a, 's>
    ensures value { result ≡ behind_labels tokens.now }
{
    let mut rest = tokens.again();
    let mut left = tokens.len();
    while 0 < left {
        match label_at(&rest) {
            Some(behind) => rest = behind,
            None => return rest,
        }
        left -= 1;
    }
    rest
}

/// Whether a `}` stands where no block is open.
pub fn closes_nothing(tokens: &Stretch<'_, '_>) -> bool
    ensures value { result ≡ closes_nothing 0 tokens.now }
{
    let most = tokens.len();
    let mut rest = tokens.again();
    let mut depth = 0;
    while let Some(token) = rest.next() {
        if depth == 0 && token.text == b"}".as_slice() {
            return true;
        }
        depth = depth_behind(depth, token.text);
    }
    false
}

/// Whether in a block a statement begins behind the token.
pub fn begins_behind(text: &[u8]) -> bool
    ensures value { result ≡ begins_behind text.now }
{
    match text {
        [b'{'] | [b'}'] => true,
        _ => token_ends(0, text),
    }
}
