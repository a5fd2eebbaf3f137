//! Which token ends a statement of STIL.
ghost use Rattle.std.specs.Prelude.{◌≡◌, ◌<◌, ◌+◌, ◌^◌, false};
ghost use Rattle.stil_tokens.specs.StilTokens.{has_close};
ghost use Rattle.stil_tokens.specs.StilStatements.{is_note, token_ends, depth_behind};

/// Whether such a byte stands behind a `*`.
fn has_close(closing: u8, bytes: &[u8]) -> bool
    ensures value { result ≡ has_close closing false bytes.now }
{
    let mut star = false;
    let mut at = 0;
    while at < bytes.len() {
        let b = bytes[at];
        at += 1;
        if star && b == closing {
            return true;
        }
        star = b == b'*';
    }
    false
}

/// Whether the token is an annotation with its end.
fn is_note(token: &[u8]) -> bool
    ensures value { result ≡ is_note token.now }
{
    match token {
        [b'{', b'*', text @ ..] => has_close(b'}', text),
        _ => false,
    }
}

/// Whether a token ends a statement of which so many blocks are open: outside a block a `;` and an annotation with its end,
/// and the `}` that closes the first block. Takes no memory.
pub fn token_ends(depth: usize, token: &[u8]) -> bool
    ensures value { result ≡ token_ends depth token.now }
{
    match token {
        [b';'] => depth == 0,
        [b'}'] => depth == 1,
        _ => is_note(token) && depth == 0,
    }
}

/// How many blocks are open behind a token; a `}` that closes none changes nothing. Takes no memory.
pub fn depth_behind(depth: usize, token: &[u8]) -> usize
    requires small { depth + 1 < 2 ^ 64 }
    ensures value { result ≡ depth_behind depth token.now }
{
    match token {
        [b'{'] => depth + 1,
        [b'}'] => depth.saturating_sub(1),
        _ => depth,
    }
}
