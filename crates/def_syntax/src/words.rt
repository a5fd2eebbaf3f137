//! What a token is, by its bytes.
ghost use Rattle.std.specs.Prelude.{◌≡◌};
ghost use Rattle.std.specs.List.{list_all};
ghost use Rattle.def_tokens.specs.Numbers.{is_digit};
ghost use Rattle.token_forms.specs.Classes.{is_among};
ghost use Rattle.def_syntax.specs.Words.{is_number, marks, placings};

fn are_digits(bytes: &[u8]) -> bool
    ensures value { result ≡ list_all is_digit bytes.now }
{
    bytes.iter().all(|b| b.is_ascii_digit())
}

/// Digits, at least one.
pub(crate) fn is_number(text: &[u8]) -> bool
    ensures value { result ≡ is_number text.now }
{
    are_digits(text) && !text.is_empty()
}

/// `(`, `)`, `+` or `;`, which is no name.
#[inline(always)]
pub(crate) fn is_mark(text: &[u8]) -> bool
    ensures value { result ≡ is_among marks text.now }
{
    match text {
        [b'('] | [b')'] | [b'+'] | [b';'] => true,
        _ => false,
    }
}

/// A word that begins a placement.
pub(crate) fn is_placing(text: &[u8]) -> bool
    ensures value { result ≡ is_among placings text.now }
{
    match text {
        [b'P', ..] => text == b"PLACED".as_slice(),
        [b'F', ..] => text == b"FIXED".as_slice(),
        [b'C', ..] => text == b"COVER".as_slice(),
        _ => false,
    }
}
