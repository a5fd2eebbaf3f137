//! Names that bits of vectors have.
ghost use Rattle.std.specs.Prelude.{◌≡◌, ◌==◌, ◌<◌, ◌≤◌, ◌+◌, [], ◌∷◌, ◌++◌, ℕ, List, false, length, take, drop, decimal, MatchOption};
ghost use Rattle.std.specs.List.{list_any, list_all};
ghost use Rattle.verilog_syntax.specs.VerilogTokens.{is_digit};
ghost use Rattle.verilog_names.specs.Values.{bit_name};
ghost use Rattle.verilog_checks.specs.Seen.{is_bracketed};

use verilog_names::index_value;

fn are_digits(bytes: &[u8]) -> bool
    ensures value { result ≡ list_all is_digit bytes.now }
{
    bytes.iter().all(|b| b.is_ascii_digit())
}

/// The index that is written so, without leading zeros, where it is at most 65535.
fn plain_index(digits: &[u8]) -> Option<u32>
    ensures value { MatchOption result ((i : ℕ) → i ≤ 65535 → digits.now ≡ decimal i → ⊥) (λ i. (i ≤ 65535) × (digits.now ≡ decimal i)) }
{
    if digits.is_empty() || !are_digits(digits) {
        return None;
    }
    if digits.len() > 1 && digits[0] == b'0' {
        return None;
    }
    index_value(digits)
}

/// Whether a name ends as those of bits do.
pub(crate) fn is_bracketed(name: &[u8]) -> bool
    ensures value { result ≡ is_bracketed name.now }
{
    matches!(name, [.., b']'])
}

/// What stands before a closing bracket at the end.
fn before_close(name: &[u8]) -> Option<&[u8]>
    ensures value { MatchOption result ((front : List ℕ) → name.now ≡ front ++ 93 ∷ [] → ⊥) (λ front. name.now ≡ front.now ++ 93 ∷ []) }
{
    match name {
        [front @ .., b']'] => Some(front),
        _ => None,
    }
}

/// The place of the last `[`.
fn last_open(bytes: &[u8]) -> Option<usize>
    ensures value { MatchOption result (list_any (λ b. b == 91) bytes.now ≡ false) (λ at. (at < length bytes.now) × (bytes.now ≡ take at bytes.now ++ 91 ∷ drop (at + 1) bytes.now) × (list_any (λ b. b == 91) (drop (at + 1) bytes.now) ≡ false)) }
{
    let mut at = bytes.len();
    while at > 0 {
        at -= 1;
        if bytes[at] == b'[' {
            return Some(at);
        }
    }
    None
}

/// The vector and the index, where a name is one that a bit of a vector with indexes of at most 65535 has.
pub(crate) fn split_bit(name: &[u8]) -> Option<(&[u8], u32)>
    ensures value { MatchOption result ((base : List ℕ) (i : ℕ) → i ≤ 65535 → name.now ≡ bit_name base i → ⊥) (λ bit. (bit.1 ≤ 65535) × (name.now ≡ bit_name bit.0.now bit.1)) }
{
    let front = before_close(name)?;
    let open = last_open(front)?;
    let index = plain_index(&front[open + 1..])?;
    Some((&front[..open], index))
}
