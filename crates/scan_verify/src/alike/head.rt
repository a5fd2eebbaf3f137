//! Heads that are equal but for what may be written anew in ScanStructures.
ghost use Rattle.std.specs.Prelude.{◌≡◌, ◌↔◌, ◌<◌, ◌^◌, length, IsTrue};
ghost use Rattle.head_alike.specs.Erased.{head_tokens};

use crate::alike::staying::StayingTokens;

/// Whether the tokens that are still to come are equal.
fn are_equal(mut a: StayingTokens<'_>, mut b: StayingTokens<'_>) -> bool
    ensures value { IsTrue result ↔ a.entry ≡ b.entry }
{
    while let Some(token) = a.next() {
        let Some(other) = b.next() else {
            return false;
        };
        if token.text != other.text {
            return false;
        }
    }
    b.next().is_none()
}

/// Whether two heads of less than 4 GiB are equal token for token, but for what stands between ScanLength, ScanInversion or
/// ScanCells and its `;` in ScanStructures (IEEE 1450-1999, ScanStructures). Takes no memory, and time linear in the tokens.
pub fn same_head(a: &[u8], b: &[u8]) -> bool
    requires first { length a.now < 2 ^ 32 }
    requires second { length b.now < 2 ^ 32 }
    ensures value { IsTrue result ↔ head_tokens a.now ≡ head_tokens b.now }
{
    are_equal(StayingTokens::of(a), StayingTokens::of(b))
}
