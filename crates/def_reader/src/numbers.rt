//! The numbers of a design within their limits.
ghost use Rattle.std.specs.Prelude.{◌≡◌};
ghost use Rattle.def_reader.specs.Numbers.{coordinate_of, between, bits_of, units_of};

use def_tokens::read_integer;

/// A coordinate in database units, or None where it lies outside 32 bits.
pub(crate) fn coordinate(text: &[u8]) -> Option<i64>
    ensures value { result ≡ coordinate_of text.now }
{
    let value = i32::try_from(read_integer(text)?).ok()?;
    Some(i64::from(value))
}

/// An integer within two bounds.
fn between(least: u32, most: u32, value: Option<i64>) -> Option<u32>
    ensures value { result ≡ between least most value }
{
    let value = u32::try_from(value?).ok()?;
    if least <= value && value <= most {
        Some(value)
    } else {
        None
    }
}

/// A number of bits, or None where it exceeds 262144.
pub(crate) fn bits(text: &[u8]) -> Option<u32>
    ensures value { result ≡ bits_of text.now }
{
    between(0, 262_144, read_integer(text))
}

/// The database units of a micron, or None where they are not 1 to 100000.
pub(crate) fn units(text: &[u8]) -> Option<u32>
    ensures value { result ≡ units_of text.now }
{
    between(1, 100_000, read_integer(text))
}
