//! The numbers of which the places of the units are made.
ghost use Rattle.std.specs.Prelude.{◌≡◌};
ghost use Rattle.design_maker.specs.Numbers.{next_number, coordinate};

/// The number after a number.
pub(crate) fn next_number(number: u32) -> u32
    ensures value { result ≡ next_number number }
{
    ((number as u64 * 1_103_515_245 + 12_345) % 2_147_483_648) as u32
}

/// A number as a coordinate, in database units.
pub(crate) fn coordinate(number: u32) -> u32
    ensures value { result ≡ coordinate number }
{
    1000 * (number % 1000)
}
