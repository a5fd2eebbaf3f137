//! Which units stand in a chain.
ghost use Rattle.std.specs.Prelude.{◌≡◌, ◌<◌};
ghost use Rattle.design_maker.specs.Chains.{chain_length, unit_of, last_unit, max_bits};

/// How many of so many units stand in a chain.
pub(crate) fn chain_length(units: u32, chain: u32) -> u32
    requires { chain < 8 }
    ensures value { result ≡ chain_length units chain }
{
    ((units as u64 + 7 - chain as u64) / 8) as u32
}

/// The unit of a chain that has so many of its units before it.
pub(crate) fn unit_of(chain: u32, before: u32) -> u64
    ensures value { result ≡ unit_of chain before }
{
    chain as u64 + 8 * before as u64
}

/// The last unit of a chain.
pub(crate) fn last_unit(units: u32, chain: u32) -> u64
    requires { chain < 8 }
    ensures value { result ≡ last_unit units chain }
{
    unit_of(chain, chain_length(units, chain).saturating_sub(1))
}

/// The MAXBITS of each chain.
pub(crate) fn max_bits(units: u32) -> u64
    ensures value { result ≡ max_bits units }
{
    (units as u64 + 7) / 8 + 4
}
