//! What stands twice among few: each two are compared, which is faster than a set.
ghost use Rattle.std.specs.Prelude.{◌≡◌, map};
ghost use Rattle.verilog_names.specs.Values.{unescaped};
ghost use Rattle.verilog_names.specs.Declarations.{has};
ghost use Rattle.verilog_checks.specs.Checks.{has_twice};

use verilog_names::unescaped;
use verilog_syntax::Connection;

fn stands_among(names: &[&[u8]], name: &[u8]) -> bool
    ensures value { result ≡ has (map (λ name. name.now) names.now) name.now }
{
    match names {
        [first, rest @ ..] => *first == name || stands_among(rest, name),
        [] => false,
    }
}

/// Whether a name stands twice.
pub(crate) fn has_twice(names: &[&[u8]]) -> bool
    ensures value { result ≡ has_twice (map (λ name. name.now) names.now) }
{
    match names {
        [first, rest @ ..] => stands_among(rest, *first) || has_twice(rest),
        [] => false,
    }
}

fn has_pin(connections: &[Connection], pin: &[u8]) -> bool
    ensures value { result ≡ has (map (λ c. unescaped c.pin) connections.now) pin.now }
{
    match connections {
        [first, rest @ ..] => unescaped(&first.pin) == pin || has_pin(rest, pin),
        [] => false,
    }
}

/// Whether a pin stands twice.
pub(crate) fn has_pin_twice(connections: &[Connection]) -> bool
    ensures value { result ≡ has_twice (map (λ c. unescaped c.pin) connections.now) }
{
    match connections {
        [first, rest @ ..] => has_pin(rest, unescaped(&first.pin)) || has_pin_twice(rest),
        [] => false,
    }
}
