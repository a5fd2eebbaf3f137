//! Truth values.
ghost use Rattle.std.specs.Prelude.{◌≡◌, ◌&&◌, ◌||◌};

/// Whether both hold.
pub(crate) fn both(a: bool, b: bool) -> bool
    ensures value { result ≡ (a && b) }
{
    a && b
}

/// Whether one of them holds.
pub(crate) fn either(a: bool, b: bool) -> bool
    ensures value { result ≡ (a || b) }
{
    a || b
}
