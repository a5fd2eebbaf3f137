//! The least of some places, or of some lines.
ghost use Rattle.std.specs.Prelude.{◌≡◌};
ghost use Rattle.list_laws.specs.Leasts.{lesser, found_if};

/// The lesser of two lines, as far as there are any.
pub fn lesser(a: Option<u64>, b: Option<u64>) -> Option<u64>
    ensures value { result ≡ lesser a b }
{
    match (a, b) {
        (Some(a), Some(b)) => Some(a.min(b)),
        (Some(a), None) => Some(a),
        (None, b) => b,
    }
}

/// The line, where it counts.
pub fn line_if(counts: bool, line: u64) -> Option<u64>
    ensures value { result ≡ found_if counts line }
{
    if counts { Some(line) } else { None }
}

/// The lesser of two places, as far as there are any.
pub fn lesser_place(a: Option<u32>, b: Option<u32>) -> Option<u32>
    ensures value { result ≡ lesser a b }
{
    match (a, b) {
        (Some(one), Some(other)) => Some(one.min(other)),
        (Some(one), None) => Some(one),
        (None, other) => other,
    }
}

/// The place, where it counts.
pub fn found_if(counts: bool, place: u32) -> Option<u32>
    ensures value { result ≡ found_if counts place }
{
    if counts { Some(place) } else { None }
}
