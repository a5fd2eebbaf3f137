//! The indexes of a vector.
ghost use Rattle.std.specs.Prelude.{◌≡◌, ◌<◌, ◌≤◌, ◌^◌, true};
ghost use Rattle.verilog_names.specs.Declarations.{width, has_index, offset, index_at, has_part, width_or_one, selects};
ghost use Rattle.verilog_names.specs.NameTables.{offset_in};

use crate::bounds::Bounds;

/// How many bits a vector has.
pub fn width(bounds: Bounds) -> u64
    ensures value { result ≡ width bounds }
    ensures within { result ≤ 2 ^ 32 }
{
    u64::from(bounds.left.abs_diff(bounds.right)) + 1
}

/// How many bits a name has.
pub fn width_or_one(bounds: Option<Bounds>) -> u64
    ensures value { result ≡ width_or_one bounds }
    ensures within { result ≤ 2 ^ 32 }
{
    match bounds {
        Some(bounds) => width(bounds),
        None => 1,
    }
}

/// Whether a vector has an index.
pub fn has_index(bounds: Bounds, index: u32) -> bool
    ensures value { result ≡ has_index bounds index }
{
    let Bounds { left, right } = bounds;
    left.min(right) <= index && index <= left.max(right)
}

/// The place of an index from the left.
fn offset(bounds: Bounds, index: u32) -> u32
    requires { has_index bounds index ≡ true }
    ensures value { result ≡ offset bounds index }
    ensures within { result < width bounds }
{
    bounds.left.abs_diff(index)
}

/// The place of an index that a name has, from the left.
pub fn offset_in(bounds: Option<Bounds>, index: u32) -> u32
    requires { selects bounds index ≡ true }
    ensures value { result ≡ offset_in bounds index }
    ensures within { result < width_or_one bounds }
{
    match bounds {
        Some(bounds) => offset(bounds, index),
        None => 0,
    }
}

/// The index at a place from the left.
pub fn index_at(bounds: Bounds, place: u64) -> u32
    requires within { place < width bounds }
    ensures value { result ≡ index_at bounds place }
{
    let place = place as u32;
    if bounds.right <= bounds.left {
        bounds.left - place
    } else {
        bounds.left + place
    }
}

/// Whether a part select lies within the vector and has its direction.
pub fn has_part(bounds: Bounds, part: Bounds) -> bool
    ensures value { result ≡ has_part bounds part }
{
    has_index(bounds, part.left)
        && has_index(bounds, part.right)
        && offset(bounds, part.left) <= offset(bounds, part.right)
}
