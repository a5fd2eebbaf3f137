//! The values of indexes that are small, as they are once `check_number` has passed.
ghost use Rattle.std.specs.Prelude.{◌≡◌, ◌≤◌, Some, false, option_map};
ghost use Rattle.verilog_names.specs.Values.{decimal_value, is_big_index};
ghost use Rattle.verilog_names.specs.Declarations.{bounds_of};
ghost use Rattle.verilog_checks.specs.Faults.{is_bad_range};

use verilog_names::{Bounds, index_value};
use verilog_syntax::Range;

/// The value of a decimal that is an index.
pub fn small_value(digits: &[u8]) -> u32
    requires small { is_big_index digits.now ≡ false }
    ensures value { result ≡ decimal_value digits.now }
    ensures within { result ≤ 65535 }
{
    match index_value(digits) {
        Some(value) => value,
        None => unreachable!(),
    }
}

/// The bounds that a range states.
pub(crate) fn bounds_of(range: &Range) -> Bounds
    requires small { is_bad_range (Some range.now) ≡ false }
    ensures value { result ≡ bounds_of range.now }
{
    Bounds {
        left: small_value(range.left.text()),
        right: small_value(range.right.text()),
    }
}

/// The bounds that a range states, where there is one.
pub(crate) fn range_bounds(range: &Option<Range>) -> Option<Bounds>
    requires small { is_bad_range range.now ≡ false }
    ensures value { result ≡ option_map bounds_of range.now }
{
    match range {
        Some(range) => Some(bounds_of(range)),
        None => None,
    }
}
