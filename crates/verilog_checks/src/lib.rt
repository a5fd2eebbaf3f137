//! The faults of a Verilog module's statements beyond their form.
//!
//! Floor: readers, on verilog_syntax, verilog_names, base_types and token_forms.
//! Contract: `check_number`, `check_twice` and `check_select` answer the first statement that is bad by `specs/Faults.antt`, or
//! none, as `check_law` says; `check_twice` hands out the declared names that it gathered. Begin with `number.rt`.
#![tactic(auto)]

mod bit_names;
mod faults;
mod few;
mod laws;
mod name_lists;
mod number;
mod ranges;
mod scalars;
mod select;
mod twice;

pub use laws::check_law;
pub use number::{check_number, constant_size, is_bad_size, size_digits};
pub use ranges::small_value;
pub use select::check_select;
pub use twice::check_twice;
