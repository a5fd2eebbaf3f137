//! The contracts of `design_maker`.
ghost use Rattle.design_maker.specs.Made.{HasSmallTexts, made_files};
ghost use Rattle.std.specs.Prelude.{IfOk, ◌≡◌, ◌≤◌};

use base_types::NoMemory;
use design_maker::Files;
use std::alloc::Global;

/// As `design_maker::make_design`.
pub fn make_design(alloc: Global, n: u32) -> Result<Files, NoMemory>
    requires fewest { 8 ≤ n }
    requires most { n ≤ 16384 }
    ensures files { IfOk result (λ files. files ≡ made_files n) }
    ensures small { IfOk result HasSmallTexts }
{
    design_maker::make_design(alloc, n)
}
