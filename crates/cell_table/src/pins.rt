ghost use Rattle.std.specs.Prelude.{◌≡◌, IfOk, map};
ghost use Rattle.cell_table.specs.Cells.{pins_of, has_twice, has_pin_twice};

use crate::paths::ScanPath;
use base_types::NoMemory;
use std::alloc::Global;
use std::collections::HashSet;

/// All the pins of some paths, each in pin before its out pins.
fn pins_of<'a>(alloc: Global, paths: &'a [ScanPath]) -> Result<Vec<&'a [u8]>, NoMemory>
    ensures { IfOk result (λ pins. map (λ pin. pin.now) pins.items ≡ pins_of paths.now) }
{
    let mut pins = Vec::new(alloc);
    for path in paths {
        pins.push(path.input.bytes())?;
        for out in path.outs.as_slice() {
            pins.push(out.pin.bytes())?;
        }
    }
    Ok(pins)
}

/// Whether a name stands twice.
fn has_twice(alloc: Global, names: &[&[u8]]) -> Result<bool, NoMemory>
    ensures { IfOk result (λ twice. twice ≡ has_twice (map (λ name. name.now) names.now)) }
{
    let mut seen = HashSet::new(alloc);
    for name in names {
        if !seen.insert(*name)? {
            return Ok(true);
        }
    }
    Ok(false)
}

/// Whether a pin stands twice in some paths.
#[tactic(auto, unfolding(crate::specs::Cells::has_pin_twice))]
pub(crate) fn has_pin_twice(alloc: Global, paths: &[ScanPath]) -> Result<bool, NoMemory>
    ensures { IfOk result (λ twice. twice ≡ has_pin_twice paths.now) }
{
    has_twice(alloc, pins_of(alloc, paths)?.as_slice())
}
