//! Places by names.
ghost use Rattle.std.specs.Prelude.{◌≡◌, Some, None, if◌then◌else◌, List, ℕ, OnOk};
ghost use Rattle.std.specs.Borrow.{Bor};
ghost use Rattle.std.specs.HashMap.{get};
ghost use Rattle.std.specs.Option.{option_or};
ghost use Rattle.std.specs.Str.{bytes_eq};

use base_types::NoMemory;
use std::collections::HashMap;

/// Notes a place by its name, unless the name has one.
pub fn add_place<'d>(
    places: &mut HashMap<&'d [u8], usize>,
    name: &'d [u8],
    place: usize,
) -> Result<(), NoMemory>
    ensures ok { OnOk result ((q : Bor (List ℕ)) → get (λ x y. bytes_eq x.now y.now) places.new q ≡ option_or (get (λ x y. bytes_eq x.now y.now) places.old q) (if bytes_eq name.now q.now then Some place else None)) }
{
    if let Some(first) = places.insert(name, place)? {
        places.insert(name, first)?;
    }
    Ok(())
}
