//! Moves by one of their nets.
ghost use Rattle.std.specs.Prelude.{◌≡◌, ◌==◌, ◌++◌, ◌∷◌, [], ℕ, if◌then◌else◌, IfOk, OnOk};
ghost use Rattle.std.specs.HashMap.{get};
ghost use Rattle.def_edit.specs.Groups.{group_of};
ghost use Rattle.def_edit.specs.NetChanges.{moves_from, moves_to};

use crate::PinMove;
use base_types::{NoMemory, Rows};
use std::alloc::Global;
use std::collections::HashMap;

/// Puts a move behind those of a net.
fn add_move(
    alloc: Global,
    groups: &mut HashMap<u32, Rows<PinMove>>,
    net: u32,
    pin_move: PinMove,
) -> Result<(), NoMemory>
    ensures value { OnOk result ((q : ℕ) → group_of (get ◌==◌ groups.new q) ≡ group_of (get ◌==◌ groups.old q) ++ (if net == q then pin_move ∷ [] else [])) }
{
    let mut group = match groups.remove(&net) {
        Some(group) => group,
        None => Rows::new(alloc),
    };
    group.push(pin_move)?;
    groups.insert(net, group)?;
    Ok(())
}

/// The moves from each net, in their order.
pub(crate) fn moves_from(
    alloc: Global,
    moves: &[PinMove],
) -> Result<HashMap<u32, Rows<PinMove>>, NoMemory>
    ensures value { IfOk result (λ groups. (q : ℕ) → group_of (get ◌==◌ groups q) ≡ moves_from q moves.now) }
{
    let mut groups = HashMap::new(alloc);
    for pin_move in moves {
        add_move(alloc, &mut groups, pin_move.from, *pin_move)?;
    }
    Ok(groups)
}

/// The moves to each net, in their order.
pub(crate) fn moves_to(
    alloc: Global,
    moves: &[PinMove],
) -> Result<HashMap<u32, Rows<PinMove>>, NoMemory>
    ensures value { IfOk result (λ groups. (q : ℕ) → group_of (get ◌==◌ groups q) ≡ moves_to q moves.now) }
{
    let mut groups = HashMap::new(alloc);
    for pin_move in moves {
        add_move(alloc, &mut groups, pin_move.to, *pin_move)?;
    }
    Ok(groups)
}

/// The moves of a net.
pub(crate) fn group_at(groups: &HashMap<u32, Rows<PinMove>>, net: u32) -> &[PinMove]
    ensures value { result.now ≡ group_of (get ◌==◌ groups.now net) }
{
    match groups.get(&net) {
        Some(group) => group.as_slice(),
        None => &[],
    }
}
