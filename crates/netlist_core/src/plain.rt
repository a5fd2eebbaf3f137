//! The classes of joined nets as plainly as can be: at each pair of bits all nets are gone over.
ghost use Rattle.std.specs.Prelude.{◌≡◌, ℕ, ◌<◌, ◌++◌, ◌∷◌, [], List, All, IfOk, length, slice_index};
ghost use Rattle.netlist_core.specs.declared.netlist.Bit.{Bit};
ghost use Rattle.netlist_core.specs.Netlists.{pairs, IsBitWithin, IsNetlist};
ghost use Rattle.netlist_core.specs.Joining.{AreClassesOf};
ghost use Rattle.netlist_core.specs.Forests.{IsNumbering, merged};

use crate::classes::{Classes, alone};
use crate::netlist::{Bit, Netlist};
use base_types::NoMemory;
use std::alloc::Global;

/// Gives the class `from` the number `to`.
fn merge(classes: &mut Vec<u32>, from: u32, to: u32)
    ensures len { length classes.new.items ≡ length classes.old.items }
    ensures each { (k : ℕ) → k < length classes.old.items → slice_index classes.new.items k ≡ merged from to (slice_index classes.old.items k) }
{
    for class in classes.iter_mut() {
        if *class == from {
            *class = to;
        }
    }
}

fn join_bits(classes: &mut Vec<u32>, left: Bit, right: Bit)
    requires left { IsBitWithin (length classes.old.items) left }
    requires right { IsBitWithin (length classes.old.items) right }
    ensures len { length classes.new.items ≡ length classes.old.items }
    ensures joined { (ps : List (Bit × Bit)) → IsNumbering (length classes.old.items) ps classes.old.items → IsNumbering (length classes.old.items) (ps ++ (left, right) ∷ []) classes.new.items }
{
    let Bit::Net(a) = left else {
        return;
    };
    let Bit::Net(b) = right else {
        return;
    };
    let x = classes[a.0 as usize];
    let y = classes[b.0 as usize];
    merge(classes, x.max(y), x.min(y));
}

fn join_sides(classes: &mut Vec<u32>, left: &[Bit], right: &[Bit])
    requires left { All (IsBitWithin (length classes.old.items)) left.now }
    requires right { All (IsBitWithin (length classes.old.items)) right.now }
    requires widths { length left.now ≡ length right.now }
    ensures len { length classes.new.items ≡ length classes.old.items }
    ensures joined { (ps : List (Bit × Bit)) → IsNumbering (length classes.old.items) ps classes.old.items → IsNumbering (length classes.old.items) (ps ++ pairs left.now right.now) classes.new.items }
{
    for i in 0..left.len() {
        join_bits(classes, left[i], right[i]);
    }
}

/// The classes of nets that assigns join, or want of memory.
pub fn classes_of(alloc: Global, netlist: &Netlist) -> Result<Classes, NoMemory>
    requires netlist { IsNetlist netlist.now }
    ensures value { IfOk result (λ classes. AreClassesOf netlist.now classes) }
{
    let mut classes = alone(alloc, netlist.nets.as_slice().len())?;
    for assign in netlist.assigns.as_slice() {
        join_sides(
            &mut classes,
            assign.left.bits.as_slice(),
            assign.right.bits.as_slice(),
        );
    }
    Ok(Classes { classes })
}
