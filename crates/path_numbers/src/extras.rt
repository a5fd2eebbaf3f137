//! Design pins that stand for a port besides its own.
ghost use Rattle.std.specs.Prelude.{◌≡◌, ◌++◌, ◌∷◌, [], ℕ, List, false, codes, drop, IfOk, OnOk, option_map};
ghost use Rattle.std.specs.List.{list_any};
ghost use Rattle.def_reader.specs.declared.design.DesignPin.{DesignPin as Lists};
ghost use Rattle.path_numbers.specs.Numbers.{begins_with, has_extra};
ghost use Rattle.path_numbers.specs.Extras.{AreExtras};

use base_types::NoMemory;
use def_reader::{Design, DesignPin};
use std::alloc::Global;
use std::marker::Model;

/// A design and the names of its pins that hold `.extra`, which are few. Contracts see the design.
#[derive(Drop)]
pub(crate) struct Extras<'d> {
    design: Option<&'d Design>,
    names: Vec<&'d [u8]>,
}

impl<'d> Model for Extras<'d> {
    ghost use Rattle.std.specs.Prelude.{Option, option_map};
    ghost use Rattle.def_reader.specs.declared.design.Design.{Design};
    ghost use Rattle.path_numbers.specs.Extras.{HasExtras};

    ghost Value = { Option Design };

    ghost view = { λ e. option_map (λ d. d.now) e.design };

    ghost invariant = { λ e. HasExtras (option_map (λ d. d.now) e.design) e.names.items };
}

/// Whether `.extra` stands in a name.
fn holds_extra(name: &[u8]) -> bool
    ensures none { result ≡ false → (k : ℕ) → begins_with (codes ".extra") (drop k name.now) ≡ false }
{
    for i in 0..name.len() {
        if name[i..].starts_with(b".extra") {
            return true;
        }
    }
    false
}

/// Keeps the name of a pin where `.extra` stands in it.
fn put_name<'d>(names: &mut Vec<&'d [u8]>, pin: &'d DesignPin) -> Result<(), NoMemory>
    ensures more { OnOk result ((pins : List Lists) → AreExtras pins names.old.items → AreExtras (pins ++ pin.now ∷ []) names.new.items) }
{
    let name = pin.name.bytes();
    if !holds_extra(name) {
        return Ok(());
    }
    names.push(name)?;
    Ok(())
}

fn names_of<'d>(alloc: Global, pins: &'d [DesignPin]) -> Result<Vec<&'d [u8]>, NoMemory>
    ensures value { IfOk result (λ names. AreExtras pins.now names.items) }
{
    let mut names = Vec::new(alloc);
    for pin in pins {
        put_name(&mut names, pin)?;
    }
    Ok(names)
}

/// The name and `.extra`.
fn extra_of(alloc: Global, name: &[u8]) -> Result<Vec<u8>, NoMemory>
    ensures value { IfOk result (λ text. text.items ≡ name.now ++ codes ".extra") }
{
    let mut text = Vec::new(alloc);
    text.extend_from_slice(name)?;
    text.extend_from_slice(b".extra")?;
    Ok(text)
}

fn has_front(names: &[&[u8]], front: &[u8]) -> bool
    ensures value { result ≡ list_any (λ other. begins_with front.now other.now) names.now }
{
    for name in names {
        if name.starts_with(front) {
            return true;
        }
    }
    false
}

impl<'d> Extras<'d> {
    /// Goes over the pins once, or answers want of memory.
    pub(crate) fn of(alloc: Global, design: Option<&'d Design>) -> Result<Extras<'d>, NoMemory>
        ensures value { IfOk result (λ extras. extras ≡ option_map (λ d. d.now) design.entry) }
    {
        let names = match design {
            Some(design) => names_of(alloc, design.pins.as_slice())?,
            None => Vec::new(alloc),
        };
        Ok(Extras { design, names })
    }

    /// Whether a design pin besides stands for the port of this name.
    pub(crate) fn has(&self, alloc: Global, name: &[u8]) -> Result<bool, NoMemory>
        ensures value { IfOk result (λ has. has ≡ has_extra self.now name.now) }
    {
        let front = extra_of(alloc, name)?;
        Ok(has_front(self.names.as_slice(), front.as_slice()))
    }
}
