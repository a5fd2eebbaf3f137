//! The names of a module's nets.
ghost use Rattle.std.specs.Prelude.{◌≡◌, ◌+◌, ◌≤◌, ◌<◌, ◌^◌, length, None, Some, IsSome, OnOk, IfOk};
ghost use Rattle.std.specs.List.{flat_map};
ghost use Rattle.verilog_reader.specs.Denoted.{entry_nets};
ghost use Rattle.verilog_names.specs.Declarations.{width_or_one};
ghost use Rattle.verilog_names.specs.NameTables.{bounded, total, place, with_entry};

use crate::net_names::push_names;
use base_types::{NoMemory, Rows};
use netlist_core::NetName;
use std::alloc::Global;
use std::marker::Model;
use verilog_names::{DeclaredNames, Entry, First};
use verilog_syntax::Declared;

/// Names in the order of their nets, which contracts see as a list, each with the bounds of a vector: those that are declared,
/// and then those that are mentioned alone.
#[derive(Drop)]
pub(crate) struct Nets<'a> {
    names: DeclaredNames<'a>,
}

impl<'a> Model for Nets<'a> {
    ghost use Rattle.std.specs.Prelude.{List, ℕ, Option};
    ghost use Rattle.verilog_names.specs.declared.bounds.Bounds.{Bounds as ghost_bounds};
    ghost use Rattle.verilog_names.specs.NameTables.{bounded};

    ghost Value = { List (List ℕ × Option ghost_bounds) };

    ghost view = { λ n. bounded n.names };
}

/// A net that is mentioned alone is a scalar.
const SCALAR: First = First {
    kind: Declared::Wire,
    bounds: None,
};

impl<'a> Nets<'a> {
    /// The nets of the names that are declared.
    pub(crate) fn of(names: DeclaredNames<'a>) -> Nets<'a>
        ensures value { result ≡ bounded names.entry }
    {
        Nets { names }
    }

    /// The nets of a name, which is a scalar's unless it has some.
    pub(crate) fn entry_or_add(&mut self, name: &'a [u8]) -> Result<Entry, NoMemory>
        ensures ok { OnOk result (self.new ≡ with_entry self.old name.now None) }
        ensures found { IfOk result (λ entry. place self.new name.now ≡ Some entry) }
        ensures within { IfOk result (λ entry. entry.first + width_or_one entry.bounds ≤ total self.new) }
        ensures few { OnOk result (total self.new < 2 ^ 32) }
    {
        match self.names.entry(name) {
            Some(entry) => Ok(entry),
            None => self.names.append(name, SCALAR),
        }
    }

    /// How many nets there are.
    pub(crate) fn count(&self) -> u32
        ensures value { result ≡ total self.now }
    {
        self.names.count()
    }

    /// How the nets are named, by their numbers.
    pub(crate) fn names(&self, alloc: Global) -> Result<Rows<NetName>, NoMemory>
        ensures value { IfOk result (λ names. names ≡ flat_map (λ e. entry_nets e.0 e.1) self.now) }
        ensures few { IfOk result (λ names. length names < 2 ^ 32) }
    {
        let mut names = Rows::new(alloc);
        for (name, slot) in self.names.iter() {
            push_names(alloc, &mut names, name, slot.entry.bounds)?;
        }
        Ok(names)
    }

    /// The nets of a name.
    pub(crate) fn entry(&self, name: &[u8]) -> Entry
        requires { IsSome (place self.now name.now) }
        ensures found { place self.now name.now ≡ Some result }
        ensures within { result.first + width_or_one result.bounds ≤ total self.now }
        ensures few { total self.now < 2 ^ 32 }
    {
        self.names.entry(name).unwrap()
    }
}
