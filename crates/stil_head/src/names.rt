//! Names, of which each is kept once.
ghost use Rattle.std.specs.Prelude.{◌≡◌, ◌||◌, [], List, ℕ, IfOk, OnOk};
ghost use Rattle.std.specs.Str.{bytes_eq};
ghost use Rattle.stil_head.specs.Unsupported.{is_name_of};

use base_types::NoMemory;
use indexmap::IndexSet;
use std::alloc::Global;
use std::marker::Model;

/// Names of a text, which contracts see as their list.
#[derive(Drop)]
pub(crate) struct Names<'a> {
    names: IndexSet<&'a [u8]>,
}

impl<'a> Model for Names<'a> {
    ghost use Rattle.std.specs.Prelude.{List, ℕ, map};

    ghost Value = { List (List ℕ) };

    ghost view = { λ n. map (λ name. name.now) n.names.keys };
}

impl<'a> Names<'a> {
    /// No names; takes no memory.
    pub(crate) fn new(alloc: Global) -> Names<'a>
        ensures value { result ≡ [] }
    {
        Names {
            names: IndexSet::new(alloc),
        }
    }

    /// Adds a name, and tells whether it is there already.
    pub(crate) fn add(&mut self, name: &'a [u8]) -> Result<bool, NoMemory>
        ensures known { IfOk result (λ known. known ≡ is_name_of self.old name.now) }
        ensures names { OnOk result ((q : List ℕ) → is_name_of self.new q ≡ (is_name_of self.old q || bytes_eq q name.now)) }
    {
        Ok(!self.names.insert(name)?)
    }

    /// Whether a name is there.
    pub(crate) fn has(&self, name: &[u8]) -> bool
        ensures value { result ≡ is_name_of self.now name.now }
    {
        self.names.contains(name)
    }
}
