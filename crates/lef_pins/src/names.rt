//! Names, of which each stands once.
ghost use Rattle.std.specs.Prelude.{◌≡◌, [], IfOk, OnOk};
ghost use Rattle.std.specs.List.{list_any};
ghost use Rattle.std.specs.Str.{bytes_eq};
ghost use Rattle.lef_pins.specs.Reading.{with_name};

use base_types::NoMemory;
use indexmap::IndexSet;
use std::alloc::Global;
use std::marker::Model;

/// Names of a text, which contracts see as their list.
#[derive(Drop)]
pub(crate) struct Names {
    names: IndexSet<Vec<u8>>,
}

impl Model for Names {
    ghost use Rattle.std.specs.Prelude.{List, ℕ, map};

    ghost Value = { List (List ℕ) };

    ghost view = { λ n. map (λ name. name.items) n.names.keys };
}

impl Names {
    /// No names; takes no memory.
    pub(crate) fn new(alloc: Global) -> Names
        ensures value { result ≡ [] }
    {
        Names {
            names: IndexSet::new(alloc),
        }
    }

    /// Adds a name, and tells whether it is there already.
    #[tactic(auto, unfolding(crate::specs::Reading::with_name))]
    pub(crate) fn add(&mut self, name: Vec<u8>) -> Result<bool, NoMemory>
        ensures known { IfOk result (λ known. known ≡ list_any (bytes_eq name.items) self.old) }
        ensures names { OnOk result (self.new ≡ with_name self.old name.items) }
    {
        Ok(!self.names.insert(name)?)
    }
}
