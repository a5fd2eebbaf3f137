//! The partitions of chains.
ghost use Rattle.std.specs.Prelude.{◌≡◌, IfOk};
ghost use Rattle.design_elements.specs.Elements.{partition_number};
ghost use Rattle.design_elements.specs.Firsts.{AreFirsts};

use base_types::{Name, NoMemory};
use def_reader::ScanChainText;
use netlist_core::add_place;
use std::alloc::Global;
use std::collections::HashMap;
use std::marker::Model;

/// Chains with the first of each partition. Contracts see the chains.
#[derive(Drop)]
pub(crate) struct Partitions<'d> {
    chains: &'d [ScanChainText],
    firsts: HashMap<&'d [u8], usize>,
}

impl<'d> Model for Partitions<'d> {
    ghost use Rattle.std.specs.Prelude.{List};
    ghost use Rattle.def_reader.specs.declared.design.ScanChainText.{ScanChainText};
    ghost use Rattle.design_elements.specs.Firsts.{AreFirsts};

    ghost Value = { List ScanChainText };

    ghost view = { λ p. p.chains.now };

    ghost invariant = { λ p. AreFirsts p.firsts p.chains.now };
}

/// The places of the first chain of each partition.
fn firsts<'d>(
    alloc: Global,
    chains: &'d [ScanChainText],
) -> Result<HashMap<&'d [u8], usize>, NoMemory>
    ensures value { IfOk result (λ places. AreFirsts places chains.now) }
{
    let mut places = HashMap::new(alloc);
    for (place, chain) in chains.iter().enumerate() {
        if let Some(name) = &chain.partition {
            add_place(&mut places, name.bytes(), place)?;
        }
    }
    Ok(places)
}

impl<'d> Partitions<'d> {
    pub(crate) fn of(alloc: Global, chains: &'d [ScanChainText]) -> Result<Partitions<'d>, NoMemory>
        ensures value { IfOk result (λ p. p ≡ chains.now) }
    {
        Ok(Partitions {
            chains,
            firsts: firsts(alloc, chains)?,
        })
    }

    /// The partition of the chain of a number: the number of the first chain of it, or its own where it names none.
    pub(crate) fn number(&self, c: usize, name: &Option<Name>) -> usize
        ensures value { result ≡ partition_number self.now c name.now }
    {
        let Some(name) = name else {
            return c;
        };
        match self.firsts.get(&name.bytes()) {
            Some(first) => *first,
            None => c,
        }
    }
}
