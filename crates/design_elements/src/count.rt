//! How many elements chains have together.
ghost use Rattle.std.specs.Prelude.{◌≡◌, ◌+◌, ◌<◌, nat_lt, min, length, [], ◌∷◌, ◌++◌};
ghost use Rattle.std.specs.List.{flat_map};
ghost use Rattle.def_reader.specs.Sound.{elements_in};
ghost use Rattle.list_laws.specs.Leasts.{IsLeast};
ghost use Rattle.design_elements.specs.Faults.{element_count};
ghost use Rattle.design_elements.specs.Judging.{IsBadChain};

use crate::pins::elements_in;
use def_reader::{ElementList, ScanChainText};
use list_laws::{lesser, line_if};

/// Beyond so many elements a count stays as it is.
const ENOUGH: usize = 65_537;

/// A count of elements with more, up to 65537.
fn added(count: usize, more: usize) -> usize
    ensures value { result ≡ min (count + more) 65537 }
{
    count.saturating_add(more).min(ENOUGH)
}

/// A count of elements with those of some lists, up to 65537.
fn counted(count: usize, lists: &[ElementList]) -> usize
    ensures value { result ≡ min (count + length (flat_map elements_in lists.now)) 65537 }
{
    let mut count = count.min(ENOUGH);
    for list in lists {
        count = added(count, elements_in(list).len());
    }
    count
}

/// The least line of a chain with which there are more than 65536 elements. Takes no memory.
pub(crate) fn least_crowded(chains: &[ScanChainText]) -> Option<u64>
    ensures value { IsLeast (IsBadChain (λ front chain. nat_lt 65536 (element_count (front ++ chain ∷ []))) chains.now) result }
{
    let mut count = 0;
    let mut least = None;
    for chain in chains {
        count = counted(count, chain.lists.as_slice());
        least = lesser(least, line_if(count == ENOUGH, chain.line));
    }
    least
}
