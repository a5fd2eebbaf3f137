//! A scan call beside the chains of the head.
ghost use Rattle.std.specs.Prelude.{◌≡◌, ◌≤◌, ◌^◌, ◌-◌, ◌||◌, false, true, length, map, max, min, nat_lt, option_copied, IfOk, MatchOption};
ghost use Rattle.std.specs.List.{list_any};
ghost use Rattle.std.specs.Str.{bytes_eq};
ghost use Rattle.stil_types.specs.Calls.{most_bits};
ghost use Rattle.stil_calls.specs.Scans.{has_name, gives_twice, data_for, port, given, is_port, is_foreign, is_unsound, has_unsound, count_in, reach_in, shifts_in, bits_of, is_short, is_long, is_vast};
ghost use Rattle.stil_calls.specs.Given.{data_of, longest_in, reach_beyond, AreGiven};

use crate::repeats::{Side, reach_of, sound_count};
use base_types::NoMemory;
use std::alloc::Global;
use stil_syntax::Item;
use stil_types::ScanChainDecl;

/// The characters of a string at most.
const MOST_CHARACTERS: u64 = 524288;

fn has_name(items: &[Item], name: &[u8]) -> bool
    ensures value { result ≡ has_name items.now name.now }
{
    items.iter().any(|item| item.name.bytes() == name)
}

/// Whether a name is given twice, each compared with those behind it.
pub(crate) fn has_name_twice(items: &[Item]) -> bool
    ensures value { result ≡ gives_twice items.now }
{
    let mut at = 0;
    while at < items.len() {
        if has_name(&items[at + 1..], items[at].name.bytes()) {
            return true;
        }
        at += 1;
    }
    false
}

/// The data given to a name.
fn data_for<'i>(items: &'i [Item], name: &[u8]) -> Option<&'i [u8]>
    ensures value { option_copied result ≡ data_for items.now name.now }
{
    let mut at = 0;
    while at < items.len() {
        if items[at].name.bytes() == name {
            return Some(items[at].data.bytes());
        }
        at += 1;
    }
    None
}

/// The same where no name is given twice: looked for from a place on, where they stand if the items come in the order of
/// the chains, and then among all. The place goes on behind them.
fn data_near<'i>(items: &'i [Item], place: &mut usize, name: &[u8]) -> Option<&'i [u8]>
    requires once { gives_twice items.now ≡ false }
    ensures value { option_copied result ≡ data_for items.now name.now }
{
    let mut at = *place;
    while at < items.len() {
        let item = &items[at];
        if item.name.bytes() == name {
            *place = at + 1;
            return Some(item.data.bytes());
        }
        at += 1;
    }
    data_for(items, name)
}

fn port(side: Side, chain: &ScanChainDecl) -> &[u8]
    ensures value { result.now ≡ port side chain.now }
{
    match side {
        Side::Load => chain.scan_in.bytes(),
        Side::Compare => chain.scan_out.bytes(),
    }
}

/// The data given to the chains on a side.
fn given_on<'i>(
    alloc: Global,
    side: Side,
    chains: &[ScanChainDecl],
    items: &'i [Item],
) -> Result<Vec<Option<&'i [u8]>>, NoMemory>
    requires once { gives_twice items.now ≡ false }
    ensures value { IfOk result (λ each. data_of each.items ≡ map (given side items.now) chains.now) }
{
    let mut each = Vec::with_capacity(alloc, chains.len())?;
    let mut place = 0;
    for chain in chains {
        each.push(data_near(items, &mut place, port(side, chain)))?;
    }
    Ok(each)
}

/// What a scan call gives the chains, in their order.
#[derive(Drop)]
pub(crate) struct Given<'i> {
    pub(crate) loads: Vec<Option<&'i [u8]>>,
    pub(crate) compares: Vec<Option<&'i [u8]>>,
}

/// What items that give no name twice give the chains.
pub(crate) fn given_to<'i>(
    alloc: Global,
    chains: &[ScanChainDecl],
    items: &'i [Item],
) -> Result<Given<'i>, NoMemory>
    requires once { gives_twice items.now ≡ false }
    ensures value { IfOk result (λ given. AreGiven chains.now items.now given.loads.items given.compares.items) }
{
    let loads = given_on(alloc, Side::Load, chains, items)?;
    let compares = given_on(alloc, Side::Compare, chains, items)?;
    Ok(Given { loads, compares })
}

/// Whether a chain has the port.
fn has_port(chain: &ScanChainDecl, name: &[u8]) -> bool
    ensures value { result ≡ (bytes_eq name.now chain.now.scan_in || bytes_eq name.now chain.now.scan_out) }
{
    name == chain.scan_in.bytes() || name == chain.scan_out.bytes()
}

fn is_port(chains: &[ScanChainDecl], name: &[u8]) -> bool
    ensures value { result ≡ is_port chains.now name.now }
{
    chains.iter().any(|c| has_port(c, name))
}

/// The same, where the chain is looked for from a place on, and then among all. The place becomes its own.
fn is_port_near(chains: &[ScanChainDecl], place: &mut usize, name: &[u8]) -> bool
    ensures value { result ≡ is_port chains.now name.now }
{
    let mut at = *place;
    while at < chains.len() {
        if has_port(&chains[at], name) {
            *place = at;
            return true;
        }
        at += 1;
    }
    is_port(chains, name)
}

/// Whether data are given to a name that is no chain's ScanIn or ScanOut.
pub(crate) fn is_foreign(chains: &[ScanChainDecl], items: &[Item]) -> bool
    ensures value { result ≡ is_foreign chains.now items.now }
{
    let mut place = 0;
    let mut at = 0;
    while at < items.len() {
        if !is_port_near(chains, &mut place, items[at].name.bytes()) {
            return true;
        }
        at += 1;
    }
    false
}

/// How many characters a chain is given, at most the greatest number; None where its data are unsound.
fn sound_count_in(side: Side, given: Option<&[u8]>) -> Option<u64>
    ensures value { MatchOption result (is_unsound side (option_copied given.entry) ≡ true)
        (λ count. (is_unsound side (option_copied given.entry) ≡ false) × (count ≡ min (count_in (option_copied given.entry)) (2 ^ 64 - 1))) }
{
    match given {
        Some(bytes) => sound_count(side, bytes),
        None => Some(0),
    }
}

fn reach_in(given: Option<&[u8]>) -> u64
    ensures value { result ≡ min (reach_in (option_copied given.entry)) (2 ^ 64 - 1) }
{
    match given {
        Some(bytes) => reach_of(bytes),
        None => 0,
    }
}

/// The length of the longest string on a side, at most the greatest number; None where some data are unsound.
fn longest_on(side: Side, each: &[Option<&[u8]>]) -> Option<u64>
    ensures value { MatchOption result (list_any (λ given. is_unsound side (option_copied given)) each.now ≡ true)
        (λ longest. (list_any (λ given. is_unsound side (option_copied given)) each.now ≡ false) × (longest ≡ min (longest_in (data_of each.now)) (2 ^ 64 - 1))) }
{
    let mut longest: u64 = 0;
    let mut at = 0;
    while at < each.len() {
        match sound_count_in(side, each[at]) {
            Some(count) => longest = longest.max(count),
            None => return None,
        }
        at += 1;
    }
    Some(longest)
}

/// The length of the longest string, at most the greatest number; None where a chain is given data with another character or escape than
/// their alphabet has.
pub(crate) fn shifts_in(chains: &[ScanChainDecl], items: &[Item], given: &Given<'_>) -> Option<u64>
    requires given { AreGiven chains.now items.now given.now.loads.items given.now.compares.items }
    ensures value { MatchOption result (has_unsound chains.now items.now ≡ true)
        (λ shifts. (has_unsound chains.now items.now ≡ false) × (shifts ≡ min (shifts_in chains.now items.now) (2 ^ 64 - 1))) }
{
    let Some(loads) = longest_on(Side::Load, &given.loads) else {
        return None;
    };
    let Some(compares) = longest_on(Side::Compare, &given.compares) else {
        return None;
    };
    Some(loads.max(compares))
}

fn most_bits(chains: &[ScanChainDecl]) -> u32
    ensures value { result ≡ most_bits (bits_of chains.now) }
{
    let mut most: u32 = 0;
    let mut at = 0;
    while at < chains.len() {
        most = most.max(chains[at].length);
        at += 1;
    }
    most
}

/// Whether a call that shifts so often shifts at least once, and fewer times than the longest chain has bits.
pub(crate) fn is_short(chains: &[ScanChainDecl], items: &[Item], shifts: u64) -> bool
    requires shifts { shifts ≡ min (shifts_in chains.now items.now) (2 ^ 64 - 1) }
    ensures value { result ≡ is_short chains.now items.now }
{
    let most = most_bits(chains);
    0 < shifts && shifts < u64::from(most)
}

fn is_beyond(chain: &ScanChainDecl, given: Option<&[u8]>) -> bool
    ensures value { result ≡ nat_lt chain.now.length (reach_in (option_copied given.entry)) }
{
    let bits = chain.length;
    u64::from(bits) < reach_in(given)
}

/// The same for data of at most so many characters, which mostly tell without a look at them.
fn is_beyond_of(chain: &ScanChainDecl, given: Option<&[u8]>, most: u64) -> bool
    requires most { min (count_in (option_copied given)) (2 ^ 64 - 1) ≤ most }
    ensures value { result ≡ nat_lt chain.now.length (reach_in (option_copied given.entry)) }
{
    let bits = chain.length;
    u64::from(bits) < most && is_beyond(chain, given)
}

fn reach_beyond(chains: &[ScanChainDecl], each: &[Option<&[u8]>], most: u64) -> bool
    requires lengths { length each.now ≡ length chains.now }
    requires most { min (longest_in (data_of each.now)) (2 ^ 64 - 1) ≤ most }
    ensures value { result ≡ reach_beyond chains.now (data_of each.now) }
{
    let mut at = 0;
    while at < chains.len() {
        if is_beyond_of(&chains[at], each[at], most) {
            return true;
        }
        at += 1;
    }
    false
}

/// Whether an `L` or `H` of a call that shifts so often stands at an index that isn't below its chain's bits.
#[tactic(auto, using(crate::proofs::Tables::beyond_is, crate::proofs::Tables::same_length, crate::proofs::Tables::longest_within))]
pub(crate) fn is_long(
    chains: &[ScanChainDecl],
    items: &[Item],
    given: &Given<'_>,
    shifts: u64,
) -> bool
    requires given { AreGiven chains.now items.now given.now.loads.items given.now.compares.items }
    requires shifts { shifts ≡ min (shifts_in chains.now items.now) (2 ^ 64 - 1) }
    ensures value { result ≡ is_long chains.now items.now }
{
    reach_beyond(chains, &given.compares, shifts)
}

/// Whether a call that shifts so often has a string of more characters than are taken.
pub(crate) fn is_vast(chains: &[ScanChainDecl], items: &[Item], shifts: u64) -> bool
    requires shifts { shifts ≡ min (shifts_in chains.now items.now) (2 ^ 64 - 1) }
    ensures value { result ≡ is_vast chains.now items.now }
{
    MOST_CHARACTERS < shifts
}
