//! One comparison of a scan call, carried back.
ghost use Rattle.std.specs.Prelude.{◌≡◌, ℕ, ◌<◌, ◌↔◌, List, length, IsTrue, Option};
ghost use Rattle.stil_types.specs.Calls.{compare_at, compare_character, is_expectation};
ghost use Rattle.stil_tester.specs.declared.symbol.Symbol.{Symbol};
ghost use Rattle.stil_tester.specs.Shifting.{HasCells, IsCallFor};
ghost use Rattle.stil_tester.specs.Meaning.{ShowSame};
ghost use Rattle.retarget.specs.Judging.{IsAccepted};
ghost use Rattle.fail_map.specs.Fails.{Fails, IsCompared};
ghost use Rattle.fail_map.specs.Carried.{old_home, IsCarried};

use crate::line::LogLine;
use base_types::Text;
use retarget::Map;
use stil_tester::Chains;
use stil_types::ScanCall;

/// Where the comparison of a new call, of a chain and an index from 0, stands in an old call that
/// does the same: the chain and the index from 0 at which the same cell comes out. From whatever
/// cells the one isn't met exactly where the other isn't (IEEE 1450-1999, Shift). Takes no memory
/// and constant time.
pub fn map_fail(map: &Map, old: &ScanCall, new: &ScanCall, chain: u32, index: u32) -> (u32, u32)
    requires old_call { IsCallFor map.now.0 old.now }
    requires old_accepted { IsAccepted map.now.0 old.now }
    requires new_call { IsCallFor map.now.1 new.now }
    requires new_accepted { IsAccepted map.now.1 new.now }
    requires same { ShowSame map.now.0 map.now.1 old.now new.now }
    requires compared { IsCompared map.now.1 new.now chain index }
    ensures fails { (cells : List Symbol) → HasCells map.now.0 cells → Fails map.now.0 cells old.now result.0 result.1 ↔ Fails map.now.1 cells new.now chain index }
    ensures compared { IsCompared map.now.0 old.now result.0 result.1 }
    // There the same cell comes out.
    ensures chain { result.0 ≡ (old_home map.now.0 map.now.1 chain index).chain }
    ensures index { result.1 ≡ (old_home map.now.0 map.now.1 chain index).exit }
{
    let bits = map.new_chains().chains.as_slice()[chain as usize]
        .cells
        .as_slice();
    let cell = bits[bits.len() - 1 - index as usize];
    let home = map.old_home(cell);
    (home.chain, home.exit)
}

/// Whether a compare expects something at an index.
fn expects_at(compare: &Option<Text>, index: u64) -> bool
    ensures value { result ≡ is_expectation (compare_character compare.now index) }
{
    match compare {
        None => false,
        Some(text) => expects_in(text.bytes(), index),
    }
}

/// Whether an `L` or `H` stands at an index.
fn expects_in(text: &[u8], index: u64) -> bool
    ensures value { result ≡ is_expectation (compare_character (Some text.now) index) }
{
    if index < text.len() as u64 {
        let character = text[index as usize];
        character == b'L' || character == b'H'
    } else {
        false
    }
}

/// Whether a call compares something at a chain and an index from 0.
fn is_compared(chains: &Chains, call: &ScanCall, chain: u64, index: u64) -> bool
    requires call { IsCallFor chains.now call.now }
    ensures value { IsTrue result ↔ IsCompared chains.now call.now chain index }
{
    chain < chains.chains.as_slice().len() as u64
        && expects_at(&call.compares.as_slice()[chain as usize], index)
}

/// The line that a line is carried back to, where it names a comparison of the new call.
pub(crate) fn map_line(map: &Map, old: &ScanCall, new: &ScanCall, line: LogLine) -> Option<LogLine>
    requires old_call { IsCallFor map.now.0 old.now }
    requires old_accepted { IsAccepted map.now.0 old.now }
    requires new_call { IsCallFor map.now.1 new.now }
    requires new_accepted { IsAccepted map.now.1 new.now }
    requires same { ShowSame map.now.0 map.now.1 old.now new.now }
    ensures value { IsCarried map.now.0 map.now.1 new.now line result }
{
    let chains = map.new_chains();
    // There are no more chains and no more bits of a chain than cells, whose count has 32 bits.
    let _cells = chains.cells;
    if line.chain == 0 || !is_compared(chains, new, line.chain - 1, line.index) {
        return None;
    }
    let (chain, index) = map_fail(map, old, new, (line.chain - 1) as u32, line.index as u32);
    Some(LogLine {
        pattern: line.pattern,
        scan: line.scan,
        chain: chain as u64 + 1,
        index: index as u64,
    })
}
