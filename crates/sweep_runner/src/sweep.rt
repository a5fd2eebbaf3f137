//! Retargeted calls on small chains, held to what another program counts.
//!
//! Two chains of one to three bits, as read and as written, with a parity at each bit and at each output. The new chains have
//! the cells of the old ones, cut in two at any place that leaves at most three bits on each side. Each chain has a load and a
//! compare: none, or a string of at most four characters, which are 122 each. A call is refused if a compare expects something
//! behind its chain's bits; that leaves 14, 32 or 68 compares for a chain of one, two or three bits. It is also refused if it
//! shifts, but too seldom. All other calls are retargeted, and what is written is played, from cells that hold each of the three
//! symbols.
//!
//! A row of `sweep.toml` has the `sizes` of the old chains. Its `played` says of calls in which each two strings come together, at
//! each parity of the old chains, how many are accepted and how often these pass: the program that counted it looks up the cell of
//! each expectation, retargets nothing and shifts nothing. Its `judged` says how many are accepted, and refused for a short load or
//! for a long compare, of all calls in which each two strings come together.
ghost use Rattle.std.specs.Prelude.{◌≡◌, ◌≤◌, length, IfSome};
ghost use Rattle.stil_tester.specs.Shifting.{AreChains};

use crate::pairs::{Made, Sizes, cut_of, parities_of, two_chains};
use crate::rows::{list, number_of, text};
use crate::strings::{PRIME, Strings, call, fill_strings, no_strings, paired};
use base_types::{Kind, NoMemory};
use retarget::{Map, judge_call, map_of, retarget_call};
use row_forms::{Cases, Part, put};
use std::alloc::Global;
use stil_tester::{Chains, Symbol, is_call_for, scan_call};
use stil_types::ScanCall;
use toml::Value;

/// The cells of two chains of at most three bits.
const CELLS: usize = 6;

/// Of the calls in which each two strings come together each this many-th comes with each parity of the old chains; 1 would be
/// all of them.
const PAIRS: usize = 251;

/// Of the parities of the old chains this one and each so many-th behind it is judged with all calls; 1 would be all of them.
const JUDGED: usize = 15;

/// What was played: how many calls there were, how many weren't refused, and how often these passed.
#[derive(Clone, Copy)]
struct Run {
    calls: usize,
    retargeted: u64,
    passed: u64,
}

/// What the cells hold by the digits of a number in base three; in three turns each cell holds each symbol once.
fn filling(number: usize, turn: usize) -> [Symbol; CELLS] {
    let mut cells = [Symbol::Unknown; CELLS];
    let mut rest = number;
    for cell in cells.iter_mut() {
        *cell = match (rest % 3).wrapping_add(turn) % 3 {
            0 => Symbol::Zero,
            1 => Symbol::One,
            _ => Symbol::Unknown,
        };
        rest /= 3;
    }
    cells
}

/// Retargets a call if it isn't refused, and plays what is written in three turns.
fn run_call(
    alloc: Global,
    old: &Chains,
    new: &Chains,
    map: &Map,
    call: &ScanCall,
    run: &mut Run,
) -> Result<(), NoMemory>
    requires old { AreChains old.now }
    requires new { AreChains new.now }
    requires few { new.now.cells ≤ 6 }
    requires map { map.now ≡ (old.now, new.now) }
{
    let number = run.calls;
    run.calls = number.wrapping_add(1);
    if !is_call_for(old, call) {
        return Ok(());
    }
    match judge_call(old, call) {
        Some(_refused) => return Ok(()),
        None => {}
    }
    let written = retarget_call(alloc, map, call)?;
    run.retargeted = run.retargeted.wrapping_add(1);
    for turn in 0..3 {
        let mut cells = filling(number, turn);
        let room = new.cells as usize;
        let passed = scan_call(alloc, new, &mut cells[..room], &written)?;
        run.passed = run.passed.wrapping_add(u64::from(passed));
    }
    Ok(())
}

/// Retargets some of the calls in which each two strings come together, from chains to others of the same cells.
fn run_between(
    alloc: Global,
    old: &Chains,
    new: &Chains,
    strings: &Strings,
    first: usize,
    run: &mut Run,
) -> Result<(), NoMemory>
    requires old { AreChains old.now }
    requires new { AreChains new.now }
    requires few { new.now.cells ≤ 6 }
    requires cells { new.now.cells ≡ old.now.cells }
    requires chains { length new.now.chains ≡ length old.now.chains }
{
    let map = map_of(alloc, old, new)?;
    for number in (first..PRIME * PRIME).step_by(PAIRS) {
        let call = call(alloc, strings, paired(number))?;
        run_call(alloc, old, new, &map, &call, run)?;
    }
    Ok(())
}

/// The same between chains that may not be well-formed; whether they are.
fn run_chains(
    alloc: Global,
    old: &Option<Chains>,
    new: &Option<Chains>,
    strings: &Strings,
    first: usize,
    run: &mut Run,
) -> Result<bool, NoMemory>
    requires old { IfSome old.now AreChains }
    requires new { IfSome new.now AreChains }
{
    let (Some(old), Some(new)) = (old, new) else {
        return Ok(false);
    };
    if old.cells != new.cells
        || new.cells as usize > CELLS
        || old.chains.as_slice().len() != new.chains.as_slice().len()
    {
        return Ok(false);
    }
    run_between(alloc, old, new, strings, first, run)?;
    Ok(true)
}

/// Some calls at each parity of the old chains. Every parity of the new chains comes once too.
fn run_parities(
    cases: &mut Cases,
    sizes: Sizes,
    strings: &Strings,
    run: &mut Run,
) -> Result<(), NoMemory> {
    let all = parities_of(sizes);
    for parities in 0..all {
        let old = Made {
            sizes,
            order: parities * 7,
            parities,
        };
        let new = Made {
            sizes: cut_of(sizes, parities / 3),
            order: parities * 11,
            parities: (parities * 5 + 3) % all,
        };
        let old = two_chains(cases.alloc, old)?;
        let new = two_chains(cases.alloc, new)?;
        if !run_chains(cases.alloc, &old, &new, strings, parities % PAIRS, run)? {
            cases.compare("chains", "not of the same cells", "of the same cells")?;
        }
    }
    Ok(())
}

/// Compares numbers with those of a row, and counts the calls.
fn compare(
    cases: &mut Cases,
    name: &str,
    calls: usize,
    numbers: &[u64],
    wanted: &str,
) -> Result<(), NoMemory> {
    let mut came = String::new(cases.alloc);
    for number in numbers {
        put(&mut came, &[Part::Number(*number), Part::Text(" ")])?;
    }
    cases.tried = cases.tried.saturating_add(calls as u64);
    cases.compare(name, came.as_str().trim_end(), wanted)
}

/// Plays calls on the chains of a row, with strings that are filled here.
fn try_played(
    cases: &mut Cases,
    row: &Value,
    sizes: Sizes,
    strings: &mut Strings,
) -> Result<(), NoMemory> {
    fill_strings(cases.alloc, strings, sizes)?;
    let mut run = Run {
        calls: 0,
        retargeted: 0,
        passed: 0,
    };
    run_parities(cases, sizes, strings, &mut run)?;
    let numbers = [run.retargeted, run.passed];
    compare(cases, "played", run.calls, &numbers, text(row, "played"))
}

/// How many calls are accepted, and how many are refused for a short load or a long compare, where all strings come.
fn judge_all(
    alloc: Global,
    chains: &Chains,
    strings: &Strings,
    judged: &mut [u64; 3],
) -> Result<(), NoMemory>
    requires { AreChains chains.now }
{
    for number in 0..PRIME * PRIME {
        let call = call(alloc, strings, paired(number))?;
        if is_call_for(chains, &call) {
            let place = match judge_call(chains, &call) {
                None => 0,
                Some(Kind::ShortLoad) => 1,
                Some(_) => 2,
            };
            judged[place] = judged[place].wrapping_add(1);
        }
    }
    Ok(())
}

/// Judges all calls on the chains of a row at some parities, with strings that are filled here.
fn try_judged(
    cases: &mut Cases,
    row: &Value,
    sizes: Sizes,
    strings: &mut Strings,
) -> Result<(), NoMemory> {
    fill_strings(cases.alloc, strings, [4, 4])?;
    for parities in (0..parities_of(sizes)).step_by(JUDGED) {
        let made = Made {
            sizes,
            order: parities * 7,
            parities,
        };
        let mut judged = [0u64; 3];
        if let Some(chains) = &two_chains(cases.alloc, made)? {
            judge_all(cases.alloc, chains, strings, &mut judged)?;
        }
        compare(cases, "judged", PRIME * PRIME, &judged, text(row, "judged"))?;
    }
    Ok(())
}

/// How many bits a chain of a row has; none where it says nothing of the chain.
fn size_at(row: &Value, chain: usize) -> usize {
    match list(row, "sizes").get(chain) {
        Some(size) => usize::try_from(number_of(size)).unwrap_or(0),
        None => 0,
    }
}

pub(crate) fn try_row(cases: &mut Cases, row: &Value) -> Result<(), NoMemory> {
    let sizes = [size_at(row, 0), size_at(row, 1)];
    let mut within = no_strings(cases.alloc);
    try_played(cases, row, sizes, &mut within)?;
    let mut beyond = no_strings(cases.alloc);
    try_judged(cases, row, sizes, &mut beyond)
}
