//! How calls are retargeted: 32 chains, cells in two orders at random, with parities.
ghost use Rattle.std.specs.Prelude.{IfOk};
ghost use Rattle.stil_tester.specs.Shifting.{AreChains};

use crate::calls::{cut, full_call, lengths, shuffled};
use crate::dice::Dice;
use anyhow::{Context, Result, bail, ensure};
use base_types::Text;
use retarget::{judge_call, map_of, retarget_call};
use std::alloc::{Alloc, Global};
use std::rt::Clock;
use std::time::Instant;
use stil_tester::{Chains, are_chains, is_call_for};
use stil_types::ScanCall;

/// Chains that are well-formed, cut from the cells in an order at random.
fn sound_chains(alloc: Global, cells: u32, swing: usize, dice: &mut Dice) -> Result<Chains>
    ensures { IfOk result AreChains }
{
    let order = shuffled(alloc, cells, dice).ok().context("no memory")?;
    let lengths = lengths(alloc, order.len(), swing)
        .ok()
        .context("no memory")?;
    let chains = cut(alloc, &order, &lengths, dice)
        .ok()
        .context("no memory")?;
    let are_sound = are_chains(alloc, &chains).ok().context("no memory")?;
    ensure!(are_sound, "a bit for each chain");
    Ok(chains)
}

/// The characters of all strings of a call.
fn characters_of(call: &ScanCall) -> usize {
    let mut all = 0usize;
    for strings in [call.loads.as_slice(), call.compares.as_slice()] {
        for string in strings {
            all = all.wrapping_add(string.as_ref().map_or(0, |text| text.bytes().len()));
        }
    }
    all
}

/// Retargets a call so many times.
fn time_call(
    rt: &(impl Alloc<A = Global> + Clock + Print),
    old: &Chains,
    new: &Chains,
    call: &ScanCall,
    rounds: usize,
    is_timed: bool,
) -> Result<()>
    requires old { AreChains old.now }
    requires new { AreChains new.now }
{
    ensure!(old.cells == new.cells, "as many cells");
    ensure!(
        old.chains.as_slice().len() == new.chains.as_slice().len(),
        "as many chains"
    );
    ensure!(is_call_for(old, call), "a call for these chains");
    match judge_call(old, call) {
        Some(kind) => bail!("{kind}"),
        None => {}
    }
    let Ok(map) = map_of(rt.alloc(), old, new) else {
        bail!("no memory");
    };
    let mut characters = 0usize;
    let start = Instant::now(rt)?;
    for _ in 0..rounds {
        let Ok(written) = retarget_call(rt.alloc(), &map, call) else {
            bail!("no memory");
        };
        characters = characters.wrapping_add(characters_of(&written));
    }
    let micros = start.elapsed(rt)?.as_micros().max(1);
    println!(rt; "{rounds} calls, {characters} characters")?;
    if is_timed {
        let calls = (rounds as u128).saturating_mul(1_000_000) / micros;
        let megabytes = (characters as u128) / micros;
        println!(rt; "{calls} calls and {megabytes} MB of characters in a second")?;
    }
    Ok(())
}

/// Retargets a call on chains of so many cells so many times.
pub(crate) fn run(
    rt: &(impl Alloc<A = Global> + Clock + Print),
    cells: u32,
    rounds: usize,
    is_timed: bool,
) -> Result<()> {
    let mut dice = Dice::new();
    let old = sound_chains(rt.alloc(), cells, 0, &mut dice)?;
    let new = sound_chains(rt.alloc(), cells, cells as usize / 256, &mut dice)?;
    let Ok(call) = full_call(rt.alloc(), &old, &mut dice) else {
        bail!("no memory");
    };
    time_call(rt, &old, &new, &call, rounds, is_timed)
}
