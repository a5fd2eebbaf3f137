//! Many chains on one path, each of one element between a START and a STOP cell.
ghost use Rattle.std.specs.Prelude.{ℕ, ◌<◌, ◌^◌};

use anyhow::{Result, bail};
use base_types::{NoMemory, Rows};
use chain_rules::{
    ChainSpec, ElementSpec, EndSpec, ListSpec, PathSpec, StepSpec, are_chains, units_of,
};
use std::alloc::{Alloc, Global};
use std::rt::Clock;
use std::time::Instant;

/// A path of as many cells, each of one bit.
fn path_of(alloc: Global, cells: u32) -> Result<PathSpec, NoMemory> {
    let mut steps = Rows::new(alloc);
    for instance in 0..cells {
        steps.push(StepSpec {
            instance,
            path: 0,
            out: 0,
            bits: 1,
        })?;
    }
    Ok(PathSpec {
        input: 0,
        output: 1,
        free_out: true,
        steps,
    })
}

fn cell(instance: u32) -> EndSpec {
    EndSpec::Cell {
        instance,
        path: 0,
        out: None,
    }
}

/// The chain of a number: the cell with an odd number between two with even ones.
fn chain_of(alloc: Global, number: u32) -> Result<ChainSpec, NoMemory>
    requires few { number < 2 ^ 20 }
{
    let mut elements = Rows::new(alloc);
    elements.push(ElementSpec {
        instance: 2 * number + 1,
        path: 0,
        out: None,
    })?;
    let mut lists = Rows::new(alloc);
    lists.push(ListSpec::Floating(elements))?;
    Ok(ChainSpec {
        start: cell(2 * number),
        stop: cell(2 * number + 2),
        lists,
        partition: number,
        max_bits: 0,
        line: 1,
    })
}

fn made(alloc: Global, chains: u32) -> Result<(Rows<PathSpec>, Rows<ChainSpec>), NoMemory>
    requires few { chains < 2 ^ 20 }
{
    let mut paths = Rows::new(alloc);
    paths.push(path_of(alloc, 2 * chains + 1)?)?;
    let mut made = Rows::new(alloc);
    for number in 0..chains {
        made.push(chain_of(alloc, number)?)?;
    }
    Ok((paths, made))
}

/// Reads the units and rules of so many chains, and prints how many units there are, and how long it took where times are asked for.
pub(crate) fn run_chains(
    rt: &(impl Clock + Print + Alloc<A = Global>),
    chains: u32,
    is_timed: bool,
) -> Result<()> {
    let Ok((paths, chains)) = made(rt.alloc(), chains.min(MANY)) else {
        bail!("no memory");
    };
    let (paths, chains) = (paths.as_slice(), chains.as_slice());
    match are_chains(rt.alloc(), paths, chains) {
        Ok(true) => {}
        Ok(false) => bail!("no chains"),
        Err(_) => bail!("no memory"),
    }
    let start = Instant::now(rt)?;
    let Ok(rules) = units_of(rt.alloc(), paths, chains) else {
        bail!("a fault");
    };
    let took = start.elapsed(rt)?;
    println!(rt;
        "chains {} units {}",
        chains.len(),
        rules.units.as_slice().len()
    )?;
    if is_timed {
        println!(rt; "read in {took:?}")?;
    }
    Ok(())
}

const MANY: u32 = 65536;
