//! The tokens of a generated netlist of one chain of flops; and reading it, and tracing its chain.
ghost use Rattle.std.specs.Prelude.{◌<◌, ◌^◌};
ghost use Rattle.netlist_core.specs.Netlists.{IsNetlist};

use anyhow::{Context, Result, bail, ensure};
use base_types::{Name, Span};
use cell_table::CellTable;
use chain_trace::{output_named, trace};
use netlist_core::{Netlist, classes_of};
use std::alloc::{Alloc, Global};
use std::fmt::Write;
use std::rt::Clock;
use std::time::Instant;
use verilog_reader::read_netlist;
use verilog_syntax::verilog_tokens;

/// So many wires stand in one line, and their flops behind it.
const BLOCK: u32 = 100;

/// More blocks than a text of 4 GiB has.
const BLOCKS: u32 = 1_000_000;

const HEADER: &str = "module top ( clk, se, d, si, so );
  input clk, se, d, si;
  output so;
";

/// A flop that shifts from the one before it; the first one from the input.
fn push_flop(text: &mut String, flop: u32) -> Result<()> {
    write!(text, "  SDF f{flop} ( .D(d), .CK(clk), .SE(se), .SI(")?;
    match flop.checked_sub(1) {
        Some(before) => write!(text, "q{before}")?,
        None => text.push_str("si")?,
    }
    writeln!(text, "), .Q(q{flop}), .QN() );")?;
    Ok(())
}

/// A line of wires, and the flops that drive them.
fn push_block(text: &mut String, first: u32) -> Result<()>
    requires { first < 2 ^ 31 }
{
    write!(text, "  wire q{first}")?;
    for flop in first + 1..first + BLOCK {
        write!(text, ", q{flop}")?;
    }
    text.push_str(";\n")?;
    for flop in first..first + BLOCK {
        push_flop(text, flop)?;
    }
    Ok(())
}

/// The netlist of one chain of flops, in so many bytes or a block more.
fn netlist_text(alloc: Global, size: usize) -> Result<String> {
    let mut text = String::new(alloc);
    text.push_str(HEADER)?;
    let mut last = 0;
    for block in 0..BLOCKS {
        if text.len() >= size {
            break;
        }
        let first = block * BLOCK;
        push_block(&mut text, first)?;
        last = first + (BLOCK - 1);
    }
    writeln!(text, "  assign so = q{last};\nendmodule")?;
    Ok(text)
}

/// Cuts a netlist of so many bytes into its tokens.
pub(crate) fn run_tokens(
    rt: &(impl Alloc<A = Global> + Clock + Print),
    size: usize,
    is_timed: bool,
) -> Result<()> {
    let text = netlist_text(rt.alloc(), size)?;
    ensure!(text.len() < 0xffff_ffff, "too many megabytes");
    let start = Instant::now(rt)?;
    let Ok(spans) = verilog_tokens(rt.alloc(), text.as_bytes()) else {
        bail!("no memory");
    };
    let micros = start.elapsed(rt)?.as_micros();
    println!(rt; "{} bytes, {} tokens", text.len(), spans.len())?;
    if is_timed {
        let room = spans.capacity().saturating_mul(size_of::<Span>());
        println!(rt; "{micros} microseconds, {room} bytes of memory")?;
    }
    Ok(())
}

/// The number of steps of the chain to its output.
fn trace_output(alloc: Global, netlist: &Netlist) -> Result<usize>
    requires { IsNetlist netlist.now }
{
    let cell = Name::copy(alloc, b"SDF").ok().context("no memory")?;
    let input = Name::copy(alloc, b"SI").ok().context("no memory")?;
    let out = Name::copy(alloc, b"Q").ok().context("no memory")?;
    let table = CellTable::one(alloc, &cell, &input, &out)
        .ok()
        .context("no memory")?;
    let Some(output) = output_named(netlist, b"so") else {
        bail!("no output");
    };
    let Ok(classes) = classes_of(alloc, netlist) else {
        bail!("no memory");
    };
    let path = trace(alloc, netlist, &classes, &table, output)
        .ok()
        .context("no path")?;
    Ok(path.steps.as_slice().len())
}

/// Reads a netlist of so many bytes and traces its chain.
pub(crate) fn run_reading(
    rt: &(impl Alloc<A = Global> + Clock + Print),
    size: usize,
    is_timed: bool,
) -> Result<()> {
    let text = netlist_text(rt.alloc(), size)?;
    let bytes = text.len();
    ensure!(bytes < 0xffff_ffff, "too many megabytes");
    let start = Instant::now(rt)?;
    let Ok(netlist) = read_netlist(rt.alloc(), text.as_bytes()) else {
        bail!("no netlist");
    };
    let to_read = start.elapsed(rt)?.as_micros();
    let start = Instant::now(rt)?;
    let steps = trace_output(rt.alloc(), &netlist)?;
    let to_trace = start.elapsed(rt)?.as_micros();
    let nets = netlist.nets.as_slice().len();
    println!(rt; "{bytes} bytes, {nets} nets, {steps} steps")?;
    if is_timed {
        let rate = bytes as u128 / to_read.max(1);
        println!(rt;
            "read in {to_read} microseconds, {rate} MB/s; traced in {to_trace} microseconds"
        )?;
    }
    Ok(())
}
