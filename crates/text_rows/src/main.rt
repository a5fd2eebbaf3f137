//! Tells what one text of a format is read as, for rows of `rows/texts`: its words are a call and a file. What comes is printed,
//! or the first fault.
//!
//! Floor: tests, on row_forms, cell_table, netlist_core, chain_trace, token_forms, verilog_syntax, verilog_reader,
//! def_tokens, stil_types, stil_tokens, stil_head, stil_calls, stil_reader, stil_stream, base_types and `anyhow`.
#![tactic(auto)]

ghost use Rattle.std.specs.Prelude.{◌<◌, ◌^◌, length};

mod cells;
mod heads;
mod items;
mod netlists;
mod patterns;
mod tokens;

use anyhow::{Context, Result, bail, ensure};
use base_types::ReadFault;
use row_forms::fault_text;
use std::alloc::Global;
use std::{env, fs};

/// What a call answers to a text, if there is one of this name, or the first fault.
fn answered(alloc: Global, call: &str, text: &[u8]) -> Result<Option<String>, ReadFault>
    requires { length text.now < 2 ^ 32 }
{
    Ok(Some(match call {
        "cells" => cells::table(alloc, text)?,
        "lines" => tokens::lines(alloc, text)?,
        "verilog-tokens" => tokens::of_verilog(alloc, text)?,
        "def-tokens" => tokens::of_def(alloc, text)?,
        "stil-tokens" => tokens::of_stil(alloc, text)?,
        "def-sizes" => tokens::def_sizes(alloc, text)?,
        "stil-sizes" => tokens::stil_sizes(alloc, text)?,
        "integer" => tokens::number(alloc, text, false)?,
        "decimal" => tokens::number(alloc, text, true)?,
        "items" => items::items(alloc, text)?,
        "netlist" => netlists::netlist(alloc, netlists::Asked::Whole, text)?,
        "instances" => netlists::netlist(alloc, netlists::Asked::Instances, text)?,
        "places" => netlists::netlist(alloc, netlists::Asked::Places, text)?,
        "classes" => netlists::netlist(alloc, netlists::Asked::Classes, text)?,
        "head" => heads::head(alloc, text)?,
        "statement" => patterns::statement(alloc, text)?,
        "judged" => patterns::judged(alloc, text)?,
        "formed" => patterns::formed(alloc, text)?,
        "pieces" => patterns::pieces(alloc, text)?,
        _ => return Ok(None),
    }))
}

fn main(rt: HostRuntime) -> Result<()> {
    let alloc = rt.alloc();
    let mut words = env::args(&rt)?.skip(1);
    let call = words.next().context("no call")?;
    let file = words.next().context("no file")?;
    let text = fs::read(&rt, file.as_str())?;
    ensure!(text.len() < 1 << 32, "the text is too long");
    match answered(alloc, call.as_str(), &text) {
        Ok(Some(answer)) => print!(rt; "{answer}")?,
        Ok(None) => bail!("no such call"),
        Err(ReadFault::Fault(fault)) => {
            let Ok(line) = fault_text(alloc, &fault) else {
                bail!("no memory");
            };
            print!(rt; "{line}")?;
        }
        Err(ReadFault::NoMemory) => bail!("no memory"),
    }
    Ok(())
}
