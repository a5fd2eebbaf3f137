//! Tries desks, runs in which each call of the desk fails in turn, and patterns that come in pieces, and prints for each subject how
//! many cases there were and those that are answered otherwise than they say.
//!
//! The runs read the files of three flops in `data/`, which holds what is to be written too. The subject `wrong` holds a case for
//! each way in which a comparison can fail; each of them must be printed.
//!
//! Floor: tests, on row_forms, scan_job, desk_io and base_types.
#![tactic(auto)]

mod desks;
mod files;
mod pieces;
mod runs;

use base_types::NoMemory;
use desk_io::Slot;
use files::{Flops, INPUTS, OUTPUTS, Texts};
use row_forms::{Cases, print_cases};
use std::alloc::Global;
use std::rt::Files;
use std::{fs, io};

/// The texts of files in `data/`.
fn read_texts(rt: &(impl Files + AllocGlobal), files: &[(Slot, &str)]) -> io::Result<Texts> {
    let mut texts = Vec::new(rt.alloc());
    for (slot, name) in files {
        texts.push((*slot, fs::read(rt, *name)?))?;
    }
    Ok(texts)
}

/// Cases whose answers are wrong on purpose.
fn wrong(alloc: Global, flops: &Flops) -> Result<Cases, NoMemory> {
    let mut cases = Cases::new(alloc);
    desks::try_rows(&mut cases, desks::WRONG.as_slice())?;
    runs::try_rows(&mut cases, flops, runs::WRONG.as_slice())?;
    pieces::try_rows(&mut cases, flops, pieces::WRONG.as_slice())?;
    Ok(cases)
}

fn main(rt: HostRuntime) -> io::Result<()> {
    let alloc = rt.alloc();
    let flops = Flops {
        read: read_texts(&rt, INPUTS.as_slice())?,
        written: read_texts(&rt, OUTPUTS.as_slice())?,
    };
    print_cases(&rt, "desks", desks::desks(alloc))?;
    print_cases(&rt, "runs", runs::runs(alloc, &flops))?;
    print_cases(&rt, "pieces", pieces::pieces(alloc, &flops))?;
    print_cases(&rt, "wrong", wrong(alloc, &flops))
}
