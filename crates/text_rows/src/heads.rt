//! What the heads of STIL texts declare.
ghost use Rattle.std.specs.Prelude.{◌<◌, ◌^◌, length};

use base_types::{NoMemory, ReadFault};
use row_forms::{Part, put};
use std::alloc::Global;
use stil_head::read_head;
use stil_types::{Callee, ScanChainDecl};

/// A declared chain: name, length, in, out, inversion, cells, line; an exclamation mark where cells have inversion marks.
fn push_chain(text: &mut String, chain: &ScanChainDecl, marks: bool) -> Result<(), NoMemory> {
    let blank = Part::Text(" ");
    let inversion = match chain.inversion {
        Some(true) => " 1 ",
        Some(false) => " 0 ",
        None => " - ",
    };
    put(
        text,
        &[
            Part::Word(chain.name.bytes()),
            blank,
            Part::Number(u64::from(chain.length)),
            blank,
            Part::Word(chain.scan_in.bytes()),
            blank,
            Part::Word(chain.scan_out.bytes()),
            Part::Text(inversion),
        ],
    )?;
    match &chain.cells {
        Some(cells) => {
            for cell in cells.as_slice() {
                put(text, &[Part::Word(cell.bytes()), blank])?;
            }
        }
        None => put(text, &[Part::Text("-")])?,
    }
    let mark = Part::Text(if marks { "!@" } else { "@" });
    put(text, &[mark, Part::Number(chain.line), Part::Text("\n")])
}

fn push_callees(text: &mut String, callees: &[Callee]) -> Result<(), NoMemory> {
    for callee in callees {
        let mark = Part::Text(if callee.scan { "! " } else { " " });
        put(text, &[Part::Word(callee.name.bytes()), mark])?;
    }
    put(text, &[Part::Text("|")])
}

/// Chains, then procedures, macros and keywords with a bar between.
pub(crate) fn head(alloc: Global, source: &[u8]) -> Result<String, ReadFault>
    requires { length source.now < 2 ^ 32 }
{
    let head = read_head(alloc, source)?;
    let mut text = String::new(alloc);
    for chain in head.chains.as_slice() {
        push_chain(&mut text, chain, head.marks)?;
    }
    push_callees(&mut text, head.procedures.as_slice())?;
    push_callees(&mut text, head.macros.as_slice())?;
    for name in head.keywords.as_slice() {
        put(&mut text, &[Part::Word(name.bytes()), Part::Text(" ")])?;
    }
    Ok(text)
}
