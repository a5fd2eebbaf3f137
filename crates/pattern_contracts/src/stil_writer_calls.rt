//! The contracts of `stil_writer`.
ghost use Rattle.std.specs.Prelude.{IfOk, length, ◌<◌, ◌^◌, ◌≡◌};
ghost use Rattle.stil_writer.specs.Calls.{written_scan};
ghost use Rattle.stil_writer.specs.Laws.{ReadsLaw};
ghost use Rattle.stil_writer.specs.Loops.{written_loop};

use base_types::{NoMemory, Text};
use std::alloc::Global;
use stil_types::{BodyStatement, ScanCall, StilHead};

/// As `stil_writer::stil_statement`.
pub fn stil_statement(
    alloc: Global,
    text: &[u8],
    head: &StilHead,
    call: &ScanCall,
) -> Result<Text, NoMemory>
    requires size { length text.now < 2 ^ 32 }
    ensures value { IfOk result (λ new. new ≡ written_scan head.now.chains text.now call.now) }
{
    stil_writer::stil_statement(alloc, text, head, call)
}

/// As `stil_writer::stil_loop`.
pub fn stil_loop(
    alloc: Global,
    text: &[u8],
    head: &StilHead,
    body: &[BodyStatement],
    calls: &[ScanCall],
) -> Result<Text, NoMemory>
    requires size { length text.now < 2 ^ 32 }
    ensures value { IfOk result (λ new. new ≡ written_loop head.now.chains text.now body.now calls.now) }
{
    stil_writer::stil_loop(alloc, text, head, body, calls)
}

/// As `stil_writer::reads_law`.
pub fn reads_law()
    ensures law { ReadsLaw }
{
    stil_writer::reads_law()
}
