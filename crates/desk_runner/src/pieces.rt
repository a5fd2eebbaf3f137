//! Patterns of many rounds, which come in pieces.

use crate::files::{Flops, Manner, SOUND, changed, desk, words_of};
use base_types::NoMemory;
use desk_io::Slot;
use row_forms::Cases;
use scan_job::run;
use std::alloc::Global;

/// Patterns of so many rounds behind a statement, and a run on them.
#[derive(Clone, Copy)]
pub(crate) struct Rounds {
    name: &'static str,
    words: &'static str,
    first: &'static str,
    rounds: usize,
    /// How many bytes an output takes.
    room: usize,
    status: u8,
    /// How many calls of the desk there are.
    calls: u64,
    /// The end of what is said.
    end: &'static str,
}

/// A load and a capture.
const ROUND: &str = "  Call load_unload { si=011; }\n  Call capture;\n";

const PLAY: &str = "play --table t.toml --verilog v.v --stil s.stil --device hold";

const REORDER: &str =
    "reorder --table t.toml --lef m.lef --verilog v.v --def d.def --stil s.stil --out-verilog w.v --out-def w.def --out-stil w.stil --effort full";

const ROWS: [Rounds; 4] = [
    Rounds {
        name: "230 pieces are each asked for once, and their end; 76 are written",
        words: PLAY,
        first: "",
        rounds: 20_000,
        room: 1 << 20,
        status: 0,
        calls: 319,
        end: "20000 pass\nscan 20001 pass\ncells NNN\n",
    },
    Rounds {
        name: "a fault in the first piece is said before another is asked for",
        words: PLAY,
        first: "  Goto x;\n",
        rounds: 20_000,
        room: 1 << 20,
        status: 2,
        calls: 14,
        end: "s.stil:14: PatternUnsupported\n",
    },
    Rounds {
        name: "574 pieces, and a write for each statement and each gap, a gap that is cut counted twice",
        words: REORDER,
        first: "",
        rounds: 50_000,
        room: 1 << 22,
        status: 0,
        calls: 200_658,
        end: "calls 50001\nshifts_read 150003\nshifts_written 150003\n",
    },
    Rounds {
        name: "an output that is full ends the run in the first piece",
        words: REORDER,
        first: "",
        rounds: 50_000,
        room: 1000,
        status: 4,
        calls: 70,
        end: "",
    },
];

pub(crate) const WRONG: [Rounds; 1] = [Rounds {
    name: "another end",
    words: PLAY,
    first: "",
    rounds: 1,
    room: 1 << 20,
    status: 0,
    calls: 15,
    end: "scan 1 pass\nscan 2 fail\ncells NNN\n",
}];

/// What comes of a run: the status, the calls, and the end of what is said, a byte of it where nothing is to be said.
fn answer(alloc: Global, flops: &Flops, row: &Rounds) -> Result<String, NoMemory> {
    let again = ROUND.repeat(alloc, row.rounds)?;
    let many = format!(in alloc; "{}{again}", row.first)?;
    let files = changed(alloc, &flops.read, ROUND, many.as_str())?;
    let manner = Manner {
        room: row.room,
        ..SOUND
    };
    let mut desk = desk(alloc, &files, manner)?;
    let words = words_of(alloc, row.words)?;
    let status = run(alloc, &words, &mut desk);
    let said = desk.written(Slot::Console);
    let end = &said[said.len().saturating_sub(row.end.len().max(1))..];
    let end = str::from_utf8(end).unwrap_or("no text");
    Ok(format!(in alloc; "{status} {} {end:?}", desk.calls())?)
}

/// Tries patterns that come in pieces.
pub(crate) fn try_rows(cases: &mut Cases, flops: &Flops, rows: &[Rounds]) -> Result<(), NoMemory> {
    let alloc = cases.alloc;
    for row in rows {
        let came = answer(alloc, flops, row)?;
        let wanted = format!(in alloc; "{} {} {:?}", row.status, row.calls, row.end)?;
        cases.compare(row.name, came.as_str(), wanted.as_str())?;
    }
    Ok(())
}

pub(crate) fn pieces(alloc: Global, flops: &Flops) -> Result<Cases, NoMemory> {
    let mut cases = Cases::new(alloc);
    try_rows(&mut cases, flops, ROWS.as_slice())?;
    Ok(cases)
}
