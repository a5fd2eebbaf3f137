//! Runs of the commands on three flops in which each call of the desk fails in turn.

use crate::files::{Flops, Manner, SOUND, Texts, changed, desk, words_of};
use base_types::{NoMemory, Word};
use desk_io::{MemoryDesk, Slot, Way};
use row_forms::Cases;
use scan_job::run;
use std::alloc::Global;
use std::fmt::Write;

const SLOTS: [Slot; 13] = [
    Slot::Table,
    Slot::Lef,
    Slot::Verilog,
    Slot::Def,
    Slot::Stil,
    Slot::NewVerilog,
    Slot::NewStil,
    Slot::Log,
    Slot::OutVerilog,
    Slot::OutDef,
    Slot::OutStil,
    Slot::OutSvg,
    Slot::Console,
];

/// A run, and what comes of it where no call fails.
#[derive(Clone, Copy)]
pub(crate) struct Row {
    words: &'static str,
    /// How many bytes a call of the desk moves.
    portion: usize,
    /// A part of the files that are read, and what stands in its place.
    change: (&'static str, &'static str),
    /// Where the written patterns end because of a fault: before this part of them.
    end: Option<&'static str>,
    status: u8,
    /// What is said.
    console: &'static str,
    /// The calls in their order: how many on one slot, before calls on another.
    calls: &'static [(Slot, u64)],
}

/// The run that others are made of: `check` of the files as they are.
const CHECK: Row = Row {
    words: "check --table t.toml --lef m.lef --verilog v.v --def d.def",
    portion: 4096,
    change: ("LHX", "LHX"),
    end: None,
    status: 0,
    console: "chain ch1 units 3 bits 3 length 120000\nlength 120000\n",
    calls: &[
        (Slot::Table, 4),
        (Slot::Lef, 4),
        (Slot::Verilog, 4),
        (Slot::Def, 4),
        (Slot::Console, 3),
    ],
};

/// What `reorder` without patterns writes and says.
const REORDER: Row = Row {
    words: "reorder --table t.toml --lef m.lef --verilog v.v --def d.def --out-verilog w.v --out-def w.def --effort full",
    console: "chains 1\nunits 3\nlength_read 120000\nlength_nearest 80000\nlength_written 80000\npins_moved 3\nnets_cut 1\n",
    calls: &[
        (Slot::Table, 4),
        (Slot::Lef, 4),
        (Slot::Verilog, 4),
        (Slot::Def, 4),
        (Slot::OutVerilog, 3),
        (Slot::OutDef, 3),
        (Slot::Console, 3),
    ],
    ..CHECK
};

/// `reorder` with patterns, 200 bytes a call. The patterns' head has 340 bytes, so its end shows in the second piece, and the other outputs
/// wait until all patterns are written: the head by two calls, and then each gap and each statement by one.
const PATTERNS: Row = Row {
    words: "reorder --table t.toml --lef m.lef --verilog v.v --def d.def --stil s.stil --out-verilog w.v --out-def w.def --out-stil w.stil --effort full",
    portion: 200,
    console: "chains 1\nunits 3\nlength_read 120000\nlength_nearest 80000\nlength_written 80000\npins_moved 3\nnets_cut 1\ncalls 2\nshifts_read 6\nshifts_written 6\n",
    calls: &[
        (Slot::Table, 4),
        (Slot::Lef, 5),
        (Slot::Verilog, 5),
        (Slot::Def, 8),
        (Slot::Stil, 3),
        (Slot::OutStil, 9),
        (Slot::Stil, 1),
        (Slot::OutStil, 3),
        (Slot::Stil, 2),
        (Slot::OutStil, 1),
        (Slot::OutVerilog, 4),
        (Slot::OutDef, 7),
        (Slot::Console, 3),
    ],
    ..CHECK
};

/// The same where the second call compares behind the chain's bits: what stands before it is written, the other outputs aren't opened, and
/// the fault is said.
const FAULT: Row = Row {
    change: ("LHX", "LHXH"),
    end: Some("Call load_unload {\n    \"si\"=NNN;"),
    status: 2,
    console: "s.stil:16: LongCompare\n",
    calls: &[
        (Slot::Table, 4),
        (Slot::Lef, 5),
        (Slot::Verilog, 5),
        (Slot::Def, 8),
        (Slot::Stil, 3),
        (Slot::OutStil, 9),
        (Slot::Stil, 1),
        (Slot::OutStil, 1),
        (Slot::Stil, 1),
        (Slot::OutStil, 1),
        (Slot::Console, 3),
    ],
    ..PATTERNS
};

const ROWS: [Row; 12] = [
    Row {
        words: "rewire --verilog v.v --cell=SDF --in-pin SI --out-pin=Q --scan-in si --scan-out so --out-verilog w.v a c b",
        console: "moved 3\n",
        calls: &[
            (Slot::Verilog, 4),
            (Slot::OutVerilog, 3),
            (Slot::Console, 3),
        ],
        ..CHECK
    },
    Row {
        words: "trace --table t.toml --verilog v.v --scan-out so",
        console: TRACED,
        calls: &[(Slot::Table, 4), (Slot::Verilog, 4), (Slot::Console, 3)],
        ..CHECK
    },
    CHECK,
    REORDER,
    Row {
        words: "reorder --table t.toml --lef m.lef --verilog v.v --def d.def --out-verilog w.v --out-def w.def --effort order",
        ..REORDER
    },
    Row {
        words: "play --table t.toml --verilog v.v --stil s.stil --device hold",
        console: "pattern p1\nscan 1 pass\nscan 2 pass\ncells NNN\n",
        calls: &[
            (Slot::Table, 4),
            (Slot::Verilog, 4),
            (Slot::Stil, 4),
            (Slot::Console, 3),
        ],
        ..CHECK
    },
    Row {
        words: "bound --table t.toml --lef m.lef --verilog v.v --def d.def",
        console: "chain ch1 length 120000 bound 80000\nleave 2000 0 0 0\nenter 20000 20000 20000 18000\nlength 120000 bound 80000\n",
        ..CHECK
    },
    Row {
        words: "verify --table t.toml --verilog v.v --stil s.stil --new-verilog n.v --new-stil n.stil",
        console: "same\n",
        calls: &[
            (Slot::Table, 4),
            (Slot::Verilog, 4),
            (Slot::Stil, 4),
            (Slot::NewVerilog, 4),
            (Slot::NewStil, 4),
            (Slot::Console, 3),
        ],
        ..CHECK
    },
    Row {
        words: "failmap --table t.toml --verilog v.v --stil s.stil --new-verilog n.v --new-stil n.stil --log l.log",
        console: "1 2 1 1\n",
        calls: &[
            (Slot::Table, 4),
            (Slot::Verilog, 4),
            (Slot::Stil, 4),
            (Slot::NewVerilog, 4),
            (Slot::NewStil, 4),
            (Slot::Log, 4),
            (Slot::Console, 3),
        ],
        ..CHECK
    },
    Row {
        words: "draw --table t.toml --lef m.lef --verilog v.v --def d.def --out-svg w.svg",
        console: "drawn 4\n",
        calls: &[
            (Slot::Table, 4),
            (Slot::Lef, 4),
            (Slot::Verilog, 4),
            (Slot::Def, 4),
            (Slot::OutSvg, 3),
            (Slot::Console, 3),
        ],
        ..CHECK
    },
    PATTERNS,
    FAULT,
];

const TRACED: &str = "from si\na SDF SI Q 1\nb SDF SI Q 1\nc SDF SI Q 1\nto so\nparity 0\n";

/// One call of the inputs too few, and another text on the console.
pub(crate) const WRONG: [Row; 2] = [
    Row {
        words: "trace --table t.toml --verilog v.v --scan-out so",
        console: TRACED,
        calls: &[(Slot::Table, 4), (Slot::Verilog, 3), (Slot::Console, 3)],
        ..CHECK
    },
    Row {
        words: "trace --table t.toml --verilog v.v --scan-out so",
        console: "from so\n",
        calls: &[(Slot::Table, 4), (Slot::Verilog, 4), (Slot::Console, 3)],
        ..CHECK
    },
];

/// How many of the first calls of a list are on the slot.
fn calls_on(calls: &[(Slot, u64)], slot: Slot, first: u64) -> u64 {
    let (mut left, mut sum) = (first, 0u64);
    for (on, count) in calls {
        if *on == slot {
            sum = sum.saturating_add(left.min(*count));
        }
        left = left.saturating_sub(*count);
    }
    sum
}

/// How many calls a list has.
fn calls_in(calls: &[(Slot, u64)]) -> u64 {
    let mut sum = 0u64;
    for (_on, count) in calls {
        sum = sum.saturating_add(*count);
    }
    sum
}

/// The slot of a call by its number; none where the list has no such call.
fn slot_at(calls: &[(Slot, u64)], number: u64) -> Option<Slot> {
    let mut passed = 0u64;
    for (slot, count) in calls {
        let before = passed;
        passed = passed.saturating_add(*count);
        if before < number && number <= passed {
            return Some(*slot);
        }
    }
    None
}

/// Whether a call writes: on an output, behind its opening and before its closing.
fn is_write(calls: &[(Slot, u64)], number: u64) -> bool {
    let Some(slot) = slot_at(calls, number) else {
        return false;
    };
    let at = calls_on(calls, slot, number);
    matches!(slot.way(), Way::Out(_)) && 1 < at && at < calls_on(calls, slot, u64::MAX)
}

/// How much of its text stands in an output after so many of all its calls, of which the first opens it and the last closes it.
fn part_of(done: u64, all: u64) -> &'static str {
    if done < 2 {
        "nothing"
    } else if done.saturating_add(1) < all {
        "part"
    } else {
        "all"
    }
}

/// What is to come of a row where the call of this number fails or takes nothing, an input's fault or an output's and no call behind it; 0 is
/// no call's number.
fn wanted(alloc: Global, row: &Row, number: u64) -> Result<String, NoMemory> {
    let (mut text, done) = match slot_at(row.calls, number) {
        Some(slot) => {
            let status = match slot.way() {
                Way::In(_) => 3u8,
                Way::Out(_) => 4u8,
            };
            let text = format!(in alloc; "{status} {number} {slot:?}")?;
            (text, number.saturating_sub(1))
        }
        None => {
            let calls = calls_in(row.calls);
            (format!(in alloc; "{} {calls}", row.status)?, calls)
        }
    };
    for slot in [
        Slot::OutVerilog,
        Slot::OutDef,
        Slot::OutStil,
        Slot::OutSvg,
        Slot::Console,
    ] {
        let all = calls_on(row.calls, slot, u64::MAX);
        let part = part_of(calls_on(row.calls, slot, done), all);
        write!(&mut text, " {part}")?;
    }
    Ok(text)
}

/// What came of a run: the status, the calls, the slots that had a fault, and how much stands in each output of what is to stand there.
fn shown(
    alloc: Global,
    status: u8,
    desk: &MemoryDesk,
    ends: &[(Slot, Vec<u8>)],
) -> Result<String, NoMemory> {
    let mut text = format!(in alloc; "{status} {}", desk.calls())?;
    for slot in SLOTS {
        if desk.faults(slot) > 0 {
            write!(&mut text, " {slot:?}")?;
        }
    }
    for (slot, end) in ends {
        let written = desk.written(*slot);
        text.push_str(if written.is_empty() {
            " nothing"
        } else if written == end.as_slice() {
            " all"
        } else if end.starts_with(written) {
            " part"
        } else {
            " other"
        })?;
    }
    Ok(text)
}

/// The text before a part of it, where that stands in it.
fn up_to<'t>(text: &'t str, part: Option<&str>) -> &'t str {
    let Some(part) = part else {
        return text;
    };
    match text.split_once(part) {
        Some((before, _after)) => before,
        None => text,
    }
}

/// What is to stand in the outputs at the end of a row's run, as far as it writes them.
fn ends_of(alloc: Global, row: &Row, written: &[(Slot, Vec<u8>)]) -> Result<Texts, NoMemory> {
    let mut ends = Vec::new(alloc);
    for (slot, text) in written {
        let end = up_to(str::from_utf8(text).unwrap_or(""), row.end);
        ends.push((*slot, Vec::from_slice(alloc, end.as_bytes())?))?;
    }
    let said = Vec::from_slice(alloc, row.console.as_bytes())?;
    ends.push((Slot::Console, said))?;
    Ok(ends)
}

/// A row with its words, its files, and what is to stand in its outputs.
#[derive(Drop)]
struct Subject<'t> {
    row: &'t Row,
    words: Vec<Word>,
    files: Texts,
    ends: Texts,
}

impl<'t> Subject<'t> {
    fn new(alloc: Global, row: &'t Row, flops: &Flops) -> Result<Subject<'t>, NoMemory> {
        let (old, new) = row.change;
        Ok(Subject {
            row,
            words: words_of(alloc, row.words)?,
            files: changed(alloc, &flops.read, old, new)?,
            ends: ends_of(alloc, row, &flops.written)?,
        })
    }

    /// What comes over a desk that behaves like this.
    fn answer(&self, alloc: Global, manner: Manner) -> Result<String, NoMemory> {
        let mut desk = desk(alloc, &self.files, manner)?;
        let status = run(alloc, &self.words, &mut desk);
        shown(alloc, status, &desk, &self.ends)
    }

    /// Tries a run in which a call fails or a write takes nothing, or neither.
    fn try_call(&self, cases: &mut Cases, failing: u64, empty_write: u64) -> Result<(), NoMemory> {
        let alloc = cases.alloc;
        let came = self.answer(
            alloc,
            Manner {
                portion: self.row.portion,
                failing,
                empty_write,
                ..SOUND
            },
        )?;
        let wanted = wanted(alloc, self.row, failing.max(empty_write))?;
        cases.compare(self.row.words, came.as_str(), wanted.as_str())
    }
}

/// Tries runs: whole, and then with each call failing in turn, and each write taking nothing.
pub(crate) fn try_rows(cases: &mut Cases, flops: &Flops, rows: &[Row]) -> Result<(), NoMemory> {
    for row in rows {
        let subject = Subject::new(cases.alloc, row, flops)?;
        for number in 0..calls_in(row.calls).saturating_add(1) {
            subject.try_call(cases, number, 0)?;
            if is_write(row.calls, number) {
                subject.try_call(cases, 0, number)?;
            }
        }
    }
    Ok(())
}

/// Tries `reorder` with patterns over a desk that moves one byte a call: each of the 2,074 bytes that are read takes a call, and each of the
/// 1,808 that are written, and each of nine slots is opened and closed, and five end.
fn try_bytes(cases: &mut Cases, flops: &Flops) -> Result<(), NoMemory> {
    let subject = Subject::new(cases.alloc, &PATTERNS, flops)?;
    let manner = Manner {
        portion: 1,
        ..SOUND
    };
    let came = subject.answer(cases.alloc, manner)?;
    cases.compare(
        "a byte a call",
        came.as_str(),
        "0 3905 all all all nothing all",
    )
}

pub(crate) fn runs(alloc: Global, flops: &Flops) -> Result<Cases, NoMemory> {
    let mut cases = Cases::new(alloc);
    try_rows(&mut cases, flops, ROWS.as_slice())?;
    try_bytes(&mut cases, flops)?;
    Ok(cases)
}
