//! The form of each command, by the table of commands, and what it does.

use base_types::NoMemory;
use scan_words::{Need, OptionForm, OptionName, ValueForm, Verb};
use std::alloc::Global;
use std::fmt;
use std::fmt::{Display, Formatter};

/// The program's version.
pub const VERSION: &str = "0.28";

/// The program's file, by which the documents call it.
pub const PROGRAM: &str = "scan_cli";

/// What is told where memory is short for more.
pub const SHORT_USAGE: &str = "usage: scan_cli COMMAND OPTIONS";

const STATUSES: &str =
    "status: 0 done, 1 words of no such form, 2 refused, 3 an input failed, 4 an output or the console failed, 5 want of memory";

/// The commands in the order in which a user wants them.
static LISTED: [Verb; 11] = [
    Verb::Reorder,
    Verb::Check,
    Verb::Bound,
    Verb::Verify,
    Verb::Failmap,
    Verb::Balance,
    Verb::Draw,
    Verb::Bench,
    Verb::Play,
    Verb::Trace,
    Verb::Rewire,
];

/// What a command does.
fn purpose_of(verb: Verb) -> &'static str {
    match verb {
        Verb::Reorder => {
            "puts the scan chains of a placed design into a shorter order, and changes its scan patterns to match"
        }
        Verb::Check => {
            "says whether a placed design, its scan chains and its netlist agree, and how long the chains are"
        }
        Verb::Bound => {
            "says how short the scan chains can be at best for the units that each has now, by numbers that prove it; better ones with N rounds, from 0 to 1000"
        }
        Verb::Verify => {
            "tells whether a netlist and its patterns mean the same as another netlist and other patterns; only shifting is compared, the logic of the netlists isn't"
        }
        Verb::Failmap => {
            "carries a log of fails of the new patterns back to the old ones: a line is Pattern, scan call and chain, from 1, and compare, from 0 at the output"
        }
        Verb::Balance => {
            "moves units between the scan chains of a placed design, so that the longest path has few bits, and changes its scan patterns to match"
        }
        Verb::Draw => "draws the scan chains of a placed design; the legend says how long each is",
        Verb::Bench => {
            "reorders a made design of N units, from 8 to 16384, and says what reorder says"
        }
        Verb::Play => {
            "tells whether scan patterns pass on a netlist as it stands; only shifting is played, no logic is simulated"
        }
        Verb::Trace => "tells the scan path of one output",
        Verb::Rewire => { "puts one scan chain of one cell kind into the order of the instances" }
    }
}

/// What stands for the value of an option.
fn value_shown(form: ValueForm) -> &'static str {
    match form {
        ValueForm::File => "FILE",
        ValueForm::Pin | ValueForm::Name => "NAME",
        ValueForm::Effort => "order|full",
        ValueForm::Device => "hold|mix",
        ValueForm::Rounds | ValueForm::Units => "N",
    }
}

/// The form of a command, from its word on.
#[derive(Clone, Copy)]
struct CommandForm {
    verb: Verb,
}

/// Writes an option and what stands for its value.
fn write_option<W: fmt::Write>(f: &mut Formatter<W>, option: OptionName) -> fmt::Result {
    write!(
        f,
        "--{} {}",
        option.text(),
        value_shown(option.value_form())
    )
}

/// Writes the options of a table that stand exactly where this one does.
fn write_partners<W: fmt::Write>(
    f: &mut Formatter<W>,
    table: &[OptionForm],
    name: OptionName,
) -> fmt::Result {
    for option in table {
        if option.need == Need::With(name) {
            f.write_str(" ")?;
            write_option(f, option.name)?;
        }
    }
    Ok(())
}

impl Display for CommandForm {
    fn fmt<W: fmt::Write>(&self, f: &mut Formatter<W>) -> fmt::Result {
        let table = self.verb.options();
        f.write_str(self.verb.name())?;
        for option in table {
            match option.need {
                Need::Needed => {
                    f.write_str(" ")?;
                    write_option(f, option.name)?;
                }
                Need::Optional => {
                    f.write_str(" [")?;
                    write_option(f, option.name)?;
                    write_partners(f, table, option.name)?;
                    f.write_str("]")?;
                }
                Need::With(_) => {}
            }
        }
        if self.verb.takes_further() {
            f.write_str(" INSTANCE ..")?;
        }
        Ok(())
    }
}

/// A line of this text.
fn line_of(alloc: Global, text: &str) -> Result<String, NoMemory> {
    Ok(String::from_str(alloc, text)?)
}

/// The line that says which program this is.
pub(crate) fn head_line(alloc: Global) -> Result<String, NoMemory> {
    Ok(format!(in alloc; "Wrenpewter {VERSION} ({PROGRAM})")?)
}

/// Appends the form of a command and what it does.
pub(crate) fn form_lines(
    alloc: Global,
    lines: &mut Vec<String>,
    verb: Verb,
) -> Result<(), NoMemory> {
    let form = CommandForm { verb };
    let purpose = purpose_of(verb);
    lines.push(format!(in alloc; "usage: {PROGRAM} {form}")?)?;
    lines.push(format!(in alloc; "  {purpose}")?)?;
    Ok(())
}

/// Appends the whole usage: of each command its form and what it does, and the statuses.
pub(crate) fn usage_lines(alloc: Global, lines: &mut Vec<String>) -> Result<(), NoMemory> {
    lines.push(head_line(alloc)?)?;
    lines.push(line_of(alloc, SHORT_USAGE)?)?;
    lines.push(line_of(alloc, "")?)?;
    for verb in LISTED {
        let form = CommandForm { verb };
        let purpose = purpose_of(verb);
        lines.push(format!(in alloc; "  {form}")?)?;
        lines.push(format!(in alloc; "      {purpose}")?)?;
    }
    lines.push(line_of(alloc, "")?)?;
    lines.push(line_of(alloc, STATUSES)?)?;
    Ok(())
}
