//! Cases that a program tries by itself, which no file of rows tells.
use base_types::NoMemory;
use std::alloc::Global;
use std::fmt::Write;
use std::io;

/// What was tried of a subject: how many cases, and a line for each that was answered otherwise than it says.
#[derive(Drop)]
pub struct Cases {
    /// What memory is taken from.
    pub alloc: Global,
    /// How many cases there were.
    pub tried: u64,
    /// The lines of those that were answered otherwise.
    pub lines: String,
}

impl Cases {
    /// None yet.
    pub fn new(alloc: Global) -> Cases {
        Cases {
            alloc,
            tried: 0,
            lines: String::new(alloc),
        }
    }

    /// Counts a case, and notes it where another answer came than was wanted. Err where memory is wanted.
    pub fn compare(&mut self, name: &str, came: &str, wanted: &str) -> Result<(), NoMemory> {
        self.tried = self.tried.saturating_add(1);
        if came != wanted {
            writeln!(&mut self.lines, "  {name}: {came}, not {wanted}")?;
        }
        Ok(())
    }
}

/// Prints what came of a subject. Err where printing fails.
pub fn print_cases(
    rt: &impl Print,
    subject: &str,
    tried: Result<Cases, NoMemory>,
) -> io::Result<()> {
    match tried {
        Ok(cases) => print!(rt; "{subject} {} cases\n{}", cases.tried, cases.lines),
        Err(NoMemory) => println!(rt; "{subject}: out of memory"),
    }
}
