//! The warnings of patterns that come statement by statement.

use crate::given::{Given, Givens};
use crate::groups::{Names, add_groups};
use crate::references::{BitRange, References};
use base_types::{Lines, NoMemory, Word, line_of};
use indexmap::IndexMap;
use std::alloc::Global;
use stil_types::{BodyStatement, PatternStatement, StilHead};

/// What is to be warned of in patterns, as their text comes: a statement between scans that gives data to a scan-out port, or to a group of
/// signals whose definition names one, warns once a name (IEEE 1450-1999, SignalGroups, ScanStructures and Pattern statements).
#[derive(Drop)]
pub struct PatternWarnings {
    /// The name of the file.
    file: Word,
    /// The ports and groups, and whether of each a warning was given.
    names: Names,
    /// How many of them gave none.
    left: usize,
    /// The line of what comes next, from 1.
    line: u64,
    lines: Vec<String>,
}

/// How many line feeds a text has.
fn line_feeds(text: &[u8]) -> u64 {
    line_of(text, text.len()).saturating_sub(1)
}

fn warning(alloc: Global, file: &str, line: u64, name: &[u8]) -> Result<String, NoMemory> {
    let name = String::from_utf8_lossy(alloc, name)?;
    Ok(format!(in alloc;
        "warning: {file}:{line}: {name} is compared between scans; what it shows there may change"
    )?)
}

impl PatternWarnings {
    /// Nothing is warned of yet: the head of a file was read, whose patterns come next. Or want of memory.
    pub fn new(
        alloc: Global,
        file: Word,
        text: &[u8],
        head: &StilHead,
    ) -> Result<PatternWarnings, NoMemory> {
        let mut names = IndexMap::new(alloc);
        for chain in head.chains.as_slice() {
            names.insert(Vec::from_slice(alloc, chain.scan_out.bytes())?, false)?;
        }
        if text.len() <= u32::MAX as usize {
            add_groups(alloc, &mut names, text)?;
        }
        Ok(PatternWarnings {
            file,
            left: names.len(),
            names,
            line: line_of(text, text.len()),
            lines: Vec::new(alloc),
        })
    }

    /// The warnings so far, a line each without its end.
    pub fn lines(&self) -> &[String] {
        self.lines.as_slice()
    }

    /// Passes what belongs to no statement.
    pub fn pass(&mut self, text: &[u8]) {
        self.line = self.line.saturating_add(line_feeds(text));
    }

    /// Looks at a statement, and passes it. Or want of memory.
    pub fn look(&mut self, alloc: Global, statement: &PatternStatement) -> Result<(), NoMemory> {
        match statement {
            PatternStatement::Scan { text, .. } => self.pass(text.bytes()),
            PatternStatement::Other { text, .. } => {
                self.look_at(alloc, text.bytes(), self.line)?;
                self.pass(text.bytes());
            }
            PatternStatement::Loop { text, body, .. } => {
                self.look_into(alloc, text.bytes(), body.as_slice())?;
                self.pass(text.bytes());
            }
        }
        Ok(())
    }

    /// Looks at the statements between scans in the block of a Loop.
    fn look_into(
        &mut self,
        alloc: Global,
        text: &[u8],
        body: &[BodyStatement],
    ) -> Result<(), NoMemory> {
        for statement in body {
            if statement.call.is_none() {
                if let Some(bytes) = text.get(statement.start as usize..statement.end as usize) {
                    self.look_at(alloc, bytes, statement.line)?;
                }
            }
        }
        Ok(())
    }

    /// Looks at a statement between scans whose first byte stands in this line.
    fn look_at(&mut self, alloc: Global, text: &[u8], line: u64) -> Result<(), NoMemory> {
        if self.left == 0 || text.len() > u32::MAX as usize {
            return Ok(());
        }
        let mut lines = Lines::of(text);
        let mut givens = Givens::of(text);
        while let Some(given) = givens.next() {
            if given.compared {
                let behind = lines.line_of(given.start).saturating_sub(1);
                self.find(alloc, &given, line.saturating_add(behind))?;
            }
        }
        Ok(())
    }

    /// Finds the names to which data are given.
    fn find(&mut self, alloc: Global, given: &Given<'_>, line: u64) -> Result<(), NoMemory> {
        let mut references = References::of(given.expression);
        while let Some(reference) = references.next() {
            match reference.whole() {
                Some(name) => self.find_name(alloc, name, line)?,
                None => {
                    let name = reference.joined(alloc)?;
                    self.find_name(alloc, name.as_slice(), line)?;
                }
            }
        }
        Ok(())
    }

    /// Finds a name, or the bits that it names.
    fn find_name(&mut self, alloc: Global, name: &[u8], line: u64) -> Result<(), NoMemory> {
        if let Some(at) = self.names.get_index_of(name) {
            return self.warn(alloc, at, line);
        }
        let Some(bits) = BitRange::of(name) else {
            return Ok(());
        };
        for at in 0..self.names.len() {
            if let Some((known, _warned)) = self.names.get_index(at) {
                if bits.has(known.as_slice()) {
                    self.warn(alloc, at, line)?;
                }
            }
        }
        Ok(())
    }

    /// Warns of a name, once.
    fn warn(&mut self, alloc: Global, at: usize, line: u64) -> Result<(), NoMemory> {
        match self.names.get_index(at) {
            Some((name, warned)) => {
                if *warned {
                    return Ok(());
                }
                let text = warning(alloc, self.file.as_str(), line, name.as_slice())?;
                self.lines.push(text)?;
            }
            None => return Ok(()),
        }
        if let Some(warned) = self.names.get_index_mut(at) {
            *warned = true;
        }
        self.left = self.left.saturating_sub(1);
        Ok(())
    }
}
