//! Patterns that are written anew, one statement after another.
ghost use Rattle.std.specs.Prelude.{◌≡◌, IfOk, OnOk, OnErr};
ghost use Rattle.stil_calls.specs.Scans.{bits_of};
ghost use Rattle.stil_calls.specs.Statements.{AreAccepted};
ghost use Rattle.stil_tester.specs.Shifting.{bit_counts};
ghost use Rattle.stil_writer.specs.Loops.{written_with};
ghost use Rattle.retarget.specs.Moved.{moved_call};
ghost use Rattle.retargeted_patterns.specs.Progress.{at_first, after_writing};

use crate::figures::PatternFigures;
use crate::writing::write_statement;
use base_types::{NoMemory, Text};
use retarget::Map;
use std::alloc::Global;
use std::marker::Model;
use stil_types::{PatternStatement, StilHead};

/// Patterns that are written for chains in another order, one statement after another. Contracts see the head beside which they are
/// read, the chains that they are read for, those that they are written for, and what was counted.
#[derive(Drop)]
pub struct Retargeting {
    head: StilHead,
    map: Map,
    figures: PatternFigures,
}

impl Model for Retargeting {
    ghost use Rattle.std.specs.Prelude.{◌≡◌};
    ghost use Rattle.stil_calls.specs.Scans.{bits_of};
    ghost use Rattle.stil_tester.specs.Shifting.{bit_counts};
    ghost use Rattle.retargeted_patterns.specs.Progress.{Progress};

    ghost Value = { Progress };

    ghost view = { λ r. record { head = r.head; old_chains = r.map.0; new_chains = r.map.1; figures = r.figures } };

    ghost invariant = { λ r. bit_counts r.map.0 ≡ bits_of r.head.chains };
}

impl Retargeting {
    /// Patterns that are read beside a head, of whose chains the map knows the bits; nothing is written yet. Takes no memory.
    pub fn new(head: StilHead, map: Map) -> Retargeting
        requires fits { bit_counts map.0 ≡ bits_of head.chains }
        ensures value { result ≡ at_first head map.0 map.1 }
    {
        Retargeting {
            head,
            map,
            figures: PatternFigures::nothing(),
        }
    }

    /// The head beside which the statements are read.
    pub fn head(&self) -> &StilHead
        ensures value { result.now ≡ self.now.head }
    {
        &self.head
    }

    /// The text of a statement that was read beside the head, with its scan calls as they are on the new chains (IEEE 1450-1999,
    /// Pattern statements); all other bytes are as they were. What is counted of it is added.
    ///
    /// Want of memory is the only refusal, and leaves all as it was. It stands also for a sum of more than 128 bits, and for a
    /// statement of 4 GiB or more, which no reader hands out.
    pub fn write(&mut self, alloc: Global, statement: &PatternStatement) -> Result<Text, NoMemory>
        requires accepted { AreAccepted self.old.head statement.now }
        ensures text { IfOk result (λ text. text ≡ written_with self.old.head.chains (moved_call self.old.old_chains self.old.new_chains) statement.now) }
        ensures counted { OnOk result (self.new ≡ after_writing statement.now self.old) }
        ensures unchanged { OnErr result (self.new ≡ self.old) }
    {
        let written = write_statement(alloc, &self.head, &self.map, statement)?;
        self.figures = self.figures.plus(written.figures)?;
        Ok(written.text)
    }

    /// What was counted of the statements that were written.
    pub fn figures(&self) -> PatternFigures
        ensures value { result ≡ self.now.figures }
    {
        self.figures
    }
}
