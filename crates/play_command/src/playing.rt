//! Patterns played one statement after another, and what is said of them.
ghost use Rattle.std.specs.Prelude.{◌≡◌, ◌<◌, ◌^◌, length, IfOk, OnOk};
ghost use Rattle.base_types.specs.declared.fault.Fault.{Fault};
ghost use Rattle.base_types.specs.FirstFault.{IfFault, IsFirstFault};
ghost use Rattle.stil_calls.specs.Statements.{AreAccepted};
ghost use Rattle.stil_types.specs.Statements.{IsPlaced};
ghost use Rattle.stil_reader.specs.Sayings.{Stated};
ghost use Rattle.declared_chains.specs.Faults.{HoldsBeforePatterns};
ghost use Rattle.play_command.specs.Progress.{IsSetUp, after_saying, finished, opened};

use crate::device::DeviceKind;
use crate::lines::{push_cells, push_pattern, push_scans};
use base_types::{Name, NoMemory, ReadFault, Text, plain_name};
use declared_chains::read_declared;
use std::alloc::Global;
use std::marker::Model;
use stil_reader::{PatternStatement, StilHead};
use stil_tester::{Chains, Player, Symbol};

/// Patterns that are played on the scan chains of a netlist, one statement after another. Contracts see the head beside which they
/// are read, the chains, the device, the cells, how many scan calls were run in the Pattern that is open, and the lines that were said.
#[derive(Drop)]
pub struct Playing {
    alloc: Global,
    head: StilHead,
    chains: Chains,
    player: Player,
    device: DeviceKind,
    cells: Vec<Symbol>,
    verdicts: Vec<bool>,
    scans: usize,
    lines: Vec<u8>,
}

impl Model for Playing {
    ghost use Rattle.std.specs.Prelude.{◌≡◌, ◌≤◌, length};
    ghost use Rattle.play_command.specs.Progress.{Progress};
    ghost use Rattle.declared_chains.specs.Files.{Fits};

    ghost Value = { Progress };

    ghost view = { λ p. record { head = p.head; chains = p.chains; device = p.device; cells = p.cells.items; scans = p.scans; lines = p.lines.items } };

    ghost invariant = { λ p. Fits p.head p.chains × (p.player ≡ length p.chains.chains) × (length p.cells.items ≡ p.chains.cells) × (p.scans ≤ length p.lines.items) };
}

impl Playing {
    /// The scan chains that the head of a STIL text declares, on the netlist of a Verilog text by the cells of a table, set up for a
    /// device; all cells are 0. `head` is the text of the head alone, of less than 4 GiB, as the Verilog.
    ///
    /// Refused by the first fault, that of the least kind: of the table (TableSyntax, TableShape), of the Verilog (VerilogSyntax,
    /// SecondModule, VerilogNumber, VerilogTwice, BadSelect), of the head (StilSyntax, StilTwice, Unsupported), of the paths of its
    /// chains (NoPort, TooManyPaths, NoDriver, TwoDrivers, Loop, SharedCell), of its declarations beside these (WrongPort,
    /// LengthDiffers, InversionDiffers, CellsDiffer), or TooManyBits.
    pub fn new(
        alloc: Global,
        table: &[u8],
        verilog: &[u8],
        head: &[u8],
        device: DeviceKind,
    ) -> Result<Playing, ReadFault>
        requires small { length verilog.now < 2 ^ 32 }
        requires small_head { length head.now < 2 ^ 32 }
        ensures set_up { IfOk result (IsSetUp table.now verilog.now head.now device) }
        ensures fault { IfFault result (IsFirstFault (HoldsBeforePatterns table.now verilog.now head.now)) }
        ensures no_fault { OnOk result ((fault : Fault) → HoldsBeforePatterns table.now verilog.now head.now fault → ⊥) }
    {
        let declared = read_declared(alloc, table, verilog, head)?;
        let player = Player::new(alloc, &declared.chains)?;
        let cells = vec![in alloc; Symbol::Zero; declared.chains.cells as usize]?;
        Ok(Playing {
            alloc,
            head: declared.head,
            chains: declared.chains,
            player,
            device,
            cells,
            verdicts: Vec::new(alloc),
            scans: 0,
            lines: Vec::new(alloc),
        })
    }

    /// The head beside which the statements are read.
    pub fn head(&self) -> &StilHead
        ensures value { result.now ≡ self.now.head }
    {
        &self.head
    }

    /// A Pattern opens: its scan calls are counted anew.
    pub fn open_pattern(&mut self, name: &Name) -> Result<(), NoMemory>
        ensures value { OnOk result (self.new ≡ opened name.now self.old) }
    {
        let plain = plain_name(self.alloc, name.bytes())?;
        self.scans = 0;
        push_pattern(&mut self.lines, plain.bytes())
    }

    /// Plays a statement that was read beside the head: a line for each time that one of its scan calls is run.
    pub fn play(&mut self, statement: &PatternStatement) -> Result<(), NoMemory>
        requires accepted { AreAccepted self.old.head statement.now }
        requires placed { IsPlaced statement.now }
        ensures value { OnOk result (self.new ≡ after_saying (Stated statement.now) self.old) }
    {
        self.verdicts.clear();
        self.player.run(
            &self.chains,
            statement,
            &mut self.device,
            self.cells.as_mut_slice(),
            &mut self.verdicts,
        )?;
        self.scans = push_scans(&mut self.lines, self.scans, self.verdicts.as_slice())?;
        Ok(())
    }

    /// All that was said, and the cells.
    pub fn finish(self) -> Result<Text, NoMemory>
        ensures value { IfOk result (λ text. text ≡ finished self) }
    {
        let mut lines = self.lines;
        push_cells(&mut lines, self.cells.as_slice())?;
        Ok(Text::of(lines))
    }
}
