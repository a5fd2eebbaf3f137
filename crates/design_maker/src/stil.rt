//! The STIL.
ghost use Rattle.std.specs.Prelude.{◌≡◌, ◌<◌, ◌≤◌, ◌^◌, ◌+◌, ◌++◌, OnOk, IfOk, string_bytes};
ghost use Rattle.design_maker.specs.MadeStil.{signals_text, scan_chain, structures_text, shifted, procedures_text, load_character, compare_character, load, compare, first_call, later_call, pattern_text, stil_text};

use crate::chains::chain_length;
use crate::pieces::{Between, Piece, push_pieces, push_text};
use base_types::{NoMemory, Text};
use std::alloc::Global;

#[tactic(auto, unfolding(crate::specs::MadeStil::signals_text))]
fn push_signals(out: &mut String) -> Result<(), NoMemory>
    ensures value { OnOk result (string_bytes out.new ≡ string_bytes out.old ++ signals_text) }
{
    let ins = Between {
        before: " si",
        after: " In { ScanIn; }",
    };
    let outs = Between {
        before: " so",
        after: " Out { ScanOut; }",
    };
    out.push_str("STIL 1.0;\nSignals { clk In; se In; d In;")?;
    push_pieces(out, &ins, 8)?;
    push_pieces(out, &outs, 8)?;
    out.push_str(" }\n")?;
    Ok(())
}

/// The structure of each chain.
#[derive(Drop)]
struct ScanChain {
    units: u32,
}

impl Piece for ScanChain {
    ghost piece = { λ c. scan_chain c.units };

    ghost limit = { 8 };

    fn push(&self, out: &mut String, number: u32) -> Result<(), NoMemory> {
        let length = chain_length(self.units, number);
        write!(
            out,
            "  ScanChain c{number} {{\n    ScanLength {length}; ScanIn si{number}; ScanOut so{number}; ScanInversion 0;\n  }}\n"
        )?;
        Ok(())
    }
}

#[tactic(auto, unfolding(crate::specs::MadeStil::structures_text))]
fn push_structures(out: &mut String, units: u32) -> Result<(), NoMemory>
    ensures value { OnOk result (string_bytes out.new ≡ string_bytes out.old ++ structures_text units) }
{
    out.push_str("ScanStructures {\n")?;
    push_pieces(out, &ScanChain { units }, 8)?;
    out.push_str("}\n")?;
    Ok(())
}

/// The data of one shift for each chain.
struct Shifted;

impl Piece for Shifted {
    ghost piece = { λ _. shifted };

    ghost limit = { 2 ^ 32 };

    fn push(&self, out: &mut String, number: u32) -> Result<(), NoMemory> {
        write!(out, " si{number}=#; so{number}=#;")?;
        Ok(())
    }
}

#[tactic(auto, unfolding(crate::specs::MadeStil::procedures_text))]
fn push_procedures(out: &mut String) -> Result<(), NoMemory>
    ensures value { OnOk result (string_bytes out.new ≡ string_bytes out.old ++ procedures_text) }
{
    push_text(
        out,
        "Procedures {\n  load_unload { W t1; C { se=1; } Shift { V { clk=P;",
    )?;
    push_pieces(out, &Shifted, 8)?;
    push_text(out, " } } }\n  capture { W t1; V { se=0; clk=P; } }\n}\n")?;
    Ok(())
}

/// The characters that a call loads into a chain.
#[derive(Drop)]
struct Loaded {
    call: u32,
    chain: u32,
}

impl Piece for Loaded {
    ghost piece = { λ s. load_character s.call s.chain };

    ghost limit = { 2 ^ 32 };

    fn push(&self, out: &mut String, number: u32) -> Result<(), NoMemory> {
        let rest = (self.chain as u64 + 3 * number as u64 + 5 * self.call as u64) % 7;
        out.push_str(if rest < 3 { "1" } else { "0" })?;
        Ok(())
    }
}

/// The characters that a call compares at a chain.
#[derive(Drop)]
struct Compared {
    call: u32,
    chain: u32,
}

impl Piece for Compared {
    ghost piece = { λ s. compare_character s.call s.chain };

    ghost limit = { 2 ^ 32 };

    fn push(&self, out: &mut String, number: u32) -> Result<(), NoMemory> {
        let rest = (self.chain as u64 + 2 * number as u64 + self.call as u64) % 5;
        let character = if rest == 0 {
            "L"
        } else if rest == 1 {
            "H"
        } else {
            "X"
        };
        out.push_str(character)?;
        Ok(())
    }
}

#[tactic(auto, unfolding(crate::specs::MadeStil::load))]
fn push_load(out: &mut String, units: u32, call: u32, chain: u32) -> Result<(), NoMemory>
    requires { chain < 8 }
    ensures value { OnOk result (string_bytes out.new ≡ string_bytes out.old ++ load units call chain) }
{
    write!(out, " si{chain}=")?;
    push_pieces(out, &Loaded { call, chain }, chain_length(units, chain))?;
    out.push_str(";")?;
    Ok(())
}

#[tactic(auto, unfolding(crate::specs::MadeStil::compare))]
fn push_compare(out: &mut String, units: u32, call: u32, chain: u32) -> Result<(), NoMemory>
    requires { chain < 8 }
    ensures value { OnOk result (string_bytes out.new ≡ string_bytes out.old ++ compare units call chain) }
{
    write!(out, " so{chain}=")?;
    push_pieces(out, &Compared { call, chain }, chain_length(units, chain))?;
    out.push_str(";")?;
    Ok(())
}

/// What the first call has for each chain.
#[derive(Drop)]
struct FirstItems {
    units: u32,
}

impl Piece for FirstItems {
    ghost piece = { λ f. load f.units 0 };

    ghost limit = { 8 };

    fn push(&self, out: &mut String, number: u32) -> Result<(), NoMemory> {
        push_load(out, self.units, 0, number)
    }
}

#[tactic(auto, unfolding(crate::specs::MadeStil::first_call))]
fn push_first_call(out: &mut String, units: u32) -> Result<(), NoMemory>
    ensures value { OnOk result (string_bytes out.new ≡ string_bytes out.old ++ first_call units) }
{
    push_text(out, "  Call load_unload {")?;
    push_pieces(out, &FirstItems { units }, 8)?;
    push_text(out, " }\n  Call capture;\n")?;
    Ok(())
}

/// What a later call has for each chain.
#[derive(Drop)]
struct LaterItems {
    units: u32,
    call: u32,
}

impl Piece for LaterItems {
    ghost piece = { λ l k. load l.units l.call k ++ compare l.units l.call k };

    ghost limit = { 8 };

    fn push(&self, out: &mut String, number: u32) -> Result<(), NoMemory> {
        push_load(out, self.units, self.call, number)?;
        push_compare(out, self.units, self.call, number)
    }
}

/// The calls after the first.
#[derive(Drop)]
struct LaterCalls {
    units: u32,
}

impl Piece for LaterCalls {
    ghost piece = { λ l r. later_call l.units (r + 1) };

    ghost limit = { 15 };

    #[tactic(auto, unfolding(crate::specs::MadeStil::later_call))]
    fn push(&self, out: &mut String, number: u32) -> Result<(), NoMemory> {
        let items = LaterItems {
            units: self.units,
            call: number + 1,
        };
        push_text(out, "  Call load_unload {")?;
        push_pieces(out, &items, 8)?;
        push_text(out, " }\n  Call capture;\n")?;
        Ok(())
    }
}

fn push_pattern(out: &mut String, units: u32) -> Result<(), NoMemory>
    ensures value { OnOk result (string_bytes out.new ≡ string_bytes out.old ++ pattern_text units) }
{
    push_text(out, "Pattern p {\n")?;
    push_first_call(out, units)?;
    push_pieces(out, &LaterCalls { units }, 15)?;
    push_text(out, "}\n")?;
    Ok(())
}

/// The STIL of so many units.
#[tactic(auto, unfolding(crate::specs::MadeStil::stil_text))]
pub(crate) fn stil_text(alloc: Global, units: u32) -> Result<Text, NoMemory>
    ensures value { IfOk result (λ text. text ≡ stil_text units) }
{
    let mut text = String::new(alloc);
    push_signals(&mut text)?;
    push_structures(&mut text, units)?;
    push_procedures(&mut text)?;
    push_pattern(&mut text, units)?;
    Ok(Text::of(text.into_bytes()))
}
