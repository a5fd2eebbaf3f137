//! The Verilog.
ghost use Rattle.std.specs.Prelude.{◌≡◌, ◌≤◌, ◌^◌, ◌++◌, OnOk, IfOk, string_bytes};
ghost use Rattle.design_maker.specs.MadeVerilog.{header_text, wires_text, first_unit, later_unit, assign, verilog_text};

use crate::chains::last_unit;
use crate::pieces::{Between, Piece, push_pieces};
use base_types::{NoMemory, Text};
use std::alloc::Global;

/// The first unit of each chain, which takes from the chain's port.
struct FirstUnit;

impl Piece for FirstUnit {
    ghost piece = { λ _. first_unit };

    ghost limit = { 2 ^ 32 };

    fn push(&self, out: &mut String, number: u32) -> Result<(), NoMemory> {
        write!(
            out,
            "  SDF u{number} ( .D(d), .CK(clk), .SE(se), .SI(si{number}), .Q(q{number}) );\n"
        )?;
        Ok(())
    }
}

/// The unit eight after a unit, which takes from it.
struct LaterUnit;

impl Piece for LaterUnit {
    ghost piece = { λ _. later_unit };

    ghost limit = { 2 ^ 32 };

    fn push(&self, out: &mut String, number: u32) -> Result<(), NoMemory> {
        let unit = number as u64 + 8;
        write!(
            out,
            "  SDF u{unit} ( .D(d), .CK(clk), .SE(se), .SI(q{number}), .Q(q{unit}) );\n"
        )?;
        Ok(())
    }
}

/// The assign of each chain's port.
#[derive(Drop)]
struct Assign {
    units: u32,
}

impl Piece for Assign {
    ghost piece = { λ a. assign a.units };

    ghost limit = { 8 };

    fn push(&self, out: &mut String, number: u32) -> Result<(), NoMemory> {
        let unit = last_unit(self.units, number);
        write!(out, "  assign so{number} = q{unit};\n")?;
        Ok(())
    }
}

#[tactic(auto, unfolding(crate::specs::MadeVerilog::header_text))]
fn push_header(out: &mut String) -> Result<(), NoMemory>
    ensures value { OnOk result (string_bytes out.new ≡ string_bytes out.old ++ header_text) }
{
    let ins = Between {
        before: ", si",
        after: "",
    };
    let outs = Between {
        before: ", so",
        after: "",
    };
    let shown = Between {
        before: "so",
        after: ", ",
    };
    out.push_str("module top ( clk, se, d")?;
    push_pieces(out, &ins, 8)?;
    push_pieces(out, &outs, 8)?;
    out.push_str(" );\n  input clk, se, d")?;
    push_pieces(out, &ins, 8)?;
    out.push_str(";\n  output ")?;
    push_pieces(out, &shown, 7)?;
    out.push_str("so7;\n")?;
    Ok(())
}

#[tactic(auto, unfolding(crate::specs::MadeVerilog::wires_text))]
fn push_wires(out: &mut String, units: u32) -> Result<(), NoMemory>
    requires { 8 ≤ units }
    ensures value { OnOk result (string_bytes out.new ≡ string_bytes out.old ++ wires_text units) }
{
    let wire = Between {
        before: "q",
        after: ", ",
    };
    let last = units - 1;
    out.push_str("  wire ")?;
    push_pieces(out, &wire, last)?;
    write!(out, "q{last};\n")?;
    Ok(())
}

/// The Verilog of so many units.
#[tactic(auto, unfolding(crate::specs::MadeVerilog::verilog_text))]
pub(crate) fn verilog_text(alloc: Global, units: u32) -> Result<Text, NoMemory>
    requires { 8 ≤ units }
    ensures value { IfOk result (λ text. text ≡ verilog_text units) }
{
    let mut text = String::new(alloc);
    push_header(&mut text)?;
    push_wires(&mut text, units)?;
    push_pieces(&mut text, &FirstUnit, 8)?;
    push_pieces(&mut text, &LaterUnit, units - 8)?;
    push_pieces(&mut text, &Assign { units }, 8)?;
    text.push_str("endmodule\n")?;
    Ok(Text::of(text.into_bytes()))
}
