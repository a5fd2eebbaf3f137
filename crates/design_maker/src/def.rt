//! The DEF.
ghost use Rattle.std.specs.Prelude.{◌≡◌, ◌≤◌, ◌^◌, ◌+◌, ◌++◌, OnOk, IfOk, string_bytes};
ghost use Rattle.design_maker.specs.Pieces.{pieces};
ghost use Rattle.design_maker.specs.MadeDef.{component, components_text, in_pin, out_pin, pins_text, unit_pin, wide_net, in_net, inner_net, out_net, wide_nets, scan_nets, nets_text, element, chain_head, chain_tail, chain, chains_text, def_text};

use crate::chains::{chain_length, last_unit, max_bits, unit_of};
use crate::numbers::{coordinate, next_number};
use crate::pieces::{Piece, push_pieces, push_text};
use base_types::{NoMemory, Text};
use std::alloc::Global;

/// Appends a component for each unit. The numbers of the places go on from unit to unit.
fn push_placed(out: &mut String, units: u32) -> Result<(), NoMemory>
    ensures value { OnOk result (string_bytes out.new ≡ string_bytes out.old ++ pieces component units) }
{
    let mut number = 1;
    for unit in 0..units {
        let east = next_number(number);
        let north = next_number(east);
        let x = coordinate(east);
        let y = coordinate(north);
        write!(out, "- u{unit} SDF + PLACED ( {x} {y} ) N ;\n")?;
        number = north;
    }
    Ok(())
}

#[tactic(auto, unfolding(crate::specs::MadeDef::components_text))]
fn push_components(out: &mut String, units: u32) -> Result<(), NoMemory>
    ensures value { OnOk result (string_bytes out.new ≡ string_bytes out.old ++ components_text units) }
{
    write!(out, "COMPONENTS {units} ;\n")?;
    push_placed(out, units)?;
    push_text(out, "END COMPONENTS\n")?;
    Ok(())
}

/// The pin of the input port of each chain.
struct InPin;

impl Piece for InPin {
    ghost piece = { λ _. in_pin };

    ghost limit = { 2 ^ 32 };

    fn push(&self, out: &mut String, number: u32) -> Result<(), NoMemory> {
        let y = 100_000 * number as u64;
        write!(
            out,
            "- si{number} + NET si{number} + PLACED ( 0 {y} ) N ;\n"
        )?;
        Ok(())
    }
}

/// The pin of the output port of each chain.
#[derive(Drop)]
struct OutPin {
    units: u32,
}

impl Piece for OutPin {
    ghost piece = { λ p. out_pin p.units };

    ghost limit = { 8 };

    fn push(&self, out: &mut String, number: u32) -> Result<(), NoMemory> {
        let unit = last_unit(self.units, number);
        let y = 100_000 * number as u64;
        write!(
            out,
            "- so{number} + NET q{unit} + PLACED ( 1000000 {y} ) N ;\n"
        )?;
        Ok(())
    }
}

fn push_pins(out: &mut String, units: u32) -> Result<(), NoMemory>
    ensures value { OnOk result (string_bytes out.new ≡ string_bytes out.old ++ pins_text units) }
{
    push_text(
        out,
        "PINS 19 ;\n- clk + NET clk ;\n- se + NET se ;\n- d + NET d ;\n",
    )?;
    push_pieces(out, &InPin, 8)?;
    push_pieces(out, &OutPin { units }, 8)?;
    push_text(out, "END PINS\n")?;
    Ok(())
}

/// The pin of this name of each unit.
#[derive(Drop)]
struct UnitPin {
    pin: &'static str,
}

impl Piece for UnitPin {
    ghost piece = { λ u. unit_pin u.pin.now };

    ghost limit = { 2 ^ 32 };

    fn push(&self, out: &mut String, number: u32) -> Result<(), NoMemory> {
        let pin = self.pin;
        write!(out, " ( u{number} {pin} )")?;
        Ok(())
    }
}

#[tactic(auto, unfolding(crate::specs::MadeDef::wide_net))]
fn push_wide_net(
    out: &mut String,
    port: &str,
    pin: &'static str,
    units: u32,
) -> Result<(), NoMemory>
    ensures value { OnOk result (string_bytes out.new ≡ string_bytes out.old ++ wide_net port.now pin.now units) }
{
    write!(out, "- {port} ( PIN {port} )")?;
    push_pieces(out, &UnitPin { pin }, units)?;
    out.push_str(" ;\n")?;
    Ok(())
}

/// The net of the input port of each chain.
struct InNet;

impl Piece for InNet {
    ghost piece = { λ _. in_net };

    ghost limit = { 2 ^ 32 };

    fn push(&self, out: &mut String, number: u32) -> Result<(), NoMemory> {
        write!(out, "- si{number} ( PIN si{number} ) ( u{number} SI ) ;\n")?;
        Ok(())
    }
}

/// The net from each unit to the next of its chain.
struct InnerNet;

impl Piece for InnerNet {
    ghost piece = { λ _. inner_net };

    ghost limit = { 2 ^ 32 };

    fn push(&self, out: &mut String, number: u32) -> Result<(), NoMemory> {
        let next = number as u64 + 8;
        write!(out, "- q{number} ( u{number} Q ) ( u{next} SI ) ;\n")?;
        Ok(())
    }
}

/// The net from each of the last units to the port of its chain. The last units begin at `first`.
#[derive(Drop)]
struct OutNet {
    first: u32,
}

impl Piece for OutNet {
    ghost piece = { λ o j. out_net (o.first + j) };

    ghost limit = { 2 ^ 32 };

    fn push(&self, out: &mut String, number: u32) -> Result<(), NoMemory> {
        let unit = self.first as u64 + number as u64;
        let chain = unit % 8;
        write!(out, "- q{unit} ( u{unit} Q ) ( PIN so{chain} ) ;\n")?;
        Ok(())
    }
}

#[tactic(auto, unfolding(crate::specs::MadeDef::wide_nets))]
fn push_wide_nets(out: &mut String, units: u32) -> Result<(), NoMemory>
    ensures value { OnOk result (string_bytes out.new ≡ string_bytes out.old ++ wide_nets units) }
{
    push_wide_net(out, "clk", "CK", units)?;
    push_wide_net(out, "se", "SE", units)?;
    push_wide_net(out, "d", "D", units)
}

#[tactic(auto, unfolding(crate::specs::MadeDef::scan_nets))]
fn push_scan_nets(out: &mut String, units: u32) -> Result<(), NoMemory>
    requires { 8 ≤ units }
    ensures value { OnOk result (string_bytes out.new ≡ string_bytes out.old ++ scan_nets units) }
{
    let first = units - 8;
    push_pieces(out, &InNet, 8)?;
    push_pieces(out, &InnerNet, first)?;
    push_pieces(out, &OutNet { first }, 8)
}

#[tactic(auto, unfolding(crate::specs::MadeDef::nets_text))]
fn push_nets(out: &mut String, units: u32) -> Result<(), NoMemory>
    requires { 8 ≤ units }
    ensures value { OnOk result (string_bytes out.new ≡ string_bytes out.old ++ nets_text units) }
{
    let count = 11 + units as u64;
    write!(out, "NETS {count} ;\n")?;
    push_wide_nets(out, units)?;
    push_scan_nets(out, units)?;
    push_text(out, "END NETS\n")
}

/// The elements of a chain.
#[derive(Drop)]
struct Element {
    chain: u32,
}

impl Piece for Element {
    ghost piece = { λ e. element e.chain };

    ghost limit = { 2 ^ 32 };

    fn push(&self, out: &mut String, number: u32) -> Result<(), NoMemory> {
        let unit = unit_of(self.chain, number);
        write!(out, " u{unit} ( IN SI ) ( OUT Q )")?;
        Ok(())
    }
}

fn push_chain_head(out: &mut String, units: u32, number: u32) -> Result<(), NoMemory>
    ensures value { OnOk result (string_bytes out.new ≡ string_bytes out.old ++ chain_head units number) }
{
    let partition = number / 4;
    let bits = max_bits(units);
    write!(
        out,
        "- c{number} + PARTITION P{partition} MAXBITS {bits} + START PIN si{number} + FLOATING"
    )?;
    Ok(())
}

#[tactic(auto, unfolding(crate::specs::MadeDef::chain_tail))]
fn push_chain_tail(out: &mut String, number: u32) -> Result<(), NoMemory>
    ensures value { OnOk result (string_bytes out.new ≡ string_bytes out.old ++ chain_tail number) }
{
    write!(out, " + STOP PIN so{number} ;\n")?;
    Ok(())
}

/// The statement of each chain.
#[derive(Drop)]
struct Chain {
    units: u32,
}

impl Piece for Chain {
    ghost piece = { λ c. chain c.units };

    ghost limit = { 8 };

    #[tactic(auto, unfolding(crate::specs::MadeDef::chain))]
    fn push(&self, out: &mut String, number: u32) -> Result<(), NoMemory> {
        let elements = Element { chain: number };
        push_chain_head(out, self.units, number)?;
        push_pieces(out, &elements, chain_length(self.units, number))?;
        push_chain_tail(out, number)
    }
}

#[tactic(auto, unfolding(crate::specs::MadeDef::chains_text))]
fn push_chains(out: &mut String, units: u32) -> Result<(), NoMemory>
    ensures value { OnOk result (string_bytes out.new ≡ string_bytes out.old ++ chains_text units) }
{
    push_text(out, "SCANCHAINS 8 ;\n")?;
    push_pieces(out, &Chain { units }, 8)?;
    push_text(out, "END SCANCHAINS\n")?;
    Ok(())
}

/// The DEF of so many units.
#[tactic(auto, unfolding(crate::specs::MadeDef::def_text))]
pub(crate) fn def_text(alloc: Global, units: u32) -> Result<Text, NoMemory>
    requires { 8 ≤ units }
    ensures value { IfOk result (λ text. text ≡ def_text units) }
{
    let mut text = String::new(alloc);
    text.push_str(
        "VERSION 5.8 ;\nDIVIDERCHAR \"/\" ;\nBUSBITCHARS \"[]\" ;\nDESIGN top ;\nUNITS DISTANCE MICRONS 1000 ;\n",
    )?;
    push_components(&mut text, units)?;
    push_pins(&mut text, units)?;
    push_nets(&mut text, units)?;
    push_chains(&mut text, units)?;
    text.push_str("END DESIGN\n")?;
    Ok(Text::of(text.into_bytes()))
}
