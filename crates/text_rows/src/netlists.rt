//! The netlists that Verilog texts denote.
ghost use Rattle.std.specs.Prelude.{◌<◌, ◌^◌, length};
ghost use Rattle.netlist_core.specs.Netlists.{IsNetlist};

use base_types::{NoMemory, ReadFault, Span};
use chain_trace::plain_of;
use netlist_core::{Bit, Direction, Expr, NetId, Netlist, classes_of, plain};
use row_forms::{Part, put, word};
use std::alloc::Global;
use verilog_reader::read_netlist;

/// What is told of a netlist.
#[derive(Clone, Copy)]
pub(crate) enum Asked {
    Whole,
    Instances,
    /// Where expressions stand.
    Places,
    /// The class of each net.
    Classes,
}

/// The plain name of a net.
fn net_name(netlist: &Netlist, net: NetId) -> &str {
    word(plain_of(netlist.nets.as_slice(), net))
}

/// The bits of an expression, with a blank between them.
fn push_bits(text: &mut String, netlist: &Netlist, expr: &Expr) -> Result<(), NoMemory> {
    let mut blank = "";
    for bit in expr.bits.as_slice() {
        let bit = match bit {
            Bit::Net(net) => net_name(netlist, *net),
            Bit::Zero => "0",
            Bit::One => "1",
            Bit::Unknown => "x",
        };
        put(text, &[Part::Text(blank), Part::Text(bit)])?;
        blank = " ";
    }
    Ok(())
}

fn push_instances(text: &mut String, netlist: &Netlist) -> Result<(), NoMemory> {
    for instance in netlist.instances.as_slice() {
        put(
            text,
            &[
                Part::Number(instance.line),
                Part::Text(" "),
                Part::Word(instance.cell.bytes()),
                Part::Text(" "),
                Part::Word(instance.name.bytes()),
            ],
        )?;
        for connection in instance.connections.as_slice() {
            let pin = Part::Word(connection.pin.bytes());
            put(text, &[Part::Text(" "), pin, Part::Text(":")])?;
            push_bits(text, netlist, &connection.expr)?;
        }
        put(text, &[Part::Text("\n")])?;
    }
    Ok(())
}

fn push_ports_of(text: &mut String, netlist: &Netlist) -> Result<(), NoMemory> {
    for port in netlist.ports.as_slice() {
        let direction = match port.direction {
            Direction::Input => " Input ",
            Direction::Output => " Output ",
            Direction::Inout => " Inout ",
        };
        let net = Part::Text(net_name(netlist, port.net));
        put(
            text,
            &[
                Part::Number(port.line),
                Part::Text(direction),
                net,
                Part::Text("\n"),
            ],
        )?;
    }
    Ok(())
}

fn push_assigns(text: &mut String, netlist: &Netlist) -> Result<(), NoMemory> {
    for assign in netlist.assigns.as_slice() {
        put(text, &[Part::Number(assign.line), Part::Text(" assign ")])?;
        push_bits(text, netlist, &assign.left)?;
        put(text, &[Part::Text(" =")])?;
        push_bits(text, netlist, &assign.right)?;
        put(text, &[Part::Text("\n")])?;
    }
    Ok(())
}

/// All that a netlist holds but the places, a net, port, assign or instance a line.
fn push_netlist(text: &mut String, netlist: &Netlist) -> Result<(), NoMemory> {
    put(
        text,
        &[
            Part::Number(netlist.line),
            Part::Text(" module "),
            Part::Word(netlist.module.bytes()),
            Part::Text(", "),
            Part::Number(u64::from(netlist.declared)),
            Part::Text(" nets declared\n"),
        ],
    )?;
    for net in netlist.nets.as_slice() {
        let (plain, spelled) = (Part::Word(net.plain.bytes()), Part::Word(net.text.bytes()));
        let bar = Part::Text("|");
        put(
            text,
            &[Part::Text("net "), plain, bar, spelled, Part::Text("|\n")],
        )?;
    }
    push_ports_of(text, netlist)?;
    push_assigns(text, netlist)?;
    push_instances(text, netlist)
}

/// Where something stands.
fn push_span(text: &mut String, span: Span) -> Result<(), NoMemory> {
    let (start, end) = (u64::from(span.start), u64::from(span.end));
    put(
        text,
        &[Part::Number(start), Part::Text(".."), Part::Number(end)],
    )
}

/// Where the expressions of the assigns and of the connections stand.
fn push_places(text: &mut String, netlist: &Netlist) -> Result<(), NoMemory> {
    for assign in netlist.assigns.as_slice() {
        put(text, &[Part::Text("assign ")])?;
        push_span(text, assign.left.span)?;
        put(text, &[Part::Text(" ")])?;
        push_span(text, assign.right.span)?;
        put(text, &[Part::Text("\n")])?;
    }
    for instance in netlist.instances.as_slice() {
        put(text, &[Part::Word(instance.name.bytes())])?;
        for connection in instance.connections.as_slice() {
            let pin = Part::Word(connection.pin.bytes());
            put(text, &[Part::Text(" "), pin, Part::Text(" ")])?;
            push_span(text, connection.expr.span)?;
        }
        put(text, &[Part::Text("\n")])?;
    }
    Ok(())
}

/// Each net and the least net that assigns join it with, found in both ways.
fn push_classes(alloc: Global, text: &mut String, netlist: &Netlist) -> Result<(), NoMemory>
    requires { IsNetlist netlist.now }
{
    let found = classes_of(alloc, netlist)?;
    let plainly = plain::classes_of(alloc, netlist)?;
    for k in 0..netlist.nets.as_slice().len() {
        let net = NetId(k as u32);
        let (class, other) = (found.class_of(net), plainly.class_of(net));
        let mark = if class == other { "" } else { "?" };
        let (net, class) = (net_name(netlist, net), net_name(netlist, class));
        put(
            text,
            &[
                Part::Text(net),
                Part::Text(":"),
                Part::Text(class),
                Part::Text(mark),
                Part::Text(" "),
            ],
        )?;
    }
    Ok(())
}

/// What is asked of a netlist.
fn push_asked(
    alloc: Global,
    text: &mut String,
    asked: Asked,
    netlist: &Netlist,
) -> Result<(), NoMemory>
    requires { IsNetlist netlist.now }
{
    match asked {
        Asked::Whole => push_netlist(text, netlist),
        Asked::Instances => push_instances(text, netlist),
        Asked::Places => push_places(text, netlist),
        Asked::Classes => push_classes(alloc, text, netlist),
    }
}

/// What is asked of the netlist that a text denotes.
pub(crate) fn netlist(alloc: Global, asked: Asked, source: &[u8]) -> Result<String, ReadFault>
    requires { length source.now < 2 ^ 32 }
{
    let netlist = read_netlist(alloc, source)?;
    let mut text = String::new(alloc);
    push_asked(alloc, &mut text, asked, &netlist)?;
    Ok(text)
}
