//! The text of a netlist with edits between paths and their tails.
ghost use Rattle.std.specs.Prelude.{◌≡◌, ◌<◌, ◌^◌, List, ◌++◌, length, IfOk, OnOk};
ghost use Rattle.std.specs.List.{flat_map};
ghost use Rattle.chain_trace.specs.declared.path.Path.{Path as one_path};
ghost use Rattle.net_edit.specs.Rearranged.{AreRearranged};
ghost use Rattle.net_edit.specs.Tails.{freed_between, rewired, AreTailNames};
ghost use Rattle.net_edit.specs.Wires.{names_of, AreEditsFor};
ghost use Rattle.verilog_reader.specs.Denoted.{DenotesNetlist};
ghost use Rattle.verilog_writer.specs.Written.{DenotesAlike};
ghost use Rattle.verilog_writer.specs.Wired.{wire_text, pin_edit, port_edit, tail_edit, expression_edits, tail_wire, tail_line, with_tails, IsWiredText, AreEditsBetween, DeclareBehind};

use crate::line_places::{header_end, last_start};
use crate::netlist_places::{assign_of, in_connection, pin_connection, text_of};
use base_types::{Name, NoMemory, Span, Text};
use cell_table::CellTable;
use net_edit::{Edits, PinEdit, PortEdit, TailEdit, Wire};
use netlist_core::Netlist;
use splice::{Edit, spliced};
use std::alloc::Global;

fn wire_text<'a>(netlist: &'a Netlist, tails: &'a [TailEdit], wire: Wire) -> &'a [u8]
    ensures value { result.now ≡ wire_text netlist.now tails.now wire }
{
    match wire {
        Wire::Net(net) => text_of(netlist, net),
        Wire::Tail(tail) => match tails.get(tail as usize) {
            Some(edit) => edit.tail.bytes(),
            None => &[],
        },
    }
}

fn put_pin(
    alloc: Global,
    made: &mut Vec<Edit>,
    netlist: &Netlist,
    table: &CellTable,
    tails: &[TailEdit],
    edit: PinEdit,
) -> Result<(), NoMemory>
    ensures put { OnOk result (made.new.items ≡ made.old.items ++ pin_edit netlist.now table.now tails.now edit) }
{
    if let Some(connection) = in_connection(netlist, table, edit.instance, edit.path) {
        made.push(Edit {
            span: connection.expr.span,
            text: Name::copy(alloc, wire_text(netlist, tails, edit.source))?,
        })?;
    }
    Ok(())
}

fn put_port(
    alloc: Global,
    made: &mut Vec<Edit>,
    netlist: &Netlist,
    tails: &[TailEdit],
    edit: PortEdit,
) -> Result<(), NoMemory>
    ensures put { OnOk result (made.new.items ≡ made.old.items ++ port_edit netlist.now tails.now edit) }
{
    if let Some(assign) = assign_of(netlist, edit.assign) {
        made.push(Edit {
            span: assign.right.span,
            text: Name::copy(alloc, wire_text(netlist, tails, edit.source))?,
        })?;
    }
    Ok(())
}

fn put_tail(
    alloc: Global,
    made: &mut Vec<Edit>,
    netlist: &Netlist,
    edit: &TailEdit,
) -> Result<(), NoMemory>
    ensures put { OnOk result (made.new.items ≡ made.old.items ++ tail_edit netlist.now edit.now) }
{
    if let Some(connection) = pin_connection(netlist, edit.instance, &edit.pin) {
        made.push(Edit {
            span: connection.expr.span,
            text: Name::copy(alloc, edit.tail.bytes())?,
        })?;
    }
    Ok(())
}

/// The edits of expressions: those of in pins, of assigns, and of out pins with tails.
fn expression_edits(
    alloc: Global,
    netlist: &Netlist,
    table: &CellTable,
    edits: &Edits,
) -> Result<Vec<Edit>, NoMemory>
    ensures value { IfOk result (λ made. made.items ≡ expression_edits netlist.now table.now edits.now) }
{
    let mut made = Vec::new(alloc);
    let tails = edits.tails.as_slice();
    for edit in edits.pins.as_slice() {
        put_pin(alloc, &mut made, netlist, table, tails, *edit)?;
    }
    for edit in edits.ports.as_slice() {
        put_port(alloc, &mut made, netlist, tails, *edit)?;
    }
    for edit in tails {
        put_tail(alloc, &mut made, netlist, edit)?;
    }
    Ok(made)
}

/// The declarations of the tails, a line each.
fn wire_lines(alloc: Global, tails: &[TailEdit]) -> Result<Name, NoMemory>
    ensures value { IfOk result (λ lines. lines ≡ flat_map tail_wire tails.now) }
{
    let mut lines = Vec::new(alloc);
    for tail in tails {
        lines.extend_from_slice(b"\n  wire ")?;
        lines.extend_from_slice(tail.tail.bytes())?;
        lines.extend_from_slice(b";")?;
    }
    Ok(Name::of(lines))
}

/// The assigns of the freed ports, a line each.
fn assign_lines(alloc: Global, netlist: &Netlist, tails: &[TailEdit]) -> Result<Name, NoMemory>
    ensures value { IfOk result (λ lines. lines ≡ flat_map (tail_line netlist.now tails.now) tails.now) }
{
    let mut lines = Vec::new(alloc);
    for tail in tails {
        lines.extend_from_slice(b"  assign ")?;
        lines.extend_from_slice(text_of(netlist, tail.port))?;
        lines.extend_from_slice(b" = ")?;
        lines.extend_from_slice(wire_text(netlist, tails, tail.source))?;
        lines.extend_from_slice(b";\n")?;
    }
    Ok(Name::of(lines))
}

/// Puts the lines of the tails before and behind the edits of expressions, where there are tails.
fn put_lines(
    alloc: Global,
    text: &[u8],
    netlist: &Netlist,
    tails: &[TailEdit],
    all: &mut Vec<Edit>,
) -> Result<(), NoMemory>
    requires small { length text.now < 2 ^ 32 }
    ensures value { OnOk result (all.new.items ≡ with_tails text.now netlist.now tails.now all.old.items) }
{
    if tails.is_empty() {
        return Ok(());
    }
    let header = header_end(text);
    let end = last_start(text);
    all.insert(
        0,
        Edit {
            span: Span {
                start: header,
                end: header,
            },
            text: wire_lines(alloc, tails)?,
        },
    )?;
    all.push(Edit {
        span: Span { start: end, end },
        text: assign_lines(alloc, netlist, tails)?,
    })?;
    Ok(())
}

/// The text of a netlist with the edits between paths: in the text that was read, the Verilog text of the new net or the name of
/// the tail stands in place of each edited expression; behind the header stands a declaration of each tail, and before
/// `endmodule` an assign of each freed port, a line each (IEEE 1364-2005, 4.2, 6.1 and 12.1.2). Every other byte stays. Or want of
/// memory.
pub fn verilog_text(
    alloc: Global,
    text: &[u8],
    netlist: &Netlist,
    table: &CellTable,
    edits: &Edits,
) -> Result<Text, NoMemory>
    requires small { length text.now < 2 ^ 32 }
    requires read { DenotesNetlist text.now netlist.now }
    requires edits { AreEditsBetween netlist.now table.now edits.now }
    ensures value { IfOk result (IsWiredText text.now netlist.now table.now edits.now) }
    // It denotes the netlist with the edits, where these are those between some paths and their tails have names,
    ensures denoted { (old new : List one_path) → AreEditsFor netlist.now table.now old new edits.now → AreRearranged netlist.now table.now old new → AreTailNames netlist.now (freed_between netlist.now table.now old new) (names_of edits.now)
        → IfOk result (λ written. DenotesAlike written (rewired netlist.now table.now (names_of edits.now) old new) (names_of edits.now)) }
    // and declares the tails, and then what the read text declares.
    ensures declared { (old new : List one_path) → AreEditsFor netlist.now table.now old new edits.now → AreRearranged netlist.now table.now old new → AreTailNames netlist.now (freed_between netlist.now table.now old new) (names_of edits.now)
        → IfOk result (DeclareBehind text.now (names_of edits.now)) }
{
    let mut all = expression_edits(alloc, netlist, table, edits)?;
    all.sort_unstable_by_key(|edit| edit.span.start);
    put_lines(alloc, text, netlist, edits.tails.as_slice(), &mut all)?;
    spliced(alloc, text, &all)
}
