//! The netlist with edits.
ghost use Rattle.std.specs.Prelude.{◌≡◌, ◌==◌, ◌++◌, ℕ, List, Option, None, map, IfOk, OnOk};
ghost use Rattle.std.specs.HashMap.{get};
ghost use Rattle.netlist_core.specs.declared.netlist.NetId.{NetId as of_net};
ghost use Rattle.chain_trace.specs.declared.path.Path.{Path};
ghost use Rattle.path_links.specs.Edited.{edited_expr, map_from};
ghost use Rattle.net_edit.specs.Tails.{one_bit, net_named, rewired};
ghost use Rattle.net_edit.specs.Wires.{net_of_wire, names_of, AreEditsFor};
ghost use Rattle.net_edit.specs.Applied.{HasPuts, put_connection, put_instance, put_assign, tail_assign};

use crate::edits::{Edits, TailEdit};
use crate::puts::{net_of_wire, puts_of, rights_of};
use base_types::{Name, NoMemory, Rows, Span};
use cell_table::CellTable;
use netlist_core::{Assign, Bit, Bits, Connection, Expr, Instance, NetId, NetName, Netlist, Port};
use std::alloc::Global;
use std::collections::HashMap;

/// The expression, or in its place the net that is given.
fn edited_expr(alloc: Global, net: Option<NetId>, expr: &Expr) -> Result<Expr, NoMemory>
    ensures value { IfOk result (λ copy. copy ≡ edited_expr net expr.now) }
{
    let bits = match net {
        Some(net) => Bits::one(Bit::Net(net)),
        None => Bits::copy(alloc, expr.bits.as_slice())?,
    };
    Ok(Expr {
        bits,
        span: expr.span,
    })
}

/// The net that stands newly at a pin.
fn put_at(puts: &HashMap<(usize, &[u8]), NetId>, instance: usize, pin: &[u8]) -> Option<NetId>
    ensures value { (at : ℕ → List ℕ → Option of_net) → HasPuts at puts.now → result ≡ at instance pin.now }
{
    match puts.get(&(instance, pin)) {
        Some(net) => Some(*net),
        None => None,
    }
}

fn put_connection(
    alloc: Global,
    puts: &HashMap<(usize, &[u8]), NetId>,
    instance: usize,
    connection: &Connection,
) -> Result<Connection, NoMemory>
    ensures value { (at : ℕ → List ℕ → Option of_net) → HasPuts at puts.now → IfOk result (λ copy. copy ≡ put_connection at instance connection.now) }
{
    let net = put_at(puts, instance, connection.pin.bytes());
    Ok(Connection {
        pin: Name::copy(alloc, connection.pin.bytes())?,
        expr: edited_expr(alloc, net, &connection.expr)?,
    })
}

fn put_connections(
    alloc: Global,
    puts: &HashMap<(usize, &[u8]), NetId>,
    instance: usize,
    connections: &[Connection],
) -> Result<Rows<Connection>, NoMemory>
    ensures value { (at : ℕ → List ℕ → Option of_net) → HasPuts at puts.now → IfOk result (λ copies. copies ≡ map (put_connection at instance) connections.now) }
{
    let mut copies = Rows::with_room(alloc, connections.len())?;
    for connection in connections {
        copies.push(put_connection(alloc, puts, instance, connection)?)?;
    }
    Ok(copies)
}

fn put_instance(
    alloc: Global,
    puts: &HashMap<(usize, &[u8]), NetId>,
    place: usize,
    placed: &Instance,
) -> Result<Instance, NoMemory>
    ensures value { (at : ℕ → List ℕ → Option of_net) → HasPuts at puts.now → IfOk result (λ copy. copy ≡ put_instance at place placed.now) }
{
    let connections = placed.connections.as_slice();
    Ok(Instance {
        name: Name::copy(alloc, placed.name.bytes())?,
        cell: Name::copy(alloc, placed.cell.bytes())?,
        connections: put_connections(alloc, puts, place, connections)?,
        line: placed.line,
    })
}

fn put_instances(
    alloc: Global,
    puts: &HashMap<(usize, &[u8]), NetId>,
    instances: &[Instance],
) -> Result<Rows<Instance>, NoMemory>
    ensures value { (at : ℕ → List ℕ → Option of_net) → HasPuts at puts.now → IfOk result (λ copies. copies ≡ map_from (put_instance at) 0 instances.now) }
{
    let mut copies = Rows::with_room(alloc, instances.len())?;
    for (place, placed) in instances.iter().enumerate() {
        copies.push(put_instance(alloc, puts, place, placed)?)?;
    }
    Ok(copies)
}

fn right_at(rights: &HashMap<usize, NetId>, place: usize) -> Option<NetId>
    ensures value { result ≡ get ◌==◌ rights.now place }
{
    match rights.get(&place) {
        Some(net) => Some(*net),
        None => None,
    }
}

fn put_assign(
    alloc: Global,
    rights: &HashMap<usize, NetId>,
    place: usize,
    assign: &Assign,
) -> Result<Assign, NoMemory>
    ensures value { IfOk result (λ copy. copy ≡ put_assign (get ◌==◌ rights.now) place assign.now) }
{
    Ok(Assign {
        left: edited_expr(alloc, None, &assign.left)?,
        right: edited_expr(alloc, right_at(rights, place), &assign.right)?,
        line: assign.line,
    })
}

fn put_assigns(
    alloc: Global,
    rights: &HashMap<usize, NetId>,
    assigns: &[Assign],
) -> Result<Rows<Assign>, NoMemory>
    ensures value { IfOk result (λ copies. copies ≡ map_from (put_assign (get ◌==◌ rights.now)) 0 assigns.now) }
{
    let mut copies = Rows::new(alloc);
    for (place, assign) in assigns.iter().enumerate() {
        copies.push(put_assign(alloc, rights, place, assign)?)?;
    }
    Ok(copies)
}

/// The expression that is one net bit, which wasn't read.
fn one_bit(alloc: Global, net: NetId) -> Expr
    ensures value { result ≡ one_bit net }
{
    Expr {
        bits: Bits::one(Bit::Net(net)),
        span: Span { start: 0, end: 0 },
    }
}

/// Puts an assign for each freed port behind the others.
fn add_assigns(
    alloc: Global,
    netlist: &Netlist,
    assigns: &mut Rows<Assign>,
    tails: &[TailEdit],
) -> Result<(), NoMemory>
    ensures value { OnOk result (assigns.new ≡ assigns.old ++ map (tail_assign netlist.now) tails.now) }
{
    for tail in tails {
        let net = net_of_wire(netlist, tail.source)?;
        assigns.push(Assign {
            left: one_bit(alloc, tail.port),
            right: one_bit(alloc, net),
            line: 0,
        })?;
    }
    Ok(())
}

fn copy_nets(alloc: Global, nets: &[NetName]) -> Result<Rows<NetName>, NoMemory>
    ensures value { IfOk result (λ copies. copies ≡ nets.now) }
{
    let mut copies = Rows::with_room(alloc, nets.len())?;
    for net in nets {
        copies.push(NetName {
            plain: Name::copy(alloc, net.plain.bytes())?,
            text: Name::copy(alloc, net.text.bytes())?,
        })?;
    }
    Ok(copies)
}

/// Puts the tails behind the other nets.
fn add_nets(alloc: Global, nets: &mut Rows<NetName>, tails: &[TailEdit]) -> Result<(), NoMemory>
    ensures value { OnOk result (nets.new ≡ nets.old ++ map (λ t. net_named t.tail) tails.now) }
{
    for tail in tails {
        nets.push(NetName {
            plain: Name::copy(alloc, tail.tail.bytes())?,
            text: Name::copy(alloc, tail.tail.bytes())?,
        })?;
    }
    Ok(())
}

/// The netlist with the edits between paths: each in pin and each assigned port of an edit stands on its wire, and each freed
/// port leaves its out pin for its tail and gets an assign, behind the others; the tails stand behind the other nets, with an
/// empty span and line 0 at what wasn't read. Or want of memory, as which a number of a net beyond 32 bits counts too.
pub fn apply(
    alloc: Global,
    netlist: &Netlist,
    table: &CellTable,
    edits: &Edits,
) -> Result<Netlist, NoMemory>
    ensures value { (old new : List Path) → AreEditsFor netlist.now table.now old new edits.now → IfOk result (λ m. m ≡ rewired netlist.now table.now (names_of edits.now) old new) }
{
    let tails = edits.tails.as_slice();
    let puts = puts_of(alloc, netlist, table, edits.pins.as_slice(), tails)?;
    let rights = rights_of(alloc, netlist, edits.ports.as_slice())?;
    let mut nets = copy_nets(alloc, netlist.nets.as_slice())?;
    add_nets(alloc, &mut nets, tails)?;
    let mut assigns = put_assigns(alloc, &rights, netlist.assigns.as_slice())?;
    add_assigns(alloc, netlist, &mut assigns, tails)?;
    let ports: Vec<Port> = Vec::from_slice(alloc, netlist.ports.as_slice())?;
    Ok(Netlist {
        module: Name::copy(alloc, netlist.module.bytes())?,
        line: netlist.line,
        nets,
        declared: netlist.declared,
        ports: Rows::of(ports),
        assigns,
        instances: put_instances(alloc, &puts, netlist.instances.as_slice())?,
    })
}
