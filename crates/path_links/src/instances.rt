//! Instances with their scan sinks blank.
ghost use Rattle.std.specs.Prelude.{◌≡◌, [], List, map, if◌then◌else◌, IfOk};
ghost use Rattle.netlist_core.specs.declared.netlist.NetName.{NetName as GhostNetName};
ghost use Rattle.netlist_core.specs.Netlists.{named_pin, named_instance};
ghost use Rattle.path_links.specs.Erasure.{erased_pin, erased_instance};

use crate::sinks::Sinks;
use base_types::{Name, NoMemory, Rows};
use netlist_core::{Bits, Connection, Expr, Instance};
use std::alloc::Global;

pub(crate) fn copy_expr(alloc: Global, expr: &Expr) -> Result<Expr, NoMemory>
    ensures value { IfOk result (λ copy. copy ≡ expr.now) }
{
    Ok(Expr {
        bits: Bits::copy(alloc, expr.bits.as_slice())?,
        span: expr.span,
    })
}

fn erased_expr(alloc: Global, is_sink: bool, expr: &Expr) -> Result<Expr, NoMemory>
    ensures value { IfOk result (λ copy. copy.bits ≡ (if is_sink then [] else expr.now.bits)) }
{
    if is_sink {
        Ok(Expr {
            bits: Bits::new(alloc),
            span: expr.span,
        })
    } else {
        copy_expr(alloc, expr)
    }
}

fn erased_connection(
    alloc: Global,
    sinks: &Sinks,
    instance: &Name,
    connection: &Connection,
) -> Result<Connection, NoMemory>
    ensures value { IfOk result (λ copy. (nets : List GhostNetName) → named_pin nets copy ≡ erased_pin sinks.now instance.now (named_pin nets connection.now)) }
{
    let is_sink = sinks.has_pin(instance, &connection.pin);
    Ok(Connection {
        pin: Name::copy(alloc, connection.pin.bytes())?,
        expr: erased_expr(alloc, is_sink, &connection.expr)?,
    })
}

fn erased_connections(
    alloc: Global,
    sinks: &Sinks,
    instance: &Name,
    connections: &[Connection],
) -> Result<Rows<Connection>, NoMemory>
    ensures value { IfOk result (λ copies. (nets : List GhostNetName) → map (named_pin nets) copies ≡ map (erased_pin sinks.now instance.now) (map (named_pin nets) connections.now)) }
{
    let mut copies = Rows::new(alloc);
    for connection in connections {
        copies.push(erased_connection(alloc, sinks, instance, connection)?)?;
    }
    Ok(copies)
}

fn erased_copy(alloc: Global, sinks: &Sinks, instance: &Instance) -> Result<Instance, NoMemory>
    ensures value { IfOk result (λ copy. (nets : List GhostNetName) → named_instance nets copy ≡ erased_instance sinks.now (named_instance nets instance.now)) }
{
    let connections = instance.connections.as_slice();
    Ok(Instance {
        name: Name::copy(alloc, instance.name.bytes())?,
        cell: Name::copy(alloc, instance.cell.bytes())?,
        connections: erased_connections(alloc, sinks, &instance.name, connections)?,
        line: instance.line,
    })
}

pub(crate) fn erased_instances(
    alloc: Global,
    sinks: &Sinks,
    instances: &[Instance],
) -> Result<Rows<Instance>, NoMemory>
    ensures value { IfOk result (λ copies. (nets : List GhostNetName) → map (named_instance nets) copies ≡ map (erased_instance sinks.now) (map (named_instance nets) instances.now)) }
{
    let mut copies = Rows::new(alloc);
    for instance in instances {
        copies.push(erased_copy(alloc, sinks, instance)?)?;
    }
    Ok(copies)
}
