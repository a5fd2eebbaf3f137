//! The assigns and instances of statements, whose expressions add the nets that no statement declares.
ghost use Rattle.std.specs.Prelude.{◌≡◌, ◌<◌, ◌^◌, ◌++◌, [], ◌∷◌, All, length, map, OnOk, IfOk};
ghost use Rattle.verilog_names.specs.Declarations.{items_in, connection_items, mentions};
ghost use Rattle.verilog_reader.specs.Numbering.{with_mentioned, with_items, numbered_connection, numbered_assign, numbered_assigns_in, numbered_assigns, numbered_instances_in, numbered_instances, IsFineExpression, HasFineItems};

use crate::bits::expression_of;
use crate::nets::Nets;
use base_types::{Name, NoMemory, Rows};
use netlist_core::{Assign, Connection as Pin, Instance};
use std::alloc::Global;
use verilog_names::unescaped;
use verilog_syntax::{Connection, Expression, Placed, Statement};

fn assign_of<'a>(
    alloc: Global,
    nets: &mut Nets<'a>,
    line: u64,
    left: &Expression<'a>,
    right: &Expression<'a>,
) -> Result<Assign, NoMemory>
    requires left { IsFineExpression (with_items nets.old (left.now.items ++ right.now.items)) left.now }
    requires right { IsFineExpression (with_items nets.old (left.now.items ++ right.now.items)) right.now }
    ensures ok { OnOk result (nets.new ≡ with_items nets.old (left.now.items ++ right.now.items)) }
    ensures value { IfOk result (λ assign. assign ≡ numbered_assign nets.new line left.now right.now) }
{
    let left = expression_of(alloc, nets, left)?;
    let right = expression_of(alloc, nets, right)?;
    Ok(Assign { left, right, line })
}

fn pin_of<'a>(
    alloc: Global,
    nets: &mut Nets<'a>,
    connection: &Connection<'a>,
) -> Result<Pin, NoMemory>
    requires { IsFineExpression (with_items nets.old connection.now.expression.items) connection.now.expression }
    ensures ok { OnOk result (nets.new ≡ with_items nets.old connection.now.expression.items) }
    ensures value { IfOk result (λ pin. pin ≡ numbered_connection nets.new connection.now) }
{
    Ok(Pin {
        pin: Name::copy(alloc, unescaped(&connection.pin))?,
        expr: expression_of(alloc, nets, &connection.expression)?,
    })
}

fn pins_of<'a>(
    alloc: Global,
    nets: &mut Nets<'a>,
    connections: &[Connection<'a>],
) -> Result<Rows<Pin>, NoMemory>
    requires { All (λ c. IsFineExpression (with_items nets.old (connection_items connections.now)) c.expression) connections.now }
    ensures ok { OnOk result (nets.new ≡ with_items nets.old (connection_items connections.now)) }
    ensures value { IfOk result (λ pins. pins ≡ map (numbered_connection nets.new) connections.now) }
{
    let mut pins = Rows::of(Vec::with_capacity(alloc, connections.len())?);
    for connection in connections {
        pins.push(pin_of(alloc, nets, connection)?)?;
    }
    Ok(pins)
}

fn push_statement<'a>(
    alloc: Global,
    assigns: &mut Rows<Assign>,
    instances: &mut Rows<Instance>,
    nets: &mut Nets<'a>,
    line: u64,
    statement: &Statement<'a>,
) -> Result<(), NoMemory>
    requires { HasFineItems (with_items nets.old (items_in statement.now)) statement.now }
    ensures ok { OnOk result (nets.new ≡ with_items nets.old (items_in statement.now)) }
    ensures assigns { OnOk result (assigns.new ≡ assigns.old ++ numbered_assigns_in nets.new line statement.now) }
    ensures instances { OnOk result (instances.new ≡ instances.old ++ numbered_instances_in nets.new line statement.now) }
{
    match statement {
        Statement::Assign { left, right } => {
            assigns.push(assign_of(alloc, nets, line, left.get(), right.get())?)
        }
        Statement::Instance {
            cell,
            name,
            connections,
        } => instances.push(Instance {
            name: Name::copy(alloc, unescaped(name))?,
            cell: Name::copy(alloc, unescaped(cell))?,
            connections: pins_of(alloc, nets, connections.as_slice())?,
            line,
        }),
        Statement::Module { .. } | Statement::Declare { .. } => Ok(()),
    }
}

/// The same, and the statement is freed.
fn push_spent<'a>(
    alloc: Global,
    assigns: &mut Rows<Assign>,
    instances: &mut Rows<Instance>,
    nets: &mut Nets<'a>,
    placed: Placed<'a>,
) -> Result<(), NoMemory>
    requires { HasFineItems (with_items nets.old (items_in placed.statement)) placed.statement }
    ensures ok { OnOk result (nets.new ≡ with_items nets.old (items_in placed.entry.statement)) }
    ensures assigns { OnOk result (assigns.new ≡ assigns.old ++ numbered_assigns_in nets.new placed.entry.line placed.entry.statement) }
    ensures instances { OnOk result (instances.new ≡ instances.old ++ numbered_instances_in nets.new placed.entry.line placed.entry.statement) }
{
    push_statement(
        alloc,
        assigns,
        instances,
        nets,
        placed.line,
        &placed.statement,
    )
}

/// The assigns and the instances, each statement freed once it is read. An instance's number has 32 bits: more would
/// not fit in memory.
pub(crate) fn parts_of<'a>(
    alloc: Global,
    nets: &mut Nets<'a>,
    statements: Rows<Placed<'a>>,
) -> Result<(Rows<Assign>, Rows<Instance>), NoMemory>
    requires { All (λ p. HasFineItems (with_mentioned nets.old (mentions statements)) p.statement) statements }
    ensures ok { OnOk result (nets.new ≡ with_mentioned nets.old (mentions statements.entry)) }
    ensures assigns { IfOk result (λ made. made.0 ≡ numbered_assigns nets.new statements.entry) }
    ensures instances { IfOk result (λ made. made.1 ≡ numbered_instances nets.new statements.entry) }
    ensures few { IfOk result (λ made. length made.1 < 2 ^ 32) }
{
    let mut assigns = Rows::new(alloc);
    let mut instances = Rows::new(alloc);
    for placed in statements.into_vec() {
        push_spent(alloc, &mut assigns, &mut instances, nets, placed)?;
    }
    if instances.as_slice().len() > u32::MAX as usize {
        return Err(NoMemory);
    }
    Ok((assigns, instances))
}
