//! The netlist of statements that have no fault.
ghost use Rattle.std.specs.Prelude.{◌≡◌, false, ◌+◌, ◌-◌, ◌<◌, ◌^◌, ◌++◌, All, Ok, Some, IsSome, length, map, option_to_list, OnOk, IfOk};
ghost use Rattle.std.specs.List.{flat_map};
ghost use Rattle.netlist_core.specs.Netlists.{IsNetlist};
ghost use Rattle.verilog_names.specs.Values.{unescaped};
ghost use Rattle.verilog_names.specs.Declarations.{declaration_of, declarations, width_or_one};
ghost use Rattle.verilog_checks.specs.Checks.{check_number, check_twice, check_select};
ghost use Rattle.verilog_checks.specs.Faults.{is_bad_range, range_in};
ghost use Rattle.verilog_reader.specs.Denoted.{directions_of, module_name, header_name, header_line, IsNetlistOf};
ghost use Rattle.verilog_names.specs.NameTables.{place, firsts_of};
ghost use Rattle.verilog_reader.specs.Numbering.{entries, numbered, port_bits, numbers_from, numbered_port, numbered_ports_of, numbered_ports_in, numbered_ports, numbered_connection, numbered_assigns_in, numbered_assigns, numbered_instances_in, numbered_instances, IsListed, AreListed, IsFineStatement};

use crate::nets::Nets;
use crate::parts::parts_of;
use base_types::{Name, NoMemory, Rows};
use netlist_core::{Direction, NetId, Netlist, Port};
use std::alloc::Global;
use token_forms::TokenText;
use verilog_names::{DeclaredNames, Entry, unescaped, width_or_one};
use verilog_syntax::{Declared, Placed, Statement};

fn direction_of(kind: Declared) -> Option<Direction>
    ensures { directions_of kind ≡ option_to_list result }
{
    match kind {
        Declared::Input => Some(Direction::Input),
        Declared::Output => Some(Direction::Output),
        Declared::Inout => Some(Direction::Inout),
        Declared::Wire | Declared::Tri | Declared::Supply0 | Declared::Supply1 => None,
    }
}

fn push_ports(
    ports: &mut Rows<Port>,
    line: u64,
    direction: Direction,
    entry: Entry,
) -> Result<(), NoMemory>
    requires { entry.first + width_or_one entry.bounds < 2 ^ 32 }
    ensures ok { OnOk result (ports.new ≡ ports.old ++ port_bits line direction (Some entry)) }
{
    let end = entry.first + width_or_one(entry.bounds) as u32;
    for number in entry.first..end {
        ports.push(Port {
            net: NetId(number),
            direction,
            line,
        })?;
    }
    Ok(())
}

fn push_named_ports(
    ports: &mut Rows<Port>,
    nets: &Nets,
    line: u64,
    direction: Direction,
    names: &[TokenText],
) -> Result<(), NoMemory>
    requires { All (IsListed nets.now) names.now }
    ensures ok { OnOk result (ports.new ≡ ports.old ++ flat_map (λ name. port_bits line direction (place nets.now (unescaped name))) names.now) }
{
    for name in names {
        push_ports(ports, line, direction, nets.entry(unescaped(name)))?;
    }
    Ok(())
}

fn push_declared(
    ports: &mut Rows<Port>,
    nets: &Nets,
    line: u64,
    statement: &Statement,
) -> Result<(), NoMemory>
    requires { AreListed nets.now statement.now }
    ensures ok { OnOk result (ports.new ≡ ports.old ++ numbered_ports_in nets.now line statement.now) }
{
    if let Statement::Declare { kind, names, .. } = statement {
        if let Some(direction) = direction_of(*kind) {
            return push_named_ports(ports, nets, line, direction, names.as_slice());
        }
    }
    Ok(())
}

/// The port bits, in the order of their direction statements.
fn ports_of(alloc: Global, nets: &Nets, statements: &[Placed]) -> Result<Rows<Port>, NoMemory>
    requires { All (λ p. AreListed nets.now p.statement) statements.now }
    ensures value { IfOk result (λ ports. ports ≡ numbered_ports nets.now statements.now) }
{
    let mut ports = Rows::new(alloc);
    for placed in statements {
        push_declared(&mut ports, nets, placed.line, &placed.statement)?;
    }
    Ok(ports)
}

/// The name of a module whose header this is.
fn module_name<'a>(statement: &Statement<'a>) -> &'a [u8]
    ensures value { result.now ≡ module_name statement.now }
{
    match statement {
        Statement::Module { name, .. } => unescaped(name),
        _ => &[],
    }
}

fn header_name<'a>(statements: &[Placed<'a>]) -> &'a [u8]
    ensures value { result.now ≡ header_name statements.now }
{
    match statements {
        [header, ..] => module_name(&header.statement),
        [] => &[],
    }
}

fn header_line(statements: &[Placed]) -> u64
    ensures value { result ≡ header_line statements.now }
{
    match statements {
        [header, ..] => header.line,
        [] => 0,
    }
}

fn folded<'a>(
    alloc: Global,
    names: DeclaredNames<'a>,
    statements: Rows<Placed<'a>>,
) -> Result<Netlist, NoMemory>
    requires names { names ≡ firsts_of (declarations statements) }
    requires fine { All (λ p. IsFineStatement (entries statements) p.statement) statements }
    ensures value { IfOk result (λ n. n ≡ numbered (entries statements.entry) statements.entry) }
    ensures few_nets { IfOk result (λ n. length n.nets < 2 ^ 32) }
    ensures few_instances { IfOk result (λ n. length n.instances < 2 ^ 32) }
{
    let module = Name::copy(alloc, header_name(statements.as_slice()))?;
    let line = header_line(statements.as_slice());
    let mut nets = Nets::of(names);
    let declared = nets.count();
    let ports = ports_of(alloc, &nets, statements.as_slice())?;
    let (assigns, instances) = parts_of(alloc, &mut nets, statements)?;
    Ok(Netlist {
        module,
        line,
        nets: nets.names(alloc)?,
        declared,
        ports,
        assigns,
        instances,
    })
}

/// The netlist of statements that have no fault.
pub(crate) fn netlist_of<'a>(
    alloc: Global,
    names: DeclaredNames<'a>,
    statements: Rows<Placed<'a>>,
) -> Result<Netlist, NoMemory>
    requires names { names ≡ firsts_of (declarations statements) }
    requires number { check_number statements ≡ Ok tt }
    requires twice { check_twice statements ≡ Ok tt }
    requires select { check_select statements ≡ Ok tt }
    ensures value { IfOk result (λ n. IsNetlistOf statements.entry n) }
    ensures netlist { IfOk result (λ n. IsNetlist n) }
{
    folded(alloc, names, statements)
}
