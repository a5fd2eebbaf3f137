ghost use Rattle.std.specs.Prelude.{◌≡◌, ◌<◌, ◌^◌, ◌++◌, length, IfOk, OnOk};
ghost use Rattle.std.specs.List.{flat_map};
ghost use Rattle.base_types.specs.declared.fault.Fault.{Fault};
ghost use Rattle.base_types.specs.FirstFault.{IfFault, IsFirstFault};
ghost use Rattle.trace_command.specs.Reports.{step_text, path_text, IsPathText, HoldsInTrace};

use crate::steps::{path_parity, push_step};
use base_types::{Fault, Kind, NoMemory, ReadFault, Text};
use cell_table::{CellTable, read_table};
use chain_trace::{Path, Step, output_named, plain_of, trace};
use netlist_core::{Netlist, classes_of};
use std::alloc::Global;
use verilog_reader::read_netlist;

fn push_steps(
    alloc: Global,
    text: &mut Vec<u8>,
    netlist: &Netlist,
    table: &CellTable,
    steps: &[Step],
) -> Result<(), NoMemory>
    ensures value { OnOk result (text.new.items ≡ text.old.items ++ flat_map (step_text netlist.now table.now) steps.now) }
{
    for step in steps {
        push_step(alloc, text, netlist, table, *step)?;
    }
    Ok(())
}

fn text_of(
    alloc: Global,
    netlist: &Netlist,
    table: &CellTable,
    path: &Path,
) -> Result<Text, NoMemory>
    ensures value { IfOk result (λ text. text ≡ path_text netlist.now table.now path.now) }
{
    let nets = netlist.nets.as_slice();
    let steps = path.steps.as_slice();
    let mut text = Vec::new(alloc);
    text.extend_from_slice(b"from ")?;
    text.extend_from_slice(plain_of(nets, path.input))?;
    text.extend_from_slice(b"\n")?;
    push_steps(alloc, &mut text, netlist, table, steps)?;
    text.extend_from_slice(b"to ")?;
    text.extend_from_slice(plain_of(nets, path.output))?;
    text.extend_from_slice(b"\nparity ")?;
    let parity: &[u8] = if path_parity(netlist, table, steps) {
        b"1"
    } else {
        b"0"
    };
    text.extend_from_slice(parity)?;
    text.extend_from_slice(b"\n")?;
    Ok(Text::of(text))
}

/// The text of the scan path of an output, which is named by its plain name, over the texts of a cell table and of a Verilog
/// netlist: `from PORT`, a line `INSTANCE CELL IN OUT BITS` for each step in the order in which the path shifts, `to PORT`,
/// and `parity P`, which is 1 where the output shows the inverse of what the input gave.
///
/// Refused by the first fault, that of the least kind: of the table (TableSyntax, TableShape), of the Verilog
/// (VerilogSyntax, SecondModule, VerilogNumber, VerilogTwice, BadSelect), NoPort where no bit of an output or inout port has
/// the name, and NoDriver, TwoDrivers or Loop where the output has no path.
pub fn path_text(
    alloc: Global,
    table: &[u8],
    verilog: &[u8],
    output: &[u8],
) -> Result<Text, ReadFault>
    requires size { length verilog.now < 2 ^ 32 }
    ensures text { IfOk result (IsPathText table.now verilog.now output.now) }
    ensures fault { IfFault result (IsFirstFault (HoldsInTrace table.now verilog.now output.now)) }
    ensures no_fault { OnOk result ((fault : Fault) → HoldsInTrace table.now verilog.now output.now fault → ⊥) }
{
    let table = read_table(alloc, table)?;
    let netlist = read_netlist(alloc, verilog)?;
    let Some(net) = output_named(&netlist, output) else {
        return Err(ReadFault::Fault(Fault::of_words(Kind::NoPort)));
    };
    let classes = classes_of(alloc, &netlist)?;
    let path = trace(alloc, &netlist, &classes, &table, net)?;
    Ok(text_of(alloc, &netlist, &table, &path)?)
}
