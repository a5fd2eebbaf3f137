//! Elements of chains by the pins of the trace.
ghost use Rattle.std.specs.Prelude.{◌≡◌, ◌++◌, map, slice_get, IfOk, OnOk};
ghost use Rattle.chain_trace.specs.Paths.{scan_path_at, out_pin_at};
ghost use Rattle.def_writer.specs.Placing.{instance_name};
ghost use Rattle.traced_paths.specs.Bits.{step_bits};
ghost use Rattle.def_writer.specs.PlanChains.{input_name, output_name, left_by, start_pin, stop_pin, element_of};

use crate::traced::Traced;
use base_types::{NoMemory, Rows};
use cell_table::CellTable;
use chain_rules::EndSpec;
use chain_trace::{Step, out_pin, scan_path};
use def_edit::NewElement;
use netlist_core::Netlist;
use token_forms::TokenText;

/// The name of an instance; empty without one.
fn instance_name(netlist: &Netlist, instance: u32) -> &[u8]
    ensures value { result.now ≡ instance_name (slice_get netlist.now.instances instance) }
{
    match netlist.instances.as_slice().get(instance as usize) {
        Some(placed) => placed.name.bytes(),
        None => &[],
    }
}

/// The in pin of a scan path; empty without one.
fn input_name<'d>(netlist: &Netlist, table: &'d CellTable, instance: u32, path: u32) -> &'d [u8]
    ensures value { result.now ≡ input_name (scan_path_at netlist.now table.now instance path) }
{
    match scan_path(netlist, table, instance, path) {
        Some(path) => path.input.bytes(),
        None => &[],
    }
}

/// The out pin by which a step leaves its scan path; empty without one.
fn output_name<'d>(netlist: &Netlist, table: &'d CellTable, step: Step) -> &'d [u8]
    ensures value { result.now ≡ output_name (out_pin_at netlist.now table.now step) }
{
    match scan_path(netlist, table, step.instance, step.path) {
        Some(path) => match out_pin(path, step.out) {
            Some(out) => out.pin.bytes(),
            None => &[],
        },
        None => &[],
    }
}

/// How many bits a step has; a number beyond 32 bits counts as want of memory.
fn step_bits(netlist: &Netlist, table: &CellTable, step: Step) -> Result<u32, NoMemory>
    ensures value { IfOk result (λ bits. bits ≡ step_bits netlist.now table.now step) }
{
    let bits = match scan_path(netlist, table, step.instance, step.path) {
        Some(path) => path.bits.as_slice().len(),
        None => 0,
    };
    match u32::try_from(bits) {
        Ok(bits) => Ok(bits),
        Err(_) => Err(NoMemory),
    }
}

fn element_of<'d>(
    netlist: &'d Netlist,
    table: &'d CellTable,
    step: Step,
) -> Result<NewElement<'d>, NoMemory>
    ensures value { IfOk result (λ element. element ≡ element_of netlist.now table.now step) }
{
    Ok(NewElement {
        component: TokenText::of(instance_name(netlist, step.instance)),
        input: TokenText::of(input_name(netlist, table, step.instance, step.path)),
        output: TokenText::of(output_name(netlist, table, step)),
        bits: step_bits(netlist, table, step)?,
    })
}

/// Puts the elements of steps behind others.
pub(crate) fn put_elements<'d>(
    elements: &mut Rows<NewElement<'d>>,
    netlist: &'d Netlist,
    table: &'d CellTable,
    steps: &[Step],
) -> Result<(), NoMemory>
    ensures value { OnOk result (elements.new ≡ elements.old ++ map (element_of netlist.now table.now) steps.now) }
{
    for step in steps {
        elements.push(element_of(netlist, table, *step)?)?;
    }
    Ok(())
}

/// The pin at which a chain starts; empty at a port.
pub(crate) fn start_pin<'d>(
    netlist: &Netlist,
    table: &'d CellTable,
    traced: &Traced<'_>,
    start: EndSpec,
) -> TokenText<'d>
    ensures value { result ≡ start_pin netlist.now table.now traced.now start }
{
    match start {
        EndSpec::Port(_) => TokenText::of(&[]),
        EndSpec::Cell { instance, path, .. } => match traced.step(instance, path) {
            Some(step) => TokenText::of(output_name(netlist, table, step)),
            None => TokenText::of(&[]),
        },
    }
}

/// The pin at which a chain stops; empty at a port.
pub(crate) fn stop_pin<'d>(netlist: &Netlist, table: &'d CellTable, stop: EndSpec) -> TokenText<'d>
    ensures value { result ≡ stop_pin netlist.now table.now stop }
{
    match stop {
        EndSpec::Port(_) => TokenText::of(&[]),
        EndSpec::Cell { instance, path, .. } => {
            TokenText::of(input_name(netlist, table, instance, path))
        }
    }
}
