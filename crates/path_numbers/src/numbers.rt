//! Paths as numbers.
ghost use Rattle.std.specs.Prelude.{◌≡◌, ◌<◌, ◌^◌, ◌+◌, All, IsTrue, IfOk, length, map, option_map};
ghost use Rattle.netlist_core.specs.Netlists.{IsNetlist};
ghost use Rattle.chain_trace.specs.Paths.{is_driven, has_port};
ghost use Rattle.path_numbers.specs.Numbers.{step_spec, path_spec, path_specs, step_count};

use crate::extras::Extras;
use crate::free::is_free_output;
use base_types::{NoMemory, Rows};
use cell_table::CellTable;
use chain_rules::{PathSpec, StepSpec};
use chain_trace::{Path, Step};
use def_reader::Design;
use netlist_core::Netlist;
use path_links::FreeOutputs;
use std::alloc::Global;
use traced_paths::step_bits;

/// A step whose bits have no number of 32 bits counts as want of memory.
fn step_spec(netlist: &Netlist, table: &CellTable, step: Step) -> Result<StepSpec, NoMemory>
    ensures value { IfOk result (λ spec. spec ≡ step_spec netlist.now table.now step) }
{
    let Ok(bits) = u32::try_from(step_bits(netlist, table, step)) else {
        return Err(NoMemory);
    };
    Ok(StepSpec {
        instance: step.instance,
        path: step.path,
        out: step.out,
        bits,
    })
}

fn step_specs(
    alloc: Global,
    netlist: &Netlist,
    table: &CellTable,
    steps: &[Step],
) -> Result<Rows<StepSpec>, NoMemory>
    ensures value { IfOk result (λ specs. specs ≡ map (step_spec netlist.now table.now) steps.now) }
{
    let mut specs = Rows::with_room(alloc, steps.len())?;
    for step in steps {
        specs.push(step_spec(netlist, table, *step)?)?;
    }
    Ok(specs)
}

fn path_spec(
    alloc: Global,
    netlist: &Netlist,
    table: &CellTable,
    outputs: &FreeOutputs<'_>,
    extras: &Extras<'_>,
    path: &Path,
) -> Result<PathSpec, NoMemory>
    requires outputs { outputs.now ≡ netlist.now }
    requires within { path.now.output.0 < length netlist.now.nets }
    ensures value { IfOk result (λ spec. spec ≡ path_spec netlist.now table.now extras.now path.now) }
{
    Ok(PathSpec {
        input: path.input.0,
        output: path.output.0,
        free_out: is_free_output(alloc, netlist, table, outputs, extras, path)?,
        steps: step_specs(alloc, netlist, table, path.steps.as_slice())?,
    })
}

/// So many steps more; a count that has no number of 32 bits counts as want of memory.
fn with_steps(count: u32, steps: usize) -> Result<u32, NoMemory>
    ensures value { IfOk result (λ sum. sum ≡ count + steps) }
    ensures few { IfOk result (λ sum. sum < 2 ^ 32) }
{
    let Ok(steps) = u32::try_from(steps) else {
        return Err(NoMemory);
    };
    match count.checked_add(steps) {
        Some(sum) => Ok(sum),
        None => Err(NoMemory),
    }
}

/// The paths as numbers: nets and instances as the netlist counts them, scan paths and out pins as the table does. An output is free where
/// it is assigned (its net bit stands at one place besides the header and its declarations, as the whole left side of an assign whose
/// right side is one net bit) or direct (an output port whose net bit stands at one place, as the whole expression at the out pin of the
/// path's last step), and no design pin's name begins with the port's name and `.extra`. Without a design no design pin counts.
///
/// It goes over the netlist and the design pins once. Bits of a step that don't fit 32 bits, or as many steps, count as want of memory.
pub fn path_specs(
    alloc: Global,
    netlist: &Netlist,
    table: &CellTable,
    design: Option<&Design>,
    paths: &[Path],
) -> Result<Vec<PathSpec>, NoMemory>
    requires netlist { IsNetlist netlist.now }
    requires outputs { All (λ p. IsTrue (has_port is_driven netlist.now p.output)) paths.now }
    ensures value { IfOk result (λ specs. specs.items ≡ path_specs netlist.now table.now (option_map (λ d. d.now) design.entry) paths.now) }
    // Steps can be counted in 32 bits.
    ensures few { IfOk result (λ specs. step_count specs.items < 2 ^ 32) }
{
    let outputs = FreeOutputs::of(alloc, netlist)?;
    let extras = Extras::of(alloc, design)?;
    let mut specs = Vec::new(alloc);
    let mut steps: u32 = 0;
    for path in paths {
        steps = with_steps(steps, path.steps.as_slice().len())?;
        specs.push(path_spec(alloc, netlist, table, &outputs, &extras, path)?)?;
    }
    Ok(specs)
}
