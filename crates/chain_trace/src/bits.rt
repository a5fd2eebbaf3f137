//! The bits of a path.
ghost use Rattle.std.specs.Prelude.{◌≡◌, ◌++◌, ◌∷◌, [], false, All, IfOk, OnOk, Some, option_map};
ghost use Rattle.chain_trace.specs.Paths.{scan_path_at, out_pin_at};
ghost use Rattle.chain_trace.specs.Parities.{Mark, Turn, Bit, bit_marks, step_marks, entry_marks, path_marks, AreBitsOf, NamesEntry, GoesOn};

use crate::entry::{out_pin, scan_path};
use crate::path::{BitId, Path, PathBits, Step};
use base_types::{NoMemory, Rows};
use cell_table::{CellTable, OutPin, ScanPath};
use netlist_core::Netlist;
use std::alloc::Global;

impl PathBits {
    fn new(alloc: Global) -> PathBits
        ensures bits { result.bits ≡ [] }
        ensures parity { result.parity ≡ [] }
        ensures out_parity { result.out_parity ≡ false }
    {
        PathBits {
            bits: Rows::new(alloc),
            parity: Rows::new(alloc),
            out_parity: false,
        }
    }

    fn turn(&mut self, inverted: bool)
        ensures on { GoesOn self.old self.new (Turn inverted ∷ []) }
    {
        self.out_parity ^= inverted;
    }

    fn put(&mut self, bit: BitId) -> Result<(), NoMemory>
        ensures on { OnOk result (GoesOn self.old self.new (Bit bit ∷ [])) }
    {
        self.bits.push(bit)?;
        self.parity.push(self.out_parity)?;
        self.out_parity = false;
        Ok(())
    }

    /// A scan path with more than 2^32 bits counts as want of memory.
    fn put_bits(&mut self, instance: u32, path: u32, bits: &[bool]) -> Result<(), NoMemory>
        ensures on { OnOk result (GoesOn self.old self.new (bit_marks instance path 0 bits.now)) }
    {
        for (k, inverted) in bits.iter().enumerate() {
            let Ok(index) = u32::try_from(k) else {
                return Err(NoMemory);
            };
            self.turn(*inverted);
            self.put(BitId {
                instance,
                path,
                index,
            })?;
        }
        Ok(())
    }

    fn put_entry(&mut self, step: Step, path: &ScanPath, out: &OutPin) -> Result<(), NoMemory>
        ensures on { OnOk result (GoesOn self.old self.new (entry_marks step (Some path.now) (Some out.now))) }
    {
        self.put_bits(step.instance, step.path, path.bits.as_slice())?;
        self.turn(out.inverted);
        Ok(())
    }

    fn put_step(&mut self, netlist: &Netlist, table: &CellTable, step: Step) -> Result<(), NoMemory>
        requires entry { NamesEntry netlist.now table.now step }
        ensures on { OnOk result (GoesOn self.old self.new (step_marks netlist.now table.now step)) }
    {
        let Some(path) = scan_path(netlist, table, step.instance, step.path) else {
            unreachable!()
        };
        let Some(out) = out_pin(path, step.out) else {
            unreachable!()
        };
        self.put_entry(step, path, out)
    }
}

/// The bits of a path with their parities, or want of memory. It goes over the path once.
pub fn bits_of(
    alloc: Global,
    netlist: &Netlist,
    table: &CellTable,
    path: &Path,
) -> Result<PathBits, NoMemory>
    requires entries { All (NamesEntry netlist.now table.now) path.now.steps }
    ensures value { IfOk result (AreBitsOf netlist.now table.now path.now.steps) }
{
    let mut all = PathBits::new(alloc);
    for step in path.steps.as_slice() {
        all.put_step(netlist, table, *step)?;
    }
    Ok(all)
}
