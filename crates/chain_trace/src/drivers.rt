//! The sources of each class of nets, found once for all sinks.
ghost use Rattle.std.specs.Prelude.{◌≡◌, ◌<◌, ℕ, ◌+◌, length, slice_index, MatchOption, IfSome, IfOk, OnOk, Some, replicate};
ghost use Rattle.netlist_core.specs.Netlists.{IsNetlist};
ghost use Rattle.netlist_core.specs.Joining.{AreClassesOf};
ghost use Rattle.cell_table.specs.Cells.{Cells};
ghost use Rattle.chain_trace.specs.Paths.{scan_path_at};
ghost use Rattle.chain_trace.specs.Drivers.{IsPut, AreDrivers, IsDone, IsAny, HasEntries, AreEntries};

use crate::path::{Source, Step};
use crate::ports::drives;
use crate::tally::{Tally, added};
use base_types::NoMemory;
use cell_table::ScanPath;
use netlist_core::{Classes, NetId, Netlist, net_of};
use std::alloc::Global;

fn put(drivers: &mut Vec<Tally>, class: usize, source: Source)
    requires within { class < length drivers.old.items }
    ensures put { IsPut drivers.old.items drivers.new.items class source }
{
    drivers[class] = added(drivers[class], source);
}

/// Puts a source that stands on a net, where it stands on one.
fn put_at(drivers: &mut Vec<Tally>, classes: &Classes, net: Option<NetId>, source: Source)
    requires net { IfSome net (λ net. net.0 < length classes.now) }
    requires class { IfSome net (λ net. slice_index classes.now net.0 < length drivers.old.items) }
    ensures len { length drivers.new.items ≡ length drivers.old.items }
    ensures put { MatchOption net (drivers.new.items ≡ drivers.old.items) (λ net. IsPut drivers.old.items drivers.new.items (slice_index classes.now net.0) source) }
{
    let Some(net) = net else {
        return;
    };
    put(drivers, classes.class_of(net).0 as usize, source);
}

fn put_ports(drivers: &mut Vec<Tally>, netlist: &Netlist, classes: &Classes)
    requires netlist { IsNetlist netlist.now }
    requires classes { AreClassesOf netlist.now classes.now }
    requires count { length drivers.old.items ≡ length netlist.now.nets }
    ensures count { length drivers.new.items ≡ length netlist.now.nets }
    ensures drivers { (cells : Cells) → AreDrivers netlist.now cells classes.now (IsDone netlist.now 0 0 0 0) drivers.old.items → AreDrivers netlist.now cells classes.now (IsDone netlist.now (length netlist.now.ports) 0 0 0) drivers.new.items }
{
    for port in netlist.ports.as_slice() {
        if drives(port.direction) {
            put_at(drivers, classes, Some(port.net), Source::Port(port.net));
        }
    }
}

/// An out pin that has no number of 32 bits counts as want of memory.
fn put_outs(
    drivers: &mut Vec<Tally>,
    netlist: &Netlist,
    classes: &Classes,
    instance: u32,
    path: u32,
    entry: &ScanPath,
) -> Result<(), NoMemory>
    requires netlist { IsNetlist netlist.now }
    requires classes { AreClassesOf netlist.now classes.now }
    requires count { length drivers.old.items ≡ length netlist.now.nets }
    requires instance { instance < length netlist.now.instances }
    ensures count { length drivers.new.items ≡ length netlist.now.nets }
    ensures drivers { OnOk result ((cells : Cells) (ports : ℕ) → scan_path_at netlist.now cells instance path ≡ Some entry.now → AreDrivers netlist.now cells classes.now (IsDone netlist.now ports instance path 0) drivers.old.items → AreDrivers netlist.now cells classes.now (IsDone netlist.now ports instance (path + 1) 0) drivers.new.items) }
{
    let outs = entry.outs.as_slice();
    for o in 0..outs.len() {
        let Ok(out) = u32::try_from(o) else {
            return Err(NoMemory);
        };
        let net = net_of(netlist, instance, &outs[o].pin);
        put_at(
            drivers,
            classes,
            net,
            Source::Out(Step {
                instance,
                path,
                out,
            }),
        );
    }
    Ok(())
}

/// A path that has no number of 32 bits counts as want of memory.
fn put_paths(
    drivers: &mut Vec<Tally>,
    netlist: &Netlist,
    classes: &Classes,
    instance: u32,
    paths: &[ScanPath],
) -> Result<(), NoMemory>
    requires netlist { IsNetlist netlist.now }
    requires classes { AreClassesOf netlist.now classes.now }
    requires count { length drivers.old.items ≡ length netlist.now.nets }
    requires instance { instance < length netlist.now.instances }
    ensures count { length drivers.new.items ≡ length netlist.now.nets }
    ensures drivers { OnOk result ((cells : Cells) (ports : ℕ) → HasEntries netlist.now cells instance paths.now → AreDrivers netlist.now cells classes.now (IsDone netlist.now ports instance 0 0) drivers.old.items → AreDrivers netlist.now cells classes.now (IsDone netlist.now ports (instance + 1) 0 0) drivers.new.items) }
{
    for p in 0..paths.len() {
        let Ok(path) = u32::try_from(p) else {
            return Err(NoMemory);
        };
        put_outs(drivers, netlist, classes, instance, path, &paths[p])?;
    }
    Ok(())
}

/// No class with a source.
fn no_drivers(alloc: Global, count: usize) -> Result<Vec<Tally>, NoMemory>
    ensures value { IfOk result (λ drivers. drivers.items ≡ replicate count Tally.Empty) }
{
    let mut drivers = Vec::new(alloc);
    for _ in 0..count {
        drivers.push(Tally::Empty)?;
    }
    Ok(drivers)
}

/// What is kept of each class's sources, where these are the scan paths of each instance's cell.
pub(crate) fn drivers_of(
    alloc: Global,
    netlist: &Netlist,
    classes: &Classes,
    entries: &[&[ScanPath]],
) -> Result<Vec<Tally>, NoMemory>
    requires netlist { IsNetlist netlist.now }
    requires classes { AreClassesOf netlist.now classes.now }
    requires count { length entries.now ≡ length netlist.now.instances }
    ensures drivers { IfOk result (λ drivers. (cells : Cells) → AreEntries netlist.now cells entries.now → AreDrivers netlist.now cells classes.now IsAny drivers.items) }
{
    let mut drivers = no_drivers(alloc, netlist.nets.as_slice().len())?;
    put_ports(&mut drivers, netlist, classes);
    for i in 0..entries.len() {
        put_paths(&mut drivers, netlist, classes, i as u32, entries[i])?;
    }
    Ok(drivers)
}
