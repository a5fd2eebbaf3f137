//! The links of paths, and those that are new.
ghost use Rattle.std.specs.Prelude.{◌≡◌, ◌++◌, List, not, IfOk, OnOk};
ghost use Rattle.std.specs.List.{flat_map, list_any};
ghost use Rattle.path_links.specs.Edits.{Link as one_link, links, same_link, moved};
ghost use Rattle.path_links.specs.EditKeys.{key_of, HasLinks};

use base_types::NoMemory;
use chain_trace::{Path, Sink, Source};
use std::alloc::Global;
use std::collections::HashSet;

/// A sink and the source that feeds it.
pub type Link = (Source, Sink);

/// A link, as a set keeps it: of the source and the sink the place of a step, none at a port, and a number.
type Key = (Option<(u32, u32)>, u32, Option<u32>, u32);

fn key_of(link: Link) -> Key
    ensures value { result ≡ key_of link }
{
    let (place, from) = match link.0 {
        Source::Port(net) => (None, net.0),
        Source::Out(step) => (Some((step.instance, step.path)), step.out),
    };
    let (instance, to) = match link.1 {
        Sink::Port(net) => (None, net.0),
        Sink::In { instance, path } => (Some(instance), path),
    };
    (place, from, instance, to)
}

fn put_links(all: &mut Vec<Link>, path: &Path) -> Result<(), NoMemory>
    ensures value { OnOk result (all.new.items ≡ all.old.items ++ links path.now) }
{
    let mut source = Source::Port(path.input);
    for step in path.steps.as_slice() {
        let sink = Sink::In {
            instance: step.instance,
            path: step.path,
        };
        all.push((source, sink))?;
        source = Source::Out(*step);
    }
    all.push((source, Sink::Port(path.output)))?;
    Ok(())
}

/// The links of some paths, in their order.
fn links_of(alloc: Global, paths: &[Path]) -> Result<Vec<Link>, NoMemory>
    ensures value { IfOk result (λ all. all.items ≡ flat_map links paths.now) }
{
    let mut all = Vec::new(alloc);
    for path in paths {
        put_links(&mut all, path)?;
    }
    Ok(all)
}

/// The set of some links.
fn set_of(alloc: Global, links: &[Link]) -> Result<HashSet<Key>, NoMemory>
    ensures value { IfOk result (λ set. HasLinks links.now set) }
{
    let mut set = HashSet::new(alloc);
    for link in links {
        set.insert(key_of(*link))?;
    }
    Ok(set)
}

/// Whether a link isn't in the set.
fn lacks(set: &HashSet<Key>, link: Link) -> bool
    ensures value { (links : List one_link) → HasLinks links set.now → result ≡ not (list_any (same_link link) links) }
{
    !set.contains(&key_of(link))
}

/// The links of the new paths that the old ones haven't, in their order; or want of memory.
pub fn moved_links(alloc: Global, old: &[Path], new: &[Path]) -> Result<Vec<Link>, NoMemory>
    ensures value { IfOk result (λ all. all.items ≡ moved old.now new.now) }
{
    let set = set_of(alloc, links_of(alloc, old)?.as_slice())?;
    let links = links_of(alloc, new)?;
    let mut all = Vec::new(alloc);
    for link in links.as_slice() {
        if lacks(&set, *link) {
            all.push(*link)?;
        }
    }
    Ok(all)
}
