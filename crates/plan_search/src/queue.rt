//! Nodes that wait to be looked at, each once.
use base_types::NoMemory;
use chain_tours::{at, count, filled, put};
use std::alloc::Global;

/// A queue with room for each node.
#[derive(Drop)]
pub(crate) struct Queue {
    nodes: Vec<u32>,
    // Whether a node waits: 1, or 0.
    waits: Vec<u32>,
    first: u32,
    waiting: u32,
}

impl Queue {
    /// An empty one for so many nodes.
    pub fn new(alloc: Global, nodes: u32) -> Result<Queue, NoMemory> {
        Ok(Queue {
            nodes: filled(alloc, nodes, 0)?,
            waits: filled(alloc, nodes, 0)?,
            first: 0,
            waiting: 0,
        })
    }

    /// Puts a node at the end, unless it waits already.
    pub fn push(&mut self, node: u32) {
        if at(self.waits.as_slice(), node) > 0 {
            return;
        }
        put(self.waits.as_mut_slice(), node, 1);
        let room = count(self.nodes.as_slice());
        let end = self.first.wrapping_add(self.waiting);
        let place = if end >= room {
            end.wrapping_sub(room)
        } else {
            end
        };
        put(self.nodes.as_mut_slice(), place, node);
        self.waiting = self.waiting.wrapping_add(1);
    }

    /// Takes the first one.
    pub fn pop(&mut self) -> Option<u32> {
        if self.waiting == 0 {
            return None;
        }
        let node = at(self.nodes.as_slice(), self.first);
        put(self.waits.as_mut_slice(), node, 0);
        let next = self.first.wrapping_add(1);
        self.first = if next >= count(self.nodes.as_slice()) {
            0
        } else {
            next
        };
        self.waiting = self.waiting.wrapping_sub(1);
        Some(node)
    }
}
