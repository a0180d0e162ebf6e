use crate::lists::{fill, filled, read, write};
use no_memory::NoMemory;
use std::alloc::Global;

/// A queue of nodes, each at most once, first in and first out.
#[derive(Drop)]
pub(crate) struct Ring {
    places: Vec<u32>,
    held: Vec<bool>,
    size: u32,
    first: u32,
    count: u32,
}

impl Ring {
    /// No nodes yet, of at most so many.
    pub(crate) fn new(alloc: Global, nodes: u32) -> Result<Ring, NoMemory> {
        let places = filled(alloc, nodes, 0)?;
        let held = filled(alloc, nodes, false)?;
        Ok(Ring {
            places,
            held,
            size: nodes,
            first: 0,
            count: 0,
        })
    }

    /// Takes all nodes out.
    pub(crate) fn clear(&mut self) {
        fill(&mut self.held, false);
        self.first = 0;
        self.count = 0;
    }

    /// A place, counted on from the ring's end at its beginning.
    fn turned(&self, place: u32) -> u32 {
        if place < self.size {
            place
        } else {
            place.saturating_sub(self.size)
        }
    }

    /// Puts a node last, where it is not there.
    pub(crate) fn put(&mut self, node: u32) {
        if read(&self.held, node, true) {
            return;
        }
        write(&mut self.held, node, true);
        let place = self.turned(self.first.saturating_add(self.count));
        write(&mut self.places, place, node);
        self.count = self.count.saturating_add(1);
    }

    /// Takes the first node out.
    pub(crate) fn take(&mut self) -> Option<u32> {
        if self.count == 0 {
            return None;
        }
        let node = read(&self.places, self.first, 0);
        write(&mut self.held, node, false);
        self.first = self.turned(self.first.saturating_add(1));
        self.count -= 1;
        Some(node)
    }
}
