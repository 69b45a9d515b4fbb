//! Instances that may give a literal where nothing is decided.

use sc_clauses::Instance;
use std::alloc::Global;

/// Instances that were suggested and not looked at yet.
#[derive(Drop)]
pub struct Suggestions {
    instances: Vec<Instance>,
    /// How many literals were true when they were asked for.
    asked: usize,
}

impl Suggestions {
    /// None, before any is asked for.
    pub fn new(alloc: Global) -> Suggestions {
        Suggestions {
            instances: Vec::new(alloc),
            asked: 0,
        }
    }

    /// From which one of so many true literals on there are new ones, if it's time to ask for more.
    pub fn first_new(&self, count: usize) -> Option<usize> {
        if !self.instances.is_empty() || count <= self.asked {
            return None;
        }
        Some(self.asked)
    }

    /// Takes what was suggested where so many literals are true.
    pub fn put(&mut self, instances: Vec<Instance>, count: usize) {
        self.instances = instances;
        self.asked = count;
    }

    /// How many are left.
    pub fn len(&self) -> usize {
        self.instances.len()
    }

    /// Takes one of them, if there is one.
    pub fn take(&mut self) -> Option<Instance> {
        self.instances.pop()
    }
}
