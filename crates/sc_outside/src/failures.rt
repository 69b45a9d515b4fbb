//! Which calls for files failed.
ghost use Rattle.std.specs.Prelude.{◌≡◌, None, Some, option_map, string_bytes};
ghost use Rattle.sc_outside.specs.Counts.{next_count};
ghost use Rattle.sc_outside.specs.Reads.{IsLast};

use crate::count::FaultCount;
use std::alloc::Global;

/// The calls for files that failed: how many did, and the name of the file of the last one, unless there was no memory
/// to keep it.
#[derive(Drop)]
pub(crate) struct Failures {
    faults: FaultCount,
    last: Option<String>,
}

impl Failures {
    /// No call failed yet.
    pub(crate) fn new() -> Failures
        ensures none { result.faults.count ≡ 0 }
        ensures last { result.last ≡ None }
    {
        Failures {
            faults: FaultCount::new(),
            last: None,
        }
    }

    /// A call for the file of this name failed, where the name is kept.
    pub(crate) fn add(&mut self, name: Option<String>)
        ensures count { self.new.faults.count ≡ next_count self.old.faults.count }
        ensures last { self.new.last ≡ name }
    {
        self.faults.raise();
        self.last = name;
    }
}

/// A copy of a name, where there is memory for one.
#[tactic(auto, unfolding(crate::specs::Reads::IsLast))]
pub(crate) fn kept_name(alloc: Global, name: &str) -> Option<String>
    ensures { IsLast (option_map (λ kept. string_bytes kept) result) (Some name.now) }
{
    match String::from_str(alloc, name) {
        Ok(kept) => Some(kept),
        Err(_) => None,
    }
}
