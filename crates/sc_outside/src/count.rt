//! How often something outside failed.
ghost use Rattle.std.specs.Prelude.{◌≡◌, ◌≤◌};
ghost use Rattle.sc_outside.specs.Counts.{last_count, next_count};

/// A count of faults, which stands still at its last value.
#[derive(Clone, Copy)]
pub(crate) struct FaultCount {
    count: u64,
    ghost within: { count ≤ last_count },
}

impl FaultCount {
    /// No fault yet.
    pub(crate) fn new() -> FaultCount
        ensures { result.count ≡ 0 }
    {
        FaultCount { count: 0 }
    }

    /// Counts one more fault.
    pub(crate) fn raise(&mut self)
        ensures { self.new.count ≡ next_count self.old.count }
    {
        self.count = self.count.saturating_add(1);
    }
}
