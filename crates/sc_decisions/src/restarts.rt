//! When to begin anew from no decision.
ghost use Rattle.std.specs.Prelude.{◌≤◌};

/// The shortest run between two restarts, in conflicts. A run has to be long enough to go through the parts of one
/// large condition, since what a restart takes back of them is decided again.
const SHORTEST_RUN: u64 = 4_000;

/// Counts conflicts. The lengths of runs are those of Luby's sequence: 1, 1, 2, 1, 1, 2, 4, and so on.
#[derive(Clone, Copy)]
pub struct Restarts {
    /// How many conflicts the run has had.
    conflicts: u64,
    /// The number of the run, counted from 1.
    run: u64,
    /// How many times the shortest length it has.
    length: u64,
    /// Whether atoms are tried with their last values in it, and not as false: in every other run.
    keeps_phases: bool,
}

impl Restarts {
    /// The first run.
    pub fn new() -> Restarts {
        Restarts {
            conflicts: 0,
            run: 1,
            length: 1,
            keeps_phases: true,
        }
    }

    /// Goes on to the next run.
    fn begin(&mut self) {
        self.conflicts = 0;
        self.keeps_phases = !self.keeps_phases;
        let lowest_bit = self.run & self.run.wrapping_neg();
        if lowest_bit == self.length {
            self.run = self.run.saturating_add(1);
            self.length = 1;
        } else {
            self.length = self.length.saturating_mul(2);
        }
    }

    /// Whether atoms are tried with their last values in this run, and not as false.
    pub fn keeps_phases(&self) -> bool {
        self.keeps_phases
    }

    /// How many levels a conflict may leave, of so many at most: none where a run ends.
    pub fn most_levels(&mut self, most: usize) -> usize
        ensures { result ≤ most }
    {
        self.conflicts = self.conflicts.saturating_add(1);
        if self.conflicts < self.length.saturating_mul(SHORTEST_RUN) {
            return most;
        }
        self.begin();
        0
    }
}
