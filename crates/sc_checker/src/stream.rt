//! The checker of logs that come in pieces.
ghost use Rattle.std.specs.Prelude.{◌≡◌, false, OnOk, OnErr, IfOk, IfErr, IsTrue};
ghost use Rattle.sc_checker.specs.Progress.{IsChecked};
ghost use Rattle.sc_checker.specs.Streams.{unread, After, ended};
ghost use Rattle.sc_footprint.specs.Truths.{IsUnsatisfiable};

use crate::checking::Verdict;
use crate::line_checker::LineChecker;
use sc_footprint::{Problem, Theory};
use std::alloc::{AllocError, Global};
use std::marker::Model;

/// Checks the text of a log that comes in pieces, however it is cut, and keeps no more of it than
/// the clauses of its steps and the line that isn't ended yet. Contracts see the rules, the problem,
/// what it holds, and whether memory ran out once: then it refuses all.
#[derive(Drop)]
pub struct LogChecker<'c, 'p, T> {
    alloc: Global,
    rules: &'c T,
    problem: &'c Problem<'p>,
    lines: LineChecker,
    refuses: bool,
}

impl<'c, 'p, T> Model for LogChecker<'c, 'p, T> {
    ghost use Rattle.std.specs.Coded.{codes};
    ghost use Rattle.std.specs.Prelude.{◌≡◌, false};
    ghost use Rattle.sc_schema.specs.contracts.ty.Ty as ty;
    ghost use Rattle.sc_sorts.specs.contracts.sort.Sort as sort;
    ghost use Rattle.sc_checker.specs.Progress.{IsChecked};
    ghost use Rattle.sc_checker.specs.Streams.{Checker};

    ghost Value = { Checker T };

    ghost coded = { Prim.hlevel (codes, T.code, ty.the_row.coded, sort.the_row.coded) };

    ghost view = { λ c. record { rules = c.rules.now; problem = c.problem.now; state = c.lines; refuses = c.refuses } };

    ghost invariant = { λ c. c.refuses ≡ false → IsChecked c.problem.now c.lines.progress };
}

impl<'c, 'p, T: Theory> LogChecker<'c, 'p, T> {
    /// A checker that has read nothing, with all marks that it needs. Its one fault is want of memory.
    pub fn new(
        alloc: Global,
        rules: &'c T,
        problem: &'c Problem<'p>,
    ) -> Result<LogChecker<'c, 'p, T>, AllocError>
        ensures { IfOk result (λ c. c
            ≡ record { rules = rules.now; problem = problem.now; state = unread problem.now; refuses = false }) }
    {
        let lines = LineChecker::new(alloc, problem)?;
        Ok(LogChecker {
            alloc,
            rules,
            problem,
            lines,
            refuses: false,
        })
    }

    /// Reads a further piece of the text. Its one fault is want of memory: then all calls are refused.
    pub fn feed(&mut self, piece: &[u8]) -> Result<(), AllocError>
        // What is held after the piece.
        ensures fed { OnOk result (After (T.has_instance self.old.rules self.old.problem)
            (T.clause_of self.old.rules self.old.problem) self.old.state piece.now self.new.state) }
        ensures rules { OnOk result (self.new.rules ≡ self.old.rules) }
        ensures problem { OnOk result (self.new.problem ≡ self.old.problem) }
        // A refusal is the last answer but refusals.
        ensures refused { OnErr result (IsTrue self.new.refuses) }
        ensures refuses { OnOk result ((self.old.refuses ≡ false) × (self.new.refuses ≡ false)) }
    {
        if self.refuses {
            return Err(AllocError);
        }
        self.refuses = true;
        self.lines
            .read(self.alloc, self.rules, self.problem, piece)?;
        self.refuses = false;
        Ok(())
    }

    /// The verdict where the log ends here. It is refused exactly where memory ran out before.
    pub fn end(self) -> Result<Verdict, AllocError>
        // The verdict is that on what is held.
        ensures ended { IfOk result (λ v. v ≡ ended self.entry.state) }
        ensures refuses { IfOk result (λ _. self.entry.refuses ≡ false) }
        ensures refused { IfErr result (λ _. IsTrue self.entry.refuses) }
        // Where the log refutes the goal, it is true in no well-formed world.
        ensures sound { IfOk result (λ v. v ≡ Verdict.Refuted → IsUnsatisfiable self.entry.problem) }
    {
        if self.refuses {
            return Err(AllocError);
        }
        Ok(self.lines.verdict())
    }
}
