//! The checker of a log's lines, whose bytes come in pieces.
ghost use Rattle.std.specs.Prelude.{◌≡◌, ◌++◌, ◌∷◌, ◌<◌, ◌≤◌, ◌⊎◌, [], None, OnOk, IfOk, IsTrue, true, take, drop, length};
ghost use Rattle.std.specs.Str.{bytes_eq};
ghost use Rattle.sc_logs.specs.LineSteps.{step_of, ends_line};
ghost use Rattle.sc_checker.specs.Progress.{IsChecked};
ghost use Rattle.sc_checker.specs.Streams.{Checking as AnyChecking, unread, first_words, AfterReading, AfterLine, lengthened, line_number, After, ended};
ghost use Rattle.sc_logs.specs.Texts.{has_no_newline};

use crate::checking::{Reason, Verdict};
use crate::steps::StepChecker;
use sc_footprint::{Problem, Theory};
use sc_logs::{Room, cut_line, read_instance, read_learned, read_whole};
use std::alloc::{AllocError, Global};
use std::marker::Model;
use std::mem;

/// Checks each line as it ends, and keeps the bytes of the line that isn't ended yet.
#[derive(Drop)]
pub(crate) struct LineChecker {
    begun: bool,
    line: Vec<u8>,
    room: Room,
    steps: StepChecker,
}

impl Model for LineChecker {
    ghost use Rattle.sc_checker.specs.Streams.{Checking};

    ghost Value = { Checking };

    ghost view = { λ c. record { begun = c.begun; line = c.line.items; progress = c.steps } };
}

/// Whether a line is the first one of a log.
fn is_first(line: &[u8]) -> bool
    ensures { result ≡ bytes_eq line.now first_words }
{
    line == b"log 1".as_slice()
}

/// Takes the step of a line.
fn take_line<T: Theory>(
    steps: &mut StepChecker,
    room: &mut Room,
    alloc: Global,
    rules: &T,
    problem: &Problem<'_>,
    line: &[u8],
) -> Result<(), AllocError>
    requires checked { IsChecked problem.now steps.old }
    requires going { steps.old.fault ≡ None }
    ensures taken { OnOk result (AfterReading (T.has_instance rules.now problem.now)
        (T.clause_of rules.now problem.now) steps.old (step_of line.now) steps.new) }
    ensures checked { OnOk result (IsChecked problem.now steps.new) }
{
    if read_learned(line, room)? {
        return steps.take_lits(alloc, room.clause.as_slice(), room.hints.as_slice());
    }
    match read_instance(alloc, line)? {
        Some(instance) => steps.take_instance(alloc, rules, problem, &instance),
        None => {
            steps.fail(steps.next_number(), Reason::Malformed);
            Ok(())
        }
    }
}

/// Where the last line that ends within bytes ends, or 0.
fn lines_end(bytes: &[u8]) -> usize
    ensures within { result ≤ length bytes.now }
    ensures ended { (result ≡ 0) ⊎ IsTrue (ends_line (take result bytes.now)) }
    ensures rest { IsTrue (has_no_newline (drop result bytes.now)) }
{
    let mut left = bytes;
    while let Some((last, before)) = left.split_last() {
        if *last == b'\n' {
            return left.len();
        }
        left = before;
    }
    0
}

impl LineChecker {
    /// A checker of lines of a log on a problem, which has read nothing.
    pub(crate) fn new(alloc: Global, problem: &Problem<'_>) -> Result<LineChecker, AllocError>
        ensures unread { IfOk result (λ c. c ≡ unread problem.now) }
        ensures checked { IfOk result (λ c. IsChecked problem.now c.progress) }
    {
        let steps = StepChecker::new(alloc, problem)?;
        Ok(LineChecker {
            begun: false,
            line: Vec::new(alloc),
            room: Room::new(alloc),
            steps,
        })
    }

    /// Takes a line: the first one, or that of a step.
    fn take<T: Theory>(
        &mut self,
        alloc: Global,
        rules: &T,
        problem: &Problem<'_>,
        line: &[u8],
    ) -> Result<(), AllocError>
        requires checked { IsChecked problem.now self.old.progress }
        requires going { self.old.progress.fault ≡ None }
        requires nothing { self.old.line ≡ [] }
        ensures taken { OnOk result (AfterLine (T.has_instance rules.now problem.now)
            (T.clause_of rules.now problem.now) self.old.begun line.now self.old.progress self.new) }
        ensures checked { OnOk result (IsChecked problem.now self.new.progress) }
    {
        if self.begun {
            return take_line(&mut self.steps, &mut self.room, alloc, rules, problem, line);
        }
        if is_first(line) {
            self.begun = true;
            return Ok(());
        }
        self.steps.fail(0, Reason::Malformed);
        Ok(())
    }

    /// Reads the end of a line. A line that begins here isn't copied.
    fn read_end<T: Theory>(
        &mut self,
        alloc: Global,
        rules: &T,
        problem: &Problem<'_>,
        end: &[u8],
    ) -> Result<(), AllocError>
        requires checked { IsChecked problem.now self.old.progress }
        requires end { IsTrue (has_no_newline end.now) }
        ensures read { OnOk result (After (T.has_instance rules.now problem.now) (T.clause_of rules.now problem.now)
            self.old (end.now ++ 10 ∷ []) self.new) }
        ensures checked { OnOk result (IsChecked problem.now self.new.progress) }
    {
        if self.steps.is_at_fault() {
            return Ok(());
        }
        if self.line.is_empty() {
            return self.take(alloc, rules, problem, end);
        }
        self.line.extend_from_slice(end)?;
        let line = mem::replace(&mut self.line, Vec::new(alloc));
        self.take(alloc, rules, problem, line.as_slice())
    }

    /// Keeps bytes of a line that doesn't end with them.
    fn keep(&mut self, bytes: &[u8]) -> Result<(), AllocError>
        ensures kept { OnOk result (self.new ≡ lengthened self.old bytes.now) }
        ensures same { self.new.progress ≡ self.old.progress }
    {
        if self.steps.is_at_fault() {
            return Ok(());
        }
        self.line.extend_from_slice(bytes)?;
        Ok(())
    }

    /// Whether a line of a step may begin here: the first line was read, none is kept, and no step was at fault.
    fn is_between(&self) -> bool
        ensures { IsTrue result → (self.now ≡ record { begun = true; line = []; progress = self.now.progress })
            × (self.now.progress.fault ≡ None) }
    {
        self.begun && self.line.is_empty() && !self.steps.is_at_fault()
    }

    /// Reads the line at a place of bytes that end with a newline. The place behind the line's newline.
    fn read_cut<T: Theory>(
        &mut self,
        alloc: Global,
        rules: &T,
        problem: &Problem<'_>,
        bytes: &[u8],
        from: usize,
    ) -> Result<usize, AllocError>
        requires checked { IsChecked problem.now self.old.progress }
        requires ended { IsTrue (ends_line bytes.now) }
        requires within { from < length bytes.now }
        ensures read { IfOk result (λ next. (length (drop next bytes.now) < length (drop from bytes.now))
            × ((end : AnyChecking)
            → After (T.has_instance rules.now problem.now) (T.clause_of rules.now problem.now) self.new
            (drop next bytes.now) end
            → After (T.has_instance rules.now problem.now) (T.clause_of rules.now problem.now) self.old
            (drop from bytes.now) end)) }
        ensures checked { OnOk result (IsChecked problem.now self.new.progress) }
    {
        let Some((line, _)) = cut_line(&bytes[from..]) else {
            unreachable!()
        };
        self.read_end(alloc, rules, problem, line)?;
        Ok(from + line.len() + 1)
    }

    /// Reads the line at a place of bytes that end with a newline, that of a learned clause in one pass. The place
    /// behind the line's newline.
    fn read_line<T: Theory>(
        &mut self,
        alloc: Global,
        rules: &T,
        problem: &Problem<'_>,
        bytes: &[u8],
        from: usize,
    ) -> Result<usize, AllocError>
        requires checked { IsChecked problem.now self.old.progress }
        requires ended { IsTrue (ends_line bytes.now) }
        requires within { from < length bytes.now }
        ensures read { IfOk result (λ next. (length (drop next bytes.now) < length (drop from bytes.now))
            × ((end : AnyChecking)
            → After (T.has_instance rules.now problem.now) (T.clause_of rules.now problem.now) self.new
            (drop next bytes.now) end
            → After (T.has_instance rules.now problem.now) (T.clause_of rules.now problem.now) self.old
            (drop from bytes.now) end)) }
        ensures checked { OnOk result (IsChecked problem.now self.new.progress) }
    {
        if !self.is_between() {
            return self.read_cut(alloc, rules, problem, bytes, from);
        }
        match read_whole(bytes, from, &mut self.room)? {
            Some(next) => {
                let clause = self.room.codes.as_slice();
                self.steps.take_learned(clause, self.room.hints.as_slice())?;
                Ok(next)
            }
            None => self.read_cut(alloc, rules, problem, bytes, from),
        }
    }

    /// Reads lines of a log's text, one after another: no bytes, or bytes that end with a newline.
    fn read_lines<T: Theory>(
        &mut self,
        alloc: Global,
        rules: &T,
        problem: &Problem<'_>,
        bytes: &[u8],
    ) -> Result<(), AllocError>
        requires checked { IsChecked problem.now self.old.progress }
        requires ended { (length bytes.now ≡ 0) ⊎ IsTrue (ends_line bytes.now) }
        ensures read { OnOk result (After (T.has_instance rules.now problem.now) (T.clause_of rules.now problem.now)
            self.old bytes.now self.new) }
        ensures checked { OnOk result (IsChecked problem.now self.new.progress) }
    {
        let mut place = 0;
        while place < bytes.len() {
            place = self.read_line(alloc, rules, problem, bytes, place)?;
        }
        Ok(())
    }

    /// Reads a piece of a log's text: the lines that end within it, and then what is left of it, which is kept.
    pub(crate) fn read<T: Theory>(
        &mut self,
        alloc: Global,
        rules: &T,
        problem: &Problem<'_>,
        piece: &[u8],
    ) -> Result<(), AllocError>
        requires { IsChecked problem.now self.old.progress }
        ensures read { OnOk result (After (T.has_instance rules.now problem.now) (T.clause_of rules.now problem.now)
            self.old piece.now self.new) }
        ensures checked { OnOk result (IsChecked problem.now self.new.progress) }
    {
        let (lines, rest) = piece.split_at(lines_end(piece));
        self.read_lines(alloc, rules, problem, lines)?;
        self.keep(rest)
    }

    /// The number of the line that isn't ended.
    fn unended_number(&self) -> u64
        requires { self.now.progress.steps < length self.now.progress.clauses }
        ensures { result ≡ line_number self.now.begun self.now.progress }
    {
        if self.begun {
            self.steps.next_number()
        } else {
            0
        }
    }

    /// The verdict where the text ends here.
    pub(crate) fn verdict(&self) -> Verdict
        requires { self.now.progress.fault ≡ None → self.now.progress.steps < length self.now.progress.clauses }
        ensures { result ≡ ended self.now }
    {
        if self.steps.is_at_fault() || self.line.is_empty() {
            return self.steps.verdict();
        }
        Verdict::Rejected {
            step: self.unended_number(),
            reason: Reason::Malformed,
        }
    }
}
