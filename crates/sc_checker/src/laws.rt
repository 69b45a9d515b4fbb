//! What holds of the checks of logs that come in pieces.
ghost use Rattle.std.specs.Prelude.{◌≡◌, ◌↔◌, ◌++◌, ℕ, List};
ghost use Rattle.sc_logs.specs.LineSteps.{step_of};
ghost use Rattle.sc_logs.specs.Readings.{Reads};
ghost use Rattle.sc_checker.specs.Streams.{Checking as AnyChecking, unread, After, ended, HasVerdict, IsAcceptedText};
ghost use Rattle.sc_logs.specs.Texts.{step_line};
ghost use Rattle.sc_logs.specs.Writable.{is_writable};
ghost use Rattle.sc_footprint.specs.Problems.{Posed};

use crate::checking::Verdict;
use sc_footprint::Theory;

/// By the rules of any theory, how a log's text is cut doesn't matter. The verdict after its bytes is that of
/// reading and checking them as a whole, and `Refuted` exactly where they are the text of a log that is accepted.
pub fn stream_laws<T: Theory>()
    // Two pieces leave what they leave as one.
    ensures cutting { (rules : T) (p : Posed) (c d e : AnyChecking) (first second : List ℕ)
        → After (T.has_instance rules p) (T.clause_of rules p) c first d
        → After (T.has_instance rules p) (T.clause_of rules p) d second e
        → After (T.has_instance rules p) (T.clause_of rules p) c (first ++ second) e }
    // The verdict is that on the steps, or the least line or step at fault.
    ensures agrees { (rules : T) (p : Posed) (bytes : List ℕ) (c : AnyChecking) (v : Verdict)
        → After (T.has_instance rules p) (T.clause_of rules p) (unread p) bytes c
        → (ended c ≡ v) ↔ HasVerdict (T.has_instance rules p) (T.clause_of rules p) p bytes v }
    // The texts that refute the goal are those of logs that are accepted.
    ensures accepted { (rules : T) (p : Posed) (bytes : List ℕ) (c : AnyChecking)
        → After (T.has_instance rules p) (T.clause_of rules p) (unread p) bytes c
        → (ended c ≡ Verdict.Refuted) ↔ IsAcceptedText (T.has_instance rules p) (T.clause_of rules p) p bytes }
    // Bytes have one verdict.
    ensures once { (rules : T) (p : Posed) (bytes : List ℕ) (u v : Verdict)
        → HasVerdict (T.has_instance rules p) (T.clause_of rules p) p bytes u
        → HasVerdict (T.has_instance rules p) (T.clause_of rules p) p bytes v → u ≡ v }
    // The step of a line is the one whose line it is, where there is one.
    ensures steps { (line : List ℕ) → Reads is_writable step_line line (step_of line) }
{}
