//! The words of a line, one after another.
ghost use Rattle.std.specs.Prelude.{◌≡◌, ◌∷◌, ◌==◌, [], MatchOption};
ghost use Rattle.std.specs.List.{slice_split};

use crate::cutting::cut_at;
use std::marker::Model;

/// What is left of a line, whose words single spaces separate. Contracts see the words that are left.
#[derive(Drop)]
pub(crate) struct LineWords<'b> {
    rest: Option<&'b [u8]>,
}

impl<'b> Model for LineWords<'b> {
    ghost use Rattle.std.specs.Prelude.{List, ℕ};
    ghost use Rattle.std.specs.Option.{option_copied};
    ghost use Rattle.sc_logs.specs.LineSteps.{words_in};

    ghost Value = { List (List ℕ) };

    ghost view = { λ w. words_in (option_copied w.rest) };
}

impl<'b> LineWords<'b> {
    /// The words of a line.
    pub(crate) fn new(line: &'b [u8]) -> LineWords<'b>
        ensures { result ≡ slice_split (λ b. b == 32) line.now }
    {
        LineWords { rest: Some(line) }
    }

    /// Takes the next word.
    #[tactic(auto, using(crate::proofs::LineWordLaws::word_cut, crate::proofs::LineWordLaws::word_last))]
    pub(crate) fn next_word(&mut self) -> Option<&'b [u8]>
        ensures { MatchOption result ((self.old ≡ []) × (self.new ≡ [])) (λ w. self.old ≡ w.now ∷ self.new) }
    {
        let rest = self.rest?;
        match cut_at(rest, b' ') {
            Some((word, later)) => {
                self.rest = Some(later);
                Some(word)
            }
            None => {
                self.rest = None;
                Some(rest)
            }
        }
    }
}
