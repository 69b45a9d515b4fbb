//! Lists of terms, joined by halves, so that the term is as deep as the list's length has digits.
ghost use Rattle.std.specs.Prelude.{◌≡◌, ◌<◌, ◌≤◌, ◌+◌, All, length, map, IfOk, OnOk, OnErr};
ghost use Rattle.sc_terms.specs.Tables.{tree, Keeps, StandsFor};
ghost use Rattle.sc_terms.specs.Joined.{all_of as all_terms, any_of as any_terms, joins};

use crate::terms::Terms;
use std::alloc::AllocError;

impl Terms {
    /// Whether all are true; of no terms `true`.
    pub fn all_of(&mut self, xs: &[u64]) -> Result<u64, AllocError>
        requires { All (λ n. n < length self.old) xs.now }
        ensures ok { IfOk result (λ n. StandsFor self.new n (all_terms (map (tree self.old) xs.now))) }
        ensures kept { Keeps self.old self.new }
        ensures grows { OnOk result (length self.new ≤ length self.old + joins (length xs.now)) }
        ensures err { OnErr result (self.new ≡ self.old) }
    {
        self.laws();
        let count = self.len();
        match self.all_joined(xs) {
            Ok(n) => Ok(n),
            Err(refused) => {
                self.take_back(count);
                Err(refused)
            }
        }
    }

    /// Where memory runs out, terms of parts of the list may have come in.
    #[tactic(auto, unfolding(crate::specs::Joined::joined))]
    fn all_joined(&mut self, xs: &[u64]) -> Result<u64, AllocError>
        requires { All (λ n. n < length self.old) xs.now }
        ensures ok { IfOk result (λ n. StandsFor self.new n (all_terms (map (tree self.old) xs.now))) }
        ensures kept { Keeps self.old self.new }
        ensures grows { OnOk result (length self.new ≤ length self.old + joins (length xs.now)) }
    {
        match xs {
            [] => self.truth(true),
            [x] => Ok(*x),
            _ => {
                let half = xs.len() / 2;
                let a = self.all_joined(&xs[..half])?;
                let b = self.all_joined(&xs[half..])?;
                let n = self.and(a, b)?;
                Ok(n)
            }
        }
    }

    /// Whether one is true; of no terms `false`.
    pub fn any_of(&mut self, xs: &[u64]) -> Result<u64, AllocError>
        requires { All (λ n. n < length self.old) xs.now }
        ensures ok { IfOk result (λ n. StandsFor self.new n (any_terms (map (tree self.old) xs.now))) }
        ensures kept { Keeps self.old self.new }
        ensures grows { OnOk result (length self.new ≤ length self.old + joins (length xs.now)) }
        ensures err { OnErr result (self.new ≡ self.old) }
    {
        self.laws();
        let count = self.len();
        match self.any_joined(xs) {
            Ok(n) => Ok(n),
            Err(refused) => {
                self.take_back(count);
                Err(refused)
            }
        }
    }

    /// Where memory runs out, terms of parts of the list may have come in.
    #[tactic(auto, unfolding(crate::specs::Joined::joined))]
    fn any_joined(&mut self, xs: &[u64]) -> Result<u64, AllocError>
        requires { All (λ n. n < length self.old) xs.now }
        ensures ok { IfOk result (λ n. StandsFor self.new n (any_terms (map (tree self.old) xs.now))) }
        ensures kept { Keeps self.old self.new }
        ensures grows { OnOk result (length self.new ≤ length self.old + joins (length xs.now)) }
    {
        match xs {
            [] => self.truth(false),
            [x] => Ok(*x),
            _ => {
                let half = xs.len() / 2;
                let a = self.any_joined(&xs[..half])?;
                let b = self.any_joined(&xs[half..])?;
                let n = self.or(a, b)?;
                Ok(n)
            }
        }
    }
}
