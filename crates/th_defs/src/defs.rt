//! Defining clauses as the instances of a theory.
ghost use Rattle.std.specs.Prelude.{◌≡◌, ◌↔◌, [], IfOk, IsOk, IsTrue};
ghost use Rattle.std.specs.Str.{bytes_eq};
ghost use Rattle.th_defs.specs.Instances.{number_in as number_of, is_definition, definition_clause};

use crate::numbers::{fill_number, first_falsified, is_number};
use sc_clauses::{Assignment, Clause, Instance, Word};
use sc_footprint::{Problem, Theory};
use sc_lists::{Seq, Text};
use std::alloc::{AllocError, Global};

/// The theory of the defining clauses but the last, which is the goal's: they are true in every
/// well-formed world. An instance is the number of such a clause, counted from 1, under the empty
/// rule, so that no line of a log's text is one.
#[derive(Drop)]
pub struct Defs;

/// The number that the words are, and 0 where they are none.
fn number_in(words: &[Word]) -> u64
    ensures { result ≡ number_of words.now }
{
    match words {
        [Word::Number(n)] => *n,
        _ => 0,
    }
}

fn is_empty(rule: &Text) -> bool
    ensures { result ≡ bytes_eq rule.now [] }
{
    rule.as_str().is_empty()
}

/// The instance of a defining clause's number.
fn instance_of(alloc: Global, number: u64) -> Result<Instance, AllocError>
    ensures rule { IfOk result (λ i. i.rule ≡ []) }
    ensures number { IfOk result (λ i. number_of i.words ≡ number) }
{
    let rule = Text::from_str(alloc, "")?;
    let mut words = Seq::new(alloc);
    words.push(Word::Number(number))?;
    Ok(Instance { rule, words })
}

impl Theory for Defs {
    ghost use Rattle.th_defs.specs.Laws.{instance_sound, instance_lawful, instance_written};

    ghost has_instance = { λ t p i. IsTrue (is_definition p i) };

    ghost clause_of = { λ t. definition_clause };

    fn accepts(
        &self,
        alloc: Global,
        problem: &Problem<'_>,
        instance: &Instance,
    ) -> Result<bool, AllocError>
        ensures decides { IfOk result (λ b. IsTrue b ↔ IsTrue (is_definition problem.now instance.now)) }
        // It takes no memory.
        ensures always { IsOk result }
    {
        let _ = alloc;
        if !is_empty(&instance.rule) {
            return Ok(false);
        }
        let number = number_in(instance.words.as_slice());
        Ok(is_number(problem, number))
    }

    fn violated(
        &self,
        alloc: Global,
        problem: &Problem<'_>,
        m: &Assignment,
    ) -> Result<Option<Instance>, AllocError> {
        match first_falsified(problem, m) {
            Some(number) => Ok(Some(instance_of(alloc, number)?)),
            None => Ok(None),
        }
    }

    fn clause(
        &self,
        alloc: Global,
        problem: &Problem<'_>,
        instance: &Instance,
    ) -> Result<Clause, AllocError> {
        let number = number_in(instance.words.as_slice());
        let mut literals = Vec::new(alloc);
        fill_number(problem, number, &mut literals)?;
        Ok(Seq::from_vec(literals))
    }

    ghost sound = { λ t. instance_sound };

    ghost lawful = { λ t. instance_lawful };

    ghost written = { λ t. instance_written };
}
