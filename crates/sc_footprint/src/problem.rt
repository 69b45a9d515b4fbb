//! Problems.
ghost use Rattle.std.specs.Prelude.{◌≡◌, ◌<◌, ◌^◌, length, map, option_map, Contains, IfSome};
ghost use Rattle.std.specs.List.{AllByRecursion};
ghost use Rattle.sc_terms.specs.Tables.{tree};
ghost use Rattle.sc_closure.specs.Atoms.{is_bool as truth_value};
ghost use Rattle.sc_closure.specs.Definitions.{inputs_of, shape_of};
ghost use Rattle.sc_footprint.specs.Problems.{IsPosed, atoms, numbered, number_of, term_of, companion as companion_of, literal_in, literal_at, goal_literal, atom_number};
ghost use Rattle.sc_footprint.specs.Shelves.{shelf};
ghost use Rattle.sc_footprint.specs.Indices.{own_literal};

use crate::companions::{Span, number_between, span_at};
use crate::kind::Kind;
use crate::shelves::{Shelf, shelf_of};
use indexmap::IndexSet;
use sc_clauses::{Lit, negation};
use sc_closure::{Shape, input_count, is_bool, number_at, order_laws, place_in, shape_at};
use sc_names::Lits;
use sc_schema::{Env, Schema};
use sc_terms::Terms;
use std::marker::Model;

/// The problem whether some well-formed world of an environment makes a goal true. Its closed terms
/// and its listed atoms are numbered from 1, in the order of terms.
#[derive(Drop)]
pub struct Problem<'a> {
    pub(crate) schema: &'a Schema,
    pub(crate) env: &'a Env,
    pub(crate) literals: &'a Lits,
    pub(crate) terms: Terms,
    pub(crate) goal: u64,
    pub(crate) closed: IndexSet<u64>,
    pub(crate) atoms: IndexSet<u64>,
    pub(crate) spans: Vec<Span>,
    pub(crate) companions: Vec<u64>,
    pub(crate) shelves: Vec<Shelf>,
}

impl<'a> Model for Problem<'a> {
    ghost use Rattle.std.specs.Coded.{codes};
    ghost use Rattle.sc_schema.specs.contracts.ty.Ty as ty;
    ghost use Rattle.sc_sorts.specs.contracts.sort.Sort as sort;
    ghost use Rattle.sc_footprint.specs.Problems.{Posed};
    ghost use Rattle.sc_footprint.specs.Indices.{IsKept, problem_of};

    ghost Value = { Posed };

    ghost coded = { Prim.hlevel (codes, ty.the_row.coded, sort.the_row.coded) };

    ghost view = { λ p. problem_of p.schema.now p.env.now p.literals.now p.terms p.goal p.closed.keys };

    ghost invariant = { λ p. IsKept (problem_of p.schema.now p.env.now p.literals.now p.terms p.goal p.closed.keys)
        p.atoms.keys p.spans.items p.companions.items p.shelves.items };
}

impl<'a> Problem<'a> {
    /// The goal's number in the table of terms.
    pub fn goal_term(&self) -> u64
        ensures { result ≡ self.now.goal }
    {
        self.goal
    }

    /// The literal that is true where the goal is.
    pub fn goal_literal(&self) -> Lit
        ensures { result ≡ goal_literal self.now }
    {
        self.literal(self.goal)
    }

    /// The closed term of a number, by its number in the table of terms. None exactly where there is
    /// none.
    pub fn term(&self, n: u64) -> Option<u64>
        ensures value { result ≡ numbered self.now.closed n }
        ensures within { IfSome result (λ t. t < length self.now.nodes) }
    {
        if n == 0 {
            return None;
        }
        number_at(&self.closed, n - 1)
    }

    /// The number of a closed term, which is given by its number in the table of terms. None exactly
    /// where it is no closed term.
    pub fn number_of(&self, term: u64) -> Option<u64>
        ensures { result ≡ number_of self.now term }
    {
        match place_in(&self.closed, term) {
            0 => None,
            place => Some(place),
        }
    }

    /// The literal of the closed term of a number. None exactly where there is none, or it is no
    /// truth value.
    pub fn literal_of(&self, n: u64) -> Option<Lit>
        ensures { result ≡ literal_at self.now (term_of self.now n) }
    {
        match self.term(n) {
            Some(term) => {
                if is_bool(&self.terms, term) {
                    Some(self.literal(term))
                } else {
                    None
                }
            }
            None => None,
        }
    }

    /// Whether a term of the table is a truth value.
    pub fn is_bool(&self, term: u64) -> bool
        requires { term < length self.now.nodes }
        ensures { result ≡ truth_value (tree self.now.nodes term) }
    {
        is_bool(&self.terms, term)
    }

    /// How many terms are closed; they are numbered from 1.
    pub fn closed_count(&self) -> u64
        ensures value { result ≡ length self.now.closed }
        ensures small { result < 10 ^ 18 }
    {
        self.spans.len() as u64
    }

    /// Of the terms that go with the closed term of a number the one at a place, counted from 0, by
    /// its number in the table of terms. None exactly where there is none.
    pub fn companion(&self, n: u64, place: u64) -> Option<u64>
        ensures value { option_map (tree self.now.nodes) result ≡ companion_of self.now n place }
        ensures within { IfSome result (λ t. t < length self.now.nodes) }
        ensures closed { IfSome result (λ t. Contains self.now.closed t) }
    {
        if n == 0 {
            return None;
        }
        self.terms.laws();
        match span_at(&self.spans, n - 1) {
            Some(span) => number_between(&self.companions, span, place),
            None => None,
        }
    }

    /// The closed terms of a kind whose sort is that of a term of the table, or that tell of
    /// entities of its sort, by their numbers in the table and in the order of terms.
    pub fn shelf(&self, kind: Kind, term: u64) -> &[u64]
        requires { term < length self.now.nodes }
        ensures value { map (tree self.now.nodes) result.now ≡ shelf self.now kind (tree self.now.nodes term) }
        ensures within { AllByRecursion (λ t. t < length self.now.nodes) result.now }
    {
        shelf_of(&self.terms, &self.shelves, kind, term)
    }

    /// How a term of the table is defined.
    pub fn shape(&self, term: u64) -> Shape
        requires { term < length self.now.nodes }
        ensures { result ≡ shape_of (tree self.now.nodes term) }
    {
        shape_at(&self.terms, term)
    }

    /// How many terms the definition of a term of the table names.
    pub fn input_count(&self, term: u64) -> u64
        requires { term < length self.now.nodes }
        ensures { result ≡ length (inputs_of (tree self.now.nodes term)) }
    {
        input_count(&self.terms, term)
    }

    /// How many atoms are listed; they are numbered from 1.
    pub fn atom_count(&self) -> u64
        ensures { result ≡ length (atoms self.now) }
    {
        self.atoms.len() as u64
    }

    /// The atom of a number, by its number in the table of terms. None exactly where there is none.
    pub fn atom(&self, n: u64) -> Option<u64>
        ensures value { option_map (tree self.now.nodes) result ≡ numbered (atoms self.now) n }
        ensures within { IfSome result (λ t. t < length self.now.nodes) }
    {
        if n == 0 {
            return None;
        }
        number_at(&self.atoms, n - 1)
    }

    /// The literal of a term of the table that is a truth value.
    #[tactic(auto, using(crate::proofs::LiteralLaws::literal_step, crate::proofs::LiteralLaws::literal_of_other))]
    pub fn literal(&self, term: u64) -> Lit
        requires { term < length self.now.nodes }
        ensures { result ≡ literal_in self.now (tree self.now.nodes term) }
    {
        let mut at = term;
        let mut negated = false;
        while let Some(part) = self.terms.under_not(at) {
            at = part;
            negated = !negated;
        }
        let literal = self.own_literal(at);
        if negated { negation(literal) } else { literal }
    }

    /// The literal of a term that is no negation.
    fn own_literal(&self, term: u64) -> Lit
        requires { term < length self.now.nodes }
        ensures { result ≡ own_literal (atom_number self.now) (tree self.now.nodes term) }
    {
        match self.terms.constant(term) {
            Some(false) => Lit {
                atom: 1,
                negated: true,
            },
            _ => Lit {
                atom: self.atom_number(term),
                negated: false,
            },
        }
    }

    /// The number of an atom; 0 of a term that is none.
    fn atom_number(&self, term: u64) -> u64
        requires { term < length self.now.nodes }
        ensures { result ≡ atom_number self.now (tree self.now.nodes term) }
    {
        order_laws();
        self.terms.laws();
        place_in(&self.atoms, term)
    }

    /// The table of terms.
    pub fn terms(&self) -> &Terms
        ensures { result.now ≡ self.now.nodes }
    {
        &self.terms
    }

    /// The schema.
    pub fn schema(&self) -> &Schema
        ensures { result.now ≡ self.now.schema }
    {
        self.schema
    }

    /// The environment.
    pub fn env(&self) -> &Env
        ensures { result.now ≡ self.now.env }
    {
        self.env
    }

    /// The uids that each world stores.
    pub fn lits(&self) -> &Lits
        ensures { result.now ≡ self.now.literals }
    {
        self.literals
    }

    /// What holds of each problem.
    pub fn laws(&self)
        ensures { IsPosed self.now }
    {
        let _closed = &self.closed;
    }
}
