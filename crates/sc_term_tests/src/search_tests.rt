//! What the search finds of small problems whose answers are known.
ghost use Rattle.std.specs.Prelude.{◌≡◌, ◌∷◌, ◌+◌, ◌^◌, ◌<◌, [], true, length, IfOk, IsTrue};
ghost use Rattle.std.specs.List.{list_all};
ghost use Rattle.sc_term_tests.specs.Listed.{all_listed, is_listed};

use sc_clauses::{Assignment, Clause, Clauses, Instance, Lit, Step};
use sc_lists::{Seq, Text};
use sc_search::{Found, Source, search};
use std::alloc::{AllocError, Global};

/// A source that has the clause that atom 1 is false, or no clause.
#[derive(Drop)]
struct Told {
    alloc: Global,
    first_is_false: bool,
}

impl Source for Told {
    ghost has_instance = { λ s _. IsTrue s.first_is_false };

    ghost clause_of = { λ _ _. record { atom = 1; negated = true } ∷ [] };

    fn violated(&self, m: &Assignment) -> Result<Option<Instance>, AllocError> {
        if !self.first_is_false {
            return Ok(None);
        }
        if m.value(1) != Some(true) {
            return Ok(None);
        }
        Ok(Some(Instance {
            rule: Text::from_str(self.alloc, "first")?,
            words: Seq::new(self.alloc),
        }))
    }

    fn clause(&self, _instance: &Instance) -> Result<Clause, AllocError> {
        let mut lits = Seq::new(self.alloc);
        lits.push(Lit {
            atom: 1,
            negated: true,
        })?;
        Ok(lits)
    }

    fn suggested(&self, _lits: &[Lit], _seen: usize) -> Result<Vec<Instance>, AllocError> {
        Ok(Vec::new(self.alloc))
    }

    fn broken(&self, _m: &Assignment) -> Result<Vec<Instance>, AllocError> {
        Ok(Vec::new(self.alloc))
    }

    fn told(&self, _instance: &Instance) -> Result<Option<Clause>, AllocError> {
        Ok(None)
    }
}

/// A literal as it is written in DIMACS files: a number, or minus a number.
fn lit(number: i64) -> Lit {
    Lit {
        atom: number.unsigned_abs(),
        negated: number < 0,
    }
}

/// Puts the literal of a number behind others; 0 stands for none. A word that isn't a number counts as want
/// of memory.
fn put_literal(lits: &mut Clause, word: &str) -> Result<(), AllocError> {
    match word.parse::<i64>() {
        Ok(0) => Ok(()),
        Ok(number) => lits.push(lit(number)),
        Err(_) => Err(AllocError),
    }
}

fn clause(alloc: Global, written: &str) -> Result<Clause, AllocError> {
    let mut lits = Seq::new(alloc);
    for word in written.split(' ') {
        put_literal(&mut lits, word)?;
    }
    Ok(lits)
}

/// Clauses as DIMACS files write them, each in a line that ends with 0.
fn clauses_of(alloc: Global, written: &str) -> Result<Seq<Clause>, AllocError> {
    let mut clauses = Seq::new(alloc);
    for line in written.lines() {
        clauses.push(clause(alloc, line)?)?;
    }
    Ok(clauses)
}

/// The same clauses in one array.
fn array_of(alloc: Global, clauses: &[Clause]) -> Result<Clauses, AllocError>
    ensures { IfOk result (λ array. array ≡ clauses.now) }
{
    let mut array = Clauses::new(alloc);
    for clause in clauses {
        array.push(clause.as_slice())?;
    }
    Ok(array)
}

fn is_listed(lit: Lit, atoms: u64) -> bool
    ensures { result ≡ is_listed atoms lit }
{
    0 < lit.atom && lit.atom <= atoms
}

fn are_listed(clause: &Clause, atoms: u64) -> bool
    ensures { result ≡ list_all (is_listed atoms) clause.now }
{
    clause.as_slice().iter().all(|lit| is_listed(*lit, atoms))
}

fn all_listed(clauses: &Seq<Clause>, atoms: u64) -> bool
    ensures { result ≡ all_listed atoms clauses.now }
{
    clauses
        .as_slice()
        .iter()
        .all(|clause| are_listed(clause, atoms))
}

fn are_few(atoms: u64, clauses: &Seq<Clause>, budget: u64) -> bool
    ensures atoms { IsTrue result → atoms < 10 ^ 18 }
    ensures clauses { IsTrue result → length clauses.now + budget < 10 ^ 18 }
{
    atoms < 1000 && clauses.len() < 1000 && budget < 1000
}

/// What is to be found.
#[derive(Clone, Copy)]
enum Wanted {
    /// A refutation of at most so many steps.
    Refuted(usize),
    /// So many steps.
    Spent(usize),
    /// An assignment that makes this atom true.
    True(u64),
}

fn has_empty_clause(step: &Step) -> bool {
    match step {
        Step::Instance(_) => false,
        Step::Learned(learned) => learned.clause.is_empty(),
    }
}

fn ends_empty(steps: &[Step]) -> bool {
    match steps.last() {
        Some(step) => has_empty_clause(step),
        None => false,
    }
}

fn is_refuted(found: &Found, most: usize) -> bool {
    match found {
        Found::Refuted(steps) => steps.len() <= most && ends_empty(steps.as_slice()),
        _ => false,
    }
}

fn is_spent(found: &Found, count: usize) -> bool {
    match found {
        Found::Spent(steps) => steps.len() == count,
        _ => false,
    }
}

fn makes_true(found: &Found, atom: u64) -> bool {
    match found {
        Found::Consistent(m) => m.value(atom) == Some(true),
        _ => false,
    }
}

fn is_wanted(found: &Found, wanted: Wanted) -> bool {
    match wanted {
        Wanted::Refuted(most) => is_refuted(found, most),
        Wanted::Spent(count) => is_spent(found, count),
        Wanted::True(atom) => makes_true(found, atom),
    }
}

/// Whether the search finds what is wanted of clauses of so many atoms, with this budget.
#[tactic(auto, using(crate::proofs::ListedLaws::listed_from))]
fn finds_in(
    told: &Told,
    atoms: u64,
    clauses: &Seq<Clause>,
    budget: u64,
    wanted: Wanted,
) -> Result<bool, AllocError> {
    if !are_few(atoms, clauses, budget) {
        return Ok(false);
    }
    if !all_listed(clauses, atoms) {
        return Ok(false);
    }
    let array = array_of(told.alloc, clauses.as_slice())?;
    match search(told.alloc, told, atoms, &array, budget) {
        Ok(found) => Ok(is_wanted(&found, wanted)),
        Err(fault) => Err(fault),
    }
}

/// The same of the clauses that are written.
fn finds(told: &Told, atoms: u64, written: &str, budget: u64, wanted: Wanted) -> bool {
    match clauses_of(told.alloc, written) {
        Ok(clauses) => finds_in(told, atoms, &clauses, budget, wanted) == Ok(true),
        Err(_) => false,
    }
}

/// Three pigeons in two holes: atom 2p + h - 2 says that pigeon p is in hole h.
const PIGEONS: &str = "1 2 0
3 4 0
5 6 0
-1 -3 0
-1 -5 0
-3 -5 0
-2 -4 0
-2 -6 0
-4 -6 0";

/// Four pigeons in three holes: atom 3p + h - 3 says that pigeon p, counted from 1, is in hole h.
const MORE_PIGEONS: &str = "1 2 3 0
4 5 6 0
7 8 9 0
10 11 12 0
-1 -4 0
-1 -7 0
-1 -10 0
-4 -7 0
-4 -10 0
-7 -10 0
-2 -5 0
-2 -8 0
-2 -11 0
-5 -8 0
-5 -11 0
-8 -11 0
-3 -6 0
-3 -9 0
-3 -12 0
-6 -9 0
-6 -12 0
-9 -12 0";

/// Four clauses over atoms 31 and 32 that contradict one another.
const FOUR: &str = "31 32 0
31 -32 0
-31 32 0
-31 -32 0";

/// Clauses, how many atoms there are, the budget, and what is to be found.
const PROBLEMS: &[(&str, &str, u64, u64, Wanted)] = &[
    (
        "a contradiction beside idle atoms",
        FOUR,
        32,
        4,
        Wanted::Refuted(4),
    ),
    (
        "a chain",
        "-3 4 0\n-2 3 0\n-1 2 0\n1 0",
        4,
        9,
        Wanted::True(4),
    ),
    (
        "pigeons with a budget of one",
        PIGEONS,
        6,
        1,
        Wanted::Spent(1),
    ),
    (
        "pigeons are too many",
        PIGEONS,
        6,
        100,
        Wanted::Refuted(100),
    ),
    (
        "no budget for a contradiction",
        FOUR,
        32,
        0,
        Wanted::Spent(0),
    ),
    (
        "no budget is needed without a conflict",
        "1 0",
        2,
        0,
        Wanted::True(1),
    ),
    (
        "more pigeons are too many",
        MORE_PIGEONS,
        12,
        100,
        Wanted::Refuted(100),
    ),
    (
        "literals that are written twice",
        "1 1 0\n-1 2 2 0\n-2 -2 3 0",
        3,
        0,
        Wanted::True(3),
    ),
    (
        "a literal that is true again after a jump back",
        "1 2 3 0\n1 2 -3 0\n1 -2 4 0\n-4 3 0\n-4 -3 0",
        4,
        9,
        Wanted::True(1),
    ),
    (
        "a clause without literals",
        "1 0\n0",
        1,
        1,
        Wanted::Refuted(1),
    ),
];

#[test]
fn problems_without_a_source(rt: HostRuntime) {
    let told = Told {
        alloc: rt.alloc(),
        first_is_false: false,
    };
    for &(name, clauses, atoms, budget, wanted) in PROBLEMS {
        assert!(rt; finds(&told, atoms, clauses, budget, wanted), "{name}");
    }
}

#[test]
fn the_source_is_asked(rt: HostRuntime) {
    let told = Told {
        alloc: rt.alloc(),
        first_is_false: true,
    };
    assert!(rt; finds(&told, 2, "1 2 0\n1 -2 0", 9, Wanted::Refuted(3)));
    assert!(rt; finds(&told, 2, "1 2 0", 9, Wanted::True(2)));
}
