//! The closed terms of a goal: those that are followed, from a few on, until there is no further
//! one, or too many of them are atoms.
ghost use Rattle.std.specs.Prelude.{◌≡◌, ◌<◌, ◌≤◌, List, length, IfOk, IfErr};
ghost use Rattle.std.specs.List.{AllByRecursion};
ghost use Rattle.sc_sorts.specs.declared.node.Node.{Node as AnyNode};
ghost use Rattle.sc_terms.specs.Tables.{tree, Keeps};
ghost use Rattle.sc_closure_rules.specs.Closure.{Role};
ghost use Rattle.sc_closure_rules.specs.Making.{stood, IsSomeTerm};
ghost use Rattle.sc_closure.specs.Atoms.{IsRefused, most_atoms};
ghost use Rattle.sc_closure.specs.Following.{seeds as seeds_of, atoms_of, AreRoles, Held, StandsForClosed, Follows};
ghost use Rattle.sc_closure_rules.specs.Goals.{IsGoal};

use crate::limit::{MOST_ATOMS, OverLimit};
use crate::listing::count_atoms;
use crate::numbers::{number_at, put_all};
use crate::roles::Roles;
use crate::taking::take_roles;
use indexmap::IndexSet;
use sc_closure_rules::{closed_laws, order_laws, put_following};
use sc_lists::Fault;
use sc_names::Lits;
use sc_schema::{Env, Schema};
use sc_sorts::entity_sort;
use sc_terms::Terms;
use std::alloc::{AllocError, Global};

/// The numbers of the terms that the closure begins with.
fn seeds(
    alloc: Global,
    terms: &mut Terms,
    goal: u64,
    schema: &Schema,
    env: &Env,
) -> Result<Vec<u64>, AllocError>
    requires { goal < length terms.old }
    ensures within { IfOk result (λ v. AllByRecursion (λ m. m < length terms.new) v.items) }
    ensures ok { IfOk result (λ v. stood terms.new v.items ≡ seeds_of schema.now env.now (tree terms.old goal)) }
    ensures kept { Keeps terms.old terms.new }
{
    let truth = terms.truth(true)?;
    let user = entity_sort(alloc, schema, &env.principal)?;
    let principal = terms.principal(user)?;
    let thing = entity_sort(alloc, schema, &env.resource)?;
    let resource = terms.resource(thing)?;
    Ok(vec![in alloc; truth, goal, principal, resource]?)
}

/// The numbers of all that goes with a term, and with it and the roles so far.
fn follow(
    alloc: Global,
    schema: &Schema,
    terms: &mut Terms,
    roles: &mut Roles,
    n: u64,
) -> Result<Vec<u64>, AllocError>
    requires within { n < length terms.old }
    requires term { IsSomeTerm (tree terms.old n) }
    requires are { AreRoles terms.old roles.old }
    ensures ok { IfOk result (λ v. Follows schema.now terms.old terms.new roles.old roles.new n v.items) }
    ensures kept { Keeps terms.old terms.new }
{
    let mut numbers = Vec::new(alloc);
    put_following(alloc, schema, terms, n, &mut numbers)?;
    take_roles(alloc, terms, roles, n, &mut numbers)?;
    Ok(numbers)
}

/// The closed terms of a goal, with the roles of those that have been followed, which are none at first.
fn closed_with(
    alloc: Global,
    terms: &mut Terms,
    goal: u64,
    schema: &Schema,
    env: &Env,
    literals: &Lits,
    roles: &mut Roles,
) -> Result<IndexSet<u64>, Fault<OverLimit>>
    requires within { goal < length terms.old }
    requires goal { IsGoal schema.now env.now literals.now (tree terms.old goal) }
    requires none { (xs : List AnyNode) (p : Role) → Held xs roles.old p → ⊥ }
    requires are { (xs : List AnyNode) → AreRoles xs roles.old }
    ensures closed { IfOk result (λ s. StandsForClosed schema.now env.now (tree terms.old goal) terms.new s.keys) }
    ensures few { IfOk result (λ s. length (atoms_of terms.new s.keys) ≤ most_atoms) }
    ensures kept { Keeps terms.old terms.new }
    ensures err { IfErr result (IsRefused schema.now env.now (tree terms.old goal)) }
{
    order_laws();
    closed_laws();
    schema.laws();
    let first = seeds(alloc, terms, goal, schema, env)?;
    let mut closed = IndexSet::new(alloc);
    put_all(&mut closed, &first)?;
    let mut atoms = count_atoms(terms, &closed, 0);
    let mut done = 0;
    while let Some(n) = number_at(&closed, done) {
        let counted = closed.len() as u64;
        let more = follow(alloc, schema, terms, roles, n)?;
        put_all(&mut closed, &more)?;
        atoms += count_atoms(terms, &closed, counted);
        if atoms > MOST_ATOMS {
            terms.laws();
            return Err(Fault::Told(OverLimit));
        }
        done += 1;
    }
    Ok(closed)
}

/// The numbers of the closed terms of a goal, in the order in which they were met. The fault comes
/// exactly where more of them are atoms than may be; it comes as soon as so many are met.
pub fn closed_terms(
    alloc: Global,
    terms: &mut Terms,
    goal: u64,
    schema: &Schema,
    env: &Env,
    literals: &Lits,
) -> Result<IndexSet<u64>, Fault<OverLimit>>
    requires within { goal < length terms.old }
    requires goal { IsGoal schema.now env.now literals.now (tree terms.old goal) }
    ensures closed { IfOk result (λ s. StandsForClosed schema.now env.now (tree terms.old goal) terms.new s.keys) }
    ensures few { IfOk result (λ s. length (atoms_of terms.new s.keys) ≤ most_atoms) }
    ensures kept { Keeps terms.old terms.new }
    ensures err { IfErr result (IsRefused schema.now env.now (tree terms.old goal)) }
{
    let mut roles = Roles::new(alloc);
    let outcome = closed_with(alloc, terms, goal, schema, env, literals, &mut roles);
    drop(roles);
    outcome
}
