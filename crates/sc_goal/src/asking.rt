//! Asking a question.
ghost use Rattle.std.specs.Prelude.{◌≡◌, ◌↔◌, ◌⊎◌, [], Contains, IfOk, is_some, unwrap_or};
ghost use Rattle.std.specs.Option.{option_copied};
ghost use Rattle.sc_names.specs.declared.uid.Uid.{Uid as AnyUid};
ghost use Rattle.sc_ast.specs.Literals.{literals as uids_of};
ghost use Rattle.sc_eval.specs.Written.{HaveProperConstants};
ghost use Rattle.sc_question.specs.Questions.{takes_two};

use crate::queries::Query;
use sc_ast::{PolicySet, literals};
use sc_eval::constant_laws;
use sc_names::{Lits, lits_union};
use sc_question::Question;
use std::alloc::{AllocError, Global};

/// Asks a question of one policy set, or of two where it takes two. The sets are kept by reference.
pub fn query<'a>(
    alloc: Global,
    question: Question,
    first: &'a PolicySet,
    against: Option<&'a PolicySet>,
) -> Result<Query<'a>, AllocError>
    requires { is_some against ≡ takes_two question }
    ensures question { IfOk result (λ q. q.question ≡ question) }
    ensures first { IfOk result (λ q. q.first ≡ first.now) }
    ensures against { IfOk result (λ q. q.against ≡ option_copied against.entry) }
    ensures literals { IfOk result (λ q. (u : AnyUid) → Contains q.literals u
        ↔ (Contains (uids_of first.now) u ⊎ Contains (uids_of (unwrap_or (option_copied against.entry) [])) u)) }
{
    let literals = written(alloc, first, against)?;
    constant_laws(first);
    second_constants(against);
    Ok(Query {
        question,
        first,
        against,
        literals,
    })
}

/// The constants of the second set are values, if there is one.
fn second_constants(against: Option<&PolicySet>)
    ensures { HaveProperConstants (unwrap_or (option_copied against.entry) []) }
{
    match against {
        Some(policies) => constant_laws(policies),
        None => {}
    }
}

/// The uids that the sets write.
fn written(
    alloc: Global,
    first: &PolicySet,
    against: Option<&PolicySet>,
) -> Result<Lits, AllocError>
    ensures { IfOk result (λ lits. (u : AnyUid) → Contains lits u
        ↔ (Contains (uids_of first.now) u ⊎ Contains (uids_of (unwrap_or (option_copied against.entry) [])) u)) }
{
    let of_first = literals(alloc, first.as_slice())?;
    match against {
        Some(policies) => {
            let of_second = literals(alloc, policies.as_slice())?;
            lits_union(alloc, &of_first, &of_second)
        }
        None => Ok(of_first),
    }
}
