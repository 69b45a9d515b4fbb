//! Whether an operator on any number of terms makes a term.
ghost use Rattle.std.specs.Prelude.{◌≡◌, ◌<◌, ◌↔◌, length, IsTrue, IfOk};
ghost use Rattle.std.specs.List.{list_all};
ghost use Rattle.sc_terms.specs.Tables.{tree, at_numbers, AreBelow};
ghost use Rattle.sc_term_laws.specs.LawfulSorts.{IsHeldSort};
ghost use Rattle.sc_term_laws.specs.Tests as tests;

use crate::lawful_sorts::is_lawful_held;
use sc_lists::Text;
use sc_schema::Schema;
use sc_sorts::Sort;
use sc_terms::Terms;
use std::alloc::{AllocError, Global};

/// Whether a set's members are of its sort and have no labels.
#[tactic(auto, using(crate::proofs::ToldLaws::first_fails, crate::proofs::ToldLaws::first_with))]
pub(crate) fn set_test(
    alloc: Global,
    schema: &Schema,
    terms: &Terms,
    member: &Sort,
    parts: &[(Text, u64)],
) -> Result<bool, AllocError>
    requires { AreBelow (length terms.now) parts.now }
    ensures { IfOk result (λ b. IsTrue b
        ↔ (IsHeldSort schema.now member.now
        × IsTrue (list_all (tests.member_test member.now) (at_numbers terms.now parts.now)))) }
{
    if !is_lawful_held(alloc, schema, member)? {
        return Ok(false);
    }
    Ok(are_members(terms, member, parts))
}

fn are_members(terms: &Terms, member: &Sort, parts: &[(Text, u64)]) -> bool
    requires { AreBelow (length terms.now) parts.now }
    ensures { result ≡ list_all (tests.member_test member.now) (at_numbers terms.now parts.now) }
{
    let mut rest = parts;
    while let Some((part, later)) = rest.split_first() {
        if !member_test(terms, member, part) {
            return false;
        }
        rest = later;
    }
    true
}

fn member_test(terms: &Terms, member: &Sort, part: &(Text, u64)) -> bool
    requires { part.now.1 < length terms.now }
    ensures { result ≡ tests.member_test member.now (part.now.0, tree terms.now part.now.1) }
{
    part.0.as_str().is_empty() && *terms.sort(part.1) == *member
}
