//! Equations of a new term with those of its sort.
ghost use Rattle.std.specs.Prelude.{◌<◌, length, OnOk};
ghost use Rattle.std.specs.List.{AllByRecursion};
ghost use Rattle.sc_terms.specs.Tables.{tree, Keeps};
ghost use Rattle.sc_closure_rules.specs.Making.{stood};
ghost use Rattle.sc_candidates.specs.Equations.{Equates};
ghost use Rattle.sc_closure.specs.declared.roles.Meeting.TheVariants.{Equation as equation};
ghost use Rattle.sc_closure.specs.Following.{IsGroupWithin, IsDivided, met_in, met_among};

use crate::roles::{Group, Meeting, is_met};
use sc_candidates::equate_members;
use sc_terms::Terms;
use std::alloc::AllocError;

/// Puts the equations of a term and those of a group, if it is of the group's sort.
fn equate_group(
    terms: &mut Terms,
    group: &Group,
    term: u64,
    numbers: &mut Vec<u64>,
) -> Result<(), AllocError>
    requires group_in { IsGroupWithin (length terms.old) group.now }
    requires divided { IsDivided terms.old group.now }
    requires term_in { term < length terms.old }
    ensures ok { OnOk result (Equates terms.old terms.new numbers.old.items numbers.new.items (met_in equation
        (tree terms.old group.now.first) (stood terms.old group.now.members) (tree terms.old term))
        (tree terms.old term)) }
    ensures kept { Keeps terms.old terms.new }
{
    if is_met(terms, Meeting::Equation, group.first, term) {
        equate_members(
            terms,
            group.members.as_slice(),
            group.others.as_slice(),
            term,
            numbers,
        )
    } else {
        Ok(())
    }
}

/// Puts the equations of a term and those of its sort.
pub(crate) fn equate_groups(
    terms: &mut Terms,
    groups: &[Group],
    term: u64,
    numbers: &mut Vec<u64>,
) -> Result<(), AllocError>
    requires groups_in { AllByRecursion (IsGroupWithin (length terms.old)) groups.now }
    requires divided { AllByRecursion (IsDivided terms.old) groups.now }
    requires term_in { term < length terms.old }
    ensures ok { OnOk result (Equates terms.old terms.new numbers.old.items numbers.new.items (met_among equation
        terms.old groups.now (tree terms.old term)) (tree terms.old term)) }
    ensures kept { Keeps terms.old terms.new }
{
    for group in groups {
        equate_group(terms, group, term, numbers)?;
    }
    Ok(())
}
