//! Runs of memberships: those in the ancestors of one entity, which stand one behind the other.
ghost use Rattle.std.specs.Prelude.{◌≡◌, ◌&&◌, ◌==◌, [], length, IfSome, IfNone};
ghost use Rattle.std.specs.List.{take_while, list_any};
ghost use Rattle.std.specs.List.Sorted.{IsPermutation};
ghost use Rattle.th_entities.specs.Free.{has_member as member_test};
ghost use Rattle.th_entities.specs.Memberships.{IsFirstRun, owner_of};

use crate::memberships::Membership;
use std::cmp::Ordering;

/// What is said of the last entity comes first: what a request asks about stands behind all literals.
fn order(a: &Membership, b: &Membership) -> Ordering {
    b.owner.cmp(&a.owner).then(a.member.cmp(&b.member))
}

/// Puts memberships of one entity's ancestors one behind the other.
pub(crate) fn put_in_order(known: &mut Vec<Membership>)
    ensures { IsPermutation known.old.items known.new.items }
{
    known.sort_unstable_by(|a, b| order(a, b));
}

/// How many memberships at the beginning are in the ancestors of an entity.
fn run_length(owner: u64, known: &[Membership]) -> usize
    ensures { result ≡ length (take_while (λ k. k.owner == owner) known.now) }
{
    known.iter().take_while(|k| k.owner == owner).count()
}

/// The first entity, the memberships in its ancestors up to those of another, and those behind.
#[tactic(auto, using(crate::proofs::RunLaws::run_within))]
pub(crate) fn first_run<'a>(
    known: &'a [Membership],
) -> Option<(u64, &'a [Membership], &'a [Membership])>
    ensures some { IfSome result (λ r. IsFirstRun owner_of known.now r.0 r.1.now r.2.now) }
    ensures none { IfNone result (known.now ≡ []) }
{
    let Some((first, _)) = known.split_first() else {
        return None;
    };
    let (run, later) = known.split_at(run_length(first.owner, known));
    Some((first.owner, run, later))
}

/// Whether one of these is of a member.
pub(crate) fn has_member(known: &[Membership], member: u64) -> bool
    ensures { result ≡ member_test known.now member }
{
    known.iter().any(|k| k.member == member)
}

/// Whether one of these is of a member, and of the ancestors of its sort.
fn has_above(known: &[Membership], member: u64) -> bool
    ensures { result ≡ list_any (λ k. k.member == member && k.is_above) known.now }
{
    known.iter().any(|k| k.member == member && k.is_above)
}

/// Whether the member of another entity's ancestors is, by these, one of this entity's.
pub(crate) fn is_lifted(known: &[Membership], up: Membership) -> bool
    ensures { result ≡ (up.is_above && list_any (λ k. k.member == up.member && k.is_above) known.now) }
{
    up.is_above && has_above(known, up.member)
}
