//! `in` between a declared action and uids, which the schema decides.
ghost use Rattle.std.specs.Prelude.{◌≡◌, ◌∷◌, option_map};
ghost use Rattle.std.specs.List.{list_any};
ghost use Rattle.sc_schema.specs.Declarations.{uid_eq};
ghost use Rattle.sc_typing_rules.specs.Operators.{uids_of, some_uids_of, meets, decided};

use sc_ast::{Expr, Literal};
use sc_names::Uid;
use sc_schema::{Schema, action_ancestors};
use sc_typed::literals::{same_uid, uid_of};

/// Whether a declared action is one of some uids or in one, by the ancestors that the schema
/// declares: of `a in b`, where a is a declared action, and b a uid or a set of uids.
pub fn decided(schema: &Schema, a: &Expr, b: &Expr) -> Option<bool>
    ensures { result ≡ decided schema.now a.now b.now }
{
    let Some(uid) = uid_of(a) else {
        return None;
    };
    let Some(above) = action_ancestors(schema, uid) else {
        return None;
    };
    match b {
        Expr::Literal(_, Literal::Entity(other)) => Some(is_among(other, uid, above)),
        Expr::Set(_, members) => meets(members.as_slice(), uid, above),
        _ => None,
    }
}

/// Whether a uid is an action or one of those that it is in.
fn is_among(uid: &Uid, action: &Uid, above: &[Uid]) -> bool
    ensures { result ≡ list_any (uid_eq uid.now) (action.now ∷ above.now) }
{
    same_uid(uid, action) || is_one_of(uid, above)
}

fn is_one_of(uid: &Uid, uids: &[Uid]) -> bool
    ensures { result ≡ list_any (uid_eq uid.now) uids.now }
{
    uids.iter().any(|other| same_uid(uid, other))
}

/// Whether some member is an action or one of those that it is in; none where a member is no uid,
/// and where there is no member.
#[tactic(auto, using(crate::proofs::OperatorsLaws::some_uids))]
fn meets(members: &[Expr], action: &Uid, above: &[Uid]) -> Option<bool>
    ensures { result ≡ option_map (meets (action.now ∷ above.now)) (some_uids_of members.now) }
{
    if members.is_empty() {
        return None;
    }
    all_meet(members, action, above)
}

/// The same, and false where there is no member.
fn all_meet(members: &[Expr], action: &Uid, above: &[Uid]) -> Option<bool>
    ensures { result ≡ option_map (meets (action.now ∷ above.now)) (uids_of members.now) }
{
    let mut found = false;
    for member in members {
        let Some(uid) = uid_of(member) else {
            return None;
        };
        found = found || is_among(uid, action, above);
    }
    Some(found)
}
