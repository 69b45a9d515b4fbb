//! What terms are places of: the attributes of two entities, or the tags of two entities under two keys.
ghost use Rattle.std.specs.Prelude.{◌≡◌, ◌<◌, Some, None, length, if◌then◌else◌};
ghost use Rattle.sc_closure_rules.specs.Linking.{AreRoots};
ghost use Rattle.th_entities_instances.specs.Roots.{AreEntitiesIf, AreTagsIf, attributes_pair, pair_on, tag_pairs, tags_on};

use sc_footprint::Problem;
use sc_sorts::{BinaryOp, Node, UnaryOp};

/// Two terms, by their numbers in the table.
#[derive(Clone, Copy, Debug)]
pub(crate) struct Pair {
    pub(crate) first: u64,
    pub(crate) second: u64,
}

/// The entities of two tags, and their keys.
#[derive(Clone, Copy, Debug)]
pub(crate) struct TagPairs {
    pub(crate) entities: Pair,
    pub(crate) keys: Pair,
}

/// What two terms are places of, as far as they are got by the same steps.
pub fn roots(problem: &Problem<'_>, x: u64, y: u64) -> (u64, u64)
    requires x { x < length problem.now.nodes }
    requires y { y < length problem.now.nodes }
    ensures { AreRoots problem.now.nodes x y result.0 result.1 }
{
    sc_closure_rules::roots(problem.terms(), x, y)
}

fn pair_if(test: bool, first: u64, second: u64) -> Option<Pair>
    ensures { result ≡ (if test then Some (pair_on first second) else None) }
{
    if test {
        Some(Pair { first, second })
    } else {
        None
    }
}

/// The entities of two attributes of one sort.
fn entities_at(x: &Node, y: &Node) -> Option<Pair>
    ensures { result ≡ attributes_pair x.now y.now }
{
    match x {
        Node::One(UnaryOp::Attributes(k), e) => match y {
            Node::One(UnaryOp::Attributes(l), f) => pair_if(*k == *l, *e, *f),
            _ => None,
        },
        _ => None,
    }
}

fn tags_if(test: bool, entities: Pair, keys: Pair) -> Option<TagPairs>
    ensures { result ≡ (if test then Some (tags_on entities keys) else None) }
{
    if test {
        Some(TagPairs { entities, keys })
    } else {
        None
    }
}

/// The entities of two tags of one sort, and their keys.
fn tags_at(x: &Node, y: &Node) -> Option<TagPairs>
    ensures { result ≡ tag_pairs x.now y.now }
{
    match x {
        Node::Two(BinaryOp::Tag(s), e, k) => match y {
            Node::Two(BinaryOp::Tag(t), f, l) => {
                let entities = Pair {
                    first: *e,
                    second: *f,
                };
                let keys = Pair {
                    first: *k,
                    second: *l,
                };
                tags_if(*s == *t, entities, keys)
            }
            _ => None,
        },
        _ => None,
    }
}

/// The entities of whose attributes two terms are like places. None exactly where they aren't.
#[tactic(auto, using(crate::proofs::PlaceLaws::entities_are))]
pub(crate) fn entities_of(problem: &Problem<'_>, x: u64, y: u64) -> Option<Pair>
    requires x { x < length problem.now.nodes }
    requires y { y < length problem.now.nodes }
    ensures { AreEntitiesIf problem.now x y result }
{
    let (first, second) = roots(problem, x, y);
    entities_at(problem.terms().node(first), problem.terms().node(second))
}

/// The entities of whose tags two terms are like places, and the keys of these. None exactly where
/// they aren't.
#[tactic(auto, using(crate::proofs::PlaceLaws::tags_are))]
pub(crate) fn tags_of(problem: &Problem<'_>, x: u64, y: u64) -> Option<TagPairs>
    requires x { x < length problem.now.nodes }
    requires y { y < length problem.now.nodes }
    ensures { AreTagsIf problem.now x y result }
{
    let (first, second) = roots(problem, x, y);
    tags_at(problem.terms().node(first), problem.terms().node(second))
}
