//! Instances of rules, by the numbers that they give: of closed terms, but for `i`, which is a plain
//! number.

/// An instance of a rule on equations.
#[derive(Clone, Copy)]
pub enum EqualRule {
    /// a, b, c: what equals one thing is equal.
    Eq1(u64, u64, u64),
    /// x, i: a choice is what its condition says.
    Eq2(u64, u64),
    /// r, s, i: equal records have equal fields.
    Eq3(u64, u64, u64),
    /// r, s: records with equal fields are equal.
    Eq4(u64, u64),
    /// o, q: of equal options both hold a value or none does.
    Eq5(u64, u64),
    /// o, q: equal options hold equal values.
    Eq6(u64, u64),
    /// o, q, i: options are equal that hold nothing, or equal values.
    Eq7(u64, u64, u64),
    /// o: what an option holds that holds nothing is the default.
    Eq8(u64),
}

/// An instance of a rule on sets.
#[derive(Clone, Copy)]
pub enum SetRule {
    /// x, y, S: what equals a member is a member.
    Se1(u64, u64, u64),
    /// x, S: a member of a set term is one of those that stand there.
    Se2(u64, u64),
    /// x, S, i: each that stands there is a member.
    Se3(u64, u64, u64),
    /// S, T, x: a member of a subset is a member.
    Se4(u64, u64, u64),
    /// S, T, i: of a set that is no subset some member is missing in the other.
    Se5(u64, u64, u64),
    /// S, T, i: sets with a member in common share one.
    Se6(u64, u64, u64),
    /// S, T, x: sets that both have a member have one in common.
    Se7(u64, u64, u64),
    /// S, T, i: sets are equal just where each is a subset of the other.
    Se8(u64, u64, u64),
    /// S, T, i: a set term is a subset just where each that stands there is a member.
    Se9(u64, u64, u64),
    /// S, T, i: a set term has a member in common just where one that stands there is a member.
    Se10(u64, u64, u64),
}

/// An instance of a rule on what is stored of entities.
#[derive(Clone, Copy)]
pub enum EntityRule {
    /// x, y, i: like places of the attributes of equal entities are alike, by the bit i or the candidate i.
    En1(u64, u64, u64),
    /// x, S, Z: equal entities have the same ancestors and keys.
    En2(u64, u64, u64),
    /// x, y, i: like places of the tags of equal entities under equal keys are alike, by the bit i or the candidate i.
    En3(u64, u64, u64),
    /// e: no entity is its own ancestor.
    En4(u64),
    /// e, f, x, U: the ancestors of an ancestor are ancestors.
    En5(u64, u64, u64, u64),
    /// a: a tag that an entity hasn't is the default.
    En6(u64),
    /// S, x: a declared action has its declared ancestors.
    En7(u64, u64),
    /// x: an entity of a type of actions is a declared one.
    En8(u64),
    /// x: an entity of an enumerated type is one of its choices.
    Eq9(u64),
}
