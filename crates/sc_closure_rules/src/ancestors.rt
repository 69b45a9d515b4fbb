//! What goes with entities whose types list them, and with the ancestors of entities.
ghost use Rattle.std.specs.Prelude.{◌≡◌, ◌<◌, [], ◌∷◌, length, map, flat_map, is_some, unwrap_or, IfOk, OnOk};
ghost use Rattle.std.specs.Str.{bytes_eq};
ghost use Rattle.sc_schema.specs.Declarations.{ancestor_types as types_above, action_ancestors as actions_above};
ghost use Rattle.sc_sorts.specs.declared.sort.Sort.{out-Sort};
ghost use Rattle.sc_sorts.specs.declared.sort.Sort.TheOpen as sorts;
ghost use Rattle.sc_sorts.specs.Entities.{entity_sort as sort_of_type, of_type_name};
ghost use Rattle.sc_sorts.specs.declared.node.BinaryOp.TheVariants as binary;
ghost use Rattle.sc_terms.specs.Folds.{literal_of};
ghost use Rattle.sc_terms.specs.Trees.{two};
ghost use Rattle.sc_terms.specs.Tables.{tree, Keeps, StandsFor};
ghost use Rattle.sc_term_definitions.specs.Making.{Puts};
ghost use Rattle.sc_closure_rules.specs.Closure as closing;
ghost use Rattle.sc_closure_rules.specs.Beside.{choices_in, members_of_sort, is_literal as literal_node, own_in, IsAncestorsOf};

use sc_lists::Seq;
use sc_names::{Name, Uid, clone_uids};
use sc_schema::{Schema, action_ancestors, ancestor_types};
use sc_sorts::{Leaf, Literal, Node, Sort, UnaryOp, entity_sort, try_clone};
use sc_terms::Terms;
use std::alloc::{AllocError, Global};

/// The number of an entity, beside the choices of its sort.
fn uid_number(
    alloc: Global,
    terms: &mut Terms,
    choices: &Seq<Uid>,
    uid: &Uid,
) -> Result<u64, AllocError>
    ensures ok { IfOk result (λ n. StandsFor terms.new n (closing.uid_term choices.now uid.now)) }
    ensures kept { Keeps terms.old terms.new }
{
    let uid = uid.try_clone(alloc)?;
    let choices = clone_uids(alloc, choices)?;
    terms.literal(Literal::Entity(uid, choices))
}

/// The choices of a term's sort, if it is one of entities.
fn choices_at(alloc: Global, sort: &Sort) -> Result<Seq<Uid>, AllocError>
    ensures { IfOk result (λ us. us ≡ choices_in (out-Sort sort.now)) }
{
    match sort {
        Sort::Entity(_, choices) => clone_uids(alloc, choices),
        _ => Ok(Seq::new(alloc)),
    }
}

/// Whether a node is a literal.
fn is_literal_node(node: &Node) -> bool
    ensures { result ≡ literal_node node.now }
{
    matches!(node, Node::Leaf(Leaf::Literal(_)))
}

/// Whether a term is a literal.
#[tactic(auto, using(crate::proofs::AncestorLaws::literal_told))]
fn is_literal(terms: &Terms, n: u64) -> bool
    requires { n < length terms.now }
    ensures { result ≡ is_some (literal_of (tree terms.now n)) }
{
    is_literal_node(terms.node(n))
}

/// Puts the choices of a sort.
fn put_uids(
    alloc: Global,
    terms: &mut Terms,
    choices: &Seq<Uid>,
    numbers: &mut Vec<u64>,
) -> Result<(), AllocError>
    ensures ok { OnOk result (Puts terms.old terms.new numbers.old.items numbers.new.items (map
        (closing.uid_term choices.now) choices.now)) }
    ensures kept { Keeps terms.old terms.new }
{
    for uid in choices.as_slice() {
        let m = uid_number(alloc, terms, choices, uid)?;
        numbers.push(m)?;
    }
    Ok(())
}

/// Puts the entities that an entity's type lists, unless it is written.
pub(crate) fn put_choices(
    alloc: Global,
    terms: &mut Terms,
    n: u64,
    numbers: &mut Vec<u64>,
) -> Result<(), AllocError>
    requires { n < length terms.old }
    ensures ok { OnOk result (Puts terms.old terms.new numbers.old.items numbers.new.items (closing.choices
        (tree terms.old n))) }
    ensures kept { Keeps terms.old terms.new }
{
    if is_literal(terms, n) {
        return Ok(());
    }
    let choices = choices_at(alloc, terms.sort(n))?;
    put_uids(alloc, terms, &choices, numbers)
}

/// The number of an entity's ancestors of a type.
fn of_type(
    alloc: Global,
    schema: &Schema,
    terms: &mut Terms,
    entity: u64,
    name: &Name,
) -> Result<u64, AllocError>
    requires { entity < length terms.old }
    ensures ok { IfOk result (λ n. StandsFor terms.new n (closing.ancestors_of (sort_of_type schema.now name.now)
        (tree terms.old entity))) }
    ensures kept { Keeps terms.old terms.new }
{
    let sort = entity_sort(alloc, schema, name)?;
    terms.ancestors(entity, sort)
}

/// Puts an entity's ancestors of each of these types.
fn put_of_types(
    alloc: Global,
    schema: &Schema,
    terms: &mut Terms,
    entity: u64,
    types: &[Name],
    numbers: &mut Vec<u64>,
) -> Result<(), AllocError>
    requires { entity < length terms.old }
    ensures ok { OnOk result (Puts terms.old terms.new numbers.old.items numbers.new.items (map (λ name.
        closing.ancestors_of (sort_of_type schema.now name) (tree terms.old entity)) types.now)) }
    ensures kept { Keeps terms.old terms.new }
{
    for name in types {
        let m = of_type(alloc, schema, terms, entity, name)?;
        numbers.push(m)?;
    }
    Ok(())
}

/// Puts an entity's ancestors of each type above a type.
fn put_above(
    alloc: Global,
    schema: &Schema,
    terms: &mut Terms,
    entity: u64,
    name: &Name,
    numbers: &mut Vec<u64>,
) -> Result<(), AllocError>
    requires { entity < length terms.old }
    ensures ok { OnOk result (Puts terms.old terms.new numbers.old.items numbers.new.items (map (λ above.
        closing.ancestors_of (sort_of_type schema.now above) (tree terms.old entity)) (unwrap_or (types_above
        schema.now name.now) []))) }
    ensures kept { Keeps terms.old terms.new }
{
    match ancestor_types(schema, name) {
        Some(types) => put_of_types(alloc, schema, terms, entity, types, numbers),
        None => Ok(()),
    }
}

/// Whether an entity is of a type.
fn is_of_type(name: &Name, uid: &Uid) -> bool
    ensures { result ≡ bytes_eq name.now uid.now.type_name }
{
    name.as_str() == uid.type_name.as_str()
}

/// The number of whether an entity is a member of a set.
fn member_number(
    alloc: Global,
    terms: &mut Terms,
    choices: &Seq<Uid>,
    set: u64,
    uid: &Uid,
) -> Result<u64, AllocError>
    requires { set < length terms.old }
    ensures ok { IfOk result (λ n. StandsFor terms.new n (two binary.Member (closing.uid_term choices.now uid.now)
        (tree terms.old set))) }
    ensures kept { Keeps terms.old terms.new }
{
    let member = uid_number(alloc, terms, choices, uid)?;
    let n = terms.member(member, set)?;
    Ok(n)
}

/// Puts whether those of these entities that are of a type are members of a set.
fn put_members(
    alloc: Global,
    terms: &mut Terms,
    name: &Name,
    choices: &Seq<Uid>,
    set: u64,
    uids: &[Uid],
    numbers: &mut Vec<u64>,
) -> Result<(), AllocError>
    requires { set < length terms.old }
    ensures ok { OnOk result (Puts terms.old terms.new numbers.old.items numbers.new.items (map (λ v. two binary.Member
        (closing.uid_term choices.now v) (tree terms.old set)) (of_type_name name.now uids.now))) }
    ensures kept { Keeps terms.old terms.new }
{
    for uid in uids {
        if is_of_type(name, uid) {
            let m = member_number(alloc, terms, choices, set, uid)?;
            numbers.push(m)?;
        }
    }
    Ok(())
}

/// Puts whether those of these entities that are of a sort's type are members of a set.
fn put_declared_members(
    alloc: Global,
    terms: &mut Terms,
    own: &Sort,
    set: u64,
    uids: &[Uid],
    numbers: &mut Vec<u64>,
) -> Result<(), AllocError>
    requires { set < length terms.old }
    ensures ok { OnOk result (Puts terms.old terms.new numbers.old.items numbers.new.items (members_of_sort
        (out-Sort own.now) (tree terms.old set) uids.now)) }
    ensures kept { Keeps terms.old terms.new }
{
    match own {
        Sort::Entity(name, choices) => put_members(alloc, terms, name, choices, set, uids, numbers),
        _ => Ok(()),
    }
}

/// Puts whether the declared ancestors of an action that are of a sort's type are members of a set.
fn put_action_members(
    alloc: Global,
    schema: &Schema,
    terms: &mut Terms,
    own: &Sort,
    set: u64,
    action: &Uid,
    numbers: &mut Vec<u64>,
) -> Result<(), AllocError>
    requires { set < length terms.old }
    ensures ok { OnOk result (Puts terms.old terms.new numbers.old.items numbers.new.items (members_of_sort
        (out-Sort own.now) (tree terms.old set) (unwrap_or (actions_above schema.now action.now) []))) }
    ensures kept { Keeps terms.old terms.new }
{
    match action_ancestors(schema, action) {
        Some(above) => put_declared_members(alloc, terms, own, set, above, numbers),
        None => Ok(()),
    }
}

/// The number of a declared action's ancestors of a type.
fn of_action(
    alloc: Global,
    terms: &mut Terms,
    own: &Sort,
    choices: &Seq<Uid>,
    action: &Uid,
) -> Result<u64, AllocError>
    ensures ok { IfOk result (λ n. StandsFor terms.new n (closing.ancestors_of own.now (closing.uid_term choices.now
        action.now))) }
    ensures kept { Keeps terms.old terms.new }
{
    let entity = uid_number(alloc, terms, choices, action)?;
    let sort = try_clone(alloc, own)?;
    let n = terms.ancestors(entity, sort)?;
    Ok(n)
}

/// Puts the ancestors of a declared action of a type, and its declared ones as members.
#[tactic(auto, using(crate::proofs::AncestorLaws::action_put))]
fn put_of_action(
    alloc: Global,
    schema: &Schema,
    terms: &mut Terms,
    own: &Sort,
    choices: &Seq<Uid>,
    action: &Uid,
    numbers: &mut Vec<u64>,
) -> Result<(), AllocError>
    ensures ok { OnOk result (Puts terms.old terms.new numbers.old.items numbers.new.items
        (closing.ancestors_of own.now (closing.uid_term choices.now action.now) ∷ closing.declared_members schema.now
        (out-Sort own.now) own.now (closing.uid_term choices.now action.now) action.now)) }
    ensures kept { Keeps terms.old terms.new }
{
    let set = of_action(alloc, terms, own, choices, action)?;
    numbers.push(set)?;
    put_action_members(alloc, schema, terms, own, set, action, numbers)?;
    Ok(())
}

/// Puts what goes with the ancestors of a type of each declared action of another.
fn put_of_actions(
    alloc: Global,
    schema: &Schema,
    terms: &mut Terms,
    own: &Sort,
    choices: &Seq<Uid>,
    numbers: &mut Vec<u64>,
) -> Result<(), AllocError>
    ensures ok { OnOk result (Puts terms.old terms.new numbers.old.items numbers.new.items
        (closing.declared_ancestors schema.now own.now choices.now)) }
    ensures kept { Keeps terms.old terms.new }
{
    for action in choices.as_slice() {
        put_of_action(alloc, schema, terms, own, choices, action, numbers)?;
    }
    Ok(())
}

/// Puts what goes with an entity's ancestors of a type: those of each ancestor type, and of an entity
/// of a type of actions those of each declared action.
#[tactic(auto, using(crate::proofs::AncestorLaws::all_above))]
fn put_all_above(
    alloc: Global,
    schema: &Schema,
    terms: &mut Terms,
    own: &Sort,
    name: &Name,
    choices: &Seq<Uid>,
    entity: u64,
    numbers: &mut Vec<u64>,
) -> Result<(), AllocError>
    requires { entity < length terms.old }
    ensures ok { OnOk result (Puts terms.old terms.new numbers.old.items numbers.new.items (closing.ancestors_by
        schema.now (sorts.Entity name.now choices.now) own.now (tree terms.old entity))) }
    ensures kept { Keeps terms.old terms.new }
{
    put_above(alloc, schema, terms, entity, name, numbers)?;
    put_of_actions(alloc, schema, terms, own, choices, numbers)?;
    Ok(())
}

/// The same of an entity of a sort.
fn put_by_sort(
    alloc: Global,
    schema: &Schema,
    terms: &mut Terms,
    own: &Sort,
    sort: &Sort,
    entity: u64,
    numbers: &mut Vec<u64>,
) -> Result<(), AllocError>
    requires { entity < length terms.old }
    ensures ok { OnOk result (Puts terms.old terms.new numbers.old.items numbers.new.items (closing.ancestors_by
        schema.now (out-Sort sort.now) own.now (tree terms.old entity))) }
    ensures kept { Keeps terms.old terms.new }
{
    match sort {
        Sort::Entity(name, choices) => {
            put_all_above(alloc, schema, terms, own, name, choices, entity, numbers)
        }
        _ => Ok(()),
    }
}

/// The sort of the ancestors that a node stands for, and of another node that of truth values.
fn own_sort(alloc: Global, node: &Node) -> Result<Sort, AllocError>
    ensures { IfOk result (λ s. s ≡ own_in node.now) }
{
    match node {
        Node::One(UnaryOp::Ancestors(own), _) => try_clone(alloc, own),
        _ => Ok(Sort::Bool),
    }
}

/// Puts what goes with the ancestors of an entity, by their number and its.
pub(crate) fn put_ancestors(
    alloc: Global,
    schema: &Schema,
    terms: &mut Terms,
    n: u64,
    entity: u64,
    numbers: &mut Vec<u64>,
) -> Result<(), AllocError>
    requires n_in { n < length terms.old }
    requires entity_in { entity < length terms.old }
    requires is { IsAncestorsOf terms.old n entity }
    ensures ok { OnOk result (Puts terms.old terms.new numbers.old.items numbers.new.items (closing.beside schema.now
        (tree terms.old n))) }
    ensures kept { Keeps terms.old terms.new }
{
    let own = own_sort(alloc, terms.node(n))?;
    let sort = try_clone(alloc, terms.sort(entity))?;
    let outcome = put_by_sort(alloc, schema, terms, &own, &sort, entity, numbers);
    drop(own);
    drop(sort);
    outcome
}
