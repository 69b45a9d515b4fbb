//! Whether the names that policies write are declared.
ghost use Rattle.std.specs.Prelude.{◌≡◌, ℕ, List, map, fold, Some, None, OnOk, IfErr};
ghost use Rattle.std.specs.List.{list_any};
ghost use Rattle.std.specs.Str.{bytes_eq};
ghost use Rattle.sc_ast.specs.declared.expr.Expr.{Expr as AnyExpr};
ghost use Rattle.sc_schema.specs.Declarations.{declared_choices};
ghost use Rattle.sc_typing.specs.Names.{is_type, is_known, has_choice, is_declared, undeclared_kind, is_action_name, first_of, first_in, uid_fault, type_fault, literal_fault, expr_fault, entity_fault, constraint_fault, action_fault, clauses_fault, policy_fault, name_fault};

use crate::name_fault::{NameFault, NameKind};
use sc_ast::{
    ActionConstraint, Condition, Constraint, EntityLiteral, Expr, Literal, Place, Policy,
    PolicySet, TypeName,
};
use sc_lists::Text;
use sc_names::{Name, Uid};
use sc_schema::{Schema, action_ancestors, attrs_of, choices_of, is_action_type};

/// A name that isn't declared: what it stands for, and its place.
type Undeclared = Option<(NameKind, Place)>;

/// Checks that the entity types and the actions that policies write are declared, in scopes, in
/// clauses, and in parts of these that are never evaluated. The fault is the one of the first policy
/// that has one, at the least place in it. An undeclared uid is a choice where its type is declared; else
/// it is that of an action where the last part of its type's name is `Action`.
pub fn check_names(schema: &Schema, policies: &PolicySet) -> Result<(), NameFault>
    ensures ok { OnOk result (name_fault schema.now policies.now ≡ None) }
    ensures err { IfErr result (λ fault. name_fault schema.now policies.now ≡ Some fault) }
{
    for (i, policy) in policies.as_slice().iter().enumerate() {
        if let Some((kind, place)) = policy_fault(schema, policy) {
            return Err(NameFault {
                kind,
                policy: i,
                place,
            });
        }
    }
    Ok(())
}

/// The one at the lesser place, and the first of two at one place.
fn first_of(a: Undeclared, b: Undeclared) -> Undeclared
    ensures { result ≡ first_of a b }
{
    let Some(first) = a else {
        return b;
    };
    let Some(second) = b else {
        return a;
    };
    if first.1.offset <= second.1.offset {
        a
    } else {
        b
    }
}

/// Whether a type of entities or of actions is declared.
fn is_type(schema: &Schema, name: &Name) -> bool
    ensures { result ≡ is_type schema.now name.now }
{
    attrs_of(schema, name).is_some()
}

/// Whether a uid is that of a declared action, or of an entity of another declared type, and its id a
/// choice, where the type is enumerated.
fn is_declared(schema: &Schema, uid: &Uid) -> bool
    ensures { result ≡ is_declared schema.now uid.now }
{
    let known = is_known(schema, uid);
    let chosen = has_choice(schema, uid);
    known && chosen
}

/// Whether an id is a choice of its type, where the type is enumerated.
fn has_choice(schema: &Schema, uid: &Uid) -> bool
    ensures { result ≡ has_choice (declared_choices schema.now uid.now.type_name) uid.now.id }
{
    match choices_of(schema, &uid.type_name) {
        Some(ids) => is_among(ids, &uid.id),
        None => true,
    }
}

fn is_among(ids: &[Text], id: &Text) -> bool
    ensures { result ≡ list_any (bytes_eq id.now) ids.now }
{
    ids.iter().any(|choice| id.as_str() == choice.as_str())
}

/// Whether a uid is that of a declared action, or of an entity of another declared type, whatever its id.
fn is_known(schema: &Schema, uid: &Uid) -> bool
    ensures { result ≡ is_known schema.now uid.now }
{
    if is_action_type(schema, &uid.type_name) {
        return action_ancestors(schema, uid).is_some();
    }
    attrs_of(schema, &uid.type_name).is_some()
}

/// Whether the last part of a path is `Action`.
fn is_action_name(name: &Name) -> bool
    ensures { result ≡ is_action_name name.now }
{
    name.as_str() == "Action" || name.as_str().ends_with("::Action")
}

fn uid_fault(schema: &Schema, place: Place, uid: &Uid) -> Undeclared
    ensures { result ≡ uid_fault schema.now place uid.now }
{
    if is_declared(schema, uid) {
        return None;
    }
    Some((undeclared_kind(schema, uid), place))
}

/// What a uid that isn't declared stands for.
fn undeclared_kind(schema: &Schema, uid: &Uid) -> NameKind
    ensures { result ≡ undeclared_kind schema.now uid.now }
{
    if is_known(schema, uid) {
        return NameKind::UnknownChoice;
    }
    if is_action_name(&uid.type_name) {
        return NameKind::UnknownAction;
    }
    NameKind::UnknownEntityType
}

fn type_fault(schema: &Schema, type_name: &TypeName) -> Undeclared
    ensures { result ≡ type_fault schema.now type_name.now }
{
    if is_type(schema, &type_name.name) {
        return None;
    }
    Some((NameKind::UnknownEntityType, type_name.place))
}

fn entity_fault(schema: &Schema, l: &EntityLiteral) -> Undeclared
    ensures { result ≡ entity_fault schema.now l.now }
{
    uid_fault(schema, l.place, &l.uid)
}

fn literal_fault(schema: &Schema, place: Place, literal: &Literal) -> Undeclared
    ensures { result ≡ literal_fault schema.now place literal.now }
{
    match literal {
        Literal::Bool(_) | Literal::Long(_) | Literal::String(_) => None,
        Literal::Entity(uid) => uid_fault(schema, place, uid),
    }
}

/// In an expression. The search goes as deep as the expression does.
#[cycle(names)]
#[tactic(auto, unfolding(crate::specs::Names::expr_fault))]
fn expr_fault(schema: &Schema, expr: &Expr) -> Undeclared
    ensures { result ≡ expr_fault schema.now expr.now }
{
    match expr {
        Expr::If(_, c, a, b) => first_of(
            expr_fault(schema, c.get()),
            two_fault(schema, a.get(), b.get()),
        ),
        Expr::Or(_, a, b) => two_fault(schema, a.get(), b.get()),
        Expr::And(_, a, b) => two_fault(schema, a.get(), b.get()),
        Expr::Binary(_, _, a, b) => two_fault(schema, a.get(), b.get()),
        Expr::Has(_, a, _) => expr_fault(schema, a.get()),
        Expr::Like(_, a, _) => expr_fault(schema, a.get()),
        Expr::Is(_, a, t) => first_of(expr_fault(schema, a.get()), type_fault(schema, t)),
        Expr::IsIn(_, a, t, _, b) => {
            let rest = first_of(type_fault(schema, t), expr_fault(schema, b.get()));
            first_of(expr_fault(schema, a.get()), rest)
        }
        Expr::Unary(_, _, a) => expr_fault(schema, a.get()),
        Expr::Access(_, a, _) => expr_fault(schema, a.get()),
        Expr::Literal(place, literal) => literal_fault(schema, *place, literal),
        Expr::Variable(_, _) => None,
        Expr::Set(_, members) => all_fault(schema, members.as_slice()),
        Expr::Record(_, fields) => fields_fault(schema, fields.as_slice()),
    }
}

#[cycle(names)]
fn two_fault(schema: &Schema, a: &Expr, b: &Expr) -> Undeclared
    ensures { result ≡ first_of (expr_fault schema.now a.now) (expr_fault schema.now b.now) }
{
    first_of(expr_fault(schema, a), expr_fault(schema, b))
}

#[cycle(names)]
fn all_fault(schema: &Schema, exprs: &[Expr]) -> Undeclared
    ensures { result ≡ first_in (map (expr_fault schema.now) exprs.now) }
{
    let mut found = None;
    for expr in exprs {
        found = first_of(found, expr_fault(schema, expr));
    }
    found
}

#[cycle(names)]
fn fields_fault(schema: &Schema, fields: &[(Text, Expr)]) -> Undeclared
    ensures { result ≡ first_in (map (λ (f : List ℕ × AnyExpr). expr_fault schema.now f.1) fields.now) }
{
    let mut found = None;
    for field in fields {
        found = first_of(found, expr_fault(schema, &field.1));
    }
    found
}

fn entities_fault(schema: &Schema, ls: &[EntityLiteral]) -> Undeclared
    ensures { result ≡ first_in (map (entity_fault schema.now) ls.now) }
{
    let mut found = None;
    for l in ls {
        found = first_of(found, entity_fault(schema, l));
    }
    found
}

fn constraint_fault(schema: &Schema, constraint: &Constraint) -> Undeclared
    ensures { result ≡ constraint_fault schema.now constraint.now }
{
    match constraint {
        Constraint::Any => None,
        Constraint::Equal(_, l) | Constraint::In(_, l) => entity_fault(schema, l),
        Constraint::Is(_, t) => type_fault(schema, t),
        Constraint::IsIn(_, t, _, l) => { first_of(type_fault(schema, t), entity_fault(schema, l)) }
    }
}

fn action_fault(schema: &Schema, constraint: &ActionConstraint) -> Undeclared
    ensures { result ≡ action_fault schema.now constraint.now }
{
    match constraint {
        ActionConstraint::Any => None,
        ActionConstraint::Equal(_, l) | ActionConstraint::In(_, l) => entity_fault(schema, l),
        ActionConstraint::InAny(_, _, ls) => entities_fault(schema, ls.as_slice()),
    }
}

fn clauses_fault(schema: &Schema, clauses: &[Condition]) -> Undeclared
    ensures { result ≡ clauses_fault schema.now clauses.now }
{
    let mut found = None;
    for clause in clauses {
        found = first_of(found, expr_fault(schema, &clause.body));
    }
    found
}

fn policy_fault(schema: &Schema, policy: &Policy) -> Undeclared
    ensures { result ≡ policy_fault schema.now policy.now }
{
    let principal = constraint_fault(schema, &policy.principal.constraint);
    let action = action_fault(schema, &policy.action.constraint);
    let resource = constraint_fault(schema, &policy.resource.constraint);
    let clauses = clauses_fault(schema, policy.conditions.as_slice());
    first_of(principal, first_of(action, first_of(resource, clauses)))
}
