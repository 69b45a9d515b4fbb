//! What is true of the constants of policies by their types. The calls go through policies to say so, and change
//! nothing.
ghost use Rattle.std.specs.Prelude.{All, List, FitsSigned, ℕ};
ghost use Rattle.std.specs.Int.{w64};
ghost use Rattle.std.specs.List.{AllByRecursion};
ghost use Rattle.std.specs.Str.{IsUtf8};
ghost use Rattle.sc_values.specs.Proper.{IsProper, IsUidText};
ghost use Rattle.sc_ast.specs.Literals.{action_uids, constraint_uids};
ghost use Rattle.sc_ast.specs.declared.expr.Expr.{Expr as AnyExpr};
ghost use Rattle.sc_ast.specs.declared.policy.Condition.{Condition as AnyCondition};
ghost use Rattle.sc_eval.specs.Operators.{literal_value};
ghost use Rattle.sc_eval.specs.Written.{HasProperConstants, HasTextName, HasTextUid, HaveProperConstants, IsProperPolicy};

use sc_ast::{
    ActionConstraint, Condition, Constraint, EntityLiteral, Expr, Literal, Policy, PolicySet,
};
use sc_lists::{Boxed, Seq, Text};
use sc_names::Uid;

/// The constants of policies are values, by their types: numbers of 64 bits, and texts, uids and names of
/// fields of scalar values.
pub fn constant_laws(policies: &PolicySet)
    ensures { HaveProperConstants policies.now }
{
    of_policies(policies);
}

fn of_policies(policies: &PolicySet)
    ensures { All IsProperPolicy policies.now }
{
    for policy in policies.as_slice() {
        of_policy(policy);
    }
}

fn of_policy(policy: &Policy)
    ensures { IsProperPolicy policy.now }
{
    of_constraint(&policy.principal.constraint);
    of_action(&policy.action.constraint);
    of_constraint(&policy.resource.constraint);
    of_clauses(&policy.conditions);
}

// ---- scopes

fn of_constraint(constraint: &Constraint)
    ensures { AllByRecursion IsUidText (constraint_uids constraint.now) }
{
    match constraint {
        Constraint::Any | Constraint::Is(_, _) => {}
        Constraint::Equal(_, l) => of_uid(&l.uid),
        Constraint::In(_, l) => of_uid(&l.uid),
        Constraint::IsIn(_, _, _, l) => of_uid(&l.uid),
    }
}

fn of_action(constraint: &ActionConstraint)
    ensures { AllByRecursion IsUidText (action_uids constraint.now) }
{
    match constraint {
        ActionConstraint::Any => {}
        ActionConstraint::Equal(_, l) => of_uid(&l.uid),
        ActionConstraint::In(_, l) => of_uid(&l.uid),
        ActionConstraint::InAny(_, _, ls) => of_entities(ls),
    }
}

fn of_entities(ls: &Seq<EntityLiteral>)
    ensures { All HasTextUid ls.now }
{
    for l in ls.as_slice() {
        of_entity(l);
    }
}

#[tactic(auto, unfolding(crate::specs::Written::HasTextUid))]
fn of_entity(l: &EntityLiteral)
    ensures { HasTextUid l.now }
{
    of_uid(&l.uid);
}

// ---- literals

fn of_uid(uid: &Uid)
    ensures { IsUidText uid.now }
{
    let _name = uid.type_name.as_str();
    let _id = uid.id.as_str();
}

fn of_text(text: &Text)
    ensures { IsUtf8 text.now }
{
    let _text = text.as_str();
}

fn of_long(n: &i64)
    ensures { FitsSigned w64 n.now }
{
    let _n = *n;
}

fn of_literal(literal: &Literal)
    ensures { IsProper (literal_value literal.now) }
{
    match literal {
        Literal::Bool(_) => {}
        Literal::Long(n) => of_long(n),
        Literal::String(text) => of_text(text),
        Literal::Entity(uid) => of_uid(uid),
    }
}

// ---- expressions

fn of_clauses(clauses: &Seq<Condition>)
    ensures { All (λ (c : AnyCondition). HasProperConstants c.body) clauses.now }
{
    for clause in clauses.as_slice() {
        of_expr(&clause.body);
    }
}

#[cycle(constants)]
fn of_expr(expr: &Expr)
    ensures { HasProperConstants expr.now }
{
    match expr {
        Expr::If(_, c, a, b) => of_three(c, a, b),
        Expr::Or(_, a, b) => of_two(a, b),
        Expr::And(_, a, b) => of_two(a, b),
        Expr::Binary(_, _, a, b) => of_two(a, b),
        Expr::Has(_, a, _) => of_boxed(a),
        Expr::Like(_, a, _) => of_boxed(a),
        Expr::Is(_, a, _) => of_boxed(a),
        Expr::IsIn(_, a, _, _, b) => of_two(a, b),
        Expr::Unary(_, _, a) => of_boxed(a),
        Expr::Access(_, a, _) => of_boxed(a),
        Expr::Literal(_, literal) => of_literal(literal),
        Expr::Variable(_, _) => {}
        Expr::Set(_, members) => of_all(members),
        Expr::Record(_, fields) => of_record(fields),
    }
}

#[cycle(constants)]
fn of_boxed(expr: &Boxed<Expr>)
    ensures { HasProperConstants expr.now }
{
    of_expr(expr.get());
}

#[cycle(constants)]
fn of_two(a: &Boxed<Expr>, b: &Boxed<Expr>)
    ensures first { HasProperConstants a.now }
    ensures second { HasProperConstants b.now }
{
    of_boxed(a);
    of_boxed(b);
}

#[cycle(constants)]
fn of_three(c: &Boxed<Expr>, a: &Boxed<Expr>, b: &Boxed<Expr>)
    ensures condition { HasProperConstants c.now }
    ensures first { HasProperConstants a.now }
    ensures second { HasProperConstants b.now }
{
    of_boxed(c);
    of_boxed(a);
    of_boxed(b);
}

#[cycle(constants)]
fn of_all(exprs: &Seq<Expr>)
    ensures { All HasProperConstants exprs.now }
{
    for expr in exprs.as_slice() {
        of_expr(expr);
    }
}

#[cycle(constants)]
fn of_record(fields: &Seq<(Text, Expr)>)
    ensures names { All HasTextName fields.now }
    ensures values { All (λ (f : List ℕ × AnyExpr). HasProperConstants f.1) fields.now }
{
    of_names(fields);
    of_values(fields);
}

#[cycle(constants)]
fn of_values(fields: &Seq<(Text, Expr)>)
    ensures { All (λ (f : List ℕ × AnyExpr). HasProperConstants f.1) fields.now }
{
    for field in fields.as_slice() {
        of_expr(&field.1);
    }
}

fn of_names(fields: &Seq<(Text, Expr)>)
    ensures { All HasTextName fields.now }
{
    for field in fields.as_slice() {
        of_name(field);
    }
}

fn of_name(field: &(Text, Expr))
    ensures { HasTextName field.now }
{
    let _name = field.0.as_str();
}
