//! The uids that policies write.
ghost use Rattle.std.specs.Prelude.{◌≡◌, ◌++◌, ◌↔◌, List, ℕ, map, Contains, IfOk, OnOk};
ghost use Rattle.std.specs.List.{flat_map};
ghost use Rattle.sc_names.specs.declared.uid.Uid.{Uid as AnyUid};
ghost use Rattle.sc_ast.specs.declared.expr.Expr.{Expr as AnyExpr};
ghost use Rattle.sc_ast.specs.declared.literal.EntityLiteral.{EntityLiteral as AnyLiteral};
ghost use Rattle.sc_ast.specs.declared.policy.Condition.{Condition as AnyCondition};
ghost use Rattle.sc_ast.specs.Literals.{literal_uids, expr_uids, constraint_uids, action_uids, policy_uids, literals};

use crate::expr::Expr;
use crate::literal::{EntityLiteral, Literal};
use crate::policy::{Condition, Policy};
use crate::scope::{ActionConstraint, Constraint};
use sc_lists::{Seq, Text};
use sc_names::{Lits, Uid, lits_of};
use std::alloc::{AllocError, Global};

/// The uids that the policies write, in scopes and in clauses.
pub fn literals(alloc: Global, policies: &[Policy]) -> Result<Lits, AllocError>
    ensures { IfOk result (λ lits. (u : AnyUid) → Contains lits u ↔ Contains (literals policies.now) u) }
{
    let uids = written_uids(alloc, policies)?;
    lits_of(alloc, uids.as_slice())
}

/// The uids that the policies write, in order.
fn written_uids(alloc: Global, policies: &[Policy]) -> Result<Seq<Uid>, AllocError>
    ensures { IfOk result (λ uids. uids ≡ literals policies.now) }
{
    let mut uids = Seq::new(alloc);
    for policy in policies {
        put_policy(alloc, &mut uids, policy)?;
    }
    Ok(uids)
}

/// Puts the uids of a policy at the end. Where memory runs out, some of them may be put.
fn put_policy(alloc: Global, uids: &mut Seq<Uid>, policy: &Policy) -> Result<(), AllocError>
    ensures { OnOk result (uids.new ≡ uids.old ++ policy_uids policy.now) }
{
    put_constraint(alloc, uids, &policy.principal.constraint)?;
    put_action(alloc, uids, &policy.action.constraint)?;
    put_constraint(alloc, uids, &policy.resource.constraint)?;
    put_clauses(alloc, uids, policy.conditions.as_slice())
}

/// Puts the uid of a scope's part on the principal or the resource at the end, if it has one.
fn put_constraint(
    alloc: Global,
    uids: &mut Seq<Uid>,
    constraint: &Constraint,
) -> Result<(), AllocError>
    ensures { OnOk result (uids.new ≡ uids.old ++ constraint_uids constraint.now) }
{
    match constraint {
        Constraint::Any | Constraint::Is(_, _) => Ok(()),
        Constraint::Equal(_, l) | Constraint::In(_, l) | Constraint::IsIn(_, _, _, l) => {
            uids.push(l.uid.try_clone(alloc)?)
        }
    }
}

/// Puts the uids of a scope's part on the action at the end. Where memory runs out, some of them
/// may be put.
fn put_action(
    alloc: Global,
    uids: &mut Seq<Uid>,
    constraint: &ActionConstraint,
) -> Result<(), AllocError>
    ensures { OnOk result (uids.new ≡ uids.old ++ action_uids constraint.now) }
{
    match constraint {
        ActionConstraint::Any => Ok(()),
        ActionConstraint::Equal(_, l) | ActionConstraint::In(_, l) => {
            uids.push(l.uid.try_clone(alloc)?)
        }
        ActionConstraint::InAny(_, _, ls) => put_entities(alloc, uids, ls.as_slice()),
    }
}

/// Puts the uids of entities at the end. Where memory runs out, some of them may be put.
fn put_entities(alloc: Global, uids: &mut Seq<Uid>, ls: &[EntityLiteral]) -> Result<(), AllocError>
    ensures { OnOk result (uids.new ≡ uids.old ++ map (λ (l : AnyLiteral). l.uid) ls.now) }
{
    for l in ls {
        uids.push(l.uid.try_clone(alloc)?)?;
    }
    Ok(())
}

/// Puts the uids of clauses at the end. Where memory runs out, some of them may be put.
fn put_clauses(alloc: Global, uids: &mut Seq<Uid>, clauses: &[Condition]) -> Result<(), AllocError>
    ensures { OnOk result (uids.new ≡ uids.old ++ flat_map (λ (c : AnyCondition). expr_uids c.body) clauses.now) }
{
    for clause in clauses {
        put_expr(alloc, uids, &clause.body)?;
    }
    Ok(())
}

/// Puts the uids of an expression at the end. Where memory runs out, some of them may be put.
#[cycle(written)]
#[tactic(auto, using(crate::proofs::LiteralsLaws::uids_Set, crate::proofs::LiteralsLaws::uids_Record), unfolding(crate::specs::Literals::expr_uids))]
fn put_expr(alloc: Global, uids: &mut Seq<Uid>, expr: &Expr) -> Result<(), AllocError>
    ensures { OnOk result (uids.new ≡ uids.old ++ expr_uids expr.now) }
{
    match expr {
        Expr::If(_, c, a, b) => put_three(alloc, uids, c.get(), a.get(), b.get()),
        Expr::Or(_, a, b) => put_two(alloc, uids, a.get(), b.get()),
        Expr::And(_, a, b) => put_two(alloc, uids, a.get(), b.get()),
        Expr::Binary(_, _, a, b) => put_two(alloc, uids, a.get(), b.get()),
        Expr::Has(_, a, _) => put_expr(alloc, uids, a.get()),
        Expr::Like(_, a, _) => put_expr(alloc, uids, a.get()),
        Expr::Is(_, a, _) => put_expr(alloc, uids, a.get()),
        Expr::IsIn(_, a, _, _, b) => put_two(alloc, uids, a.get(), b.get()),
        Expr::Unary(_, _, a) => put_expr(alloc, uids, a.get()),
        Expr::Access(_, a, _) => put_expr(alloc, uids, a.get()),
        Expr::Literal(_, literal) => put_literal(alloc, uids, literal),
        Expr::Variable(_, _) => Ok(()),
        Expr::Set(_, members) => put_all(alloc, uids, members.as_slice()),
        Expr::Record(_, fields) => put_fields(alloc, uids, fields.as_slice()),
    }
}

/// Puts the uid of a literal at the end, if it is one.
fn put_literal(alloc: Global, uids: &mut Seq<Uid>, literal: &Literal) -> Result<(), AllocError>
    ensures { OnOk result (uids.new ≡ uids.old ++ literal_uids literal.now) }
{
    match literal {
        Literal::Bool(_) | Literal::Long(_) | Literal::String(_) => Ok(()),
        Literal::Entity(uid) => uids.push(uid.try_clone(alloc)?),
    }
}

/// Puts the uids of two expressions at the end.
#[cycle(written)]
fn put_two(alloc: Global, uids: &mut Seq<Uid>, a: &Expr, b: &Expr) -> Result<(), AllocError>
    ensures { OnOk result (uids.new ≡ uids.old ++ (expr_uids a.now ++ expr_uids b.now)) }
{
    put_expr(alloc, uids, a)?;
    put_expr(alloc, uids, b)
}

/// Puts the uids of three expressions at the end.
#[cycle(written)]
fn put_three(
    alloc: Global,
    uids: &mut Seq<Uid>,
    c: &Expr,
    a: &Expr,
    b: &Expr,
) -> Result<(), AllocError>
    ensures { OnOk result (uids.new ≡ uids.old ++ (expr_uids c.now ++ (expr_uids a.now ++ expr_uids b.now))) }
{
    put_expr(alloc, uids, c)?;
    put_expr(alloc, uids, a)?;
    put_expr(alloc, uids, b)
}

/// Puts the uids of expressions at the end.
#[cycle(written)]
fn put_all(alloc: Global, uids: &mut Seq<Uid>, exprs: &[Expr]) -> Result<(), AllocError>
    ensures { OnOk result (uids.new ≡ uids.old ++ flat_map expr_uids exprs.now) }
{
    for expr in exprs {
        put_expr(alloc, uids, expr)?;
    }
    Ok(())
}

/// Puts the uids of a record's fields at the end.
#[cycle(written)]
fn put_fields(alloc: Global, uids: &mut Seq<Uid>, fields: &[(Text, Expr)]) -> Result<(), AllocError>
    ensures { OnOk result (uids.new ≡ uids.old ++ flat_map (λ (f : List ℕ × AnyExpr). expr_uids f.1) fields.now) }
{
    for field in fields {
        put_expr(alloc, uids, &field.1)?;
    }
    Ok(())
}
