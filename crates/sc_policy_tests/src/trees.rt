//! What expressions are, by their constructs and places.
use crate::samples::{at, first_body, is_uid, policies, policies_with};
use sc_ast::{
    BinaryOperator, Expr, Literal, PolicySet, TypeName, UnaryOperator, Variable, condition,
};
use sc_lists::Text;
use sc_pattern::Part;
use std::alloc::Global;

// ---- parts

fn is_truth(expr: &Expr, offset: u64) -> bool {
    match expr {
        Expr::Literal(place, Literal::Bool(truth)) => *place == at(offset) && *truth,
        _ => false,
    }
}

fn is_long(expr: &Expr, offset: u64, number: i64) -> bool {
    match expr {
        Expr::Literal(place, Literal::Long(found)) => *place == at(offset) && *found == number,
        _ => false,
    }
}

fn is_entity(expr: &Expr, offset: u64, type_name: &str, id: &str) -> bool {
    match expr {
        Expr::Literal(place, Literal::Entity(uid)) => {
            *place == at(offset) && is_uid(uid, type_name, id)
        }
        _ => false,
    }
}

fn is_variable(expr: &Expr, offset: u64, variable: Variable) -> bool {
    match expr {
        Expr::Variable(place, found) => *place == at(offset) && *found == variable,
        _ => false,
    }
}

fn is_principal(expr: &Expr, offset: u64) -> bool {
    is_variable(expr, offset, Variable::Principal)
}

/// The operator with one operand that stands at a place, and its operand.
fn operand(expr: &Expr, offset: u64) -> Option<(UnaryOperator, &Expr)> {
    match expr {
        Expr::Unary(place, operator, a) if *place == at(offset) => Some((*operator, a.get())),
        _ => None,
    }
}

/// The operator with two operands that stands at a place, and its operands.
fn operands(expr: &Expr, offset: u64) -> Option<(BinaryOperator, &Expr, &Expr)> {
    match expr {
        Expr::Binary(place, operator, a, b) if *place == at(offset) => {
            Some((*operator, a.get(), b.get()))
        }
        _ => None,
    }
}

/// The operands of `&&` at a place.
fn both(expr: &Expr, offset: u64) -> Option<(&Expr, &Expr)> {
    match expr {
        Expr::And(place, a, b) if *place == at(offset) => Some((a.get(), b.get())),
        _ => None,
    }
}

// ---- operators

/// `true || true && true`.
fn is_truths(expr: &Expr) -> bool {
    match expr {
        Expr::Or(place, a, b) => *place == at(48) && is_truth(a.get(), 43) && are_both(b.get()),
        _ => false,
    }
}

/// `true && true`, behind `true || `.
fn are_both(expr: &Expr) -> bool {
    match both(expr, 56) {
        Some((a, b)) => is_truth(a, 51) && is_truth(b, 59),
        None => false,
    }
}

/// `true != true`.
fn is_unequal(expr: &Expr) -> bool {
    match operand(expr, 48) {
        Some((UnaryOperator::Not, equal)) => is_equal(equal),
        _ => false,
    }
}

fn is_equal(expr: &Expr) -> bool {
    match operands(expr, 48) {
        Some((BinaryOperator::Equal, a, b)) => is_truth(a, 43) && is_truth(b, 51),
        _ => false,
    }
}

/// `-9223372036854775808 - -1`.
fn is_difference(expr: &Expr) -> bool {
    match operands(expr, 64) {
        Some((BinaryOperator::Subtract, a, b)) => is_long(a, 43, i64::MIN) && is_negated(b),
        _ => false,
    }
}

/// `-1`, behind `-9223372036854775808 - `.
fn is_negated(expr: &Expr) -> bool {
    match operand(expr, 66) {
        Some((UnaryOperator::Negate, one)) => is_long(one, 67, 1),
        _ => false,
    }
}

// ---- words

/// The names after `principal has`.
fn names_of(expr: &Expr) -> &[Text] {
    match expr {
        Expr::Has(place, a, names) if *place == at(53) && is_principal(a.get(), 43) => {
            names.as_slice()
        }
        _ => &[],
    }
}

/// The name `a` alone.
fn is_name(names: &[Text]) -> bool {
    match names {
        [name] => name.as_str() == "a",
        _ => false,
    }
}

/// The names `a`, `b` and `c`.
fn are_names(names: &[Text]) -> bool {
    match names {
        [a, b, c] => a.as_str() == "a" && b.as_str() == "b" && c.as_str() == "c",
        _ => false,
    }
}

/// `principal like "\**"`.
fn is_like(expr: &Expr) -> bool {
    match expr {
        Expr::Like(place, a, pattern) => {
            *place == at(53)
                && is_principal(a.get(), 43)
                && pattern.parts() == [Part::Char('*'), Part::Star].as_slice()
        }
        _ => false,
    }
}

/// `A::T`, at a place.
pub(crate) fn is_type(name: &TypeName, offset: u64) -> bool {
    name.place == at(offset) && name.name.as_str() == "A::T"
}

/// `principal is A::T in principal`.
fn is_in(expr: &Expr) -> bool {
    match expr {
        Expr::IsIn(place, a, name, within, b) => {
            *place == at(53)
                && *within == at(61)
                && is_principal(a.get(), 43)
                && is_type(name, 56)
                && is_principal(b.get(), 64)
        }
        _ => false,
    }
}

/// `principal.a` or `principal["a"]`, of which the dot or the bracket is the place.
fn is_access(expr: &Expr, attribute: &str) -> bool {
    match expr {
        Expr::Access(place, a, name) => {
            *place == at(52) && is_principal(a.get(), 43) && name.as_str() == attribute
        }
        _ => false,
    }
}

/// An expression that is told above.
#[derive(Clone, Copy)]
enum Tree {
    Truths,
    Unequal,
    Difference,
    Has,
    HasPath,
    Like,
    IsIn,
    Access,
    Index,
}

fn is_tree(expr: &Expr, tree: Tree) -> bool {
    match tree {
        Tree::Truths => is_truths(expr),
        Tree::Unequal => is_unequal(expr),
        Tree::Difference => is_difference(expr),
        Tree::Has => is_name(names_of(expr)),
        Tree::HasPath => are_names(names_of(expr)),
        Tree::Like => is_like(expr),
        Tree::IsIn => is_in(expr),
        Tree::Access => is_access(expr, "a"),
        Tree::Index => is_access(expr, "a b"),
    }
}

fn has_tree(policies: &PolicySet, tree: Tree) -> bool {
    match first_body(policies) {
        Some(expr) => is_tree(expr, tree),
        None => false,
    }
}

/// Whether the sample with this body is read as this expression.
fn is_read_as(alloc: Global, body: &str, tree: Tree) -> bool {
    match policies_with(alloc, body) {
        Some(policies) => has_tree(&policies, tree),
        None => false,
    }
}

/// Bodies, and what they are read as.
const TREES: &[(&str, Tree)] = &[
    ("true || true && true", Tree::Truths),
    ("true != true", Tree::Unequal),
    ("-9223372036854775808 - -1", Tree::Difference),
    ("principal has a", Tree::Has),
    ("principal has \"a\"", Tree::Has),
    ("principal has a.b.c", Tree::HasPath),
    ("principal like \"\\**\"", Tree::Like),
    ("principal is A::T in principal", Tree::IsIn),
    ("principal.a", Tree::Access),
    ("principal[\"a b\"]", Tree::Index),
];

#[test]
fn expressions_that_are_read(rt: HostRuntime) {
    for &(body, tree) in TREES {
        assert!(rt; is_read_as(rt.alloc(), body, tree), "{body}");
    }
}

// ---- the condition of a policy

/// `true && principal == U::"a"`, with the places of the policy.
fn is_scope(expr: &Expr) -> bool {
    match both(expr, 7) {
        Some((truth, asked)) => is_truth(truth, 0) && is_asked(asked),
        None => false,
    }
}

/// `principal == U::"a"`.
fn is_asked(expr: &Expr) -> bool {
    match operands(expr, 17) {
        Some((BinaryOperator::Equal, a, b)) => is_principal(a, 7) && is_entity(b, 20, "U", "a"),
        _ => false,
    }
}

/// `!context`, with the places of the policy.
fn is_clause(expr: &Expr) -> bool {
    match operand(expr, 46) {
        Some((UnaryOperator::Not, context)) => is_variable(context, 55, Variable::Context),
        _ => false,
    }
}

/// The condition of the policy.
fn is_condition(expr: &Expr) -> bool {
    match both(expr, 46) {
        Some((scope, clause)) => is_scope(scope) && is_clause(clause),
        None => false,
    }
}

fn has_condition(alloc: Global, policies: &PolicySet) -> bool {
    match policies.get(0) {
        Some(policy) => match condition(alloc, policy) {
            Ok(expr) => is_condition(&expr),
            Err(_) => false,
        },
        None => false,
    }
}

fn is_joined(alloc: Global, file: &str) -> bool {
    match policies(alloc, file) {
        Some(policies) => has_condition(alloc, &policies),
        None => false,
    }
}

#[test]
fn condition_of_a_scope_and_a_clause(rt: HostRuntime) {
    let file = "permit(principal == U::\"a\", action, resource) unless { context };";
    assert!(rt; is_joined(rt.alloc(), file));
}
