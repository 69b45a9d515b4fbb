//! Expressions that are literals, and whether two literals have one value.
ghost use Rattle.std.specs.Prelude.{◌≡◌};
ghost use Rattle.std.specs.Option.{option_copied};
ghost use Rattle.sc_schema.specs.Declarations.{uid_eq};
ghost use Rattle.sc_typed.specs.Literals.{literal_of, uid_of, text_of, same_truth, same_literal};

use sc_ast::{Expr, Literal};
use sc_lists::Text;
use sc_names::Uid;

/// The literal that an expression is, if it is one.
pub fn literal_of(expr: &Expr) -> Option<&Literal>
    ensures { option_copied result ≡ literal_of expr.now }
{
    match expr {
        Expr::Literal(_, literal) => Some(literal),
        _ => None,
    }
}

/// The uid that an expression is, if it is one.
pub fn uid_of(expr: &Expr) -> Option<&Uid>
    ensures { option_copied result ≡ uid_of expr.now }
{
    match literal_of(expr) {
        Some(Literal::Entity(uid)) => Some(uid),
        _ => None,
    }
}

/// The text that an expression is, if it is a literal one.
pub fn text_of(expr: &Expr) -> Option<&Text>
    ensures { option_copied result ≡ text_of expr.now }
{
    match literal_of(expr) {
        Some(Literal::String(text)) => Some(text),
        _ => None,
    }
}

/// Whether two literals have one value; those of two kinds never have.
pub fn same_literal(a: &Literal, b: &Literal) -> bool
    ensures { result ≡ same_literal a.now b.now }
{
    match a {
        Literal::Bool(p) => is_bool(b, *p),
        Literal::Long(m) => is_long(b, *m),
        Literal::String(text) => is_text(b, text),
        Literal::Entity(uid) => is_entity(b, uid),
    }
}

fn is_bool(literal: &Literal, p: bool) -> bool
    ensures { result ≡ same_literal (Literal.Bool p) literal.now }
{
    match literal {
        Literal::Bool(q) => same_truth(p, *q),
        _ => false,
    }
}

fn same_truth(p: bool, q: bool) -> bool
    ensures { result ≡ same_truth p q }
{
    if p { q } else { !q }
}

fn is_long(literal: &Literal, m: i64) -> bool
    ensures { result ≡ same_literal (Literal.Long m) literal.now }
{
    match literal {
        Literal::Long(n) => m == *n,
        _ => false,
    }
}

fn is_text(literal: &Literal, text: &Text) -> bool
    ensures { result ≡ same_literal (Literal.String text.now) literal.now }
{
    match literal {
        Literal::String(other) => text.is_same(other),
        _ => false,
    }
}

fn is_entity(literal: &Literal, uid: &Uid) -> bool
    ensures { result ≡ same_literal (Literal.Entity uid.now) literal.now }
{
    match literal {
        Literal::Entity(other) => same_uid(uid, other),
        _ => false,
    }
}

/// Whether two uids are one.
pub fn same_uid(a: &Uid, b: &Uid) -> bool
    ensures { result ≡ uid_eq a.now b.now }
{
    a.type_name.as_str() == b.type_name.as_str() && a.id.is_same(&b.id)
}
