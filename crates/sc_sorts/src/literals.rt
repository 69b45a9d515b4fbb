//! What is told of a literal by itself.
ghost use Rattle.std.specs.Prelude.{◌≡◌};
ghost use Rattle.sc_sorts.specs.Literals as literals;

use crate::node::Literal;
use sc_bits::{bit, ip_bit};
use sc_names::Uid;
use sc_pattern::{Pattern, matches};

/// Whether two literals that aren't one have one value: only one entity may be written twice,
/// beside other choices.
pub fn same_entity(l: &Literal, m: &Literal) -> bool
    ensures { result ≡ literals.same_entity l.now m.now }
{
    match l {
        Literal::Entity(u, _) => is_entity(u, m),
        _ => false,
    }
}

fn is_entity(u: &Uid, m: &Literal) -> bool
    ensures { result ≡ literals.is_entity u.now m.now }
{
    match m {
        Literal::Entity(v, _) => u.cmp(v).is_eq(),
        _ => false,
    }
}

/// The bit at a place of a literal, and false where it has none.
pub fn literal_bit(literal: &Literal, place: u64) -> bool
    requires { literals.IsPlaceOf literal.now place }
    ensures { result ≡ literals.literal_bit literal.now place }
{
    match literal {
        Literal::Long(n) => bit(*n, place),
        Literal::Decimal(d) => bit(d.ten_thousandths(), place),
        Literal::Ip(ip) => ip_bit(ip, place),
        _ => false,
    }
}

/// Whether a literal is a text that matches.
pub fn literal_like(literal: &Literal, pattern: &Pattern) -> bool
    ensures { result ≡ literals.literal_like literal.now pattern.now }
{
    match literal {
        Literal::String(text) => matches(pattern, text.as_str()),
        _ => false,
    }
}
