//! Which goals have a script in which each term has a body.
ghost use Rattle.std.specs.Prelude.{◌≡◌, ◌<◌, ◌≤◌, length, IfOk, MatchBool};
ghost use Rattle.sc_terms.specs.Tables.{tree};
ghost use Rattle.sc_smtlib_terms.specs.Forms as forms;
ghost use Rattle.sc_smtlib.specs.Spoken as spoken;
ghost use Rattle.sc_smtlib.specs.Marks.{AreMarked};

use crate::marks::{is_marked, subterm_marks};
use sc_sorts::{BinaryOp, Node, Sort, UnaryOp};
use sc_terms::Terms;
use std::alloc::{AllocError, Global};

#[tactic(auto, using(crate::proofs::FormLaws::ip_Bool, crate::proofs::FormLaws::ip_Long, crate::proofs::FormLaws::ip_String, crate::proofs::FormLaws::ip_Decimal, crate::proofs::FormLaws::ip_Ip, crate::proofs::FormLaws::ip_Entity, crate::proofs::FormLaws::ip_Set, crate::proofs::FormLaws::ip_Record, crate::proofs::FormLaws::ip_Option))]
fn is_ip(sort: &Sort) -> bool
    ensures { result ≡ forms.is_ip sort.now }
{
    match sort {
        Sort::Bool => false,
        Sort::Long => false,
        Sort::String => false,
        Sort::Decimal => false,
        Sort::Ip => true,
        Sort::Entity(_, _) => false,
        Sort::Set(_) => false,
        Sort::Record(_) => false,
        Sort::Option(_) => false,
    }
}

fn is_version(place: u64, sort: &Sort) -> bool
    ensures { result ≡ forms.is_version place sort.now }
{
    let first = place == 0;
    let address = is_ip(sort);
    first && address
}

fn has_unary_form(op: &UnaryOp, sort: &Sort) -> bool
    ensures { result ≡ forms.has_unary_form op.now sort.now }
{
    match op {
        UnaryOp::Bit(place) => is_version(*place, sort),
        UnaryOp::CarryIn(_) => false,
        UnaryOp::ProductRow(_, _) => false,
        UnaryOp::ProductCarry(_, _) => false,
        _ => true,
    }
}

fn has_binary_form(op: &BinaryOp) -> bool
    ensures { result ≡ forms.has_binary_form op.now }
{
    match op {
        BinaryOp::Low(_) => false,
        BinaryOp::DifferencePick => false,
        BinaryOp::CommonPick => false,
        _ => true,
    }
}

/// Whether a term has a body in a script.
fn has_form(terms: &Terms, n: u64) -> bool
    requires { n < length terms.now }
    ensures { result ≡ forms.has_form (tree terms.now n) }
{
    match terms.node(n) {
        Node::Leaf(_) => true,
        Node::One(op, a) => has_unary_form(op, terms.sort(*a)),
        Node::Two(op, _, _) => has_binary_form(op),
        Node::Choice(_, _, _) => true,
        Node::Many(_, _) => true,
    }
}

/// Whether a term has a body in a script, where it is marked.
fn is_spoken(terms: &Terms, marks: &[bool], n: u64) -> bool
    requires { n < length terms.now }
    ensures { result ≡ spoken.is_spoken terms.now marks.now n }
{
    if is_marked(marks, n) {
        has_form(terms, n)
    } else {
        true
    }
}

/// Whether each subterm of a goal has a body in a script. Its one fault is want of memory.
pub fn in_script(alloc: Global, terms: &Terms, goal: u64) -> Result<bool, AllocError>
    requires { goal < length terms.now }
    ensures { IfOk result (λ b. MatchBool b (forms.IsInScript (tree terms.now goal)) (¬ (forms.IsInScript
        (tree terms.now goal)))) }
{
    // A table has fewer than 2^64 terms, which `len` tells.
    let _count = terms.len();
    let marks = subterm_marks(alloc, terms, goal)?;
    for n in 0..goal + 1 {
        if !is_spoken(terms, marks.as_slice(), n) {
            return Ok(false);
        }
    }
    Ok(true)
}
