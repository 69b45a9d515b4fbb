//! The bodies of operators, over the names of their parts.
ghost use Rattle.std.specs.Prelude.{◌≡◌, IfOk};
ghost use Rattle.sc_sorts.specs.Inside.{held_sort as held_in};
ghost use Rattle.sc_smtlib_terms.specs.Bodies as bodies;
ghost use Rattle.sc_smtlib_terms.specs.Calls as calls;

use crate::defaults::default_text;
use crate::patterns::pattern_text;
use crate::sorts::{number, option_name, record_name, sort_text};
use sc_lists::Text;
use sc_pattern::Pattern;
use sc_smtlib_forms::{Form, with_one, with_three, with_two, written_label};
use sc_sorts::{BinaryOp, Sort, UnaryOp, held_sort};
use std::alloc::{AllocError, Global};

/// The name of a function of the entities of a sort, which its form tells.
pub fn function_name(
    alloc: Global,
    datatypes: &[Sort],
    form: Form,
    sort: &Sort,
) -> Result<Vec<u8>, AllocError>
    ensures { IfOk result (λ v. v.items ≡ calls.function_name datatypes.now form sort.now) }
{
    with_one(alloc, form, number(alloc, datatypes, sort)?.as_slice())
}

/// The name of the function that gives the ancestors of one sort of entities in another.
pub fn ancestors_name(
    alloc: Global,
    datatypes: &[Sort],
    of: &Sort,
    among: &Sort,
) -> Result<Vec<u8>, AllocError>
    ensures { IfOk result (λ v. v.items ≡ calls.ancestors_name datatypes.now of.now among.now) }
{
    let owner = number(alloc, datatypes, of)?;
    let other = number(alloc, datatypes, among)?;
    with_two(
        alloc,
        Form::AncestorsName,
        owner.as_slice(),
        other.as_slice(),
    )
}

fn call(
    alloc: Global,
    datatypes: &[Sort],
    form: Form,
    sort: &Sort,
    a: &[u8],
) -> Result<Vec<u8>, AllocError>
    ensures { IfOk result (λ v. v.items ≡ calls.call datatypes.now form sort.now a.now) }
{
    let name = function_name(alloc, datatypes, form, sort)?;
    with_two(alloc, Form::Call, name.as_slice(), a)
}

/// The ancestors of one sort of entities in another.
pub fn ancestors_call(
    alloc: Global,
    datatypes: &[Sort],
    of: &Sort,
    among: &Sort,
    a: &[u8],
) -> Result<Vec<u8>, AllocError>
    ensures { IfOk result (λ v. v.items ≡ calls.ancestors_call datatypes.now of.now among.now a.now) }
{
    let name = ancestors_name(alloc, datatypes, of, among)?;
    with_two(alloc, Form::Call, name.as_slice(), a)
}

fn field_call(
    alloc: Global,
    datatypes: &[Sort],
    name: &Text,
    sort: &Sort,
    a: &[u8],
) -> Result<Vec<u8>, AllocError>
    ensures { IfOk result (λ v. v.items ≡ calls.field_call datatypes.now name.now sort.now a.now) }
{
    let record = record_name(alloc, datatypes, sort)?;
    let label = written_label(alloc, name.as_str())?;
    with_three(alloc, Form::Field, record.as_slice(), label.as_slice(), a)
}

fn present_call(
    alloc: Global,
    datatypes: &[Sort],
    sort: &Sort,
    a: &[u8],
) -> Result<Vec<u8>, AllocError>
    ensures { IfOk result (λ v. v.items ≡ calls.present_call datatypes.now sort.now a.now) }
{
    let option = option_name(alloc, datatypes, sort)?;
    with_two(alloc, Form::IsPresent, option.as_slice(), a)
}

fn held_call(
    alloc: Global,
    datatypes: &[Sort],
    sort: &Sort,
    a: &[u8],
) -> Result<Vec<u8>, AllocError>
    ensures { IfOk result (λ v. v.items ≡ calls.held_call datatypes.now sort.now a.now) }
{
    let option = option_name(alloc, datatypes, sort)?;
    let held = held_sort(alloc, sort)?;
    let default = default_text(alloc, datatypes, &held)?;
    with_three(alloc, Form::Held, option.as_slice(), a, default.as_slice())
}

fn like_call(alloc: Global, pattern: &Pattern, a: &[u8]) -> Result<Vec<u8>, AllocError>
    ensures { IfOk result (λ v. v.items ≡ calls.like_call pattern.now a.now) }
{
    let language = pattern_text(alloc, pattern)?;
    with_two(alloc, Form::Like, a, language.as_slice())
}

/// The body of an operator on a term of this sort, by the term's name. Carries and rows of products
/// have none.
#[tactic(auto, unfolding(crate::specs::Bodies::unary_body))]
pub fn unary_body(
    alloc: Global,
    datatypes: &[Sort],
    op: &UnaryOp,
    sort: &Sort,
    a: &[u8],
) -> Result<Vec<u8>, AllocError>
    ensures { IfOk result (λ v. v.items ≡ bodies.unary_body datatypes.now op.now sort.now a.now) }
{
    match op {
        UnaryOp::Not => with_one(alloc, Form::Not, a),
        UnaryOp::Bit(_) => with_one(alloc, Form::IsVersion6, a),
        UnaryOp::CarryIn(_) => Ok(Vec::new(alloc)),
        UnaryOp::ProductRow(_, _) => Ok(Vec::new(alloc)),
        UnaryOp::ProductCarry(_, _) => Ok(Vec::new(alloc)),
        UnaryOp::Attributes(_) => call(alloc, datatypes, Form::AttributesName, sort, a),
        UnaryOp::Ancestors(among) => ancestors_call(alloc, datatypes, sort, among, a),
        UnaryOp::Keys => call(alloc, datatypes, Form::KeysName, sort, a),
        UnaryOp::Field(name) => field_call(alloc, datatypes, name, sort, a),
        UnaryOp::Present => present_call(alloc, datatypes, sort, a),
        UnaryOp::Held => held_call(alloc, datatypes, sort, a),
        UnaryOp::Like(pattern) => like_call(alloc, pattern, a),
    }
}

fn tag_call(
    alloc: Global,
    datatypes: &[Sort],
    sort: &Sort,
    a: &[u8],
    b: &[u8],
) -> Result<Vec<u8>, AllocError>
    ensures { IfOk result (λ v. v.items ≡ calls.tag_call datatypes.now sort.now a.now b.now) }
{
    let name = function_name(alloc, datatypes, Form::TagName, sort)?;
    with_three(alloc, Form::TagCall, name.as_slice(), a, b)
}

fn common_call(
    alloc: Global,
    datatypes: &[Sort],
    sort: &Sort,
    a: &[u8],
    b: &[u8],
) -> Result<Vec<u8>, AllocError>
    ensures { IfOk result (λ v. v.items ≡ calls.common_call datatypes.now sort.now a.now b.now) }
{
    let set = sort_text(alloc, datatypes, sort)?;
    with_three(alloc, Form::Common, a, b, set.as_slice())
}

/// The body of an operator on two terms, the first of this sort, by their names. Members that are
/// picked and comparisons of low bits have none.
#[tactic(auto, unfolding(crate::specs::Bodies::binary_body))]
pub fn binary_body(
    alloc: Global,
    datatypes: &[Sort],
    op: &BinaryOp,
    sort: &Sort,
    a: &[u8],
    b: &[u8],
) -> Result<Vec<u8>, AllocError>
    ensures { IfOk result (λ v. v.items ≡ bodies.binary_body datatypes.now op.now sort.now a.now b.now) }
{
    match op {
        BinaryOp::And => with_two(alloc, Form::And, a, b),
        BinaryOp::Or => with_two(alloc, Form::Or, a, b),
        BinaryOp::Equal => with_two(alloc, Form::Equal, a, b),
        BinaryOp::Add => with_two(alloc, Form::Add, a, b),
        BinaryOp::Subtract => with_two(alloc, Form::Subtract, a, b),
        BinaryOp::Multiply => with_two(alloc, Form::Multiply, a, b),
        BinaryOp::AddOverflows => with_two(alloc, Form::AddOverflows, a, b),
        BinaryOp::SubtractOverflows => with_two(alloc, Form::SubtractOverflows, a, b),
        BinaryOp::MultiplyOverflows => with_two(alloc, Form::MultiplyOverflows, a, b),
        BinaryOp::Less => with_two(alloc, Form::Less, a, b),
        BinaryOp::InRange => with_two(alloc, Form::InRange, a, b),
        BinaryOp::Low(_) => Ok(Vec::new(alloc)),
        BinaryOp::Tag(_) => tag_call(alloc, datatypes, sort, a, b),
        BinaryOp::Member => with_two(alloc, Form::Member, a, b),
        BinaryOp::Subset => with_two(alloc, Form::Subset, a, b),
        BinaryOp::Common => common_call(alloc, datatypes, sort, a, b),
        BinaryOp::DifferencePick => Ok(Vec::new(alloc)),
        BinaryOp::CommonPick => Ok(Vec::new(alloc)),
    }
}
