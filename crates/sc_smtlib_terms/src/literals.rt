//! Literals as a script writes them.
ghost use Rattle.std.specs.Prelude.{◌≡◌, ◌*◌, ◌^◌, decimal, IfOk};
ghost use Rattle.sc_smtlib_forms.specs.Forms as forms;
ghost use Rattle.sc_smtlib_terms.specs.Literals as literals;
ghost use Rattle.sc_smtlib_terms.specs.Sorts.{constructor_word};

use crate::numbers::{numeral, wide_numeral};
use sc_ip::Ip;
use sc_lists::Seq;
use sc_names::Uid;
use sc_smtlib_forms::{Form, plain, with_one, with_three, written_text};
use sc_sorts::Literal;
use std::alloc::{AllocError, Global};

pub(crate) fn truth_text(alloc: Global, truth: bool) -> Result<Vec<u8>, AllocError>
    ensures { IfOk result (λ v. v.items ≡ literals.truth_text truth) }
{
    if truth {
        plain(alloc, Form::True)
    } else {
        plain(alloc, Form::False)
    }
}

/// A number of 64 bits, as one without a sign.
pub(crate) fn long_text(alloc: Global, number: i64) -> Result<Vec<u8>, AllocError>
    ensures { IfOk result (λ v. v.items ≡ literals.long_text number) }
{
    with_one(
        alloc,
        Form::Number64,
        numeral(alloc, number.cast_unsigned())?.as_slice(),
    )
}

/// The highest bits set, so many.
fn mask(prefix: u8) -> u128
    ensures { result ≡ literals.mask prefix }
{
    if prefix == 0 {
        0
    } else if prefix >= 128 {
        u128::MAX
    } else {
        u128::MAX - ((1u128 << (128 - prefix)) - 1)
    }
}

/// The address of version 4 in the highest bits.
fn high(address: u32) -> u128
    ensures { result ≡ address * 2 ^ 96 }
{
    address as u128 * 79_228_162_514_264_337_593_543_950_336
}

fn wide(alloc: Global, number: u128) -> Result<Vec<u8>, AllocError>
    ensures { IfOk result (λ v. v.items ≡ literals.wide number) }
{
    with_one(
        alloc,
        Form::Number128,
        wide_numeral(alloc, number)?.as_slice(),
    )
}

fn address_text(
    alloc: Global,
    is_v6: bool,
    prefix: u8,
    address: u128,
) -> Result<Vec<u8>, AllocError>
    ensures { IfOk result (λ v. v.items ≡ literals.address_text is_v6 prefix address) }
{
    let version = truth_text(alloc, is_v6)?;
    let range = wide(alloc, mask(prefix))?;
    let bits = wide(alloc, address)?;
    with_three(
        alloc,
        Form::Address,
        version.as_slice(),
        range.as_slice(),
        bits.as_slice(),
    )
}

pub(crate) fn ip_text(alloc: Global, ip: Ip) -> Result<Vec<u8>, AllocError>
    ensures { IfOk result (λ v. v.items ≡ literals.ip_text ip) }
{
    match ip {
        Ip::V4 { address, prefix } => address_text(alloc, false, prefix, high(address)),
        Ip::V6 { address, prefix } => address_text(alloc, true, prefix, address),
    }
}

pub(crate) fn constructor_word(alloc: Global, choices: &[Uid]) -> Result<Vec<u8>, AllocError>
    ensures { IfOk result (λ v. v.items ≡ constructor_word choices.now) }
{
    match choices.split_first() {
        None => plain(alloc, Form::Open),
        Some(_) => plain(alloc, Form::Listed),
    }
}

pub(crate) fn uid_text(alloc: Global, uid: &Uid, choices: &Seq<Uid>) -> Result<Vec<u8>, AllocError>
    ensures { IfOk result (λ v. v.items ≡ literals.uid_text uid.now choices.now) }
{
    let word = constructor_word(alloc, choices.as_slice())?;
    let id = written_text(alloc, uid.id.as_str())?;
    with_three(
        alloc,
        Form::Uid,
        word.as_slice(),
        uid.type_name.as_str().as_bytes(),
        id.as_slice(),
    )
}

pub(crate) fn string_text(alloc: Global, text: &str) -> Result<Vec<u8>, AllocError>
    ensures { IfOk result (λ v. v.items ≡ literals.string_text text.now) }
{
    with_one(alloc, Form::Text, written_text(alloc, text)?.as_slice())
}

/// The body of a literal.
#[tactic(auto, unfolding(crate::specs::Literals::literal_body))]
pub fn literal_body(alloc: Global, literal: &Literal) -> Result<Vec<u8>, AllocError>
    ensures { IfOk result (λ v. v.items ≡ literals.literal_body literal.now) }
{
    match literal {
        Literal::Bool(truth) => truth_text(alloc, *truth),
        Literal::Long(number) => long_text(alloc, *number),
        Literal::String(text) => string_text(alloc, text.as_str()),
        Literal::Decimal(decimal) => long_text(alloc, decimal.ten_thousandths()),
        Literal::Ip(ip) => ip_text(alloc, *ip),
        Literal::Entity(uid, choices) => uid_text(alloc, uid, choices),
    }
}
