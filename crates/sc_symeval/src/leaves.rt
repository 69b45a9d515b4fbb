//! Literals, variables, and what a literal text spells.
ghost use Rattle.std.specs.Prelude.{◌≡◌, IfOk};
ghost use Rattle.std.specs.Option.{option_copied, option_and_then};
ghost use Rattle.sc_sorts.specs.declared.node.Literal.TheVariants as constants;
ghost use Rattle.sc_decimal.specs.DecimalValue.{decimal_of};
ghost use Rattle.sc_ip.specs.IpValue.{ip_of};
ghost use Rattle.sc_terms.specs.Folds.{literal_term};
ghost use Rattle.sc_terms.specs.Tables.{Keeps, StandsFor};
ghost use Rattle.sc_typed.specs.declared.typed_expr.TypedExpr.{out-TypedExpr};
ghost use Rattle.sc_constructs.specs.Code.{always, spelled_code};
ghost use Rattle.sc_symeval.specs.Codes.{spelled, text_at as text_in};
ghost use Rattle.sc_constructs.specs.Objects.{entity_term, written_term, variable_term};
ghost use Rattle.sc_constructs.specs.Numbers.{StandsAs};
ghost use Rattle.sc_symeval.specs.Settings.{IsReady};

use sc_ast::{Literal as Written, Variable};
use sc_constructs::logic::constant;
use sc_constructs::{Opt, Setting};
use sc_decimal::{Decimal, read_decimal};
use sc_ip::{Ip, read_ip};
use sc_lists::Text;
use sc_names::Uid;
use sc_sorts::{Literal, choices_of};
use sc_terms::Terms;
use sc_typed::TypedExpr;
use std::alloc::AllocError;

/// A literal, which always has a value.
pub(crate) fn literal(
    setting: &Setting<'_>,
    terms: &mut Terms,
    literal: &Written,
) -> Result<Opt, AllocError>
    ensures ok { IfOk result (λ o. StandsAs terms.new o (always (written_term setting.now.schema.now literal.now))) }
    ensures kept { Keeps terms.old terms.new }
{
    let ok = terms.truth(true)?;
    let val = written(setting, terms, literal)?;
    Ok(Opt { ok, val })
}

fn written(setting: &Setting<'_>, terms: &mut Terms, literal: &Written) -> Result<u64, AllocError>
    ensures ok { IfOk result (λ n. StandsFor terms.new n (written_term setting.now.schema.now literal.now)) }
    ensures kept { Keeps terms.old terms.new }
{
    match literal {
        Written::Bool(b) => terms.truth(*b),
        Written::Long(n) => terms.literal(Literal::Long(*n)),
        Written::String(text) => {
            let text = text.try_clone(setting.alloc)?;
            terms.literal(Literal::String(text))
        }
        Written::Entity(uid) => entity(setting, terms, uid),
    }
}

/// An entity that is written. Beside it stand those that its type lists.
fn entity(setting: &Setting<'_>, terms: &mut Terms, uid: &Uid) -> Result<u64, AllocError>
    ensures ok { IfOk result (λ n. StandsFor terms.new n (entity_term setting.now.schema.now uid.now)) }
    ensures kept { Keeps terms.old terms.new }
{
    let choices = choices_of(setting.alloc, setting.schema, &uid.type_name)?;
    let uid = uid.try_clone(setting.alloc)?;
    terms.literal(Literal::Entity(uid, choices))
}

/// A variable, which always has a value.
pub(crate) fn variable(
    setting: &Setting<'_>,
    terms: &mut Terms,
    variable: Variable,
) -> Result<Opt, AllocError>
    requires { IsReady terms.old setting.now }
    ensures ok { IfOk result (λ o. StandsAs terms.new o (always (variable_term setting.now.schema.now
        setting.now.env.now variable))) }
    ensures kept { Keeps terms.old terms.new }
{
    let ok = terms.truth(true)?;
    let val = variable_number(setting, terms, variable)?;
    Ok(Opt { ok, val })
}

fn variable_number(
    setting: &Setting<'_>,
    terms: &mut Terms,
    variable: Variable,
) -> Result<u64, AllocError>
    requires { IsReady terms.old setting.now }
    ensures ok { IfOk result (λ n. StandsFor terms.new n (variable_term setting.now.schema.now setting.now.env.now
        variable)) }
    ensures kept { Keeps terms.old terms.new }
{
    match variable {
        Variable::Principal => Ok(setting.variables.principal),
        Variable::Action => entity(setting, terms, &setting.env.action),
        Variable::Resource => Ok(setting.variables.resource),
        Variable::Context => Ok(setting.variables.context),
    }
}

/// `decimal(a)`: the decimal number that a literal text spells.
pub(crate) fn decimal(terms: &mut Terms, a: &TypedExpr) -> Result<Opt, AllocError>
    ensures ok { IfOk result (λ o. StandsAs terms.new o (spelled_code (spelled constants.Decimal decimal_of a.now))) }
    ensures kept { Keeps terms.old terms.new }
{
    match decimal_in(a) {
        Some(number) => told(terms, Literal::Decimal(number)),
        None => constant(terms, false),
    }
}

fn decimal_in(a: &TypedExpr) -> Option<Decimal>
    ensures { result ≡ option_and_then decimal_of (text_in (out-TypedExpr a.now)) }
{
    match text_at(a) {
        Some(text) => read_decimal(text.as_str()).ok(),
        None => None,
    }
}

/// `ip(a)`: the address that a literal text spells.
pub(crate) fn address(terms: &mut Terms, a: &TypedExpr) -> Result<Opt, AllocError>
    ensures ok { IfOk result (λ o. StandsAs terms.new o (spelled_code (spelled constants.Ip ip_of a.now))) }
    ensures kept { Keeps terms.old terms.new }
{
    match address_in(a) {
        Some(ip) => told(terms, Literal::Ip(ip)),
        None => constant(terms, false),
    }
}

fn address_in(a: &TypedExpr) -> Option<Ip>
    ensures { result ≡ option_and_then ip_of (text_in (out-TypedExpr a.now)) }
{
    match text_at(a) {
        Some(text) => read_ip(text.as_str()).ok(),
        None => None,
    }
}

/// The text that an expression is.
fn text_at(a: &TypedExpr) -> Option<&Text>
    ensures { option_copied result ≡ text_in (out-TypedExpr a.now) }
{
    match a {
        TypedExpr::Literal(_, _, Written::String(text)) => Some(text),
        _ => None,
    }
}

/// A constant, which always has a value.
fn told(terms: &mut Terms, literal: Literal) -> Result<Opt, AllocError>
    ensures ok { IfOk result (λ o. StandsAs terms.new o (always (literal_term literal))) }
    ensures kept { Keeps terms.old terms.new }
{
    let ok = terms.truth(true)?;
    let val = terms.literal(literal)?;
    Ok(Opt { ok, val })
}
