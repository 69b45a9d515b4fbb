//! The functions that give values for texts.
ghost use Rattle.std.specs.Prelude.{◌≡◌, option_map, IfSome};
ghost use Rattle.sc_decimal.specs.DecimalValue.{decimal_of};
ghost use Rattle.sc_ip.specs.IpValue.{ip_of};
ghost use Rattle.sc_values.specs.Proper.{IsProper};
ghost use Rattle.sc_world_json.specs.Marks.{function_named, value_by};

use sc_decimal::read_decimal;
use sc_ip::read_ip;
use sc_lists::equals;
use sc_values::Value;

/// A function that gives a value for a text.
#[derive(Clone, Copy)]
pub(crate) enum Function {
    /// `decimal`: a decimal number.
    Decimal,
    /// `ip`: an address.
    Ip,
}

/// The function of this name.
pub(crate) fn function_named(name: &str) -> Option<Function>
    ensures { result ≡ function_named name.now }
{
    if equals(name, "decimal") {
        Some(Function::Decimal)
    } else if equals(name, "ip") {
        Some(Function::Ip)
    } else {
        None
    }
}

/// The value that a function gives for a text, if there is one.
pub(crate) fn value_by(function: Function, text: &str) -> Option<Value>
    ensures value { result ≡ value_by function text.now }
    ensures proper { IfSome result (λ x. IsProper x) }
{
    match function {
        Function::Decimal => decimal_of(text),
        Function::Ip => ip_of(text),
    }
}

/// The decimal number that a text stands for.
fn decimal_of(text: &str) -> Option<Value>
    ensures value { result ≡ option_map Value.Decimal (decimal_of text.now) }
    ensures proper { IfSome result (λ x. IsProper x) }
{
    match read_decimal(text) {
        Ok(number) => Some(Value::Decimal(number)),
        Err(_) => None,
    }
}

/// The address that a text stands for.
fn ip_of(text: &str) -> Option<Value>
    ensures value { result ≡ option_map Value.Ip (ip_of text.now) }
    ensures proper { IfSome result (λ x. IsProper x) }
{
    match read_ip(text) {
        Ok(address) => Some(Value::Ip(address)),
        Err(_) => None,
    }
}
