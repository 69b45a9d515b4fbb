//! What may stand at each place of a world.
ghost use Rattle.std.specs.Prelude.{◌≡◌};
ghost use Rattle.serde_json.specs.View.{number_view};
ghost use Rattle.sc_world_json.specs.Forms.{admits_truth, admits_number, admits_text, item_form};

use crate::function::{Function, function_named, value_by};
use crate::level::Level;
use serde_json::Number;

/// What has to stand at a place of a world.
#[derive(Clone, Copy)]
pub(crate) enum Form {
    /// A text.
    Text,
    /// A function's name.
    FunctionName,
    /// A text for which the function gives a value; any text, if the function isn't known.
    Argument(Option<Function>),
    /// A function's name, and a text for which it gives a value.
    Call,
    /// A value.
    Value,
    /// A record of values.
    Record,
    /// A list of uids.
    Uids,
    /// An object with members of this level.
    Object(Level),
}

/// Whether truth values may stand there.
pub(crate) fn admits_truth(form: Form) -> bool
    ensures { result ≡ admits_truth form }
{
    matches!(form, Form::Value)
}

/// Whether a number may stand there: a whole number of 64 bits, where a value has to.
pub(crate) fn admits_number(form: Form, number: &Number) -> bool
    ensures { result ≡ admits_number form (number_view number.now) }
{
    match form {
        Form::Value => number.as_i64().is_some(),
        _ => false,
    }
}

/// Whether a text may stand there.
pub(crate) fn admits_text(form: Form, text: &str) -> bool
    ensures { result ≡ admits_text form text.now }
{
    match form {
        Form::Text | Form::Value | Form::Argument(None) => true,
        Form::FunctionName => function_named(text).is_some(),
        Form::Argument(Some(function)) => value_by(function, text).is_some(),
        _ => false,
    }
}

/// What each item of a list has to be, if a list may stand there.
pub(crate) fn item_form(form: Form) -> Option<Form>
    ensures { result ≡ item_form form }
{
    match form {
        Form::Value => Some(Form::Value),
        Form::Uids => Some(Form::Object(Level::Uid)),
        _ => None,
    }
}
