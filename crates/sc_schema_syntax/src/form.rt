//! What may stand at each place of a schema file.
ghost use Rattle.std.specs.Prelude.{◌≡◌, ◌≤◌, length, map};
ghost use Rattle.std.specs.List.{list_any};
ghost use Rattle.serde_json.specs.View.{view, items_view};
ghost use Rattle.sc_schema_syntax.specs.Forms.{admits_truth, admits_text, item_form, is_text, is_repeated, form_behind, form_at};

use crate::level::Level;
use crate::position::Position;
use sc_lists::equals;
use serde_json::Value;

/// What has to stand at a place of a schema file.
#[derive(Clone, Copy)]
pub(crate) enum Form {
    /// Nothing: there may be no such member.
    Nothing,
    /// A text.
    Text,
    /// The name of an extension type.
    ExtensionName,
    /// A truth value.
    Truth,
    /// The truth value `false`.
    False,
    /// A list of texts.
    Texts,
    /// A list of the actions that an action is in.
    Parents,
    /// A list of the choices of an enumerated entity type.
    Choices,
    /// A choice of an enumerated entity type: a text that no choice before it is.
    Choice,
    /// An entity type, whose members go by whether it is enumerated.
    EntityType,
    /// A type, whose members go by its word.
    Type(Position),
    /// An object with members of this level.
    Object(Level),
}

/// Whether a truth value may stand there.
pub(crate) fn admits_truth(form: Form, truth: bool) -> bool
    ensures { result ≡ admits_truth form truth }
{
    match form {
        Form::Truth => true,
        Form::False => !truth,
        _ => false,
    }
}

/// Whether a text may stand there.
pub(crate) fn admits_text(form: Form, text: &str) -> bool
    ensures { result ≡ admits_text form text.now }
{
    match form {
        Form::Text | Form::Choice => true,
        Form::ExtensionName => equals(text, "ipaddr") || equals(text, "decimal"),
        _ => false,
    }
}

/// How many choices an enumerated entity type may have at most.
const MOST_CHOICES: usize = 1000;

/// What each item of a list has to be, if a list of so many items may stand there.
pub(crate) fn item_form(form: Form, count: usize) -> Option<Form>
    ensures { result ≡ item_form form count }
{
    match form {
        Form::Texts => Some(Form::Text),
        Form::Parents => Some(Form::Object(Level::Parent)),
        Form::Choices => choice_form(count),
        _ => None,
    }
}

/// What each choice has to be, if there may be so many.
fn choice_form(count: usize) -> Option<Form>
    ensures { result ≡ item_form Form.Choices count }
{
    if count == 0 || count > MOST_CHOICES {
        None
    } else {
        Some(Form::Choice)
    }
}

/// What the item of a list with this number has to be.
#[tactic(auto, using(crate::proofs::FormsLaws::form_here))]
pub(crate) fn form_at(each: Form, items: &Vec<Value>, number: usize, item: &Value) -> Form
    requires { number ≤ length items.now.items }
    ensures { result ≡ form_at each (items_view items.now.items) number (view item.now) }
{
    form_behind(each, &items[..number], item)
}

/// What an item that stands behind these has to be: no choice is wanted twice.
fn form_behind(each: Form, before: &[Value], item: &Value) -> Form
    ensures { result ≡ form_behind each (map view before.now) (view item.now) }
{
    match each {
        Form::Choice => choice_behind(before, item),
        _ => each,
    }
}

/// What a choice that stands behind these has to be.
fn choice_behind(before: &[Value], item: &Value) -> Form
    ensures { result ≡ form_behind Form.Choice (map view before.now) (view item.now) }
{
    if is_repeated(before, item) {
        Form::Nothing
    } else {
        Form::Choice
    }
}

/// Whether a value is a text that one of the values before it is.
fn is_repeated(before: &[Value], item: &Value) -> bool
    ensures { result ≡ is_repeated (map view before.now) (view item.now) }
{
    match item.as_str() {
        Some(text) => has_text(before, text),
        None => false,
    }
}

/// Whether one of these values is the text.
#[tactic(auto, using(crate::proofs::FormsLaws::text_among))]
fn has_text(values: &[Value], text: &str) -> bool
    ensures { result ≡ list_any (is_text text.now) (map view values.now) }
{
    is_among(values, text)
}

fn is_among(values: &[Value], text: &str) -> bool
    ensures { result ≡ list_any (λ (value : Value). is_text text.now (view value)) values.now }
{
    values.iter().any(|value| is_text(text, value))
}

/// Whether a value is this text.
fn is_text(text: &str, value: &Value) -> bool
    ensures { result ≡ is_text text.now (view value.now) }
{
    match value.as_str() {
        Some(other) => equals(other, text),
        None => false,
    }
}
