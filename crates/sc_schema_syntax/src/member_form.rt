//! What has to stand at each member of an object.
ghost use Rattle.std.specs.Prelude.{◌≡◌, [], ◌∷◌, ◌++◌, Some, if◌then◌else◌, None, codes};
ghost use Rattle.std.specs.Str.{bytes_eq};
ghost use Rattle.sc_schema_syntax.specs.Forms.{member_form, among, namespace_members, entity_type_members, enumerated_members, action_members, parent_members, applies_to_members, word_members, position_members, unread_type_member, type_member};

use crate::form::Form;
use crate::level::Level;
use crate::position::Position;
use crate::type_word::TypeWord;
use sc_lists::equals;

/// What has to stand at a member, if it is looked at.
pub(crate) fn member_form(level: Level, name: &str) -> Option<Form>
    ensures { result ≡ member_form level name.now }
{
    match level {
        Level::Schema => Some(Form::Object(Level::Namespace)),
        Level::Namespace => fixed(name, namespace_member(name)),
        Level::EntityTypes => Some(Form::EntityType),
        Level::EntityType => fixed(name, entity_type_member(name)),
        Level::Enumerated => fixed(name, enumerated_member(name)),
        Level::Actions => Some(Form::Object(Level::Action)),
        Level::Action => fixed(name, action_member(name)),
        Level::Parent => fixed(name, parent_member(name)),
        Level::AppliesTo => fixed(name, applies_to_member(name)),
        Level::NoAttributes => Some(Form::Nothing),
        Level::CommonTypes => Some(Form::Type(Position::Elsewhere)),
        Level::Attributes => Some(Form::Type(Position::Attribute)),
        Level::Type(position, word) => type_member(position, word, name),
    }
}

/// A form of a member with this name, which isn't looked at if it holds annotations.
fn fixed(name: &str, form: Form) -> Option<Form>
    ensures { result ≡ (if bytes_eq name.now (codes "annotations") then None else Some form) }
{
    if equals(name, "annotations") {
        None
    } else {
        Some(form)
    }
}

fn namespace_member(name: &str) -> Form
    ensures { result ≡ among namespace_members name.now }
{
    if equals(name, "actions") {
        Form::Object(Level::Actions)
    } else if equals(name, "commonTypes") {
        Form::Object(Level::CommonTypes)
    } else if equals(name, "entityTypes") {
        Form::Object(Level::EntityTypes)
    } else {
        Form::Nothing
    }
}

fn entity_type_member(name: &str) -> Form
    ensures { result ≡ among entity_type_members name.now }
{
    if equals(name, "memberOfTypes") {
        Form::Texts
    } else if equals(name, "shape") || equals(name, "tags") {
        Form::Type(Position::Elsewhere)
    } else {
        Form::Nothing
    }
}

fn enumerated_member(name: &str) -> Form
    ensures { result ≡ among enumerated_members name.now }
{
    if equals(name, "enum") {
        Form::Choices
    } else {
        Form::Nothing
    }
}

fn action_member(name: &str) -> Form
    ensures { result ≡ among action_members name.now }
{
    if equals(name, "appliesTo") {
        Form::Object(Level::AppliesTo)
    } else if equals(name, "attributes") {
        Form::Object(Level::NoAttributes)
    } else if equals(name, "memberOf") {
        Form::Parents
    } else {
        Form::Nothing
    }
}

fn parent_member(name: &str) -> Form
    ensures { result ≡ among parent_members name.now }
{
    if equals(name, "id") || equals(name, "type") {
        Form::Text
    } else {
        Form::Nothing
    }
}

fn applies_to_member(name: &str) -> Form
    ensures { result ≡ among applies_to_members name.now }
{
    if equals(name, "context") {
        Form::Type(Position::Elsewhere)
    } else if equals(name, "principalTypes") || equals(name, "resourceTypes") {
        Form::Texts
    } else {
        Form::Nothing
    }
}

/// What has to stand at a member of a type. Where the type's word is no text, no other member is
/// looked at.
fn type_member(position: Position, word: Option<TypeWord>, name: &str) -> Option<Form>
    ensures { result ≡ type_member position word name.now }
{
    match word {
        Some(word) => fixed(name, known_type_member(position, word, name)),
        None => unread_type_member(name),
    }
}

fn unread_type_member(name: &str) -> Option<Form>
    ensures { result ≡ unread_type_member name.now }
{
    if equals(name, "type") {
        Some(Form::Text)
    } else {
        None
    }
}

fn known_type_member(position: Position, word: TypeWord, name: &str) -> Form
    ensures { result ≡ among ((codes "type", Form.Text) ∷ (position_members position ++ word_members word)) name.now }
{
    if equals(name, "type") {
        return Form::Text;
    }
    match position {
        Position::Attribute => attribute_member(word, name),
        Position::Elsewhere => word_member(word, name),
    }
}

fn attribute_member(word: TypeWord, name: &str) -> Form
    ensures { result ≡ among (position_members Position.Attribute ++ word_members word) name.now }
{
    if equals(name, "required") {
        Form::Truth
    } else {
        word_member(word, name)
    }
}

fn word_member(word: TypeWord, name: &str) -> Form
    ensures { result ≡ among (word_members word) name.now }
{
    match word {
        TypeWord::Set => set_member(name),
        TypeWord::Record => record_member(name),
        TypeWord::Entity => named_member(name, Form::Text),
        TypeWord::Extension => named_member(name, Form::ExtensionName),
        TypeWord::EntityOrCommon => named_member(name, Form::Text),
        _ => Form::Nothing,
    }
}

fn set_member(name: &str) -> Form
    ensures { result ≡ among (word_members TypeWord.Set) name.now }
{
    if equals(name, "element") {
        Form::Type(Position::Elsewhere)
    } else {
        Form::Nothing
    }
}

fn record_member(name: &str) -> Form
    ensures { result ≡ among (word_members TypeWord.Record) name.now }
{
    if equals(name, "attributes") {
        Form::Object(Level::Attributes)
    } else if equals(name, "additionalAttributes") {
        Form::False
    } else {
        Form::Nothing
    }
}

/// The member `name` of a type, where this form has to stand.
fn named_member(name: &str, form: Form) -> Form
    ensures { result ≡ among ((codes "name", form) ∷ []) name.now }
{
    if equals(name, "name") {
        form
    } else {
        Form::Nothing
    }
}
