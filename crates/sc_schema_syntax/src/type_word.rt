//! The words that stand at the member `type` of a type.
ghost use Rattle.std.specs.Prelude.{◌≡◌};
ghost use Rattle.sc_schema_syntax.specs.TypeWords.{type_word};

use sc_lists::equals;

/// What a word at the member `type` of a type means.
#[derive(Clone, Copy)]
pub(crate) enum TypeWord {
    /// `Boolean`.
    Boolean,
    /// `Long`.
    Long,
    /// `String`.
    String,
    /// `Set`.
    Set,
    /// `Record`.
    Record,
    /// `Entity`.
    Entity,
    /// `Extension`.
    Extension,
    /// `EntityOrCommon`.
    EntityOrCommon,
    /// Any other word, which names a common type.
    Common,
}

/// What a word means.
pub(crate) fn type_word(word: &str) -> TypeWord
    ensures { result ≡ type_word word.now }
{
    if equals(word, "Boolean") {
        TypeWord::Boolean
    } else if equals(word, "Long") {
        TypeWord::Long
    } else if equals(word, "String") {
        TypeWord::String
    } else if equals(word, "Set") {
        TypeWord::Set
    } else if equals(word, "Record") {
        TypeWord::Record
    } else if equals(word, "Entity") {
        TypeWord::Entity
    } else if equals(word, "Extension") {
        TypeWord::Extension
    } else if equals(word, "EntityOrCommon") {
        TypeWord::EntityOrCommon
    } else {
        TypeWord::Common
    }
}
