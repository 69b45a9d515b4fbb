//! The primitive and extension types by their words.
ghost use Rattle.std.specs.Prelude.{◌≡◌};
ghost use Rattle.sc_schema_names.specs.Resolution.{is_either, builtin};

use sc_schema::ResolvedType;

/// The primitive or extension type that a word means where nothing is declared by it.
pub(crate) fn builtin(text: &str) -> Option<ResolvedType>
    ensures { result ≡ builtin text.now }
{
    if is_either(text, "Bool", "__cedar::Bool") {
        Some(ResolvedType::Boolean)
    } else if is_either(text, "Boolean", "__cedar::Boolean") {
        Some(ResolvedType::Boolean)
    } else if is_either(text, "Long", "__cedar::Long") {
        Some(ResolvedType::Long)
    } else if is_either(text, "String", "__cedar::String") {
        Some(ResolvedType::String)
    } else if is_either(text, "ipaddr", "__cedar::ipaddr") {
        Some(ResolvedType::Ip)
    } else if is_either(text, "decimal", "__cedar::decimal") {
        Some(ResolvedType::Decimal)
    } else {
        None
    }
}

/// Whether a text is a word, or the same word after `__cedar::`.
fn is_either(text: &str, word: &str, qualified: &str) -> bool
    ensures { result ≡ is_either text.now word.now qualified.now }
{
    text == word || text == qualified
}
