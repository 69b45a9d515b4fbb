//! Reads what comes before a policy's scope.
ghost use Rattle.std.specs.Prelude.{◌≤◌, ◌<◌, length, IfOk, IfErr, OnOk};
ghost use Rattle.sc_lexer.specs.declared.token.Kind.TheVariants.{At};
ghost use Rattle.sc_lexemes.specs.declared.lexeme.Shape.TheVariants.{Sign as OfSign};
ghost use Rattle.sc_lexemes.specs.Lexemes.{Is};
ghost use Rattle.sc_lexemes.specs.Outcomes.{read, Halts};
ghost use Rattle.sc_parser.specs.ReadsFiles.{SkipsAnnotation, HaltsAnnotation, ReadsHead};

use sc_ast::{Effect, Place};
use sc_lexemes::{Cursor, Lexeme, Stop, any_word_at, effect_at, sign_at, string_at};
use sc_lexer::Kind;

/// Skips an annotation: `@`, a word, and perhaps a string in parentheses.
#[tactic(auto, using(crate::specs::ReadsFiles::bare_annotation, crate::specs::ReadsFiles::annotation, crate::specs::ReadsFiles::no_annotation_word, crate::specs::ReadsFiles::no_annotation_string, crate::specs::ReadsFiles::annotation_unclosed))]
fn annotation(ts: &[Lexeme], place: Place, cursor: &mut Cursor) -> Result<(), Stop>
    requires here { Is ts.now cursor.old.at place (OfSign At) }
    requires within { cursor.old.at < length ts.now }
    ensures forward { cursor.old.at < cursor.new.at }
    ensures within { cursor.new.at ≤ length ts.now }
    ensures ok { OnOk result (SkipsAnnotation ts.now cursor.old cursor.new) }
    ensures err { IfErr result (λ f. HaltsAnnotation ts.now cursor.old f cursor.new.at) }
{
    *cursor = cursor.next();
    let Some(_) = any_word_at(ts, cursor.at) else {
        return Err(Stop::Unexpected);
    };
    *cursor = cursor.next();
    let Some(_) = sign_at(ts, cursor.at, Kind::OpenParenthesis) else {
        return Ok(());
    };
    *cursor = cursor.next();
    let Some(_) = string_at(ts, cursor.at) else {
        return Err(Stop::Unexpected);
    };
    *cursor = cursor.next();
    let Some(_) = sign_at(ts, cursor.at, Kind::CloseParenthesis) else {
        return Err(Stop::Unexpected);
    };
    *cursor = cursor.next();
    Ok(())
}

/// Reads annotations, and the word of the effect.
#[tactic(auto, using(crate::specs::ReadsFiles::effect, crate::specs::ReadsFiles::no_effect, crate::specs::ReadsFiles::annotation_halts, crate::specs::ReadsFiles::annotated))]
pub(crate) fn head(ts: &[Lexeme], cursor: &mut Cursor) -> Result<(Place, Effect), Stop>
    requires { cursor.old.at ≤ length ts.now }
    ensures forward { cursor.old.at ≤ cursor.new.at }
    ensures within { cursor.new.at ≤ length ts.now }
    ensures ok { IfOk result (λ x. ReadsHead ts.now cursor.old (read x cursor.new)) }
    ensures err { IfErr result (λ f. Halts (ReadsHead ts.now cursor.old) f cursor.new) }
{
    while let Some(place) = sign_at(ts, cursor.at, Kind::At) {
        annotation(ts, place, cursor)?;
    }
    let Some(found) = effect_at(ts, cursor.at) else {
        return Err(Stop::Unexpected);
    };
    *cursor = cursor.next();
    Ok(found)
}
