//! Reads identifiers and strings, and what is made of them.
ghost use Rattle.std.specs.Prelude.{◌≡◌, ◌≤◌, ◌++◌, ◌∷◌, [], length, IfOk, IfErr, OnOk, codes, string_bytes, ℕ, List};
ghost use Rattle.sc_lexemes.specs.Outcomes.{read, Halts};
ghost use Rattle.sc_lexemes.specs.ReadsWords.{ReadsIdent, ReadsString, ReadsMoreNames, ReadsNames, ReadsMorePath, ReadsPath, ReadsMoreEntity, ReadsEntity, ReadsKey};
ghost use Rattle.sc_ast.specs.declared.expr.Expr.{Expr as AnyExpr};
ghost use Rattle.sc_lexemes.specs.Keys.{AreKeys};

use crate::cursor::Cursor;
use crate::keys::put_key;
use crate::lexeme::Lexeme;
use crate::peek::{ident_at, sign_at, string_at};
use crate::stop::Stop;
use sc_ast::{EntityLiteral, Place, TypeName};
use sc_lexer::Kind;
use sc_lists::{Seq, Text};
use sc_names::{Name, Uid};
use sc_pattern::Part;
use std::alloc::{AllocError, Global};
use std::collections::BTreeSet;

/// Reads an identifier: its place and its text.
#[tactic(auto, using(crate::specs::ReadsWords::ident, crate::specs::ReadsWords::ident_deep, crate::specs::ReadsWords::no_ident))]
pub fn ident<'a>(ts: &'a [Lexeme], cursor: &mut Cursor) -> Result<(Place, &'a str), Stop>
    requires { cursor.old.at ≤ length ts.now }
    ensures forward { cursor.old.at ≤ cursor.new.at }
    ensures within { cursor.new.at ≤ length ts.now }
    ensures ok { IfOk result (λ x. ReadsIdent ts.now cursor.old (read (x.0, x.1.now) cursor.new)) }
    ensures err { IfErr result (λ f. Halts (ReadsIdent ts.now cursor.old) f cursor.new) }
{
    let Some((place, word)) = ident_at(ts, cursor.at) else {
        return Err(Stop::Unexpected);
    };
    if !cursor.fits() {
        return Err(Stop::TooDeep);
    }
    *cursor = cursor.next();
    Ok((place, word))
}

/// Reads a string: the text and the pattern that it means.
#[tactic(auto, using(crate::specs::ReadsWords::string, crate::specs::ReadsWords::string_deep, crate::specs::ReadsWords::no_string))]
pub fn string<'a>(ts: &'a [Lexeme], cursor: &mut Cursor) -> Result<(&'a str, &'a [Part]), Stop>
    requires { cursor.old.at ≤ length ts.now }
    ensures forward { cursor.old.at ≤ cursor.new.at }
    ensures within { cursor.new.at ≤ length ts.now }
    ensures ok { IfOk result (λ x. ReadsString ts.now cursor.old (read (x.0.now, x.1.now) cursor.new)) }
    ensures err { IfErr result (λ f. Halts (ReadsString ts.now cursor.old) f cursor.new) }
{
    let Some((_, text, parts)) = string_at(ts, cursor.at) else {
        return Err(Stop::Unexpected);
    };
    if !cursor.fits() {
        return Err(Stop::TooDeep);
    }
    *cursor = cursor.next();
    Ok((text, parts))
}

/// Reads the names after `has`, behind those so far.
#[tactic(auto, using(crate::specs::ReadsWords::names_end, crate::specs::ReadsWords::names_halt, crate::specs::ReadsWords::names_more))]
fn more_names(
    alloc: Global,
    ts: &[Lexeme],
    cursor: &mut Cursor,
    so_far: Seq<Text>,
) -> Result<Seq<Text>, Stop>
    requires { cursor.old.at ≤ length ts.now }
    ensures forward { cursor.old.at ≤ cursor.new.at }
    ensures within { cursor.new.at ≤ length ts.now }
    ensures ok { IfOk result (λ ns. ReadsMoreNames ts.now cursor.old so_far (read ns cursor.new)) }
    ensures err { IfErr result (λ f. Halts (ReadsMoreNames ts.now cursor.old so_far) f cursor.new) }
{
    let mut names = so_far;
    while let Some(_) = sign_at(ts, cursor.at, Kind::Dot) {
        *cursor = cursor.past();
        let (_, word) = ident(ts, cursor)?;
        names.push(Text::from_str(alloc, word)?)?;
    }
    Ok(names)
}

/// Reads a string, or identifiers with dots between them.
#[tactic(auto, using(crate::specs::ReadsWords::names_string, crate::specs::ReadsWords::names_string_deep, crate::specs::ReadsWords::names_ident_halt, crate::specs::ReadsWords::names_ident))]
pub fn names(alloc: Global, ts: &[Lexeme], cursor: &mut Cursor) -> Result<Seq<Text>, Stop>
    requires { cursor.old.at ≤ length ts.now }
    ensures forward { cursor.old.at ≤ cursor.new.at }
    ensures within { cursor.new.at ≤ length ts.now }
    ensures ok { IfOk result (λ ns. ReadsNames ts.now cursor.old (read ns cursor.new)) }
    ensures err { IfErr result (λ f. Halts (ReadsNames ts.now cursor.old) f cursor.new) }
{
    let mut names = Seq::new(alloc);
    if let Some((_, text, _)) = string_at(ts, cursor.at) {
        if !cursor.fits() {
            return Err(Stop::TooDeep);
        }
        *cursor = cursor.next();
        names.push(Text::from_str(alloc, text)?)?;
        return Ok(names);
    }
    let (_, word) = ident(ts, cursor)?;
    names.push(Text::from_str(alloc, word)?)?;
    more_names(alloc, ts, cursor, names)
}

/// Puts `::` and a word at the end of a path.
fn lengthen(path: &mut String, word: &str) -> Result<(), AllocError>
    ensures { OnOk result (string_bytes path.new ≡ string_bytes path.old ++ (codes "::" ++ word.now)) }
{
    path.push_str("::")?;
    path.push_str(word)
}

/// Reads the rest of a path behind its text so far.
#[tactic(auto, using(crate::specs::ReadsWords::path_end, crate::specs::ReadsWords::path_halt, crate::specs::ReadsWords::path_more))]
fn more_path(ts: &[Lexeme], cursor: &mut Cursor, so_far: String) -> Result<String, Stop>
    requires { cursor.old.at ≤ length ts.now }
    ensures forward { cursor.old.at ≤ cursor.new.at }
    ensures within { cursor.new.at ≤ length ts.now }
    ensures ok { IfOk result (λ t. ReadsMorePath ts.now cursor.old (string_bytes so_far) (read
        (string_bytes t) cursor.new)) }
    ensures err { IfErr result (λ f. Halts (ReadsMorePath ts.now cursor.old (string_bytes so_far)) f cursor.new) }
{
    let mut path = so_far;
    while let Some(_) = sign_at(ts, cursor.at, Kind::DoubleColon) {
        *cursor = cursor.next();
        let (_, word) = ident(ts, cursor)?;
        lengthen(&mut path, word)?;
    }
    Ok(path)
}

/// Reads the name of a type, with the place of its first token.
#[tactic(auto, using(crate::specs::ReadsWords::path_ident_halt, crate::specs::ReadsWords::path_rest_halt, crate::specs::ReadsWords::path))]
pub fn path(alloc: Global, ts: &[Lexeme], cursor: &mut Cursor) -> Result<TypeName, Stop>
    requires { cursor.old.at ≤ length ts.now }
    ensures forward { cursor.old.at ≤ cursor.new.at }
    ensures within { cursor.new.at ≤ length ts.now }
    ensures ok { IfOk result (λ y. ReadsPath ts.now cursor.old (read y cursor.new)) }
    ensures err { IfErr result (λ f. Halts (ReadsPath ts.now cursor.old) f cursor.new) }
{
    let (place, word) = ident(ts, cursor)?;
    let first = String::from_str(alloc, word)?;
    let text = more_path(ts, cursor, first)?;
    Ok(TypeName {
        place,
        name: Name::from_text(Text::from_string(text)?),
    })
}

/// Reads the rest of an entity's uid, behind its type's text so far.
#[tactic(auto, using(crate::specs::ReadsWords::no_colons, crate::specs::ReadsWords::entity_id, crate::specs::ReadsWords::entity_halt, crate::specs::ReadsWords::entity_more))]
pub fn more_entity(
    alloc: Global,
    ts: &[Lexeme],
    cursor: &mut Cursor,
    place: Place,
    so_far: String,
) -> Result<EntityLiteral, Stop>
    requires { cursor.old.at ≤ length ts.now }
    ensures forward { cursor.old.at ≤ cursor.new.at }
    ensures within { cursor.new.at ≤ length ts.now }
    ensures ok { IfOk result (λ e. ReadsMoreEntity ts.now cursor.old place (string_bytes so_far) (read e cursor.new)) }
    ensures err { IfErr result (λ f. Halts (ReadsMoreEntity ts.now cursor.old place (string_bytes so_far))
        f cursor.new) }
{
    let mut path = so_far;
    while let Some(_) = sign_at(ts, cursor.at, Kind::DoubleColon) {
        if let Some((_, id, _)) = string_at(ts, cursor.at + 1) {
            *cursor = cursor.next().next();
            let type_name = Name::from_text(Text::from_string(path)?);
            let id = Text::from_str(alloc, id)?;
            return Ok(EntityLiteral {
                place,
                uid: Uid { type_name, id },
            });
        }
        *cursor = cursor.next();
        let (_, word) = ident(ts, cursor)?;
        lengthen(&mut path, word)?;
    }
    Err(Stop::Unexpected)
}

/// Reads an entity's uid.
#[tactic(auto, using(crate::specs::ReadsWords::entity_ident_halt, crate::specs::ReadsWords::entity))]
pub fn entity(alloc: Global, ts: &[Lexeme], cursor: &mut Cursor) -> Result<EntityLiteral, Stop>
    requires { cursor.old.at ≤ length ts.now }
    ensures forward { cursor.old.at ≤ cursor.new.at }
    ensures within { cursor.new.at ≤ length ts.now }
    ensures ok { IfOk result (λ e. ReadsEntity ts.now cursor.old (read e cursor.new)) }
    ensures err { IfErr result (λ f. Halts (ReadsEntity ts.now cursor.old) f cursor.new) }
{
    let (place, word) = ident(ts, cursor)?;
    let first = String::from_str(alloc, word)?;
    more_entity(alloc, ts, cursor, place, first)
}

/// Reads a key of a record that has these keys so far, and puts it among them.
#[tactic(auto, using(crate::proofs::KeyLaws::ident_read, crate::proofs::KeyLaws::ident_twice, crate::proofs::KeyLaws::string_read, crate::proofs::KeyLaws::string_twice, crate::specs::ReadsWords::key_ident_deep, crate::specs::ReadsWords::key_string_deep, crate::specs::ReadsWords::no_key))]
pub fn key(
    alloc: Global,
    ts: &[Lexeme],
    cursor: &mut Cursor,
    names: &mut BTreeSet<Text>,
) -> Result<Text, Stop>
    requires { cursor.old.at ≤ length ts.now }
    ensures forward { cursor.old.at ≤ cursor.new.at }
    ensures within { cursor.new.at ≤ length ts.now }
    ensures keys { IfOk result (λ w. (fs : List (List ℕ × AnyExpr)) (x : AnyExpr) → AreKeys names.old fs
        → AreKeys names.new (fs ++ (w, x) ∷ [])) }
    ensures ok { IfOk result (λ w. (fs : List (List ℕ × AnyExpr)) → AreKeys names.old fs
        → ReadsKey ts.now cursor.old fs (read w cursor.new)) }
    ensures err { IfErr result (λ f. (fs : List (List ℕ × AnyExpr)) → AreKeys names.old fs
        → Halts (ReadsKey ts.now cursor.old fs) f cursor.new) }
{
    if let Some((_, word)) = ident_at(ts, cursor.at) {
        if !cursor.fits() {
            return Err(Stop::TooDeep);
        }
        if !put_key(alloc, names, word)? {
            return Err(Stop::DuplicateKey);
        }
        *cursor = cursor.next();
        return Ok(Text::from_str(alloc, word)?);
    }
    let Some((_, text, _)) = string_at(ts, cursor.at) else {
        return Err(Stop::Unexpected);
    };
    if !cursor.fits() {
        return Err(Stop::TooDeep);
    }
    if !put_key(alloc, names, text)? {
        return Err(Stop::DuplicateKey);
    }
    *cursor = cursor.next();
    Ok(Text::from_str(alloc, text)?)
}
