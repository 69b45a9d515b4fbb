//! What is read from the members of an object and from the items of a list.
ghost use Rattle.std.specs.Prelude.{◌≡◌, map, option_map, IfOk, ℕ, List};
ghost use Rattle.serde_json.specs.Data.{Data};
ghost use Rattle.serde_json.specs.View.{view};
ghost use Rattle.sc_schema_syntax.specs.Written.{entries_of, text_of, texts_of};

use sc_lists::{Seq, Text};
use serde_json::Value;
use std::alloc::{AllocError, Global};

/// What a member of an object declares.
pub(crate) trait FromMember: Drop {
    ghost said: { List ℕ × Data → Self };

    /// What the member with this name and value declares.
    fn from_member(alloc: Global, name: &str, value: &Value) -> Result<Self, AllocError>
        ensures { IfOk result (λ declared. declared ≡ said (name.now, view value.now)) };
}

/// What each member of an object declares, if the value is one.
pub(crate) fn each_member<T: FromMember>(
    alloc: Global,
    value: Option<&Value>,
) -> Result<Seq<T>, AllocError>
    ensures { IfOk result (λ all. all ≡ map T.said (entries_of (option_map (λ v. view v.now) value.entry))) }
{
    let mut all = Seq::new(alloc);
    let Some(value) = value else {
        return Ok(all);
    };
    let Some(members) = value.as_object() else {
        return Ok(all);
    };
    for (name, value) in members.iter() {
        all.push(T::from_member(alloc, name.as_str(), value)?)?;
    }
    Ok(all)
}

/// A text, which is empty if the value is none.
pub(crate) fn text_of<'v>(value: Option<&'v Value>) -> &'v str
    ensures { result.now ≡ text_of (option_map (λ v. view v.now) value.entry) }
{
    match value {
        Some(value) => match value.as_str() {
            Some(text) => text,
            None => "",
        },
        None => "",
    }
}

/// The texts in a list, if the value is one.
pub(crate) fn texts_of(alloc: Global, value: Option<&Value>) -> Result<Seq<Text>, AllocError>
    ensures { IfOk result (λ texts. texts ≡ texts_of (option_map (λ v. view v.now) value.entry)) }
{
    let mut texts = Seq::new(alloc);
    let Some(value) = value else {
        return Ok(texts);
    };
    let Some(items) = value.as_array() else {
        return Ok(texts);
    };
    for item in items {
        texts.push(Text::from_str(alloc, text_of(Some(item)))?)?;
    }
    Ok(texts)
}
