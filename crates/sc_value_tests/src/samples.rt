//! Names and uids by their texts, and whether a text is the one that is meant.
use sc_lists::Text;
use sc_names::{Name, Uid};
use std::alloc::{AllocError, Global};

pub fn name(alloc: Global, text: &str) -> Result<Name, AllocError> {
    Ok(Name::from_text(Text::from_str(alloc, text)?))
}

/// The uid of this type and this id.
pub fn uid(alloc: Global, (type_name, id): (&str, &str)) -> Result<Uid, AllocError> {
    Ok(Uid {
        type_name: name(alloc, type_name)?,
        id: Text::from_str(alloc, id)?,
    })
}

/// Whether a text is made and is this one.
pub fn is_text(found: Result<String, AllocError>, text: &str) -> bool {
    match found {
        Ok(found) => found.as_str() == text,
        Err(_) => false,
    }
}
