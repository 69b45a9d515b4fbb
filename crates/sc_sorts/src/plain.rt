//! Types of records of required truth values.
ghost use Rattle.std.specs.Prelude.{◌≡◌, Some, None, option_map, if◌then◌else◌};
ghost use Rattle.std.specs.List.{list_all};
ghost use Rattle.sc_schema.specs.declared.ty.Ty.{out-Ty};
ghost use Rattle.sc_sorts.specs.Plain.{is_bool_field, plain_fields, is_plain};

use sc_lists::Text;
use sc_schema::{Presence, Ty};

/// The fields of a type of records that have required truth values alone. None of another type.
pub fn plain_fields(ty: &Ty) -> Option<&[(Text, Presence, Ty)]>
    ensures { option_map (λ fields. fields.now) result ≡ plain_fields ty.now }
{
    match ty {
        Ty::Record(fields) => only_bools(fields.as_slice()),
        _ => None,
    }
}

/// Whether a type is of records that have required truth values alone.
pub fn is_plain(ty: &Ty) -> bool
    ensures { result ≡ is_plain ty.now }
{
    match ty {
        Ty::Record(fields) => are_bools(fields.as_slice()),
        _ => false,
    }
}

/// The fields, where each is a required truth value.
fn only_bools(fields: &[(Text, Presence, Ty)]) -> Option<&[(Text, Presence, Ty)]>
    ensures { option_map (λ fields. fields.now) result
        ≡ (if list_all is_bool_field fields.now then Some fields.now else None) }
{
    if are_bools(fields) {
        Some(fields)
    } else {
        None
    }
}

/// Whether each field is a required truth value.
fn are_bools(fields: &[(Text, Presence, Ty)]) -> bool
    ensures { result ≡ list_all is_bool_field fields.now }
{
    fields.iter().all(|field| is_bool_field(field))
}

fn is_bool_field(field: &(Text, Presence, Ty)) -> bool
    ensures { result ≡ is_bool_field field.now }
{
    matches!(field.1, Presence::Required) && matches!(field.2, Ty::Bool)
}
