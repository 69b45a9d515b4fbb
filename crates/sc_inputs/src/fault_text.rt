//! The faults of files as text.
ghost use Rattle.std.specs.Prelude.{◌≡◌, ◌++◌, OnOk};
ghost use Rattle.sc_inputs.specs.FaultTexts.{placed, named, on_path, fault_text, schema_fault_text, world_fault_text, kind_name, name_fault_text};

use crate::put::{put, put_number};
use sc_ast::Place;
use sc_names::{put_escaped, uid_text};
use sc_parser::PolicyFault;
use sc_schema_syntax::SchemaFault;
use sc_typing::{NameFault, NameKind};
use sc_world_json::WorldFault;
use std::alloc::{AllocError, Global};

/// Puts a name and a place at the end.
#[tactic(auto, unfolding(crate::specs::FaultTexts::placed))]
pub fn put_placed(out: &mut Vec<u8>, name: &[u8], place: Place) -> Result<(), AllocError>
    ensures { OnOk result (out.new.items ≡ out.old.items ++ placed name.now place) }
{
    put(out, name)?;
    put(out, b" at ")?;
    put_number(out, place.offset)
}

/// Puts a fault of a policy file at the end: its name, and its place where it has one.
pub fn put_fault(out: &mut Vec<u8>, fault: PolicyFault) -> Result<(), AllocError>
    ensures { OnOk result (out.new.items ≡ out.old.items ++ fault_text fault) }
{
    match fault {
        PolicyFault::BadUtf8(place) => put_placed(out, b"BadUtf8", place),
        PolicyFault::BadToken(place) => put_placed(out, b"BadToken", place),
        PolicyFault::BadEscape(place) => put_placed(out, b"BadEscape", place),
        PolicyFault::Unexpected(place) => put_placed(out, b"Unexpected", place),
        PolicyFault::UnexpectedEnd => put(out, b"UnexpectedEnd"),
        PolicyFault::TooManyPolicies => put(out, b"TooManyPolicies"),
        PolicyFault::Template(place) => put_placed(out, b"Template", place),
        PolicyFault::TooDeep(place) => put_placed(out, b"TooDeep", place),
        PolicyFault::IntRange(place) => put_placed(out, b"IntRange", place),
        PolicyFault::DuplicateKey(place) => put_placed(out, b"DuplicateKey", place),
        PolicyFault::BadCall(place) => put_placed(out, b"BadCall", place),
    }
}

#[tactic(auto, unfolding(crate::specs::FaultTexts::named))]
fn put_named(out: &mut Vec<u8>, name: &[u8], text: &str) -> Result<(), AllocError>
    ensures { OnOk result (out.new.items ≡ out.old.items ++ named name.now text.now) }
{
    put(out, name)?;
    put(out, b" at ")?;
    put(out, text.as_bytes())
}

fn put_on_path(alloc: Global, out: &mut Vec<u8>, name: &[u8], path: &str) -> Result<(), AllocError>
    ensures { OnOk result (out.new.items ≡ out.old.items ++ on_path name.now path.now) }
{
    let mut text = String::new(alloc);
    put_escaped(&mut text, path)?;
    put_named(out, name, &text)
}

/// Puts a fault of a schema file at the end: its name, and where it has one its path, type or
/// action.
pub fn put_schema_fault(
    alloc: Global,
    out: &mut Vec<u8>,
    fault: &SchemaFault,
) -> Result<(), AllocError>
    ensures { OnOk result (out.new.items ≡ out.old.items ++ schema_fault_text fault.now) }
{
    match fault {
        SchemaFault::NotJson => put(out, b"NotJson"),
        SchemaFault::BadShape(path) => put_on_path(alloc, out, b"BadShape", path.as_str()),
        SchemaFault::BadName(path) => put_on_path(alloc, out, b"BadName", path.as_str()),
        SchemaFault::UnknownType(path) => put_on_path(alloc, out, b"UnknownType", path.as_str()),
        SchemaFault::UnknownAction(path) => {
            put_on_path(alloc, out, b"UnknownAction", path.as_str())
        }
        SchemaFault::TypeCycle(name) => put_named(out, b"TypeCycle", name.as_str()),
        SchemaFault::ActionCycle(uid) => {
            let text = uid_text(alloc, uid)?;
            put_named(out, b"ActionCycle", &text)
        }
        SchemaFault::NotRecord(path) => put_on_path(alloc, out, b"NotRecord", path.as_str()),
        SchemaFault::TypeTooLarge(path) => put_on_path(alloc, out, b"TypeTooLarge", path.as_str()),
        SchemaFault::TooManyEnvironments => put(out, b"TooManyEnvironments"),
    }
}

/// Puts a fault of a world file at the end: its name, and its path where it has one.
pub fn put_world_fault(
    alloc: Global,
    out: &mut Vec<u8>,
    fault: &WorldFault,
) -> Result<(), AllocError>
    ensures { OnOk result (out.new.items ≡ out.old.items ++ world_fault_text fault.now) }
{
    match fault {
        WorldFault::NotJson => put(out, b"NotJson"),
        WorldFault::BadWorld(path) => put_on_path(alloc, out, b"BadWorld", path.as_str()),
    }
}

fn kind_name(kind: NameKind) -> &'static [u8]
    ensures { result.now ≡ kind_name kind }
{
    match kind {
        NameKind::UnknownEntityType => b"UnknownEntityType",
        NameKind::UnknownAction => b"UnknownAction",
        NameKind::UnknownChoice => b"UnknownChoice",
    }
}

/// Puts a name that isn't declared at the end: the policy that writes it, what it stands for, and
/// its place.
#[tactic(auto, unfolding(crate::specs::FaultTexts::name_fault_text))]
pub fn put_name_fault(out: &mut Vec<u8>, fault: &NameFault) -> Result<(), AllocError>
    ensures { OnOk result (out.new.items ≡ out.old.items ++ name_fault_text fault.now) }
{
    put(out, b"policy")?;
    put_number(out, fault.policy as u64)?;
    put(out, b" ")?;
    put_placed(out, kind_name(fault.kind), fault.place)
}
