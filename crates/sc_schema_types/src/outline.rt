//! How large types are, without their being written out.
ghost use Rattle.std.specs.Prelude.{◌≡◌, ℕ, List, IfOk, OnOk};
ghost use Rattle.std.specs.List.{fold};
ghost use Rattle.sc_schema.specs.declared.ty.Presence.{Presence as AnyPresence};
ghost use Rattle.sc_schema.specs.declared.resolved_type.ResolvedType.{ResolvedType as AnyType};
ghost use Rattle.sc_schema_types.specs.Tables.{body_in, leaf, nothing, around, beside, outlined, outline_in, with_body, outlines_by, outline_fault};

use crate::wanted::Wanted;
use sc_lists::Text;
use sc_names::Name;
use sc_schema::{Presence, ResolvedType};
use sc_schema_syntax::SchemaFault;
use std::alloc::{AllocError, Global};
use std::collections::BTreeMap;

/// The most levels that a type may have.
const MOST_LEVELS: u64 = 32;

/// The most nodes that a type may have.
const MOST_NODES: u64 = 4096;

/// What of a type decides whether it may stand where it does. Numbers that are larger than is
/// allowed are given as one more than that.
#[derive(Clone, Copy)]
pub(crate) struct Outline {
    /// Whether it is a record type.
    pub is_record: bool,
    /// How many levels it has.
    pub levels: u64,
    /// How many nodes it has.
    pub nodes: u64,
}

impl Outline {
    /// That of a type with no types inside.
    fn leaf() -> Outline
        ensures { result ≡ leaf }
    {
        Outline {
            is_record: false,
            levels: 1,
            nodes: 1,
        }
    }

    /// That of no fields.
    fn nothing() -> Outline
        ensures { result ≡ nothing }
    {
        Outline {
            is_record: false,
            levels: 0,
            nodes: 0,
        }
    }

    /// That of a type with these inside.
    fn around(self, is_record: bool) -> Outline
        ensures { result ≡ around is_record self }
    {
        Outline {
            is_record,
            levels: self.levels.saturating_add(1).min(MOST_LEVELS + 1),
            nodes: self.nodes.saturating_add(1).min(MOST_NODES + 1),
        }
    }

    /// That of the one beside the other.
    fn beside(self, other: Outline) -> Outline
        ensures { result ≡ beside self other }
    {
        Outline {
            is_record: false,
            levels: self.levels.max(other.levels),
            nodes: self.nodes.saturating_add(other.nodes).min(MOST_NODES + 1),
        }
    }
}

/// The outline of what a type stands for, each common type in it being looked up in a table.
#[cycle(outline)]
#[tactic(auto, using(crate::proofs::OutlineLaws::outlined_Set, crate::proofs::OutlineLaws::outlined_Record, crate::proofs::OutlineLaws::outlined_Common), unfolding(crate::specs::Tables::outlined))]
pub(crate) fn outline_of(table: &BTreeMap<Name, Outline>, resolved: &ResolvedType) -> Outline
    ensures { result ≡ outlined (outline_in table.now.entries) resolved.now }
{
    match resolved {
        ResolvedType::Boolean => Outline::leaf(),
        ResolvedType::Long => Outline::leaf(),
        ResolvedType::String => Outline::leaf(),
        ResolvedType::Decimal => Outline::leaf(),
        ResolvedType::Ip => Outline::leaf(),
        ResolvedType::Entity(_) => Outline::leaf(),
        ResolvedType::Set(element) => outline_of(table, element.get()).around(false),
        ResolvedType::Record(attributes) => outline_of_all(table, attributes.as_slice()).around(
            true,
        ),
        ResolvedType::Common(name) => outline_in(table, name),
    }
}

/// The outline of attributes, the one beside the other.
#[cycle(outline)]
fn outline_of_all(
    table: &BTreeMap<Name, Outline>,
    attributes: &[(Text, Presence, ResolvedType)],
) -> Outline
    ensures { result ≡ fold (λ o (a : List ℕ × AnyPresence
        × AnyType). beside o (outlined (outline_in table.now.entries) a.2)) nothing attributes.now }
{
    let mut all = Outline::nothing();
    for attribute in attributes {
        all = all.beside(outline_of(table, &attribute.2));
    }
    all
}

/// The outline of a common type in a table, and that of a type with no types inside for any other name.
fn outline_in(table: &BTreeMap<Name, Outline>, name: &Name) -> Outline
    ensures { result ≡ outline_in table.now.entries name.now }
{
    match table.get(name) {
        Some(outline) => *outline,
        None => Outline::leaf(),
    }
}

/// The outlines of common types, which are taken in this order.
pub(crate) fn outlines_of(
    alloc: Global,
    bodies: &BTreeMap<Name, &ResolvedType>,
    order: &[Name],
) -> Result<BTreeMap<Name, Outline>, AllocError>
    ensures { IfOk result (λ table. outline_in table.entries ≡ outlines_by (body_in bodies.now.entries) order.now) }
{
    let mut table = BTreeMap::new(alloc);
    for name in order {
        put_outline(alloc, bodies, &mut table, name)?;
    }
    Ok(table)
}

/// Puts the outline of a common type into a table, if it has a body.
fn put_outline(
    alloc: Global,
    bodies: &BTreeMap<Name, &ResolvedType>,
    table: &mut BTreeMap<Name, Outline>,
    name: &Name,
) -> Result<(), AllocError>
    ensures { OnOk result (outline_in table.new.entries
        ≡ with_body (body_in bodies.now.entries) outlined (outline_in table.old.entries) name.now) }
{
    let Some(body) = bodies.get(name) else {
        return Ok(());
    };
    let outline = outline_of(table, body);
    table.insert(name.try_clone(alloc)?, outline)?;
    Ok(())
}

/// The fault of a type with this outline, at its own place.
pub(crate) fn outline_fault(
    alloc: Global,
    wanted: Wanted,
    outline: Outline,
) -> Result<Option<SchemaFault>, AllocError>
    ensures { IfOk result (λ fault. fault ≡ outline_fault wanted outline) }
{
    if wanted == Wanted::RecordType && !outline.is_record {
        return Ok(Some(SchemaFault::NotRecord(Text::from_str(alloc, "")?)));
    }
    if outline.levels > MOST_LEVELS || outline.nodes > MOST_NODES {
        return Ok(Some(SchemaFault::TypeTooLarge(Text::from_str(alloc, "")?)));
    }
    Ok(None)
}
