//! The answers other than a report.
ghost use Rattle.std.specs.Prelude.{◌≡◌, ◌++◌, OnOk, IfOk, codes};
ghost use Rattle.sc_inputs.specs.Refusals.{code_of, refusal_text, file_name, place_text, side_name, on_side};
ghost use Rattle.sc_inputs.specs.FaultTexts.{fault_text, schema_fault_text, world_fault_text, name_fault_text, type_fault_text};
ghost use Rattle.sc_inputs.specs.View.{side_view, file_view, refusal_view};

use crate::fault_text::{put_fault, put_name_fault, put_schema_fault, put_world_fault};
use crate::put::{put, put_number};
use crate::type_text::put_type_fault;
use sc_parser::PolicyFault;
use sc_schema_syntax::SchemaFault;
use sc_typing::{IllTyped, NameFault};
use sc_world_json::WorldFault;
use std::alloc::{AllocError, Global};

/// A policy set of a command.
#[derive(Clone, Copy)]
pub enum Side {
    /// The first one.
    Policies,
    /// The one that the first is compared with.
    Against,
}

/// One of the files that a command names.
#[derive(Clone, Copy)]
pub enum FileName {
    /// The schema file.
    Schema,
    /// A policy file.
    Policies(Side),
    /// The file with a world.
    World,
    /// The file with a log.
    Log,
}

/// An answer other than a report.
#[derive(Drop)]
pub enum Refusal {
    /// The words are no command.
    Usage,
    /// The schema file spells no schema.
    SchemaText(SchemaFault),
    /// A policy file spells no policies.
    PolicyText(Side, PolicyFault),
    /// The world file spells no world.
    WorldText(WorldFault),
    /// The policies of a set write a name that the schema doesn't declare.
    UnknownName(Side, NameFault),
    /// A policy of a set has no type in an environment.
    IllTyped(Side, IllTyped),
    /// The environment that is named, by this place, is none of the schema, which has so many.
    NoEnvironment(u64, u64),
    /// A file couldn't be read.
    ReadFault(FileName),
    /// A file is longer than its limit.
    TooLong(FileName),
}

/// The status of a refusal.
pub fn code(refusal: &Refusal) -> u8
    ensures { result ≡ code_of (refusal_view refusal.now) }
{
    match refusal {
        Refusal::Usage => 10,
        Refusal::PolicyText(_, _) => 11,
        Refusal::SchemaText(_) => 12,
        Refusal::UnknownName(_, _) | Refusal::IllTyped(_, _) => 13,
        Refusal::NoEnvironment(_, _) => 16,
        Refusal::WorldText(_) => 17,
        Refusal::ReadFault(_) => 20,
        Refusal::TooLong(_) => 22,
    }
}

fn side_name(side: Side) -> &'static [u8]
    ensures { result.now ≡ side_name (side_view side) }
{
    match side {
        Side::Policies => b"policies",
        Side::Against => b"against",
    }
}

fn file_name(file: FileName) -> &'static [u8]
    ensures { result.now ≡ file_name (file_view file) }
{
    match file {
        FileName::Schema => b"schema",
        FileName::Policies(side) => side_name(side),
        FileName::World => b"world",
        FileName::Log => b"log",
    }
}

fn put_error(out: &mut Vec<u8>, number: &[u8], file: FileName) -> Result<(), AllocError>
    ensures { OnOk result (out.new.items ≡ out.old.items ++ (number.now ++ file_name (file_view file) ++ codes "\n")) }
{
    put(out, number)?;
    put(out, file_name(file))?;
    put(out, b"\n")
}

fn put_schema_text(alloc: Global, out: &mut Vec<u8>, fault: &SchemaFault) -> Result<(), AllocError>
    ensures { OnOk result (out.new.items ≡ out.old.items
        ++ (codes "error 12 " ++ schema_fault_text fault.now ++ codes "\n")) }
{
    put(out, b"error 12 ")?;
    put_schema_fault(alloc, out, fault)?;
    put(out, b"\n")
}

fn put_world_text(alloc: Global, out: &mut Vec<u8>, fault: &WorldFault) -> Result<(), AllocError>
    ensures { OnOk result (out.new.items ≡ out.old.items
        ++ (codes "error 17 " ++ world_fault_text fault.now ++ codes "\n")) }
{
    put(out, b"error 17 ")?;
    put_world_fault(alloc, out, fault)?;
    put(out, b"\n")
}

/// The front of an error of a policy set.
fn put_side(out: &mut Vec<u8>, number: &[u8], side: Side) -> Result<(), AllocError>
    ensures { OnOk result (out.new.items ≡ out.old.items ++ (number.now ++ (side_name (side_view side) ++ codes " "))) }
{
    put(out, number)?;
    put(out, side_name(side))?;
    put(out, b" ")
}

fn put_policy_text(out: &mut Vec<u8>, side: Side, fault: PolicyFault) -> Result<(), AllocError>
    ensures { OnOk result (out.new.items ≡ out.old.items
        ++ on_side (codes "error 11 ") (side_view side) (fault_text fault)) }
{
    put_side(out, b"error 11 ", side)?;
    put_fault(out, fault)?;
    put(out, b"\n")
}

fn put_unknown_name(out: &mut Vec<u8>, side: Side, fault: &NameFault) -> Result<(), AllocError>
    ensures { OnOk result (out.new.items ≡ out.old.items
        ++ on_side (codes "error 13 ") (side_view side) (name_fault_text fault.now)) }
{
    put_side(out, b"error 13 ", side)?;
    put_name_fault(out, fault)?;
    put(out, b"\n")
}

fn put_ill_typed(
    alloc: Global,
    out: &mut Vec<u8>,
    side: Side,
    fault: &IllTyped,
) -> Result<(), AllocError>
    ensures { OnOk result (out.new.items ≡ out.old.items
        ++ on_side (codes "error 13 ") (side_view side) (type_fault_text fault.now)) }
{
    put_side(out, b"error 13 ", side)?;
    put_type_fault(alloc, out, fault)?;
    put(out, b"\n")
}

#[tactic(auto, unfolding(crate::specs::Refusals::place_text))]
fn put_place(out: &mut Vec<u8>, place: u64, count: u64) -> Result<(), AllocError>
    ensures { OnOk result (out.new.items ≡ out.old.items ++ place_text place count) }
{
    put(out, b"error 16 environment ")?;
    put_number(out, place)?;
    put(out, b" of ")?;
    put_number(out, count)?;
    put(out, b"\n")
}

fn put_refusal(alloc: Global, out: &mut Vec<u8>, refusal: &Refusal) -> Result<(), AllocError>
    ensures { OnOk result (out.new.items ≡ out.old.items ++ refusal_text (refusal_view refusal.now)) }
{
    match refusal {
        Refusal::Usage => put(out, b"error 10 usage\n"),
        Refusal::SchemaText(fault) => put_schema_text(alloc, out, fault),
        Refusal::PolicyText(side, fault) => put_policy_text(out, *side, *fault),
        Refusal::WorldText(fault) => put_world_text(alloc, out, fault),
        Refusal::UnknownName(side, fault) => put_unknown_name(out, *side, fault),
        Refusal::IllTyped(side, fault) => put_ill_typed(alloc, out, *side, fault),
        Refusal::NoEnvironment(place, count) => put_place(out, *place, *count),
        Refusal::ReadFault(file) => put_error(out, b"error 20 ", *file),
        Refusal::TooLong(file) => put_error(out, b"error 22 ", *file),
    }
}

/// The line of a refusal, with its newline.
pub fn text_of(alloc: Global, refusal: &Refusal) -> Result<Vec<u8>, AllocError>
    ensures { IfOk result (λ v. v.items ≡ refusal_text (refusal_view refusal.now)) }
{
    let mut out = Vec::new(alloc);
    put_refusal(alloc, &mut out, refusal)?;
    Ok(out)
}
