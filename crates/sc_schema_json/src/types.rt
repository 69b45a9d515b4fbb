//! Entity types with all types that stand above them.
ghost use Rattle.std.specs.Prelude.{◌≡◌, List, [], Some, map, IfOk, OnOk};
ghost use Rattle.std.specs.List.{AllZip, IsDistinct, slice_get};
ghost use Rattle.std.specs.Map.{keys_of};
ghost use Rattle.std.specs.Str.{bytes_eq};
ghost use Rattle.sc_schema.specs.Lawful.{AreAscending};
ghost use Rattle.sc_schema.specs.declared.expanded.ExpandedEntityType.{ExpandedEntityType as AnyType};
ghost use Rattle.sc_schema_json.specs.Above.{NamesKeys};
ghost use Rattle.sc_schema_json.specs.Graphs.{IsGraphOf};
ghost use Rattle.sc_schema_json.specs.Schemas.{type_links, IsEntityTypeOf, AreTypesOf};

use crate::above::keys_above;
use crate::graph::graph_of;
use crate::key::copies;
use crate::sorting::types_in_order;
use sc_graphs::Reachability;
use sc_lists::Seq;
use sc_names::Name;
use sc_schema::{EntityType, ExpandedEntityType};
use std::alloc::{AllocError, Global};

/// The entity types in the order of their names, each with all types that stand above it.
pub(crate) fn types_of(
    alloc: Global,
    declared: Seq<ExpandedEntityType>,
) -> Result<Seq<EntityType>, AllocError>
    requires distinct { IsDistinct bytes_eq (map (λ (d : AnyType). d.name) declared) }
    requires named { NamesKeys (type_links declared) }
    ensures { IfOk result (λ types. AreTypesOf declared types) }
{
    let declared = types_in_order(declared);
    let types = types_with_ancestors(alloc, declared)?;
    Ok(types)
}

/// Entity types in their order, each with all types that stand above it.
fn types_with_ancestors(
    alloc: Global,
    declared: Seq<ExpandedEntityType>,
) -> Result<Seq<EntityType>, AllocError>
    requires ascending { AreAscending (keys_of (type_links declared)) }
    requires named { NamesKeys (type_links declared) }
    ensures { IfOk result (λ types. AllZip (IsEntityTypeOf (type_links declared)) declared types) }
{
    let links = links_of(alloc, declared.as_slice())?;
    let graph = graph_of(alloc, links.as_slice())?;
    let mut reachability = Reachability::new(alloc);
    let mut types = Seq::new(alloc);
    put_types(
        alloc,
        &mut types,
        links.as_slice(),
        graph.as_slice(),
        &mut reachability,
        declared,
    )?;
    Ok(types)
}

/// Puts entity types, each with all types that stand above it, into a list that has none yet.
fn put_types(
    alloc: Global,
    types: &mut Seq<EntityType>,
    links: &[(Name, Seq<Name>)],
    graph: &[Seq<usize>],
    reachability: &mut Reachability,
    declared: Seq<ExpandedEntityType>,
) -> Result<(), AllocError>
    requires none { types.old ≡ [] }
    requires links { links.now ≡ type_links declared }
    requires ascending { AreAscending (keys_of links.now) }
    requires named { NamesKeys links.now }
    requires graph { IsGraphOf links.now graph.now }
    ensures { OnOk result (AllZip (IsEntityTypeOf (type_links declared)) declared types.new) }
{
    for entity_type in declared.into_vec() {
        let at = types.len();
        let made = type_with_ancestors(alloc, links, graph, reachability, at, entity_type)?;
        types.push(made)?;
    }
    Ok(())
}

/// The entity type at a place, with all types that stand above it.
fn type_with_ancestors(
    alloc: Global,
    links: &[(Name, Seq<Name>)],
    graph: &[Seq<usize>],
    reachability: &mut Reachability,
    at: usize,
    declared: ExpandedEntityType,
) -> Result<EntityType, AllocError>
    requires ascending { AreAscending (keys_of links.now) }
    requires named { NamesKeys links.now }
    requires graph { IsGraphOf links.now graph.now }
    ensures { IfOk result (λ made. (all : List AnyType) → links.now ≡ type_links all
        → slice_get all at ≡ Some declared → IsEntityTypeOf (type_links all) declared made) }
{
    let ancestors = keys_above(alloc, links, graph, reachability, at)?;
    Ok(with_ancestors(declared, ancestors))
}

/// The names of entity types, each with those of the types that stand directly above it.
fn links_of(
    alloc: Global,
    declared: &[ExpandedEntityType],
) -> Result<Seq<(Name, Seq<Name>)>, AllocError>
    ensures { IfOk result (λ links. links ≡ type_links declared.now) }
{
    let mut links = Seq::new(alloc);
    for entity_type in declared {
        links.push((
            entity_type.name.try_clone(alloc)?,
            copies(alloc, entity_type.parents.as_slice())?,
        ))?;
    }
    Ok(links)
}

/// An entity type, with these types above it.
fn with_ancestors(declared: ExpandedEntityType, ancestors: Seq<Name>) -> EntityType
    ensures { result ≡ record {
      name = declared.name;
      ancestors = ancestors;
      shape = declared.shape;
      tags = declared.tags;
      choices = declared.choices;
    } }
{
    EntityType {
        name: declared.name,
        ancestors,
        shape: declared.shape,
        tags: declared.tags,
        choices: declared.choices,
    }
}
