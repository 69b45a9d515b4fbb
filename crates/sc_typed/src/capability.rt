//! What is known of objects while an expression is typed.
ghost use Rattle.std.specs.Prelude.{◌≡◌, ◌++◌, IfOk, OnOk};
ghost use Rattle.sc_typed.specs.Capabilities.{bare, attribute_of, tag_of, same, is_known, common};

use crate::bare::bare;
use sc_ast::{Expr, try_clone};
use sc_lists::{Boxed, Seq, Text};
use std::alloc::{AllocError, Global};

/// What an object is known to have.
#[derive(PartialEq, Eq, Drop)]
pub enum Key {
    /// An attribute.
    Attribute(Text),
    /// A tag, by the expression of its key.
    Tag(Expr),
}

/// That an object has an attribute or a tag wherever an expression is evaluated. All places in it are
/// 0.
#[derive(PartialEq, Eq, Drop)]
pub struct Capability {
    /// The expression of the object.
    pub object: Expr,
    /// What it has.
    pub key: Key,
}

/// That an object has an attribute.
pub fn attribute_of(alloc: Global, object: &Expr, name: &Text) -> Result<Capability, AllocError>
    ensures { IfOk result (λ c. c ≡ attribute_of object.now name.now) }
{
    let name = name.try_clone(alloc)?;
    Ok(Capability {
        object: bare(alloc, object)?,
        key: Key::Attribute(name),
    })
}

/// That an entity has the tag of a key.
pub fn tag_of(alloc: Global, object: &Expr, key: &Expr) -> Result<Capability, AllocError>
    ensures { IfOk result (λ c. c ≡ tag_of object.now key.now) }
{
    let key = Boxed::new(alloc, bare(alloc, key)?)?;
    Ok(Capability {
        object: bare(alloc, object)?,
        key: Key::Tag(key.into_inner()),
    })
}

/// Whether two capabilities are one.
#[tactic(auto, unfolding(crate::specs::Capabilities::same))]
fn is_same(a: &Capability, b: &Capability) -> bool
    ensures { result ≡ same a.now b.now }
{
    *a == *b
}

/// Whether a capability is among those that are known.
#[tactic(auto, unfolding(crate::specs::Capabilities::is_known))]
pub fn is_known(known: &[Capability], capability: &Capability) -> bool
    ensures { result ≡ is_known known.now capability.now }
{
    known.iter().any(|other| is_same(capability, other))
}

/// Whether a capability is among the first ones or among the second ones.
pub fn is_known_in_either(
    first: &[Capability],
    second: &[Capability],
    capability: &Capability,
) -> bool
    ensures { result ≡ is_known (first.now ++ second.now) capability.now }
{
    is_known(first, capability) || is_known(second, capability)
}

/// The first capabilities and then the second ones, which are moved.
pub fn joined(
    mut first: Seq<Capability>,
    second: Seq<Capability>,
) -> Result<Seq<Capability>, AllocError>
    ensures { IfOk result (λ all. all ≡ first ++ second) }
{
    for capability in second.into_vec() {
        first.push(capability)?;
    }
    Ok(first)
}

/// Those of the first capabilities that are among the second ones.
pub fn common(
    alloc: Global,
    first: Seq<Capability>,
    second: &[Capability],
) -> Result<Seq<Capability>, AllocError>
    ensures { IfOk result (λ kept. kept ≡ common first second.now) }
{
    let mut kept = Seq::new(alloc);
    for capability in first.into_vec() {
        let one = Boxed::new(alloc, capability)?;
        if is_known(second, one.get()) {
            kept.push(one.into_inner())?;
        }
    }
    Ok(kept)
}

/// Copies of the first capabilities and then of the second ones.
pub fn copies(
    alloc: Global,
    first: &[Capability],
    second: &[Capability],
) -> Result<Seq<Capability>, AllocError>
    ensures { IfOk result (λ all. all ≡ first.now ++ second.now) }
{
    let mut all = Seq::new(alloc);
    put_copies(alloc, &mut all, first)?;
    put_copies(alloc, &mut all, second)?;
    Ok(all)
}

fn put_copies(
    alloc: Global,
    all: &mut Seq<Capability>,
    capabilities: &[Capability],
) -> Result<(), AllocError>
    ensures { OnOk result (all.new ≡ all.old ++ capabilities.now) }
{
    for capability in capabilities {
        all.push(copy_of(alloc, capability)?)?;
    }
    Ok(())
}

fn copy_of(alloc: Global, capability: &Capability) -> Result<Capability, AllocError>
    ensures { IfOk result (λ copy. copy ≡ capability.now) }
{
    let key = Boxed::new(alloc, copy_of_key(alloc, &capability.key)?)?;
    Ok(Capability {
        object: try_clone(alloc, &capability.object)?,
        key: key.into_inner(),
    })
}

fn copy_of_key(alloc: Global, key: &Key) -> Result<Key, AllocError>
    ensures { IfOk result (λ copy. copy ≡ key.now) }
{
    match key {
        Key::Attribute(name) => Ok(Key::Attribute(name.try_clone(alloc)?)),
        Key::Tag(key) => Ok(Key::Tag(try_clone(alloc, key)?)),
    }
}
