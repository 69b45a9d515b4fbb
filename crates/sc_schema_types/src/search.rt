//! Puts common types in order, each after those that its body names: a search in depth, whose path
//! is kept as a list, since one common type may name another as often as a file is long.
ghost use Rattle.std.specs.Prelude.{◌≡◌, ◌≢◌, ◌+◌, ◌*◌, ◌<◌, ◌≤◌, ◌∷◌, ◌++◌, [], ℕ, List, Some, length, map, Contains, All, slice_get, slice_index_or, IfOk, OnOk, MatchOption, MatchResult, IsTrue, ◌↔◌};
ghost use Rattle.std.specs.List.{IsDistinct};
ghost use Rattle.std.specs.Str.{bytes_eq};
ghost use Rattle.sc_schema_types.specs.References.{Reaches, references};
ghost use Rattle.sc_schema_types.specs.Orders.{LeadsBack};
ghost use Rattle.sc_schema_types.specs.Tables.{body_in};
ghost use Rattle.sc_schema_types.specs.Searches.{mark_in, marked_in, opened, IsSearch, IsRested, GoesOn};

use crate::bodies::references;
use sc_lists::Seq;
use sc_names::Name;
use sc_schema::ResolvedType;
use std::alloc::{AllocError, Global};
use std::collections::BTreeMap;

/// How far the search has come with a common type.
#[derive(Clone, Copy, PartialEq, Eq)]
pub(crate) enum Mark {
    /// It is on the path.
    Open,
    /// It has its place in the order.
    Placed,
}

/// A common type on the path.
#[derive(Drop)]
pub(crate) struct Step {
    /// Its name.
    pub name: Name,
    /// The common types that its body names.
    pub next: Seq<Name>,
    /// How many of these are known to have their places.
    pub placed: usize,
}

/// A search: the order so far, and the path from a common type to one that is reached from it.
#[derive(Drop)]
pub(crate) struct Search {
    /// The names that have their places.
    pub order: Vec<Name>,
    /// The path, on which each common type names the next one.
    pub path: Vec<Step>,
    /// Which names have their places or are on the path.
    pub marks: BTreeMap<Name, Mark>,
}

/// The names of common types, each once, after those that its body names, or a name that reaches
/// itself.
pub(crate) fn order_of(
    alloc: Global,
    bodies: &BTreeMap<Name, &ResolvedType>,
    names: &[Name],
) -> Result<Result<Seq<Name>, Name>, AllocError>
    ensures { IfOk result (λ found. MatchResult found
        (λ order. All (Contains order) names.now × LeadsBack (references (body_in bodies.now.entries)) order
        × IsDistinct bytes_eq order)
        (λ name. Reaches (references (body_in bodies.now.entries)) name name)) }
{
    let mut search = Search {
        order: Vec::new(alloc),
        path: Vec::new(alloc),
        marks: BTreeMap::new(alloc),
    };
    for name in names {
        if let Some(cycle) = place(alloc, bodies, &mut search, name)? {
            return Ok(Err(cycle));
        }
    }
    Ok(Ok(Seq::from_vec(search.order)))
}

/// Gives a common type and all that it reaches their places, unless one of these reaches itself.
fn place(
    alloc: Global,
    bodies: &BTreeMap<Name, &ResolvedType>,
    search: &mut Search,
    start: &Name,
) -> Result<Option<Name>, AllocError>
    requires { IsRested (body_in bodies.now.entries) search.old }
    ensures { IfOk result (λ found. MatchOption found
        (IsRested (body_in bodies.now.entries) search.new × Contains search.new.order.items start.now
        × ((q : List ℕ) → Contains search.old.order.items q → Contains search.new.order.items q))
        (λ name. Reaches (references (body_in bodies.now.entries)) name name)) }
{
    if is_marked(&search.marks, start, Mark::Placed) {
        return Ok(None);
    }
    search.enter(alloc, bodies, start)?;
    while let Some(step) = search.path.pop() {
        if let Some(cycle) = go_on(alloc, bodies, search, step)? {
            return Ok(Some(cycle));
        }
    }
    Ok(None)
}

/// One step from the end of the path, which was taken off: to a common type that has no place yet,
/// or back, where all that the body names have theirs. The name of one that reaches itself if it is met.
fn go_on(
    alloc: Global,
    bodies: &BTreeMap<Name, &ResolvedType>,
    search: &mut Search,
    step: Step,
) -> Result<Option<Name>, AllocError>
    requires { IsSearch (body_in bodies.now.entries) search.old.order.items (search.old.path.items
        ++ step ∷ []) search.old.marks.entries }
    ensures { IfOk result (λ found. MatchOption found
        (GoesOn (body_in bodies.now.entries) search.old step search.new)
        (λ name. Reaches (references (body_in bodies.now.entries)) name name)) }
{
    let Step { name, next, placed } = step;
    let placed = skip_placed(&search.marks, next.as_slice(), placed);
    let Some(following) = next.get(placed) else {
        search.leave(alloc, name)?;
        return Ok(None);
    };
    let following = following.try_clone(alloc)?;
    if is_marked(&search.marks, &following, Mark::Open) {
        return Ok(Some(following));
    }
    search.path.push(Step { name, next, placed })?;
    search.enter(alloc, bodies, &following)?;
    Ok(None)
}

impl Search {
    /// Puts a common type at the end of the path.
    fn enter(
        &mut self,
        alloc: Global,
        bodies: &BTreeMap<Name, &ResolvedType>,
        name: &Name,
    ) -> Result<(), AllocError>
        ensures order { OnOk result (self.new.order.items ≡ self.old.order.items) }
        ensures path { OnOk result (self.new.path.items ≡ self.old.path.items
            ++ opened (body_in bodies.now.entries) name.now ∷ []) }
        ensures marks { OnOk result ((q : List ℕ) → mark_in self.new.marks.entries q
            ≡ marked_in self.old.marks.entries name.now Mark.Open q) }
    {
        self.path.push(Step {
            name: name.try_clone(alloc)?,
            next: references(alloc, bodies, name)?,
            placed: 0,
        })?;
        self.marks.insert(name.try_clone(alloc)?, Mark::Open)?;
        Ok(())
    }

    /// Gives a common type the next place.
    fn leave(&mut self, alloc: Global, name: Name) -> Result<(), AllocError>
        ensures order { OnOk result (self.new.order.items ≡ self.old.order.items ++ name ∷ []) }
        ensures path { OnOk result (self.new.path.items ≡ self.old.path.items) }
        ensures marks { OnOk result ((q : List ℕ) → mark_in self.new.marks.entries q
            ≡ marked_in self.old.marks.entries name Mark.Placed q) }
    {
        self.order.push(name.try_clone(alloc)?)?;
        self.marks.insert(name, Mark::Placed)?;
        Ok(())
    }
}

/// Whether a name has this mark.
fn is_marked(marks: &BTreeMap<Name, Mark>, name: &Name, mark: Mark) -> bool
    ensures { IsTrue result ↔ (mark_in marks.now.entries name.now ≡ Some mark) }
{
    match marks.get(name) {
        Some(found) => *found == mark,
        None => false,
    }
}

/// The next place of a name that isn't placed, or that of the end: all from the place given up to it
/// are placed.
fn skip_placed(marks: &BTreeMap<Name, Mark>, names: &[Name], from: usize) -> usize
    ensures over { (k : ℕ) (d : List ℕ) → from ≤ k → k < result
        → mark_in marks.now.entries (slice_index_or names.now k d) ≡ Some Mark.Placed }
    ensures stops { (name : List ℕ) → slice_get names.now result ≡ Some name
        → mark_in marks.now.entries name ≢ Some Mark.Placed }
{
    let mut at = from;
    while let Some(name) = names.get(at) {
        if !is_marked(marks, name, Mark::Placed) {
            return at;
        }
        at += 1;
    }
    at
}
