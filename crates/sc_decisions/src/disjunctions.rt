//! Long disjunctions, told by tables of two that lie inside one another.

use crate::definitions::Definitions;
use sc_clauses::Lit;
use std::alloc::{AllocError, Global};

/// How many literals a long disjunction has at least.
const SHORTEST: usize = 4;

/// Where the literals of a disjunction stand.
#[derive(Clone, Copy)]
pub(crate) struct Span {
    pub start: usize,
    pub end: usize,
}

/// A literal that is true exactly where one of others is.
#[derive(Clone, Copy)]
struct Disjunction {
    lit: Lit,
    span: Span,
}

/// Long disjunctions of literals whose atoms no table defines and more than one looks at.
#[derive(Drop)]
pub(crate) struct Disjunctions {
    /// The literals of all of them, one after the other.
    lits: Vec<Lit>,
    /// The one that an atom or its negation is, by the atom's number.
    atoms: Vec<Option<Disjunction>>,
    count: usize,
}

/// What takes disjunctions apart.
#[derive(Drop)]
struct Parts {
    /// The literals that are still to be taken apart, the last one first.
    left: Vec<Lit>,
    /// How many more may be.
    most: usize,
}

/// Marks the atom of a literal that is a disjunction of two.
fn mark(marks: &mut Vec<bool>, definitions: &Definitions, lit: Lit) {
    if definitions.disjuncts(lit).is_none() {
        return;
    }
    if let Some(slot) = marks.get_mut(lit.atom as usize) {
        *slot = true;
    }
}

/// Marks the disjunctions of two that stand in one.
fn mark_parts(marks: &mut Vec<bool>, definitions: &Definitions, lit: Lit) {
    if let Some((first, second)) = definitions.disjuncts(lit) {
        mark(marks, definitions, first);
        mark(marks, definitions, second);
    }
}

/// Which disjunctions of two stand in another one, by their atoms' numbers.
fn inner_ones(
    alloc: Global,
    cells: usize,
    definitions: &Definitions,
) -> Result<Vec<bool>, AllocError> {
    let mut marks = Vec::from_elem(alloc, false, cells)?;
    for atom in 0..cells {
        if let Some(lit) = definitions.disjunction(atom) {
            mark_parts(&mut marks, definitions, lit);
        }
    }
    Ok(marks)
}

/// Whether an atom is marked.
fn is_marked(marks: &[bool], atom: usize) -> bool {
    match marks.get(atom) {
        Some(mark) => *mark,
        None => false,
    }
}

/// Whether to try a literal: one that no table defines, and that more than one looks at, so that others depend on it.
fn is_case(definitions: &Definitions, lit: Lit) -> bool {
    !definitions.is_defined(lit) && definitions.is_shared(lit)
}

impl Disjunctions {
    /// Those that definitions of atoms below `cells` tell.
    pub fn new(
        alloc: Global,
        cells: usize,
        definitions: &Definitions,
    ) -> Result<Disjunctions, AllocError> {
        let mut disjunctions = Disjunctions {
            lits: Vec::new(alloc),
            atoms: Vec::from_elem(alloc, None, cells)?,
            count: 0,
        };
        let inner = inner_ones(alloc, cells, definitions)?;
        let mut parts = Parts {
            left: Vec::new(alloc),
            most: cells.saturating_mul(4),
        };
        for atom in 0..cells {
            if !is_marked(&inner, atom) {
                disjunctions.add(definitions, &mut parts, atom)?;
            }
        }
        Ok(disjunctions)
    }

    /// Adds the disjunction that an atom or its negation is, if it's a long one.
    fn add(
        &mut self,
        definitions: &Definitions,
        parts: &mut Parts,
        atom: usize,
    ) -> Result<(), AllocError> {
        let Some(lit) = definitions.disjunction(atom) else {
            return Ok(());
        };
        let span = self.spread(definitions, parts, lit)?;
        if span.end.saturating_sub(span.start) < SHORTEST {
            self.lits.truncate(span.start);
            return Ok(());
        }
        if let Some(slot) = self.atoms.get_mut(atom) {
            *slot = Some(Disjunction { lit, span });
            self.count = self.count.saturating_add(1);
        }
        Ok(())
    }

    /// Puts the literals of a disjunction behind the others; none if one of them is no case.
    fn spread(
        &mut self,
        definitions: &Definitions,
        parts: &mut Parts,
        lit: Lit,
    ) -> Result<Span, AllocError> {
        let start = self.lits.len();
        let none = Span { start, end: start };
        parts.left.clear();
        parts.left.push(lit)?;
        for _step in 0..parts.most {
            let Some(part) = parts.left.pop() else {
                break;
            };
            parts.most = parts.most.saturating_sub(1);
            if let Some((first, second)) = definitions.disjuncts(part) {
                parts.left.push(second)?;
                parts.left.push(first)?;
            } else if is_case(definitions, part) {
                self.lits.push(part)?;
            } else {
                return Ok(none);
            }
        }
        if !parts.left.is_empty() {
            return Ok(none);
        }
        Ok(Span {
            start,
            end: self.lits.len(),
        })
    }

    /// How many there are.
    pub fn len(&self) -> usize {
        self.count
    }

    /// Where the literals of a disjunction stand, if this literal is one.
    pub fn span(&self, lit: Lit) -> Option<Span> {
        match self.atoms.get(lit.atom as usize) {
            Some(Some(disjunction)) if disjunction.lit == lit => Some(disjunction.span),
            _ => None,
        }
    }

    /// The literal at a place.
    pub fn lit(&self, place: usize) -> Option<Lit> {
        match self.lits.get(place) {
            Some(lit) => Some(*lit),
            None => None,
        }
    }
}
