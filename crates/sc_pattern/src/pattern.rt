//! Patterns.
ghost use Rattle.std.specs.Prelude.{◌≡◌, ◌++◌, IfOk, OnOk};

use crate::part::Part;
use sc_lists::Seq;
use std::alloc::{AllocError, Global};
use std::marker::Model;

/// A pattern of the operator `like`: its parts, in order.
#[derive(Debug, PartialEq, Eq, PartialOrd, Ord, Drop)]
pub struct Pattern {
    parts: Seq<Part>,
}

impl Model for Pattern {
    ghost use Rattle.std.specs.Prelude.{List};
    ghost use Rattle.sc_pattern.specs.declared.part.Part.{Part as AnyPart};

    ghost Value = { List AnyPart };

    ghost view = { λ p. p.parts };

    ghost inverse = { λ ps. record { parts = ps } };
}

impl Pattern {
    /// The pattern's parts, in order.
    pub fn parts(&self) -> &[Part]
        ensures { result.now ≡ self.now }
    {
        self.parts.as_slice()
    }

    /// A copy, which equals the pattern.
    pub fn try_clone(&self, alloc: Global) -> Result<Pattern, AllocError>
        ensures { IfOk result (λ pattern. pattern ≡ self.now) }
    {
        pattern_of(alloc, self.parts())
    }
}

/// The pattern of these parts.
pub fn pattern_of(alloc: Global, parts: &[Part]) -> Result<Pattern, AllocError>
    ensures { IfOk result (λ pattern. pattern ≡ parts.now) }
{
    let mut copy = Seq::new(alloc);
    for part in parts {
        copy.push(*part)?;
    }
    Ok(Pattern { parts: copy })
}
