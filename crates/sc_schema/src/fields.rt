//! Named fields that copies share, and how a name is looked up among them.
ghost use Rattle.std.specs.Prelude.{◌≡◌, ◌↔◌, map, find, IfOk, IfErr, IsTrue};
ghost use Rattle.std.specs.List.Sorted.{IsStrictlySortedBy};
ghost use Rattle.std.specs.Option.{option_copied};
ghost use Rattle.std.specs.Str.{bytes_eq};
ghost use Rattle.sc_lists.specs.Ordered.{StandsAt, BelongsAt};
ghost use Rattle.sc_names.specs.Uids.{text_cmp};

use sc_lists::{Seq, Shared, Text};
use std::alloc::{AllocError, Global};
use std::marker::Model;

/// Named fields in their order, which contracts see as their list. Copies share them. A name is looked up by halves
/// where the names ascend, each once.
#[derive(Drop)]
pub struct Fields<P, T> {
    list: Shared<Seq<(Text, P, T)>>,
    /// Whether the names ascend, each once.
    ascending: bool,
}

impl<P, T> Model for Fields<P, T> {
    ghost use Rattle.std.specs.Prelude.{ℕ, List, IsTrue, map, refl};
    ghost use Rattle.std.specs.Coded.{coded_ℕ, coded_list, coded×, code_by};
    ghost use Rattle.std.specs.List.Sorted.{IsStrictlySortedBy};
    ghost use Rattle.sc_names.specs.Uids.{text_cmp};

    ghost Value = { List (List ℕ × P × T) };

    ghost coded = { coded_list (code_by _ (coded× (coded_list coded_ℕ) (coded× P.code T.code)) (λ f. (f.0, (f.1, f.2)))
        (λ p. (p.0, p.1.0, p.1.1)) (λ f. refl)) };

    ghost view = { λ s. s.list };

    ghost invariant = { λ s. IsTrue s.ascending → IsStrictlySortedBy text_cmp (map (λ f. f.0) s.list) };
}

/// Whether the names of fields ascend, each once.
fn are_ascending<P, T>(fields: &[(Text, P, T)]) -> bool
    ensures { IsTrue result ↔ IsStrictlySortedBy text_cmp (map (λ f. f.0) fields.now) }
{
    fields.is_sorted_by(|a, b| a.0.cmp(&b.0).is_lt())
}

/// Where a name stands among names that ascend, counted from 0, or before which place it belongs.
fn place<P, T>(fields: &[(Text, P, T)], name: &Text) -> Result<usize, usize>
    requires { IsStrictlySortedBy text_cmp (map (λ f. f.0) fields.now) }
    ensures found { IfOk result (StandsAt text_cmp (map (λ f. f.0) fields.now) name.now) }
    ensures absent { IfErr result (BelongsAt text_cmp (map (λ f. f.0) fields.now) name.now) }
{
    fields.binary_search_by(|field| field.0.cmp(name))
}

impl<P, T> Fields<P, T> {
    /// The fields, in order.
    pub fn as_slice(&self) -> &[(Text, P, T)]
        ensures { result.now ≡ self.now }
    {
        self.list.as_slice()
    }

    /// The first field of a name.
    pub fn find(&self, name: &Text) -> Option<&(Text, P, T)>
        ensures { option_copied result ≡ find (λ f. bytes_eq name.now f.0) self.now }
    {
        let fields = self.list.get();
        if !self.ascending {
            return fields
                .as_slice()
                .iter()
                .find(|field| name.is_same(&field.0));
        }
        match place(fields.as_slice(), name) {
            Ok(at) => fields.get(at),
            Err(_) => None,
        }
    }
}

impl<P: Drop, T: Drop> Fields<P, T> {
    /// These fields, which copies share from here on.
    pub fn new(alloc: Global, fields: Seq<(Text, P, T)>) -> Result<Fields<P, T>, AllocError>
        ensures { IfOk result (λ f. f ≡ fields) }
    {
        let ascending = are_ascending(fields.as_slice());
        Ok(Fields {
            list: Shared::new(alloc, fields)?,
            ascending,
        })
    }

    /// A copy, which equals the fields and shares them.
    pub fn try_clone(&self) -> Result<Fields<P, T>, AllocError>
        ensures { IfOk result (λ f. f ≡ self.now) }
    {
        Ok(Fields {
            list: self.list.try_clone()?,
            ascending: self.ascending,
        })
    }
}
