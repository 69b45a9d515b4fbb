//! Laws of the order of sorts.
ghost use Rattle.std.specs.Prelude.{◌≡◌, ◌↔◌, true};
ghost use Rattle.std.specs.Cmp.{IsTotalOrder};
ghost use Rattle.std.specs.declared.cmp.Ordering.TheVariants.{Equal};
ghost use Rattle.sc_sorts.specs.declared.sort.Sort.{Sort as AnySort, out-Sort};
ghost use Rattle.sc_sorts.specs.contracts.sort.SortPartialEq.TheImpl.{ghosts as equality};
ghost use Rattle.sc_sorts.specs.Order.{sort_cmp, by_kind};

/// The order of sorts is the one by kind and then by what they are made of; it is total, two sorts
/// are level in it exactly where they are one, and so are sorts that `==` finds equal.
pub fn sort_laws()
    ensures by_kind { (a b : AnySort) → sort_cmp a b ≡ by_kind (out-Sort a) (out-Sort b) }
    ensures total { IsTotalOrder sort_cmp }
    ensures level { (a b : AnySort) → sort_cmp a b ≡ Equal ↔ a ≡ b }
    ensures same { (a b : AnySort) → equality.eq a b ≡ true ↔ a ≡ b }
{}
