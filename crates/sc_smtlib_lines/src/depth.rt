//! How deep sorts are.
ghost use Rattle.std.specs.Prelude.{◌≡◌, ℕ, List, map};
ghost use Rattle.sc_sorts.specs.declared.sort.Sort.{Sort as AnySort};
ghost use Rattle.sc_smtlib_lines.specs.Depths as depths;

use sc_lists::{Seq, Text};
use sc_sorts::Sort;

fn deeper(n: u64) -> u64
    ensures { result ≡ depths.deeper n }
{
    if n < u64::MAX { n + 1 } else { n }
}

/// 0 of a sort that is made of no others, else one more than that of its deepest part.
#[cycle(depth)]
#[tactic(auto, using(crate::proofs::DepthLaws::depth_Bool, crate::proofs::DepthLaws::depth_Long, crate::proofs::DepthLaws::depth_String, crate::proofs::DepthLaws::depth_Decimal, crate::proofs::DepthLaws::depth_Ip, crate::proofs::DepthLaws::depth_Entity, crate::proofs::DepthLaws::depth_Set, crate::proofs::DepthLaws::depth_Record, crate::proofs::DepthLaws::depth_Option))]
pub(crate) fn depth(sort: &Sort) -> u64
    ensures { result ≡ depths.depth sort.now }
{
    match sort {
        Sort::Bool => 0,
        Sort::Long => 0,
        Sort::String => 0,
        Sort::Decimal => 0,
        Sort::Ip => 0,
        Sort::Entity(_, _) => 0,
        Sort::Set(member) => deeper(depth(member.get())),
        Sort::Record(fields) => deepest(fields),
        Sort::Option(held) => deeper(depth(held.get())),
    }
}

#[cycle(depth)]
fn deepest(fields: &Seq<(Text, Sort)>) -> u64
    ensures { result ≡ depths.deepest (map (λ (f : List ℕ × AnySort). depths.depth f.1) fields.now) }
{
    let mut most = 0;
    for field in fields.as_slice() {
        most = most.max(deeper(depth(&field.1)));
    }
    most
}
