//! Names of fields.
ghost use Rattle.std.specs.Prelude.{◌↔◌, All, IsTrue};
ghost use Rattle.std.specs.List.Sorted.{IsStrictlySortedBy};
ghost use Rattle.std.specs.Map.{keys_of};
ghost use Rattle.std.specs.Str.{IsUtf8};
ghost use Rattle.sc_names.specs.Uids.{text_cmp};
ghost use Rattle.sc_term_laws.specs.LawfulSorts.{AreNames, IsNamed};

use sc_lists::{Text, pairs};

/// Whether names ascend, each once. They are texts by their type.
pub(crate) fn are_names<V>(named: &[(Text, V)]) -> bool
    ensures { IsTrue result ↔ AreNames (keys_of named.now) }
{
    let ascending = do_ascend(named);
    let texts = are_texts(named);
    ascending && texts
}

fn do_ascend<V>(named: &[(Text, V)]) -> bool
    ensures { IsTrue result ↔ IsStrictlySortedBy text_cmp (keys_of named.now) }
{
    pairs::ascending(named)
}

fn are_texts<V>(named: &[(Text, V)]) -> bool
    ensures { IsTrue result ↔ All IsNamed named.now }
{
    named.iter().all(|one| is_named(one))
}

#[tactic(auto, unfolding(crate::specs::LawfulSorts::IsNamed))]
fn is_named<V>(one: &(Text, V)) -> bool
    ensures { IsTrue result ↔ IsNamed one.now }
{
    is_text(&one.0)
}

pub(crate) fn is_text(text: &Text) -> bool
    ensures { IsTrue result ↔ IsUtf8 text.now }
{
    let _text = text.as_str();
    true
}
