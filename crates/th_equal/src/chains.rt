//! EQ1 by what is known of each two strings and entities.
ghost use Rattle.std.specs.Prelude.{◌≡◌, ◌<◌, length, get_or, IfOk, IfSome, IfNone, true};
ghost use Rattle.sc_rule_instances.specs.Instances.{equal_said};
ghost use Rattle.sc_rule_instances.specs.Known.{is_falsified};
ghost use Rattle.th_equal.specs.Naming.{IsChainFree};

use crate::joining::item_labels;
use crate::named::{Named, named_numbers};
use sc_clauses::Assignment;
use sc_falsified::intransitive_among;
use sc_footprint::Problem;
use sc_rule_instances::EqualRule;
use std::alloc::{AllocError, Global};

/// The number at a place.
fn number_at(numbers: &[u64], place: usize) -> u64
    requires { place < length numbers.now }
    ensures { result ≡ get_or numbers.now place 0 }
{
    numbers[place]
}

/// An instance of EQ1 that an assignment falsifies; none where there is none.
pub fn broken_chain(
    alloc: Global,
    problem: &Problem<'_>,
    m: &Assignment,
) -> Result<Option<EqualRule>, AllocError>
    ensures found { IfOk result (λ o. IfSome o (λ rule. is_falsified problem.now m.now (equal_said problem.now rule)
        ≡ true)) }
    ensures none { IfOk result (λ o. IfNone o (IsChainFree problem.now m.now)) }
{
    problem.laws();
    let numbers = named_numbers(alloc, problem)?;
    let named = Named {
        problem,
        m,
        numbers,
    };
    let labels = item_labels(alloc, &named)?;
    match intransitive_among(alloc, &named, labels.as_slice())? {
        Some((i, j, k)) => {
            let a = number_at(named.numbers.as_slice(), i);
            let b = number_at(named.numbers.as_slice(), j);
            let c = number_at(named.numbers.as_slice(), k);
            Ok(Some(EqualRule::Eq1(a, b, c)))
        }
        None => Ok(None),
    }
}
