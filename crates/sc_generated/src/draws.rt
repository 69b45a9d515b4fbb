//! Pseudo-random numbers, the same from the same first number.
ghost use Rattle.std.specs.Prelude.{◌≡◌, ◌<◌, IfOk};
ghost use Rattle.sc_generated.specs.Generated.{step, draws};

use std::alloc::{AllocError, Global};

/// The number after this one (a linear congruential generator of 32 bits).
fn next(x: u64) -> u64
    requires { x < 4294967296 }
    ensures step { result ≡ step x }
    ensures small { result < 4294967296 }
{
    (x * 1_664_525 + 1_013_904_223) % 4_294_967_296
}

/// So many numbers after their own count.
#[tactic(auto, using(crate::proofs::GeneratedLaws::drawn_first, crate::proofs::GeneratedLaws::drawn_next, crate::proofs::GeneratedLaws::draws_none, crate::proofs::GeneratedLaws::draws_more))]
pub(crate) fn draws(alloc: Global, count: u64) -> Result<Vec<u64>, AllocError>
    requires { count < 4294967296 }
    ensures { IfOk result (λ xs. xs.items ≡ draws count count) }
{
    let mut drawn = Vec::new(alloc);
    let mut x = count;
    for _ in 0..count {
        x = next(x);
        drawn.push(x)?;
    }
    Ok(drawn)
}
