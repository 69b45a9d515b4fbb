//! The texts of the policies.
ghost use Rattle.std.specs.Prelude.{◌≡◌, ◌≤◌, ◌++◌, IfOk, OnOk, string_bytes, reverse};
ghost use Rattle.std.specs.Fmt.{decimal};
ghost use Rattle.std.specs.List.{flat_map};
ghost use Rattle.sc_generated.specs.Generated.{opening, comparison, group, line, forward, backward};

use crate::draws::draws;
use itoa::Buffer;
use sc_lists::Text;
use std::alloc::{AllocError, Global};

/// Two texts of policies.
#[derive(Drop)]
pub struct Generated {
    /// The policies, one a line.
    pub forward: Text,
    /// The same policies in reverse order.
    pub backward: Text,
}

fn put_number(out: &mut String, number: u64) -> Result<(), AllocError>
    ensures { OnOk result (string_bytes out.new ≡ string_bytes out.old ++ decimal number) }
{
    let mut buffer = Buffer::new();
    out.push_str(buffer.format(number))
}

/// Puts what stands before the first number of a policy at the end.
#[tactic(auto, unfolding(crate::specs::Generated::opening))]
fn put_opening(out: &mut String) -> Result<(), AllocError>
    ensures { OnOk result (string_bytes out.new ≡ string_bytes out.old ++ opening) }
{
    out.push_str("permit(principal, action, resource) when { context.n + ")
}

/// Puts the comparison of a policy at the end, up to its second number.
fn put_comparison(out: &mut String, x: u64) -> Result<(), AllocError>
    ensures { OnOk result (string_bytes out.new ≡ string_bytes out.old ++ comparison x) }
{
    put_opening(out)?;
    put_number(out, x % 1000)?;
    out.push_str(" > ")?;
    put_number(out, x / 1000 % 1000)
}

/// Puts the group of a policy at the end, and what closes the policy.
fn put_group(out: &mut String, x: u64) -> Result<(), AllocError>
    ensures { OnOk result (string_bytes out.new ≡ string_bytes out.old ++ group x) }
{
    out.push_str(" && principal in Group::\"g")?;
    put_number(out, x / 1_000_000 % 7)?;
    out.push_str("\" };\n")
}

/// Puts the line of the policy of a number at the end.
#[tactic(auto, unfolding(crate::specs::Generated::line))]
fn put_line(out: &mut String, x: u64) -> Result<(), AllocError>
    ensures { OnOk result (string_bytes out.new ≡ string_bytes out.old ++ line x) }
{
    put_comparison(out, x)?;
    put_group(out, x)
}

/// The lines of the policies of these numbers.
fn lines(alloc: Global, numbers: &[u64]) -> Result<Text, AllocError>
    ensures { IfOk result (λ text. text ≡ flat_map line numbers.now) }
{
    let mut out = String::new(alloc);
    for x in numbers {
        put_line(&mut out, *x)?;
    }
    Text::from_string(out)
}

/// The texts of so many policies: in their order, and in reverse. Each policy permits where a number of the context and
/// one of 0 to 999 are together more than another of 0 to 999, and the principal is in one of seven groups; overflow
/// included, the two texts decide the same.
pub fn generate(alloc: Global, count: u64) -> Result<Generated, AllocError>
    requires size { count ≤ 1000 }
    ensures forward { IfOk result (λ texts. texts.forward ≡ forward count) }
    ensures backward { IfOk result (λ texts. texts.backward ≡ backward count) }
{
    let mut numbers = draws(alloc, count)?;
    let forward = lines(alloc, &numbers)?;
    numbers.reverse();
    let backward = lines(alloc, &numbers)?;
    Ok(Generated { forward, backward })
}
