//! The lines of policies: how each one stands in a world.
ghost use Rattle.std.specs.Prelude.{◌≡◌, ◌++◌, codes, string_bytes, IfOk, OnOk};
ghost use Rattle.sc_replay.specs.Reports.{error_name};
ghost use Rattle.sc_replay.specs.Lines.{standing_text, standing_line, standing_lines};

use itoa::Buffer;
use sc_auth::Standing;
use sc_eval::EvalError;
use sc_lists::{Seq, Text};
use std::alloc::{AllocError, Global};

fn error_name(error: EvalError) -> &'static str
    ensures { result.now ≡ error_name error }
{
    match error {
        EvalError::TypeError => "TypeError",
        EvalError::Overflow => "Overflow",
        EvalError::EntityMissing => "EntityMissing",
        EvalError::AttrMissing => "AttrMissing",
        EvalError::TagMissing => "TagMissing",
        EvalError::BadText => "BadText",
    }
}

fn put_error(line: &mut String, error: EvalError) -> Result<(), AllocError>
    ensures { OnOk result (string_bytes line.new ≡ string_bytes line.old ++ (codes "errs " ++ error_name error)) }
{
    line.push_str("errs ")?;
    line.push_str(error_name(error))
}

/// Puts how a policy stands at the end of its line.
fn put_standing(line: &mut String, standing: Standing) -> Result<(), AllocError>
    ensures { OnOk result (string_bytes line.new ≡ string_bytes line.old ++ standing_text standing) }
{
    match standing {
        Standing::Satisfied => line.push_str("satisfied"),
        Standing::Unsatisfied => line.push_str("not satisfied"),
        Standing::Errs(error) => put_error(line, error),
    }
}

/// The line of the policy at a place, with its newline.
#[tactic(auto, unfolding(crate::specs::Lines::standing_line))]
fn policy_line(alloc: Global, place: usize, standing: Standing) -> Result<Text, AllocError>
    ensures { IfOk result (λ line. line ≡ standing_line place standing) }
{
    let mut line = String::from_str(alloc, "policy")?;
    let mut buffer = Buffer::new();
    line.push_str(buffer.format(place))?;
    line.push_str(" ")?;
    put_standing(&mut line, standing)?;
    line.push_str("\n")?;
    Text::from_string(line)
}

/// Puts the lines of policies, which stand so, behind others, in their order.
pub(crate) fn put_policies(
    alloc: Global,
    lines: &mut Seq<Text>,
    standings: &[Standing],
) -> Result<(), AllocError>
    ensures { OnOk result (lines.new ≡ lines.old ++ standing_lines 0 standings.now) }
{
    for (place, standing) in standings.iter().enumerate() {
        lines.push(policy_line(alloc, place, *standing)?)?;
    }
    Ok(())
}
