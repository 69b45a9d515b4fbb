//! The line of a decision.
ghost use Rattle.std.specs.Prelude.{◌≡◌, IfOk};
ghost use Rattle.sc_replay.specs.Reports.{decision_line};

use sc_auth::Decision;
use sc_lists::Text;
use std::alloc::{AllocError, Global};

/// The line of a decision, with its newline.
pub(crate) fn decision_line(alloc: Global, decision: Decision) -> Result<Text, AllocError>
    ensures { IfOk result (λ line. line ≡ decision_line decision) }
{
    match decision {
        Decision::Allow => Text::from_str(alloc, "decision Allow\n"),
        Decision::Deny => Text::from_str(alloc, "decision Deny\n"),
    }
}
