//! What holds of the verdicts on logs.
ghost use Rattle.std.specs.Prelude.{ℕ, List};
ghost use Rattle.sc_checker.specs.declared.checking.Reason.{Reason as AnyReason};
ghost use Rattle.sc_schema.specs.declared.declarations.Env.{Env as AnyEnv};
ghost use Rattle.sc_reports.specs.Claims.{HasTextVerdict, IsShown};
ghost use Rattle.sc_reports.specs.Reports.{Asked};

use sc_checker::{Verdict, stream_laws};
use sc_solver::{Rules, accepted_law};

/// A text that is that of an accepted log of the environment's problem isn't rejected as one.
pub fn verdict_law()
    ensures { (q : Asked) (env : AnyEnv) (text : List ℕ) (step : ℕ) (why : AnyReason) → IsShown q env text
        → ¬ HasTextVerdict q env text (Verdict.Rejected step why) }
{
    stream_laws::<Rules>();
    accepted_law();
    let _rules = Rules::new();
}
