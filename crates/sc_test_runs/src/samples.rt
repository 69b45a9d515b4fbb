//! Words, policies and lines that many tests share.

/// Whether policies never allow.
pub const DENIES: &str = "analyse --schema s --policies p --query always-denies --budget 10000";

pub const REPLAYS: &str = "replay --schema s --policies p --world w";

pub const PERMIT_ALL: &str = "permit(principal, action, resource);";

pub const PERMIT: &str = "permit(principal, action, resource) when { context.mfa };";

pub const OF_AGE: &str = "permit(principal, action, resource) when { context.age };";

/// Each of the four values of two attributes is excluded.
pub const CONTRADICTION: &str =
    "permit(principal, action, resource) when { (context.x || context.y) && (context.x || !context.y) && (!context.x || context.y) && (!context.x || !context.y) };";

pub const HOLDS: &str = "env User Action::\"view\" Doc: holds";

pub const OF_USER: &str =
    r#"env User Action::"view" Doc: counterexample {"entities":[{"attrs":{},"parents":[],"tags":{},"uid":{"id":"view","type":"Action"}},{"attrs":{},"parents":[],"tags":{},"uid":{"id":"0","type":"Doc"}},{"attrs":{},"parents":[],"tags":{},"uid":{"id":"0","type":"User"}}],"request":{"action":{"id":"view","type":"Action"},"context":{"mfa":true},"principal":{"id":"0","type":"User"},"resource":{"id":"0","type":"Doc"}}}"#;

/// The same with the truth value that a context has by default.
pub const OF_USER_BY_DEFAULT: &str =
    r#"env User Action::"view" Doc: counterexample {"entities":[{"attrs":{},"parents":[],"tags":{},"uid":{"id":"view","type":"Action"}},{"attrs":{},"parents":[],"tags":{},"uid":{"id":"0","type":"Doc"}},{"attrs":{},"parents":[],"tags":{},"uid":{"id":"0","type":"User"}}],"request":{"action":{"id":"view","type":"Action"},"context":{"mfa":false},"principal":{"id":"0","type":"User"},"resource":{"id":"0","type":"Doc"}}}"#;
