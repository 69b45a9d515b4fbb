//! What the words and the files of a command give.
use sc_ast::PolicySet;
use sc_question::Question;
use sc_schema::Schema;
use sc_world::World;

/// What a command asks of which policies.
#[derive(Drop)]
pub struct Asking {
    /// The schema.
    pub schema: Schema,
    /// The question.
    pub question: Question,
    /// The policies.
    pub policies: PolicySet,
    /// The second set of policies, where the question takes two.
    pub against: Option<PolicySet>,
}

/// What a command asks, and how long it is looked for.
#[derive(Drop)]
pub struct Analysis {
    /// What is asked.
    pub asking: Asking,
    /// How many units of work each environment may take.
    pub budget: u64,
}

/// What a command replays: what the policies do in a world.
#[derive(Drop)]
pub struct Scene {
    /// The schema.
    pub schema: Schema,
    /// The policies.
    pub policies: PolicySet,
    /// The world.
    pub world: World,
}

/// What a command asks of one environment.
#[derive(Drop)]
pub struct Logging {
    /// What is asked, and how long it is looked for.
    pub analysis: Analysis,
    /// The environment's place among those of the schema, counted from 0.
    pub environment: u32,
}

/// What a log is to show.
#[derive(Drop)]
pub struct Claim<'w> {
    /// What is asked.
    pub asking: Asking,
    /// The environment's place among those of the schema, counted from 0.
    pub environment: u32,
    /// The name of the file with the log.
    pub log: &'w str,
}

/// What there is to do.
#[derive(Drop)]
pub enum Inputs<'w> {
    /// To ask a question of policies.
    Asked(Analysis),
    /// To tell what policies do in a world.
    Replayed(Scene),
    /// To write the log of an environment.
    Logged(Logging),
    /// To check a log of an environment.
    Checked(Claim<'w>),
    /// To find which policies of the first set do nothing, within a budget for each in each environment.
    Reduced(Analysis),
    /// To ask a question of so many generated policies.
    Generated(u64),
}
