//! Commands.
use sc_question::Question;

/// What the program is asked to do.
#[derive(Clone, Copy, PartialEq, Eq)]
pub enum Command<'w> {
    /// To ask a question of policies.
    Analyse(Analyse<'w>),
    /// To tell what policies do in one world.
    Replay(Replay<'w>),
    /// To write the log that shows the answer to a question in one environment.
    Log(Log<'w>),
    /// To check a log that was written so.
    Check(Check<'w>),
    /// To find which policies of a set do nothing.
    Reduce(Reduce<'w>),
    /// To ask a question of policies that are made for it.
    Generate(Generate),
}

/// A question, and the policies that it is asked of.
#[derive(Clone, Copy, PartialEq, Eq)]
pub struct Asked<'w> {
    /// The name of the schema file.
    pub schema: &'w str,
    /// The name of the policy file.
    pub policies: &'w str,
    /// The name of the second policy file, where the question is asked of two sets.
    pub against: Option<&'w str>,
    /// The question.
    pub question: Question,
}

/// The command to ask a question of policies.
#[derive(Clone, Copy, PartialEq, Eq)]
pub struct Analyse<'w> {
    /// What is asked.
    pub asked: Asked<'w>,
    /// How many units of work each environment may take, from 1 to 1,000,000,000.
    pub budget: u64,
}

/// The command to tell what policies do in one world.
#[derive(Clone, Copy, PartialEq, Eq)]
pub struct Replay<'w> {
    /// The name of the schema file.
    pub schema: &'w str,
    /// The name of the policy file.
    pub policies: &'w str,
    /// The name of the file with the world.
    pub world: &'w str,
}

/// The command to write the log that shows the answer to a question in one environment.
#[derive(Clone, Copy, PartialEq, Eq)]
pub struct Log<'w> {
    /// What is asked.
    pub asked: Asked<'w>,
    /// How many units of work the environment may take, from 1 to 1,000,000,000.
    pub budget: u64,
    /// Which environment of the schema, counted from 0.
    pub environment: u32,
}

/// The command to check a log that was written so.
#[derive(Clone, Copy, PartialEq, Eq)]
pub struct Check<'w> {
    /// What is asked.
    pub asked: Asked<'w>,
    /// Which environment of the schema, counted from 0.
    pub environment: u32,
    /// The name of the file with the log.
    pub log: &'w str,
}

/// The command to find which policies of a set do nothing.
#[derive(Clone, Copy, PartialEq, Eq)]
pub struct Reduce<'w> {
    /// What is asked of the policies and of fewer of them: whether they are equivalent. There is no second file.
    pub asked: Asked<'w>,
    /// How many units of work each policy may take in each environment, from 1 to 1,000,000,000.
    pub budget: u64,
}

/// The command to ask whether generated policies are equivalent to the same in reverse order.
#[derive(Clone, Copy, PartialEq, Eq)]
pub struct Generate {
    /// How many policies there are, from 1 to 1,000.
    pub size: u64,
}
