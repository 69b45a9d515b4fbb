//! Reads what a command names.
ghost use Rattle.std.specs.Prelude.{◌≡◌, ◌<◌, ◌≤◌, ℕ, List, Option, IfOk, IfErr, OnOk, option_map};
ghost use Rattle.sc_outside.specs.Failures.{FailsAt};
ghost use Rattle.sc_command.specs.CommandLine.{words_view};
ghost use Rattle.sc_schema.specs.Declarations.{Declarations};
ghost use Rattle.sc_inputs.specs.Serving.{Command as AnyServed, Serves, aim_view, served_view};
ghost use Rattle.sc_inputs.specs.Readings.{FailsWith, ReadsAsking, ReadsInputs, ReadsRest, RefusesAsking, IsRead, IsUnread};
ghost use Rattle.sc_inputs.specs.Refusals.{AreServed, HasAgainst, HasEnvironment, HasPolicies, IsRefusal, ReadsSchema};

use crate::checks::{check_place, check_question};
use crate::files::{content_of, schema_in};
use crate::inputs::{Analysis, Asking, Claim, Inputs, Logging};
use crate::policy_reading::sets_of;
use crate::refusal::{FileName, Refusal};
use crate::serving::{Aim, Served, Task, Work, work_of};
use crate::world_reading::scene_of;
use sc_ast::PolicySet;
use sc_lists::Fault;
use sc_outside::Files;
use sc_question::Question;
use sc_schema::Schema;
use std::alloc::Global;

/// The policy sets of a question, where the schema is read.
fn checked_sets<F: Files>(
    alloc: Global,
    files: &mut F,
    policies: &str,
    against: Option<&str>,
    aim: Aim<'_>,
    schema: &Schema,
) -> Result<(PolicySet, Option<PolicySet>), Fault<Refusal>>
    ensures first { IfOk result (λ sets. HasPolicies (F.content files.old) policies.now sets.0) }
    ensures second { IfOk result (λ sets. HasAgainst (F.content files.old)
        (option_map (λ n. n.now) against.entry) sets.1) }
    ensures served { IfOk result (λ sets. AreServed schema.now sets.0 sets.1) }
    ensures environment { OnOk result (HasEnvironment schema.now (aim_view aim.entry)) }
    ensures fails { IfErr result (FailsWith (RefusesAsking (F.content files.old) policies.now (option_map
        (λ n. n.now) against.entry) (aim_view aim.entry) (FailsAt F.Files files.old files.new) schema.now)) }
    ensures keeps { (other : List ℕ) → F.content files.new other ≡ F.content files.old other }
    ensures later { F.faults files.old ≤ F.faults files.new }
    ensures told { F.faults files.old < F.faults files.new → IsUnread result }
{
    match sets_of(alloc, files, policies, against) {
        Ok((policies, others)) => match check_question(alloc, schema, &policies, others.as_ref()) {
            Ok(()) => match check_place(schema, aim) {
                Ok(()) => Ok((policies, others)),
                Err(fault) => Err(fault),
            },
            Err(fault) => Err(fault),
        },
        Err(fault) => Err(fault),
    }
}

/// What is asked for an aim, where the schema is read.
fn asking_of<F: Files>(
    alloc: Global,
    files: &mut F,
    policies: &str,
    question: Question,
    against: Option<&str>,
    aim: Aim<'_>,
    schema: Schema,
) -> Result<Asking, Fault<Refusal>>
    ensures schema { IfOk result (λ i. i.schema ≡ schema) }
    ensures question { IfOk result (λ i. i.question ≡ question) }
    ensures first { IfOk result (λ i. HasPolicies (F.content files.old) policies.now i.policies) }
    ensures second { IfOk result (λ i. HasAgainst (F.content files.old) (option_map (λ n. n.now) against.entry)
        i.against) }
    ensures served { IfOk result (λ i. AreServed schema i.policies i.against) }
    ensures environment { OnOk result (HasEnvironment schema (aim_view aim.entry)) }
    ensures fails { IfErr result (FailsWith (RefusesAsking (F.content files.old) policies.now (option_map
        (λ n. n.now) against.entry) (aim_view aim.entry) (FailsAt F.Files files.old files.new) schema)) }
    ensures keeps { (other : List ℕ) → F.content files.new other ≡ F.content files.old other }
    ensures later { F.faults files.old ≤ F.faults files.new }
    ensures told { F.faults files.old < F.faults files.new → IsUnread result }
{
    match checked_sets(alloc, files, policies, against, aim, &schema) {
        Ok((policies, others)) => Ok(Asking {
            schema,
            question,
            policies,
            against: others,
        }),
        Err(fault) => Err(fault),
    }
}

/// What there is to do for an aim.
fn for_aim<'w>(asking: Asking, aim: Aim<'w>) -> Inputs<'w>
    ensures { (content : List ℕ → Option (List ℕ)) (c : AnyServed) (s : Declarations)
        → ReadsAsking content c s (aim_view aim.entry) asking → ReadsRest content c s result }
{
    match aim {
        Aim::Report(budget) => Inputs::Asked(Analysis { asking, budget }),
        Aim::Log(budget, environment) => Inputs::Logged(Logging {
            analysis: Analysis { asking, budget },
            environment,
        }),
        Aim::Check(environment, log) => Inputs::Checked(Claim {
            asking,
            environment,
            log,
        }),
        Aim::Reduce(budget) => Inputs::Reduced(Analysis { asking, budget }),
    }
}

/// The inputs, where the schema is read.
fn with_schema<'w, F: Files>(
    alloc: Global,
    files: &mut F,
    command: &Served<'w>,
    schema: Schema,
) -> Result<Inputs<'w>, Fault<Refusal>>
    ensures reads { IfOk result (ReadsRest (F.content files.old) (served_view command.now) schema) }
    ensures fails { IfErr result (λ fault. (words : List (List ℕ)) → Serves words (served_view command.now)
        → ReadsSchema (F.content files.old) (served_view command.now) schema
        → FailsWith (IsRefusal (F.content files.old) words (FailsAt F.Files files.old files.new)) fault) }
    ensures keeps { (other : List ℕ) → F.content files.new other ≡ F.content files.old other }
    ensures later { F.faults files.old ≤ F.faults files.new }
    ensures told { F.faults files.old < F.faults files.new → IsUnread result }
{
    match command.task {
        Task::Ask(question, against, aim) => {
            match asking_of(
                alloc,
                files,
                command.policies,
                question,
                against,
                aim,
                schema,
            ) {
                Ok(asking) => Ok(for_aim(asking, aim)),
                Err(fault) => Err(fault),
            }
        }
        Task::Replay(world) => match scene_of(alloc, files, command.policies, world, schema) {
            Ok(scene) => Ok(Inputs::Replayed(scene)),
            Err(fault) => Err(fault),
        },
    }
}

/// The inputs of a command.
fn with_command<'w, F: Files>(
    alloc: Global,
    files: &mut F,
    command: &Served<'w>,
) -> Result<Inputs<'w>, Fault<Refusal>>
    ensures reads { IfOk result (ReadsInputs (F.content files.old) (served_view command.now)) }
    ensures fails { IfErr result (λ fault. (words : List (List ℕ)) → Serves words (served_view command.now)
        → FailsWith (IsRefusal (F.content files.old) words (FailsAt F.Files files.old files.new)) fault) }
    ensures keeps { (other : List ℕ) → F.content files.new other ≡ F.content files.old other }
    ensures later { F.faults files.old ≤ F.faults files.new }
    ensures told { F.faults files.old < F.faults files.new → IsUnread result }
{
    match content_of(alloc, files, command.schema, FileName::Schema) {
        Ok(bytes) => match schema_in(alloc, &bytes) {
            Ok(schema) => with_schema(alloc, files, command, schema),
            Err(fault) => Err(fault),
        },
        Err(fault) => Err(fault),
    }
}

/// The inputs that the words and the files give.
pub fn inputs_of<'w, F: Files>(
    alloc: Global,
    words: &'w [String],
    files: &mut F,
) -> Result<Inputs<'w>, Fault<Refusal>>
    ensures reads { IfOk result (IsRead (F.content files.old) (words_view words.now)) }
    ensures fails { IfErr result (FailsWith (IsRefusal (F.content files.old) (words_view words.now)
        (FailsAt F.Files files.old files.new))) }
    ensures keeps { (other : List ℕ) → F.content files.new other ≡ F.content files.old other }
    ensures later { F.faults files.old ≤ F.faults files.new }
    ensures told { F.faults files.old < F.faults files.new → IsUnread result }
{
    match work_of(alloc, words) {
        Ok(Some(Work::OnFiles(command))) => with_command(alloc, files, &command),
        Ok(Some(Work::Generate(size))) => Ok(Inputs::Generated(size)),
        Ok(None) => Err(Fault::Told(Refusal::Usage)),
        Err(_) => Err(Fault::NoMemory),
    }
}
