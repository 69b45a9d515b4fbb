//! What expressions are compiled in.
ghost use Rattle.std.specs.Prelude.{◌≡◌, [], IfOk, unwrap_or};
ghost use Rattle.std.specs.Option.{option_copied};
ghost use Rattle.sc_schema.specs.declared.ty.Ty.TheVariants.{Record};
ghost use Rattle.sc_sorts.specs.OfTypes.{sort_of as sort_of_type};
ghost use Rattle.sc_terms.specs.Tables.{Keeps};
ghost use Rattle.sc_constructs.specs.Objects as objects;
ghost use Rattle.sc_constructs.specs.Numbers.{HasVariables};

use sc_lists::Seq;
use sc_schema::{Env, Schema, Ty, context_of};
use sc_sorts::{Sort, entity_sort, sort_of};
use sc_terms::Terms;
use std::alloc::{AllocError, Global};

/// The variables of an environment's requests, by their numbers in a table. They are made once: the
/// sort of a context may be large, and stands in its term.
#[derive(Clone, Copy)]
pub struct Variables {
    /// Who asks.
    pub principal: u64,
    /// With what.
    pub resource: u64,
    /// What else is told.
    pub context: u64,
}

/// What expressions are compiled in.
#[derive(Clone, Copy)]
pub struct Setting<'s> {
    /// The allocator.
    pub alloc: Global,
    /// The schema.
    pub schema: &'s Schema,
    /// The environment of requests.
    pub env: &'s Env,
    /// Its variables.
    pub variables: Variables,
}

/// Makes the terms of an environment's variables. Terms of the table keep their numbers, also where
/// memory is wanted.
pub fn variables_of(
    alloc: Global,
    terms: &mut Terms,
    schema: &Schema,
    env: &Env,
) -> Result<Variables, AllocError>
    ensures ok { IfOk result (λ v. HasVariables terms.new schema.now env.now v) }
    ensures kept { Keeps terms.old terms.new }
{
    let sort = entity_sort(alloc, schema, &env.principal)?;
    let principal = terms.principal(sort)?;
    let sort = entity_sort(alloc, schema, &env.resource)?;
    let resource = terms.resource(sort)?;
    let sort = context_sort(alloc, schema, env)?;
    let context = terms.context(sort)?;
    Ok(Variables {
        principal,
        resource,
        context,
    })
}

/// The sort of an environment's contexts.
fn context_sort(alloc: Global, schema: &Schema, env: &Env) -> Result<Sort, AllocError>
    ensures { IfOk result (λ s. s ≡ objects.context_sort schema.now env.now) }
{
    record_sort(alloc, context_of(schema, &env.action))
}

/// The sort of a type, and of records without fields where there is none.
#[tactic(auto, using(sc_sorts::proofs::OfTypesLaws::sort_of_Record))]
pub fn record_sort(alloc: Global, ty: Option<&Ty>) -> Result<Sort, AllocError>
    ensures { IfOk result (λ s. s ≡ sort_of_type (unwrap_or (option_copied ty.entry) (Record []))) }
{
    match ty {
        Some(ty) => sort_of(alloc, ty),
        None => Ok(Sort::Record(Seq::new(alloc))),
    }
}
