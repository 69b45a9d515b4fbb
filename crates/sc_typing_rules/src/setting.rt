//! What expressions are typed in.
use sc_schema::{Env, Schema};
use sc_typed::Capability;
use std::alloc::Global;

/// What expressions are typed in.
#[derive(Clone, Copy)]
pub struct Setting<'s> {
    /// The allocator.
    pub alloc: Global,
    /// The schema.
    pub schema: &'s Schema,
    /// The environment of requests.
    pub env: &'s Env,
    /// What is known wherever the expression is evaluated.
    pub known: &'s [Capability],
}
