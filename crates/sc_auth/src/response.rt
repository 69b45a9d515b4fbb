//! Responses to requests.
use crate::decision::Decision;
use crate::standing::Standing;
use sc_lists::Seq;

/// What a policy set answers to a request. Policies are named by their places in the set, counted
/// from 0, in ascending order.
#[derive(Drop)]
pub struct Response {
    /// Whether the request is allowed.
    pub decision: Decision,
    /// The satisfied forbids where there are any, else the satisfied permits.
    pub determining: Seq<usize>,
    /// The policies whose conditions have no value.
    pub erroring: Seq<usize>,
    /// How each policy stands, in the order of the set.
    pub standings: Seq<Standing>,
}
