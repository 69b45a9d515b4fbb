//! What can be reached from a node.
//!
//! A search puts what it finds on a list, and keeps for each node the place where it was put there. A
//! node is on the list if it stands at its place, whatever an earlier search left there, so nothing is
//! cleared between two searches. What a search costs depends on what it reaches alone, and not on how
//! large the graph is.
ghost use Rattle.std.specs.Prelude.{◌≡◌, ◌≤◌, ◌<◌, ◌||◌, ◌↔◌, ℕ, ◌∷◌, [], IsTrue, IfOk, OnOk, length, get_or, slice_get};
ghost use Rattle.std.specs.List.Sorted.{IsStrictlySortedBy};
ghost use Rattle.std.specs.Ordering.{nat_cmp};
ghost use Rattle.sc_graphs.specs.Reaching.{Reaches};
ghost use Rattle.sc_graphs.specs.Graphs.{has, successors, Follows};
ghost use Rattle.sc_graphs.specs.Searches.{is_put};

use crate::ascending::in_order;
use sc_lists::Seq;
use std::alloc::{AllocError, Global};

/// Searches for what can be reached from a node, one after another in the same memory.
#[derive(Drop)]
pub struct Reachability {
    /// Where each node that the graph lists was put when it was found last. Other nodes have no place:
    /// they lead nowhere, so they may be found again and again.
    places: Vec<usize>,
}

/// The nodes that follow a node; none where the graph doesn't list it.
pub(crate) fn successors(graph: &[Seq<usize>], node: usize) -> &[usize]
    ensures { result.now ≡ successors graph.now node }
{
    match graph.get(node) {
        Some(nodes) => nodes.as_slice(),
        None => &[],
    }
}

impl Reachability {
    /// No search yet, and no memory.
    pub fn new(alloc: Global) -> Reachability {
        Reachability {
            places: Vec::new(alloc),
        }
    }

    /// The nodes that can be reached from a node by one step or more, ascending, each once. The graph
    /// has at place n the nodes that follow node n.
    #[tactic(auto, using(crate::proofs::SearchLaws::searched_first, crate::proofs::SearchLaws::searched_next, crate::proofs::SearchLaws::searched_last))]
    pub fn of(
        &mut self,
        alloc: Global,
        graph: &[Seq<usize>],
        start: usize,
    ) -> Result<Seq<usize>, AllocError>
        ensures members { IfOk result (λ nodes. (n : ℕ) → IsTrue (has nodes n) ↔ Reaches (Follows graph.now) start n) }
        ensures ascending { IfOk result (λ nodes. IsStrictlySortedBy nat_cmp nodes) }
    {
        self.places.resize(graph.len(), 0)?;
        let mut order = Vec::new(alloc);
        self.visit(&mut order, successors(graph, start))?;
        let mut at = 0;
        while at < order.len() {
            let node = order[at];
            self.visit(&mut order, successors(graph, node))?;
            at += 1;
        }
        let nodes = in_order(alloc, order, graph.len())?;
        Ok(nodes)
    }

    /// Puts nodes on the list of what is found.
    fn visit(&mut self, order: &mut Vec<usize>, nodes: &[usize]) -> Result<(), AllocError>
        ensures more { OnOk result (length order.old.items ≤ length order.new.items) }
        ensures kept { OnOk result ((k : ℕ) → k < length order.old.items
            → get_or order.new.items k 0 ≡ get_or order.old.items k 0) }
        ensures members { OnOk result ((n : ℕ) → has order.new.items n
            ≡ (has order.old.items n || has nodes.now n)) }
    {
        for node in nodes {
            self.put(order, *node)?;
        }
        Ok(())
    }

    /// Puts a node on the list of what is found, unless it has a place there.
    #[tactic(auto, using(crate::proofs::SearchLaws::has_already))]
    fn put(&mut self, order: &mut Vec<usize>, node: usize) -> Result<(), AllocError>
        ensures more { OnOk result (length order.old.items ≤ length order.new.items) }
        ensures kept { OnOk result ((k : ℕ) → k < length order.old.items
            → get_or order.new.items k 0 ≡ get_or order.old.items k 0) }
        ensures members { OnOk result ((n : ℕ) → has order.new.items n
            ≡ (has order.old.items n || has (node ∷ []) n)) }
    {
        if self.is_put(order.as_slice(), node) {
            return Ok(());
        }
        if node < self.places.len() {
            self.places[node] = order.len();
        }
        order.push(node)?;
        Ok(())
    }

    /// Whether a node stands on a list at its place.
    fn is_put(&self, order: &[usize], node: usize) -> bool
        ensures { result ≡ is_put order.now node (slice_get self.now.places.items node) }
    {
        let Some(place) = self.places.get(node) else {
            return false;
        };
        match order.get(*place) {
            Some(found) => *found == node,
            None => false,
        }
    }
}
