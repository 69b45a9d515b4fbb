//! The least node that lies on a cycle, by one search for all nodes.
//!
//! The search goes along a path, and joins the end of the path to one part whenever it comes back to
//! a node on it, so the nodes of a part all reach one another. A part that leads to nothing but nodes
//! that were left before is left itself: if no cycle was met in it, none goes through it. Each node is
//! put on the path once and each of a node's successors waits once, so the cost is linear in both.
ghost use Rattle.std.specs.Prelude.{◌≡◌, ◌≢◌, ◌<◌, ◌≤◌, ◌++◌, ◌∷◌, [], ℕ, suc, List, Bool, true, length, take, IfOk, IfSome, IfNone, OnOk, nat_eq, if◌then◌else◌};
ghost use Rattle.std.specs.Ordering.{nat_cmp};
ghost use Rattle.sc_graphs.specs.Reaching.{Reaches, NoCycle, IsLeastCycle};
ghost use Rattle.sc_graphs.specs.Graphs.{successors, Follows};
ghost use Rattle.sc_graphs.specs.declared.path.Mark.TheVariants.{New, OnPath, Left};
ghost use Rattle.sc_graphs.specs.Paths.{mark_in, left_from, entered, unmet, steps_left, AreOn, AreParts, IsJoined, Stands, StandsAt, Goes};

use crate::path::{Mark, Part, Search};
use crate::reaching::successors;
use sc_lists::Seq;
use std::alloc::{AllocError, Global};

/// The least node that reaches itself; none exactly where no node does. The graph has at place n the
/// nodes that follow node n. It costs as much as there are nodes and successors of nodes.
pub fn least_cycle(alloc: Global, graph: &[Seq<usize>]) -> Result<Option<usize>, AllocError>
    ensures found { IfOk result (λ r. IfSome r (IsLeastCycle nat_cmp (Follows graph.now))) }
    ensures none { IfOk result (λ r. IfNone r (NoCycle (Follows graph.now))) }
{
    let mut search = Search::new(alloc, graph)?;
    for start in 0..graph.len() {
        search.follow(graph, start)?;
    }
    Ok(first_cyclic(search.marks.as_slice()))
}

/// The first node that was left and lies on a cycle.
fn first_cyclic(marks: &[Mark]) -> Option<usize>
    ensures found { IfSome result (λ n. (mark_in marks.now n ≡ Left true)
        × ((k : ℕ) → k < n → mark_in marks.now k ≢ Left true)) }
    ensures none { IfNone result ((n : ℕ) → mark_in marks.now n ≢ Left true) }
{
    for node in 0..marks.len() {
        if marks[node] == Mark::Left(true) {
            return Some(node);
        }
    }
    None
}

impl Search {
    /// A search that has come to no node.
    fn new(alloc: Global, graph: &[Seq<usize>]) -> Result<Search, AllocError>
        ensures stands { IfOk result (Stands graph.now) }
        ensures nowhere { IfOk result (λ s. s.parts.items ≡ []) }
    {
        let mut marks = Vec::new(alloc);
        for _ in graph {
            marks.push(Mark::New)?;
        }
        Ok(Search {
            marks,
            path: Vec::new(alloc),
            parts: Vec::new(alloc),
            waiting: Vec::new(alloc),
        })
    }

    /// Follows the graph from a node on until all that it reaches is left.
    fn follow(&mut self, graph: &[Seq<usize>], start: usize) -> Result<(), AllocError>
        requires stands { Stands graph.now self.old }
        requires nowhere { self.old.parts.items ≡ [] }
        ensures stands { OnOk result (Stands graph.now self.new) }
        ensures nowhere { OnOk result (self.new.parts.items ≡ []) }
        ensures goes { OnOk result (Goes self.old.marks.items self.new.marks.items) }
        ensures left { OnOk result ((b : Bool) × (mark_in self.new.marks.items start ≡ Left b)) }
    {
        if self.mark(start) != Mark::New {
            return Ok(());
        }
        self.enter(graph, start)?;
        while let Some(part) = self.parts.pop() {
            self.go_on(graph, part)?;
        }
        Ok(())
    }

    /// The mark of a node.
    fn mark(&self, node: usize) -> Mark
        ensures { result ≡ mark_in self.now.marks.items node }
    {
        match self.marks.get(node) {
            Some(mark) => *mark,
            None => Mark::Left(false),
        }
    }

    /// One step from the last part of the path, which was taken off: to one node that waits behind
    /// it, or back, where none does.
    fn go_on(&mut self, graph: &[Seq<usize>], part: Part) -> Result<(), AllocError>
        requires { StandsAt graph.now self.old part }
        ensures stands { OnOk result (Stands graph.now self.new) }
        ensures goes { OnOk result (Goes self.old.marks.items self.new.marks.items) }
        ensures further { OnOk result (steps_left self.new.marks.items self.new.parts.items self.new.waiting.items
            < steps_left self.old.marks.items (self.old.parts.items ++ part ∷ []) self.old.waiting.items) }
    {
        if self.waiting.len() <= part.waiting {
            self.leave(part);
            return Ok(());
        }
        let Some(node) = self.waiting.pop() else {
            return Ok(());
        };
        match self.mark(node) {
            Mark::Left(_) => {
                self.parts.push(part)?;
                Ok(())
            }
            Mark::New => {
                self.parts.push(part)?;
                self.enter(graph, node)?;
                Ok(())
            }
            Mark::OnPath(place) => {
                let joined = self.part_at(part, place);
                self.parts.push(joined)?;
                Ok(())
            }
        }
    }

    /// Puts a node at the end of the path, as a part of its own.
    fn enter(&mut self, graph: &[Seq<usize>], node: usize) -> Result<(), AllocError>
        requires { mark_in self.old.marks.items node ≡ New }
        ensures path { OnOk result (self.new.path.items ≡ self.old.path.items ++ node ∷ []) }
        ensures parts { OnOk result (self.new.parts.items ≡ self.old.parts.items
            ++ entered self.old.path.items self.old.waiting.items ∷ []) }
        ensures waiting { OnOk result (self.new.waiting.items ≡ self.old.waiting.items ++ successors graph.now node) }
        ensures count { OnOk result (suc (unmet self.new.marks.items) ≡ unmet self.old.marks.items) }
        ensures marks { OnOk result ((n : ℕ) → mark_in self.new.marks.items n
            ≡ if nat_eq node n then OnPath (length self.old.path.items) else mark_in self.old.marks.items n) }
    {
        self.parts.push(Part {
            first: self.path.len(),
            waiting: self.waiting.len(),
            cyclic: false,
        })?;
        self.marks[node] = Mark::OnPath(self.path.len());
        self.path.push(node)?;
        for next in successors(graph, node) {
            self.waiting.push(*next)?;
        }
        Ok(())
    }

    /// Leaves the last part of the path, behind which nothing waits.
    fn leave(&mut self, part: Part)
        requires { AreOn self.old.marks.items self.old.path.items }
        ensures marks { (n : ℕ) → mark_in self.new.marks.items n
            ≡ left_from part.first (length self.old.path.items) part.cyclic (mark_in self.old.marks.items n) }
        ensures path { self.new.path.items ≡ take part.first self.old.path.items }
        ensures parts { self.new.parts ≡ self.old.parts }
        ensures waiting { self.new.waiting ≡ self.old.waiting }
        ensures count { unmet self.new.marks.items ≡ unmet self.old.marks.items }
    {
        for place in part.first..self.path.len() {
            let node = self.path[place];
            self.marks[node] = Mark::Left(part.cyclic);
        }
        self.path.truncate(part.first);
    }

    /// The part of the path with this place, joined to all parts behind it. These are taken off.
    fn part_at(&mut self, last: Part, place: usize) -> Part
        ensures joined { (graph : List (List ℕ)) (path waiting : List ℕ) (end held : ℕ) → place < end
            → AreParts graph path waiting (self.old.parts.items ++ last ∷ []) end held
            → IsJoined graph path waiting (self.old.parts.items ++ last ∷ [])
            self.new.parts.items result place end held }
        ensures fewer { length self.new.parts.items ≤ length self.old.parts.items }
        ensures marks { self.new.marks ≡ self.old.marks }
        ensures path { self.new.path ≡ self.old.path }
        ensures waiting { self.new.waiting ≡ self.old.waiting }
    {
        let mut part = last;
        while place < part.first {
            let Some(before) = self.parts.pop() else {
                return part;
            };
            part = before;
        }
        Part {
            first: part.first,
            waiting: part.waiting,
            cyclic: true,
        }
    }
}
