//! Tables of terms.
ghost use Rattle.std.specs.Prelude.{List, ◌≡◌, ◌<◌, ◌≤◌, ◌+◌, ◌++◌, ◌∷◌, true, false, [], length, IfOk, OnErr, OnOk};
ghost use Rattle.sc_sorts.specs.declared.node.Node.{Node as AnyNode};
ghost use Rattle.std.specs.List.{list_any};
ghost use Rattle.indexmap.specs.IndexSet.{insert_key};
ghost use Rattle.sc_sorts.specs.contracts.node.NodePartialEq.TheImpl.{ghosts as node_equality};
ghost use Rattle.sc_terms.specs.Tables.{node_tree, tree, PartsAreBelow, Keeps, StandsFor, IsTable};
ghost use Rattle.sc_terms.specs.TreeSorts.{tree_sort};
ghost use Rattle.sc_terms.specs.Order.{tree_eq};
ghost use Rattle.sc_terms.specs.Folds.{truth_term};

mod finding;
mod sorting;

use indexmap::IndexSet;
use sc_sorts::{Node, Sort};
use std::alloc::{AllocError, Global};
use std::marker::Model;

/// A table of terms. Its numbers count from 0; each stands for one term, whose parts have smaller
/// numbers, and no two stand for the same term. The sort of each is kept beside it.
#[derive(Drop)]
pub struct Terms {
    nodes: IndexSet<Node>,
    sorts: Vec<Sort>,
    alloc: Global,
}

impl Model for Terms {
    ghost use Rattle.std.specs.Prelude.{List};
    ghost use Rattle.std.specs.Coded.{codes};
    ghost use Rattle.sc_sorts.specs.contracts.sort.Sort as sort;
    ghost use Rattle.sc_sorts.specs.declared.node.Node.{Node};
    ghost use Rattle.sc_terms.specs.Tables.{IsSorted};

    ghost Value = { List Node };

    ghost coded = { Prim.hlevel (codes, sort.the_row.coded) };

    ghost view = { λ t. t.nodes.keys };

    ghost invariant = { λ t. IsSorted t.nodes.keys t.sorts.items };
}

impl Terms {
    /// A table of `true` and `false`, which have the numbers 0 and 1.
    pub fn new(alloc: Global) -> Result<Terms, AllocError>
        ensures of_true { IfOk result (λ t. StandsFor t 0 (truth_term true)) }
        ensures of_false { IfOk result (λ t. StandsFor t 1 (truth_term false)) }
        ensures size { IfOk result (λ t. length t ≡ 2) }
    {
        let mut terms = Terms::empty(alloc);
        terms.truth(true)?;
        terms.truth(false)?;
        Ok(terms)
    }

    fn empty(alloc: Global) -> Terms
        ensures { result ≡ [] }
    {
        Terms {
            nodes: IndexSet::new(alloc),
            sorts: Vec::new(alloc),
            alloc,
        }
    }

    /// Parts have smaller numbers, and numbers and terms are one to one, whichever table it is.
    pub fn laws(&self)
        ensures { IsTable self.now }
    {
        let _ = &self.nodes;
    }

    pub(crate) fn allocator(&self) -> Global {
        self.alloc
    }

    /// How many terms there are.
    pub fn len(&self) -> u64
        ensures { result ≡ length self.now }
    {
        self.nodes.len() as u64
    }

    /// The term of a number, with its parts by their numbers.
    pub fn node(&self, n: u64) -> &Node
        requires { n < length self.now }
        ensures stands { tree self.now n ≡ node_tree self.now result.now }
        ensures parts { PartsAreBelow n result.now }
        ensures parts_in { PartsAreBelow (length self.now) result.now }
    {
        match self.nodes.get_index(n as usize) {
            Some(node) => node,
            None => unreachable!(),
        }
    }

    /// The sort of a number's term.
    pub fn sort(&self, n: u64) -> &Sort
        requires { n < length self.now }
        ensures { result.now ≡ tree_sort (tree self.now n) }
    {
        match self.sorts.get(n as usize) {
            Some(sort) => sort,
            None => unreachable!(),
        }
    }

    /// The number of a term, which goes last where it isn't there.
    pub(crate) fn add(&mut self, node: Node) -> Result<u64, AllocError>
        requires { PartsAreBelow (length self.old) node }
        ensures ok { IfOk result (λ n. StandsFor self.new n (node_tree self.old node)) }
        ensures kept { Keeps self.old self.new }
        ensures grows { length self.new ≤ length self.old + 1 }
        ensures err { OnErr result (self.new ≡ self.old) }
    {
        match self.find(&node) {
            Some(n) => {
                drop(node);
                Ok(n)
            }
            None => match self.node_sort(&node) {
                Ok(sort) => self.add_new(node, sort),
                Err(refused) => {
                    drop(node);
                    Err(refused)
                }
            },
        }
    }

    fn add_new(&mut self, node: Node, sort: Sort) -> Result<u64, AllocError>
        requires parts { PartsAreBelow (length self.old) node }
        requires absent { list_any (node_equality.eq node) self.old ≡ false }
        requires sorted { sort ≡ tree_sort (node_tree self.old node) }
        ensures ok { IfOk result (λ n. StandsFor self.new n (node_tree self.old node)) }
        ensures kept { Keeps self.old self.new }
        ensures grows { length self.new ≤ length self.old + 1 }
        ensures err { OnErr result (self.new ≡ self.old) }
    {
        let n = put(&mut self.nodes, &mut self.sorts, node, sort)?;
        Ok(n)
    }

    /// Takes back all terms from a number on.
    pub(crate) fn take_back(&mut self, count: u64)
        ensures { (xs : List AnyNode) → IsTable xs → Keeps xs self.old → count ≡ length xs → self.new ≡ xs }
    {
        self.nodes.truncate(count as usize);
        self.sorts.truncate(count as usize);
    }

    /// Whether two numbers stand for one term.
    pub fn is_same(&self, a: u64, b: u64) -> bool
        requires a_in { a < length self.now }
        requires b_in { b < length self.now }
        ensures { result ≡ tree_eq (tree self.now a) (tree self.now b) }
    {
        let _ = &self.nodes;
        a == b
    }
}

/// Puts a node and its sort at the ends of their lists, both or neither.
fn put(
    nodes: &mut IndexSet<Node>,
    sorts: &mut Vec<Sort>,
    node: Node,
    sort: Sort,
) -> Result<u64, AllocError>
    requires { list_any (node_equality.eq node) nodes.old.keys ≡ false }
    ensures place { IfOk result (λ n. n ≡ length nodes.old.keys) }
    ensures keys { OnOk result (nodes.new.keys ≡ nodes.old.keys ++ node ∷ []) }
    ensures beside { OnOk result (sorts.new.items ≡ sorts.old.items ++ sort ∷ []) }
    ensures err { OnErr result (nodes.new.keys ≡ nodes.old.keys) }
    ensures err_beside { OnErr result (sorts.new.items ≡ sorts.old.items) }
{
    let place = nodes.len() as u64;
    match sorts.push(sort) {
        Ok(()) => match nodes.insert_full(node) {
            Ok(_) => Ok(place),
            Err(refused) => {
                let _ = sorts.pop();
                Err(refused.into())
            }
        },
        Err(refused) => {
            drop(node);
            Err(refused.into())
        }
    }
}
