//! The order of terms: by rows, then by parts, and then by what else they hold. Equal parts have
//! one number, so a comparison goes down one path, a step at a time, and takes no stack however
//! deep the terms are.
ghost use Rattle.std.specs.Prelude.{◌≡◌, ◌<◌, length};
ghost use Rattle.std.specs.Ordering.{ordering_then};
ghost use Rattle.sc_sorts.specs.contracts.node.ManyOpOrd.TheImpl.{ghosts as many_ord};
ghost use Rattle.sc_terms.specs.Tables.{node_tree, node_parts, tree, PartsAreBelow, AreBelow};
ghost use Rattle.sc_terms.specs.Steps.{step_order, IsStepBelow};
ghost use Rattle.sc_terms.specs.Order as order;

use crate::step::Step;
use crate::terms::Terms;
use sc_sorts::{ManyOp, Node, Parts, row};
use std::cmp::Ordering;

impl Terms {
    /// The order of two terms.
    pub fn compare(&self, a: u64, b: u64) -> Ordering
        requires a_in { a < length self.now }
        requires b_in { b < length self.now }
        ensures { result ≡ order.tree_cmp (tree self.now a) (tree self.now b) }
    {
        let mut left = a;
        let mut right = b;
        loop {
            match self.step(left, right) {
                Step::Told(told) => return told,
                Step::Parts(part, other) => {
                    left = part;
                    right = other;
                }
            }
        }
    }

    /// What the order of two terms is, or which of their parts tell it.
    #[tactic(auto, using(crate::proofs::Compares::cmp_by_rows))]
    fn step(&self, a: u64, b: u64) -> Step
        requires a_in { a < length self.now }
        requires b_in { b < length self.now }
        ensures value { step_order self.now result ≡ order.tree_cmp (tree self.now a) (tree self.now b) }
        ensures below { IsStepBelow self.now a result }
    {
        let x = self.node(a);
        let y = self.node(b);
        match row(x).cmp(&row(y)) {
            Ordering::Equal => self.parts_step(a, x, y),
            Ordering::Less => Step::Told(Ordering::Less),
            Ordering::Greater => Step::Told(Ordering::Greater),
        }
    }

    /// The same of two terms of one row, `x` being the one of number `n`.
    #[tactic(auto, unfolding(crate::specs::Order::parts_cmp), using(crate::proofs::Compares::apart_then, crate::proofs::Compares::same_then))]
    fn parts_step(&self, n: u64, x: &Node, y: &Node) -> Step
        requires n_in { n < length self.now }
        requires x_in { PartsAreBelow n x.now }
        requires y_in { PartsAreBelow (length self.now) y.now }
        ensures value { step_order self.now result ≡ order.parts_cmp (node_tree self.now x.now)
            (node_tree self.now y.now) }
        ensures below { IsStepBelow self.now n result }
    {
        match (x, y) {
            (Node::Leaf(l), Node::Leaf(m)) => Step::Told(l.cmp(m)),
            (Node::One(o, a), Node::One(p, b)) => {
                if self.is_same(*a, *b) {
                    Step::Told(o.cmp(p))
                } else {
                    Step::Parts(*a, *b)
                }
            }
            (Node::Two(o, a, b), Node::Two(p, c, d)) => {
                if !self.is_same(*a, *c) {
                    Step::Parts(*a, *c)
                } else if !self.is_same(*b, *d) {
                    Step::Parts(*b, *d)
                } else {
                    Step::Told(o.cmp(p))
                }
            }
            (Node::Choice(a, b, c), Node::Choice(d, e, f)) => {
                if !self.is_same(*a, *d) {
                    Step::Parts(*a, *d)
                } else if !self.is_same(*b, *e) {
                    Step::Parts(*b, *e)
                } else {
                    Step::Parts(*c, *f)
                }
            }
            (Node::Many(o, ps), Node::Many(p, qs)) => self.many_step(n, o, p, ps, qs),
            _ => Step::Told(Ordering::Equal),
        }
    }

    /// The same of two records or two sets, by their operators and their labelled parts, the first
    /// of which are below `n`.
    #[tactic(auto, unfolding(crate::specs::Order::tree_cmp))]
    fn many_step(&self, n: u64, o: &ManyOp, p: &ManyOp, ps: &Parts, qs: &Parts) -> Step
        requires n_in { n < length self.now }
        requires ps_in { AreBelow n ps.now }
        requires qs_in { AreBelow (length self.now) qs.now }
        ensures value { step_order self.now result ≡ ordering_then (order.trees_cmp (node_parts self.now ps.now)
            (node_parts self.now qs.now)) (many_ord.cmp o.now p.now) }
        ensures below { IsStepBelow self.now n result }
    {
        let mut rest = ps.as_slice();
        let mut left = qs.as_slice();
        while let Some((part, later)) = rest.split_first() {
            let Some((other, others)) = left.split_first() else {
                return Step::Told(Ordering::Greater);
            };
            match part.0.cmp(&other.0) {
                Ordering::Equal => {
                    if !self.is_same(part.1, other.1) {
                        return Step::Parts(part.1, other.1);
                    }
                    rest = later;
                    left = others;
                }
                Ordering::Less => return Step::Told(Ordering::Less),
                Ordering::Greater => return Step::Told(Ordering::Greater),
            }
        }
        match left.split_first() {
            None => Step::Told(o.cmp(p)),
            Some(_) => Step::Told(Ordering::Less),
        }
    }
}
