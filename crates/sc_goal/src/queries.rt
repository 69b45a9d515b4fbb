//! What is asked.
ghost use Rattle.std.specs.Prelude.{◌≡◌};
ghost use Rattle.std.specs.Option.{option_copied};
ghost use Rattle.sc_goal.specs.Queries.{IsAsked, second};

use sc_ast::{Policy, PolicySet};
use sc_names::Lits;
use sc_question::Question;
use std::marker::Model;

/// A question, the policy sets that it is asked of, and the uids that they write.
#[derive(Drop)]
pub struct Query<'a> {
    pub(crate) question: Question,
    pub(crate) first: &'a PolicySet,
    pub(crate) against: Option<&'a PolicySet>,
    pub(crate) literals: Lits,
}

impl<'a> Model for Query<'a> {
    ghost use Rattle.std.specs.Coded.{codes};
    ghost use Rattle.std.specs.Option.{option_copied};
    ghost use Rattle.sc_ast.specs.contracts.policy.Policy as policy;
    ghost use Rattle.sc_goal.specs.Queries.{Asked, IsAsked};

    ghost Value = { Asked };

    ghost coded = { Prim.hlevel (codes, policy.the_row.coded) };

    ghost view = { λ q. record {
      question = q.question;
      first = q.first.now;
      against = option_copied q.against;
      literals = q.literals;
    } };

    ghost invariant = { λ q. IsAsked
        (record {
          question = q.question;
          first = q.first.now;
          against = option_copied q.against;
          literals = q.literals;
        }) };
}

impl<'a> Query<'a> {
    /// The question.
    pub fn question(&self) -> Question
        ensures { result ≡ self.now.question }
    {
        self.question
    }

    /// The first set, and the second where the question takes two.
    pub fn sets(&self) -> (&PolicySet, Option<&PolicySet>)
        ensures first { result.0.now ≡ self.now.first }
        ensures against { option_copied result.1 ≡ self.now.against }
    {
        (self.first, self.against)
    }

    /// The uids that the sets write.
    pub fn lits(&self) -> &Lits
        ensures { result.now ≡ self.now.literals }
    {
        &self.literals
    }

    /// There is a second set exactly where the question takes two, the uids are those that the sets
    /// write, and the constants of the sets are values, whichever query it is.
    pub fn laws(&self)
        ensures { IsAsked self.now }
    {
        let _ = &self.literals;
    }

    /// The policies of the second set, and none where there is none.
    pub(crate) fn second(&self) -> &[Policy]
        ensures { result.now ≡ second self.now }
    {
        match self.against {
            Some(policies) => policies.as_slice(),
            None => &[],
        }
    }
}
