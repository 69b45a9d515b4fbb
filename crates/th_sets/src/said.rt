//! What an instance says.
use crate::rows::{count, literal, placed};
use sc_clauses::Lit;
use sc_footprint::Problem;
use sc_rule_instances::{NOWHERE, Saying, SetRule};

/// An instance of a rule on sets of a problem.
#[derive(Drop)]
pub(crate) struct Said<'a, 'b> {
    pub(crate) problem: &'a Problem<'b>,
    pub(crate) rule: SetRule,
}

impl<'a, 'b> Saying for Said<'a, 'b> {
    ghost use Rattle.sc_rule_instances.specs.Instances.{set_said};

    ghost posed = { λ s. s.problem.now };

    ghost said = { λ s. set_said s.problem.now s.rule };

    fn count(&self) -> Option<u128> {
        match placed(self.problem, self.rule) {
            Some(rule) => count(self.problem, rule),
            None => None,
        }
    }

    fn literal(&self, place: u128) -> Lit {
        match placed(self.problem, self.rule) {
            Some(rule) => literal(self.problem, rule, place),
            None => NOWHERE,
        }
    }
}
