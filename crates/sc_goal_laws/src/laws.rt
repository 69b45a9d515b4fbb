//! What goals of questions are.
ghost use Rattle.std.specs.Prelude.{◌≡◌, List, Some};
ghost use Rattle.std.specs.List.{AllByRecursion};
ghost use Rattle.sc_names.specs.declared.uid.Uid.{Uid as AnyUid};
ghost use Rattle.sc_ast.specs.declared.policy.Policy.{Policy as AnyPolicy};
ghost use Rattle.sc_schema.specs.declared.declarations.Env.{Env as AnyEnv};
ghost use Rattle.sc_schema.specs.Declarations.{Declarations};
ghost use Rattle.sc_terms.specs.Trees.{Tree};
ghost use Rattle.sc_closure_rules.specs.Goals.{IsGoal};
ghost use Rattle.sc_symeval_laws.specs.Written.{IsSetting, IsWritten};
ghost use Rattle.sc_goal.specs.Goals.{goal_term};
ghost use Rattle.sc_question.specs.declared.question.Question.{Question as AnyQuestion};

use sc_goal::goal_laws;
use sc_typing_laws::derivation_laws;

/// Of policies whose uids are declared and whose constants are in range, in an environment of a lawful
/// schema, a goal is what the closure of problems asks of it: a term, a truth value, that picks no member
/// of a set, and each entity that is written in it is one that the policies write or a declared action.
pub fn posed_goals()
    ensures goal { (s : Declarations) (env : AnyEnv) (lits : List AnyUid) (q : AnyQuestion) (a b : List AnyPolicy)
        (t : Tree) →
        IsSetting s env lits → AllByRecursion (IsWritten lits) a → AllByRecursion (IsWritten lits) b →
        goal_term s env q a b ≡ Some t → IsGoal s env lits t }
{
    derivation_laws();
    goal_laws();
}
