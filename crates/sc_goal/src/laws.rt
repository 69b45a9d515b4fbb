//! What the properties that questions ask about come to, and in which worlds goals are true.
ghost use Rattle.std.specs.List.{AllByRecursion};
ghost use Rattle.std.specs.Prelude.{◌≡◌, ◌↔◌, List, None, Some, IsSome, IsTrue, IsErr, Any, Contains, not};
ghost use Rattle.sc_names.specs.declared.uid.Uid.{Uid as AnyUid};
ghost use Rattle.sc_ast.specs.Conditions.{condition};
ghost use Rattle.sc_ast.specs.Literals.{literals as uids_of};
ghost use Rattle.sc_ast.specs.declared.policy.Policy.{Policy as AnyPolicy};
ghost use Rattle.sc_schema.specs.declared.declarations.Env.{Env as AnyEnv};
ghost use Rattle.sc_schema.specs.Declarations.{Declarations, environments};
ghost use Rattle.sc_schema.specs.Lawful.{IsLawful};
ghost use Rattle.sc_world.specs.WellFormed.{IsWellFormed};
ghost use Rattle.sc_world.specs.declared.world.World.{World as AnyWorld};
ghost use Rattle.sc_eval.specs.Eval.{eval};
ghost use Rattle.sc_auth.specs.Decisions.{allows};
ghost use Rattle.sc_typing.specs.Checking.{type_fault};
ghost use Rattle.sc_sorts.specs.declared.sort.Sort.TheVariants as sorts;
ghost use Rattle.sc_symeval_laws.specs.Written.{IsSetting, IsWritten};
ghost use Rattle.sc_term_laws.specs.Judging.{IsTermOf};
ghost use Rattle.sc_terms.specs.Trees.{Tree};
ghost use Rattle.sc_terms.specs.Values.{val, truth};
ghost use Rattle.sc_goal.specs.Goals.{all_compiled, goal_term};
ghost use Rattle.sc_goal.specs.Properties.{has};
ghost use Rattle.sc_question.specs.declared.question.Question.{Question as AnyQuestion};
ghost use Rattle.sc_question.specs.declared.question.Question.TheVariants.{NeverErrors, AlwaysAllows, AlwaysDenies, Implies, Equivalent, Disjoint};

use sc_symauth::{standing_laws, standing_terms};
use sc_symeval_laws::compile_laws;
use sc_term_laws::{made_laws, value_laws};

/// Which worlds have the property that a question asks about, of policy sets `a` and `b`.
#[tactic(auto, using(crate::proofs::PropertiesLaws::never_errors_decides, crate::proofs::PropertiesLaws::denies_decides, crate::proofs::PropertiesLaws::implies_decides, crate::proofs::PropertiesLaws::equivalent_decides, crate::proofs::PropertiesLaws::disjoint_decides))]
pub fn property_laws()
    // The condition of no policy of `a` errs.
    ensures never_errors { (a b : List AnyPolicy) (w : AnyWorld) →
        IsTrue (has NeverErrors a b w) ↔ ¬ Any (λ p. IsErr (eval (condition p) w)) a }
    ensures always_allows { (a b : List AnyPolicy) (w : AnyWorld) →
        IsTrue (has AlwaysAllows a b w) ↔ IsTrue (allows w a) }
    ensures always_denies { (a b : List AnyPolicy) (w : AnyWorld) →
        IsTrue (has AlwaysDenies a b w) ↔ ¬ IsTrue (allows w a) }
    // If `a` allows, `b` does.
    ensures implies { (a b : List AnyPolicy) (w : AnyWorld) →
        IsTrue (has Implies a b w) ↔ (IsTrue (allows w a) → IsTrue (allows w b)) }
    ensures equivalent { (a b : List AnyPolicy) (w : AnyWorld) →
        IsTrue (has Equivalent a b w) ↔ (IsTrue (allows w a) ↔ IsTrue (allows w b)) }
    // Not both allow.
    ensures disjoint { (a b : List AnyPolicy) (w : AnyWorld) →
        IsTrue (has Disjoint a b w) ↔ ¬ (IsTrue (allows w a) × IsTrue (allows w b)) }
{}

/// In each well-formed world of its environment, for literals that hold the uids of the sets, a goal is
/// true exactly where the property fails. Where the literals are declared and constants are in range, a
/// goal is a term. Policies that are typed in all environments are compiled in each, and there is a goal
/// where the policies of both sets are.
pub fn goal_laws()
    ensures right { (s : Declarations) (env : AnyEnv) (lits : List AnyUid) (w : AnyWorld) (q : AnyQuestion)
        (a b : List AnyPolicy) (t : Tree) →
        IsLawful s → IsWellFormed s env lits w → ((u : AnyUid) → Contains (uids_of a) u → Contains lits u)
        → ((u : AnyUid) → Contains (uids_of b) u → Contains lits u) →
        goal_term s env q a b ≡ Some t → truth (val t w) ≡ not (has q a b w) }
    ensures term { (s : Declarations) (env : AnyEnv) (lits : List AnyUid) (q : AnyQuestion) (a b : List AnyPolicy)
        (t : Tree) →
        IsSetting s env lits → AllByRecursion (IsWritten lits) a → AllByRecursion (IsWritten lits) b →
        goal_term s env q a b ≡ Some t → IsTermOf s env lits sorts.Bool t }
    ensures posed { (s : Declarations) (env : AnyEnv) (ps : List AnyPolicy) →
        type_fault s ps ≡ None → Contains (environments s) env → IsSome (all_compiled s env ps) }
    ensures both { (s : Declarations) (env : AnyEnv) (q : AnyQuestion) (a b : List AnyPolicy) →
        IsSome (all_compiled s env a) → IsSome (all_compiled s env b) → IsSome (goal_term s env q a b) }
{
    compile_laws();
    standing_laws();
    standing_terms();
    made_laws();
    value_laws();
}
