//! What typing promises of evaluation.
ghost use Rattle.std.specs.Prelude.{◌≡◌, List, Bool, Contains, Result, IfOk};
ghost use Rattle.std.specs.List.{AllByRecursion};
ghost use Rattle.sc_lists.specs.declared.fault.Fault.{Fault as AnyFault};
ghost use Rattle.sc_lists.specs.Told.{Gives};
ghost use Rattle.sc_names.specs.declared.uid.Uid.{Uid as AnyUid};
ghost use Rattle.sc_ast.specs.declared.expr.Expr.{Expr as AnyExpr};
ghost use Rattle.sc_ast.specs.declared.policy.Policy.{Policy as AnyPolicy};
ghost use Rattle.sc_ast.specs.Conditions.{condition};
ghost use Rattle.sc_ast.specs.Literals.{expr_uids, policy_uids};
ghost use Rattle.sc_schema.specs.declared.declarations.Env.{Env as AnyEnv};
ghost use Rattle.sc_schema.specs.Declarations.{Declarations};
ghost use Rattle.sc_schema.specs.Lawful.{IsLawful};
ghost use Rattle.sc_values.specs.declared.value.Value.{Value as AnyValue};
ghost use Rattle.sc_values.specs.declared.value.Value.TheVariants as value;
ghost use Rattle.sc_world.specs.declared.world.World.{World as AnyWorld};
ghost use Rattle.sc_world.specs.WellFormed.{IsWellFormed};
ghost use Rattle.sc_eval.specs.declared.error.EvalError.{EvalError};
ghost use Rattle.sc_eval.specs.Eval.{eval};
ghost use Rattle.sc_typed.specs.Capabilities.{Capabilities};
ghost use Rattle.sc_typed.specs.Outcomes.{ty};
ghost use Rattle.sc_typing.specs.Policies.{typed_policy};
ghost use Rattle.sc_typing.specs.Typing.{typing};
ghost use Rattle.sc_soundness_laws.specs.Sound.{IsOf, OrOverflows, AnswersOrOverflows, AllHold, IsSound};

/// In each well-formed world of its environment, a policy that is typed errs only by Overflow, and its
/// condition has a value of its type, which is true or false. The same holds of what `evaluate` answers.
/// The literals of the world hold the policy's uids.
#[tactic(auto, using(crate::proofs::SoundLaws::policy_is_sound, crate::proofs::SoundLaws::policy_is_true_or_false, crate::proofs::SoundLaws::policy_answers))]
pub fn policy_laws()
    ensures sound { (s : Declarations) (env : AnyEnv) (literals : List AnyUid) (w : AnyWorld) (p : AnyPolicy) →
        IsLawful s → IsWellFormed s env literals w → AllByRecursion (Contains literals) (policy_uids p) →
        IfOk (typed_policy s env p) (λ x. OrOverflows (IsOf w (ty x)) (eval (condition p) w)) }
    ensures boolean { (s : Declarations) (env : AnyEnv) (literals : List AnyUid) (w : AnyWorld) (p : AnyPolicy) →
        IsLawful s → IsWellFormed s env literals w → AllByRecursion (Contains literals) (policy_uids p) →
        IfOk (typed_policy s env p) (λ x. OrOverflows (λ y. (b : Bool) × (y ≡ value.Bool b)) (eval (condition p) w)) }
    ensures answered { (s : Declarations) (env : AnyEnv) (literals : List AnyUid) (w : AnyWorld) (p : AnyPolicy)
        (answer : Result AnyValue (AnyFault EvalError)) →
        IsLawful s → IsWellFormed s env literals w → AllByRecursion (Contains literals) (policy_uids p)
        → Gives answer (eval (condition p) w) →
        IfOk (typed_policy s env p) (λ x. AnswersOrOverflows (IsOf w (ty x)) answer) }
{}

/// The same of each expression that is typed under capabilities that hold, and what it gives holds
/// where it is true.
#[tactic(auto, using(crate::proofs::SoundLaws::expression_is_sound))]
pub fn expression_laws()
    ensures { (s : Declarations) (env : AnyEnv) (literals : List AnyUid) (w : AnyWorld) (x : AnyExpr)
        (known : Capabilities) →
        IsLawful s → IsWellFormed s env literals w → AllByRecursion (Contains literals) (expr_uids x)
        → AllHold w known →
        IfOk (typing s env x known) (λ t. IsSound w (eval x w) t) }
{}
