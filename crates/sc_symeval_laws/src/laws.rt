//! What compiled terms are, and what they come to in worlds.
ghost use Rattle.std.specs.Prelude.{◌≡◌, Contains, List, Ok, Some};
ghost use Rattle.std.specs.List.{AllByRecursion};
ghost use Rattle.sc_names.specs.declared.uid.Uid.{Uid as AnyUid};
ghost use Rattle.sc_ast.specs.declared.expr.Expr.{Expr as AnyExpr};
ghost use Rattle.sc_ast.specs.declared.policy.Policy.{Policy as AnyPolicy};
ghost use Rattle.sc_ast.specs.Conditions.{condition};
ghost use Rattle.sc_ast.specs.Literals.{expr_uids, policy_uids};
ghost use Rattle.sc_schema.specs.declared.declarations.Env.{Env as AnyEnv};
ghost use Rattle.sc_schema.specs.Declarations.{Declarations};
ghost use Rattle.sc_schema.specs.Lawful.{IsLawful};
ghost use Rattle.sc_sorts.specs.declared.sort.Sort.TheVariants as sorts;
ghost use Rattle.sc_world.specs.declared.world.World.{World as AnyWorld};
ghost use Rattle.sc_world.specs.WellFormed.{IsWellFormed};
ghost use Rattle.sc_eval.specs.Eval.{eval};
ghost use Rattle.sc_typed.specs.declared.outcome.Typed.{Typed as AnyTyped};
ghost use Rattle.sc_typed.specs.Capabilities.{Capabilities};
ghost use Rattle.sc_typed.specs.Outcomes.{ty};
ghost use Rattle.sc_typing.specs.Typing.{typing};
ghost use Rattle.sc_soundness_laws.specs.Sound.{AllHold};
ghost use Rattle.sc_term_laws.specs.Judging.{IsTermOf};
ghost use Rattle.sc_constructs.specs.Code.{Code as AnyCode};
ghost use Rattle.sc_symeval.specs.Agreement.{Agrees};
ghost use Rattle.sc_symeval.specs.Codes.{code_of};
ghost use Rattle.sc_symeval.specs.Compiling.{policy_code};
ghost use Rattle.sc_symeval_laws.specs.TypeSorts.{sort_in};
ghost use Rattle.sc_symeval_laws.specs.Written.{IsSetting, IsWritten, IsWrittenExpr};

use sc_eval::eval_laws;
use sc_soundness_laws::expression_laws;
use sc_term_laws::made_laws;
use sc_typing_laws::derivation_laws;

/// In each well-formed world of its environment, for literals that hold its uids, and under
/// capabilities that hold there, what a typed expression is compiled to agrees with its evaluation: the
/// one term is true exactly where the expression doesn't err, and then the other has its value. Both
/// are terms, of truth values and of the sort of the expression's type. The same of the condition of a
/// policy, whose value is a truth value.
pub fn compile_laws()
    ensures agrees { (s : Declarations) (env : AnyEnv) (literals : List AnyUid) (w : AnyWorld) (x : AnyExpr)
        (known : Capabilities) (t : AnyTyped) →
        IsLawful s → IsWellFormed s env literals w → AllByRecursion (Contains literals) (expr_uids x)
        → AllHold w known →
        typing s env x known ≡ Ok t → Agrees w (code_of s env t.expr) (eval x w) }
    ensures terms { (s : Declarations) (env : AnyEnv) (written : List AnyUid) (x : AnyExpr) (known : Capabilities)
        (t : AnyTyped) →
        IsSetting s env written → IsWrittenExpr written x → typing s env x known ≡ Ok t →
        IsTermOf s env written sorts.Bool (code_of s env t.expr).ok × IsTermOf s env written (sort_in s (ty t.expr))
        (code_of s env t.expr).val }
    ensures policies { (s : Declarations) (env : AnyEnv) (literals : List AnyUid) (w : AnyWorld) (p : AnyPolicy)
        (c : AnyCode) →
        IsLawful s → IsWellFormed s env literals w → AllByRecursion (Contains literals) (policy_uids p)
        → policy_code s env p ≡ Some c →
        Agrees w c (eval (condition p) w) }
    ensures policy_terms { (s : Declarations) (env : AnyEnv) (written : List AnyUid) (p : AnyPolicy) (c : AnyCode) →
        IsSetting s env written → IsWritten written p → policy_code s env p ≡ Some c →
        IsTermOf s env written sorts.Bool c.ok × IsTermOf s env written sorts.Bool c.val }
{
    derivation_laws();
    eval_laws();
    expression_laws();
    made_laws();
}
