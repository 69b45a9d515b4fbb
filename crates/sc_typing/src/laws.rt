//! What holds of the names that policies write, and of each policy that is typed.
ghost use Rattle.std.specs.Prelude.{◌≡◌, ◌↔◌, List, Some, None, IsTrue, IfOk};
ghost use Rattle.sc_ast.specs.declared.expr.Expr.{Expr as AnyExpr};
ghost use Rattle.sc_ast.specs.declared.expr.TypeName.{TypeName as AnyTypeName};
ghost use Rattle.sc_ast.specs.declared.place.Place.{Place as AnyPlace};
ghost use Rattle.sc_ast.specs.declared.policy.Policy.{Policy as AnyPolicy};
ghost use Rattle.sc_schema.specs.declared.declarations.Env.{Env as AnyEnv};
ghost use Rattle.sc_schema.specs.Declarations.{Declarations};
ghost use Rattle.sc_typed.specs.Types.{is_boolean};
ghost use Rattle.sc_typed.specs.TypedExprs.{untyped};
ghost use Rattle.sc_typed.specs.Capabilities.{Capabilities};
ghost use Rattle.sc_typed.specs.Outcomes.{ty};
ghost use Rattle.sc_typing.specs.declared.name_fault.NameFault.{NameFault as AnyFault};
ghost use Rattle.sc_typing.specs.Names.{name_fault};
ghost use Rattle.sc_typing.specs.Policies.{asked, typed_policy};
ghost use Rattle.sc_typing.specs.Written.{AreDeclared, IsToldFirst};
ghost use Rattle.sc_typing.specs.WrittenOut.{IsShort};

/// A policy's condition with its types is what the policy asks, but for the types, and Boolean.
#[tactic(auto, using(crate::proofs::ErasureLaws::policy_untyped, crate::proofs::ErasureLaws::policy_boolean))]
pub fn policy_laws()
    ensures same { (s : Declarations) (env : AnyEnv) (p : AnyPolicy)
        → IfOk (typed_policy s env p) (λ x. untyped x ≡ asked env p) }
    ensures boolean { (s : Declarations) (env : AnyEnv) (p : AnyPolicy)
        → IfOk (typed_policy s env p) (λ x. IsTrue (is_boolean (ty x))) }
{}

/// A policy set passes where each name that it writes, anywhere, is declared. Else the fault is of a name
/// of the first policy that writes one that isn't declared, and none of its other such names stands before.
#[tactic(auto, using(crate::proofs::WrittenLaws::declared_passes, crate::proofs::WrittenLaws::told_is_first))]
pub fn name_laws()
    ensures passes { (s : Declarations) (ps : List AnyPolicy) → AreDeclared s ps ↔ (name_fault s ps ≡ None) }
    ensures told { (s : Declarations) (ps : List AnyPolicy) (fault : AnyFault) → name_fault s ps ≡ Some fault
        → IsToldFirst s ps fault }
{}

/// `a is T in b` is typed as `a is T && a in b`, with `&&` at the place of `is`: they break one rule at one
/// place, or have one type and the same parts, give nothing, and skip `in` alike.
#[tactic(auto, using(crate::proofs::WrittenOutLaws::is_in_alike))]
pub fn written_out_laws()
    ensures { (s : Declarations) (env : AnyEnv) (place : AnyPlace) (a : AnyExpr) (t : AnyTypeName)
        (in_place : AnyPlace) (b : AnyExpr) (known : Capabilities) → IsShort s env place a t in_place b known }
{}
