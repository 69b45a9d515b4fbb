//! Laws of types that join, of expressions without places, of what is known, and of what objects have.
ghost use Rattle.std.specs.Prelude.{◌≡◌, ℕ, List, Bool, true, false, Option, Some, None, Result, Ok, IfOk, IsTrue};
ghost use Rattle.sc_names.specs.declared.uid.Uid.{Uid as AnyUid};
ghost use Rattle.sc_ast.specs.declared.expr.Expr.{Expr as AnyExpr};
ghost use Rattle.sc_ast.specs.declared.place.Place.{Place as AnyPlace};
ghost use Rattle.sc_schema.specs.declared.declarations.Env.{Env as AnyEnv};
ghost use Rattle.sc_schema.specs.declared.ty.Ty.{Ty as AnyType};
ghost use Rattle.sc_schema.specs.Declarations.{Declarations};
ghost use Rattle.sc_values.specs.declared.value.Value.{Value as AnyValue};
ghost use Rattle.sc_values.specs.declared.value.Value.TheVariants as value;
ghost use Rattle.sc_world.specs.declared.world.World.{World as AnyWorld};
ghost use Rattle.sc_world.specs.Conforms.{conforms};
ghost use Rattle.sc_world.specs.WellFormed.{IsWellFormed};
ghost use Rattle.sc_eval.specs.Entities.{access, has, has_path};
ghost use Rattle.sc_eval.specs.Eval.{eval};
ghost use Rattle.sc_typed.specs.declared.capability.Capability.{Capability as AnyCapability};
ghost use Rattle.sc_typed.specs.Types.{Field, join, attributes, attribute, is_required};
ghost use Rattle.sc_typed.specs.Capabilities.{Capabilities, bare, is_known};
ghost use Rattle.sc_typing_rules.specs.Paths.{Subject, no_names, along};
ghost use Rattle.sc_soundness_laws.specs.Sound.{IsOf, Holds, AllHold};

/// A value of either of two types that join is of the type that they join to.
#[tactic(auto, using(crate::proofs::JoinLaws::first_within, crate::proofs::JoinLaws::second_within))]
pub fn join_laws()
    ensures first { (a b u : AnyType) (x : AnyValue) → join a b ≡ Some u → IsTrue (conforms a x)
        → IsTrue (conforms u x) }
    ensures second { (a b u : AnyType) (x : AnyValue) → join a b ≡ Some u → IsTrue (conforms b x)
        → IsTrue (conforms u x) }
{}

/// An expression without places is worth what the expression is.
#[tactic(auto, using(crate::proofs::BareLaws::bare_eval))]
pub fn bare_laws()
    ensures { (w : AnyWorld) (x : AnyExpr) → eval (bare x) w ≡ eval x w }
{}

/// What is among capabilities that hold holds.
#[tactic(auto, using(crate::proofs::HoldingLaws::known_holds))]
pub fn capability_laws()
    ensures { (w : AnyWorld) (known : Capabilities) (c : AnyCapability) → is_known known c ≡ true → AllHold w known
        → Holds w c }
{}

/// In a well-formed world a value has no attribute that its type doesn't declare, each that its type
/// requires, and under a declared name nothing but a value of the declared type.
#[tactic(auto, using(crate::proofs::ObjectLaws::none_undeclared, crate::proofs::ObjectLaws::has_declared, crate::proofs::ObjectLaws::value_declared))]
pub fn object_laws()
    ensures none { (s : Declarations) (env : AnyEnv) (literals : List AnyUid) (w : AnyWorld) (type : AnyType)
        (fields : List Field) (x : AnyValue) (name : List ℕ) →
        IsWellFormed s env literals w → attributes s type ≡ Some fields → IsOf w type x → attribute name fields ≡ None
        → has name w x ≡ Ok false }
    ensures required { (s : Declarations) (env : AnyEnv) (literals : List AnyUid) (w : AnyWorld) (type : AnyType)
        (fields : List Field) (x : AnyValue) (name : List ℕ) (f : Field) →
        IsWellFormed s env literals w → attributes s type ≡ Some fields → IsOf w type x → attribute name fields
        ≡ Some f → is_required f ≡ true → has name w x ≡ Ok true }
    ensures declared { (s : Declarations) (env : AnyEnv) (literals : List AnyUid) (w : AnyWorld) (type : AnyType)
        (fields : List Field) (x : AnyValue) (name : List ℕ) (f : Field) →
        IsWellFormed s env literals w → attributes s type ≡ Some fields → IsOf w type x → attribute name fields
        ≡ Some f → has name w x ≡ Ok true
        → (y : AnyValue) × (access name w x ≡ Ok y) × IsOf w f.2 y }
{}

/// What typing finds along the names of a `has` is so of an expression's value: their answer fits the
/// type that is found, and where all names are there, what they give holds.
#[tactic(auto, using(crate::proofs::PathLaws::path_answers))]
pub fn path_laws()
    ensures { (s : Declarations) (env : AnyEnv) (literals : List AnyUid) (w : AnyWorld)
        → IsWellFormed s env literals w → (known : Capabilities) → AllHold w known →
        (place : AnyPlace) (names : List (List ℕ)) (o : Subject) (x : AnyValue) → eval o.object w ≡ Ok x
        → IsOf w o.type x →
        IfOk (along s place known o no_names names) (λ r. (b : Bool) × (has_path names w x ≡ Ok b)
        × IsTrue (conforms r.found (value.Bool b)) × (b ≡ true → AllHold w r.given)) }
{}
