//! What typing gives is derived, and what `has` with several names is short for is typed alike.
ghost use Rattle.std.specs.Prelude.{◌≡◌, ℕ, List, [], Some, Ok, IfOk};
ghost use Rattle.sc_ast.specs.declared.expr.Expr.{Expr as AnyExpr};
ghost use Rattle.sc_ast.specs.declared.literal.Literal.{Literal as AnyLiteral};
ghost use Rattle.sc_ast.specs.declared.place.Place.{Place as AnyPlace};
ghost use Rattle.sc_schema.specs.declared.declarations.Env.{Env as AnyEnv};
ghost use Rattle.sc_schema.specs.Declarations.{Declarations};
ghost use Rattle.sc_typed.specs.declared.outcome.Typed.{Typed as AnyTyped};
ghost use Rattle.sc_typed.specs.Capabilities.{Capabilities};
ghost use Rattle.sc_typed.specs.Literals.{literal_of};
ghost use Rattle.sc_typed.specs.Outcomes.{made};
ghost use Rattle.sc_typed.specs.TypedExprs.{expr_place};
ghost use Rattle.sc_typing_rules.specs.Rules.{literal_typed};
ghost use Rattle.sc_typing.specs.Typing.{typing};
ghost use Rattle.sc_typing_laws.specs.Derivations.{Derives};
ghost use Rattle.sc_typing_laws.specs.Paths.{IsShort};

/// What typing gives of an expression under capabilities is just what is derived by the rows of its
/// constructs. Of a literal that is the literal, at its place.
#[tactic(auto, using(crate::proofs::DerivationLaws::derived, crate::proofs::GivenLaws::given, crate::proofs::LiteralLaws::literal_derived))]
pub fn derivation_laws()
    ensures derived { (s : Declarations) (env : AnyEnv) (x : AnyExpr) (known : Capabilities) →
        IfOk (typing s env x known) (Derives s env x known) }
    ensures given { (s : Declarations) (env : AnyEnv) (x : AnyExpr) (known : Capabilities) (t : AnyTyped) →
        Derives s env x known t → typing s env x known ≡ Ok t }
    ensures literal { (s : Declarations) (env : AnyEnv) (x : AnyExpr) (known : Capabilities) (t : AnyTyped)
        (l : AnyLiteral) → literal_of x ≡ Some l → Derives s env x known t
        → t ≡ made (literal_typed s (expr_place x) l) [] }
{}

/// `a has b.c.d` is typed as `a has b && a.b has c && a.b.c has d`, with `&&`, `has` and the accesses at
/// the place of `has`: they break one rule at one place, or have one type, give the same and skip the same
/// names.
#[tactic(auto, using(crate::proofs::PathLaws::has_alike))]
pub fn path_laws()
    ensures { (s : Declarations) (env : AnyEnv) (place : AnyPlace) (a : AnyExpr) (name : List ℕ)
        (names : List (List ℕ)) (known : Capabilities) → IsShort s env place a name names known }
{}
