//! How places stand in what typing gives.
ghost use Rattle.std.specs.Prelude.{◌≡◌};
ghost use Rattle.sc_ast.specs.declared.expr.Expr.{Expr as AnyExpr};
ghost use Rattle.sc_ast.specs.declared.place.Place.{Place as AnyPlace};
ghost use Rattle.sc_schema.specs.declared.declarations.Env.{Env as AnyEnv};
ghost use Rattle.sc_schema.specs.Declarations.{Declarations};
ghost use Rattle.sc_typed.specs.Capabilities.{Capabilities, bare};
ghost use Rattle.sc_typing.specs.Typing.{typing};
ghost use Rattle.sc_typing_laws.specs.Moved.{moved, outcome_moved, without_places};

/// An expression whose places are moved, in whichever way, is typed as before: it has the same types, gives
/// the same and skips the same, or breaks the same rule at the place moved. So two expressions that are
/// written alike, but for places, are typed alike, but for places.
#[tactic(auto, using(crate::proofs::MovedLaws::typing_moved, crate::proofs::AlikeLaws::alike))]
pub fn place_laws()
    ensures moved { (s : Declarations) (env : AnyEnv) (move : AnyPlace → AnyPlace) (x : AnyExpr)
        (known : Capabilities) → typing s env (moved move x) known ≡ outcome_moved move (typing s env x known) }
    ensures alike { (s : Declarations) (env : AnyEnv) (x y : AnyExpr) (known : Capabilities) → bare x ≡ bare y →
        without_places (typing s env x known) ≡ without_places (typing s env y known) }
{}
