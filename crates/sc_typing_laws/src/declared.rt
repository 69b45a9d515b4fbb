//! Laws of the uids that policies write.
ghost use Rattle.std.specs.Prelude.{◌≡◌, List, None, Contains};
ghost use Rattle.sc_ast.specs.declared.policy.Policy.{Policy as AnyPolicy};
ghost use Rattle.sc_ast.specs.Literals.{literals};
ghost use Rattle.sc_names.specs.declared.uid.Uid.{Uid as AnyUid};
ghost use Rattle.sc_schema.specs.declared.declarations.Env.{Env as AnyEnv};
ghost use Rattle.sc_schema.specs.Declarations.{Declarations};
ghost use Rattle.sc_typing.specs.Names.{name_fault};
ghost use Rattle.sc_world.specs.declared.world.World.{World as AnyWorld};
ghost use Rattle.sc_world.specs.Named.{IsDeclared};
ghost use Rattle.sc_world.specs.WellFormed.{IsWellFormed};

/// Where policies write declared names alone, each uid that they write is declared.
pub fn declared_laws()
    ensures { (s : Declarations) (ps : List AnyPolicy) (u : AnyUid) → name_fault s ps ≡ None → Contains (literals ps) u
        → IsDeclared s u }
{}

/// A world that is well-formed for some uids is so for others that are all among them.
pub fn literal_laws()
    ensures { (s : Declarations) (env : AnyEnv) (us vs : List AnyUid) (w : AnyWorld)
        → ((u : AnyUid) → Contains us u → Contains vs u) → IsWellFormed s env vs w → IsWellFormed s env us w }
{}
