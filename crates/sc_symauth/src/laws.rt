//! What the terms of policies are in worlds.
ghost use Rattle.std.specs.Prelude.{◌≡◌, List, is_err};
ghost use Rattle.std.specs.List.{AllByRecursion, AllZip, list_any};
ghost use Rattle.sc_names.specs.declared.uid.Uid.{Uid as AnyUid};
ghost use Rattle.sc_schema.specs.declared.declarations.Env.{Env as AnyEnv};
ghost use Rattle.sc_schema.specs.Declarations.{Declarations};
ghost use Rattle.sc_sorts.specs.declared.sort.Sort.TheVariants as sorts;
ghost use Rattle.sc_term_laws.specs.Judging.{IsTermOf};
ghost use Rattle.sc_ast.specs.declared.policy.Policy.{Policy as AnyPolicy};
ghost use Rattle.sc_world.specs.declared.world.World.{World as AnyWorld};
ghost use Rattle.sc_eval.specs.Outcomes.{Outcome};
ghost use Rattle.sc_auth.specs.Decisions.{allows, errs, is_true};
ghost use Rattle.sc_terms.specs.Values.{val, yes};
ghost use Rattle.sc_constructs.specs.Code.{Code};
ghost use Rattle.sc_symeval.specs.Agreement.{Agrees};
ghost use Rattle.sc_symauth.specs.Standings.{Compiled, satisfied, error, allow, any_error};
ghost use Rattle.sc_symauth.specs.Agreement.{AreTerms, IsTruth, Represents};

use sc_term_laws::{made_laws, truth_laws, value_laws};

/// Where what policies are compiled to are terms, so are what they decide, and how each stands.
pub fn standing_terms()
    ensures allow { (s : Declarations) (env : AnyEnv) (written : List AnyUid) (cs : List Compiled)
        → AllByRecursion (AreTerms s env written) cs → IsTermOf s env written sorts.Bool (allow cs) }
    ensures any_error { (s : Declarations) (env : AnyEnv) (written : List AnyUid) (cs : List Compiled)
        → AllByRecursion (AreTerms s env written) cs → IsTermOf s env written sorts.Bool (any_error cs) }
{
    made_laws();
}

/// In a world in which compiled policies agree with policies, their terms are true where these are
/// satisfied, where they err, and where they allow, and false where not.
pub fn standing_laws()
    ensures satisfied { (w : AnyWorld) (c : Code) (o : Outcome) → Agrees w c o → IsTruth o → val (satisfied c) w
        ≡ yes (is_true o) }
    ensures error { (w : AnyWorld) (c : Code) (o : Outcome) → Agrees w c o → val (error c) w ≡ yes (is_err o) }
    ensures allow { (w : AnyWorld) (cs : List Compiled) (ps : List AnyPolicy) → AllZip (Represents w) cs ps
        → val (allow cs) w ≡ yes (allows w ps) }
    ensures any_error { (w : AnyWorld) (cs : List Compiled) (ps : List AnyPolicy) → AllZip (Represents w) cs ps
        → val (any_error cs) w ≡ yes (list_any (errs w) ps) }
{
    value_laws();
    truth_laws();
}
