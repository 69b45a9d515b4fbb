//! Laws of closed terms.
ghost use Rattle.std.specs.Prelude.{List};
ghost use Rattle.sc_schema.specs.declared.declarations.Env.{Env as AnyEnv};
ghost use Rattle.sc_schema.specs.Declarations.{Declarations};
ghost use Rattle.sc_schema.specs.Lawful.{IsLawful};
ghost use Rattle.sc_names.specs.declared.uid.Uid.{Uid as AnyUid};
ghost use Rattle.sc_terms.specs.Trees.{Tree};
ghost use Rattle.sc_terms.specs.TreeSorts.{tree_sort};
ghost use Rattle.sc_term_laws.specs.Judging.{IsTermOf};
ghost use Rattle.sc_closure_rules.specs.Closure.{Closed};
ghost use Rattle.sc_closure_rules.specs.Goals.{IsGoal};

use sc_term_definitions::definition_laws;

/// Of a goal of a lawful schema each closed term is a term of its sort.
pub fn closed_laws()
    ensures judged { (d : Declarations) (env : AnyEnv) (literals : List AnyUid) (goal t : Tree) → IsLawful d
        → IsGoal d env literals goal → Closed d env goal t → IsTermOf d env literals (tree_sort t) t }
{
    definition_laws();
}
