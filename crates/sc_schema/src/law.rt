//! Laws of what is listed and what is looked up.
ghost use Rattle.std.specs.Prelude.{◌≡◌, ◌≤◌, ℕ, List, length, ◌↔◌, Some, Contains, IfSome};
ghost use Rattle.std.specs.List.Sorted.{IsStrictlySortedBy};
ghost use Rattle.sc_names.specs.declared.uid.Uid.{Uid as AnyUid};
ghost use Rattle.sc_schema.specs.declared.ty.Ty.{Ty as AnyTy};
ghost use Rattle.sc_schema.specs.declared.declarations.EntityType.{EntityType as AnyType};
ghost use Rattle.sc_schema.specs.declared.declarations.Action.{Action as AnyAction};
ghost use Rattle.sc_schema.specs.Declarations.{Declarations, environments, env_cmp, in_order, entity_type, action, attrs_of, tags_of, context_of};
ghost use Rattle.sc_schema.specs.Lawful.{IsLawful, AreAscending};
ghost use Rattle.sc_schema.specs.Sizes.{levels, nodes, StandsAt, standing, IsSmall};

/// Names in ascending order are just the names given, and ascend; the environments of a schema
/// ascend, so each comes once.
#[tactic(auto, using(crate::proofs::IndexLaws::in_order_ascending, crate::proofs::EnvironmentLaws::environments_ascend))]
pub fn order_laws()
    ensures members { (names : List (List ℕ)) (name : List ℕ) → Contains (in_order names) name ↔ Contains names name }
    ensures ascending { (names : List (List ℕ)) → AreAscending (in_order names) }
    ensures environments { (s : Declarations) → IsLawful s → IsStrictlySortedBy env_cmp (environments s) }
{}

/// What is found by a name or a uid is declared under it, and each declaration is what is found.
pub fn lookup_laws()
    ensures type_found { (s : Declarations) (t : AnyType) → IsLawful s → Contains s.types t → entity_type s t.name
        ≡ Some t }
    ensures type_declared { (s : Declarations) (name : List ℕ) (t : AnyType) → entity_type s name ≡ Some t
        → Contains s.types t × (name ≡ t.name) }
    ensures action_found { (s : Declarations) (a : AnyAction) → IsLawful s → Contains s.actions a → action s a.uid
        ≡ Some a }
    ensures action_declared { (s : Declarations) (u : AnyUid) (a : AnyAction) → action s u ≡ Some a
        → Contains s.actions a × (u ≡ a.uid) }
{}

/// The levels of a type are the lowest level at which a type stands in it, and its nodes are all types
/// that stand in it. Each type that is looked up in a schema has at most 32 levels and 4,096 nodes.
pub fn size_laws()
    ensures no_lower { (whole : AnyTy) (n : ℕ) (u : AnyTy) → StandsAt whole n u → n ≤ levels whole }
    ensures lowest { (whole : AnyTy) → (u : AnyTy) × StandsAt whole (levels whole) u }
    ensures all_nodes { (n : ℕ) (u : AnyTy) → levels u ≤ n → nodes u ≡ length (standing n u) }
    ensures attributes { (s : Declarations) (name : List ℕ) → IsLawful s → IfSome (attrs_of s name) IsSmall }
    ensures tags { (s : Declarations) (name : List ℕ) → IsLawful s → IfSome (tags_of s name) IsSmall }
    ensures context { (s : Declarations) (u : AnyUid) → IsLawful s → IfSome (context_of s u) IsSmall }
{}
