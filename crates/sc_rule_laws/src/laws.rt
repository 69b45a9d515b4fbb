//! Each rule is true in every world: at any terms, or, where it rests on sorts or on what is
//! stored, at the terms of a lawful schema in each of its well-formed worlds.
ghost use Rattle.std.specs.Prelude.{ℕ, List, length, Option};
ghost use Rattle.std.specs.List.{All};
ghost use Rattle.sc_world.specs.declared.world.World.{World as AnyWorld};
ghost use Rattle.sc_terms.specs.Trees.{Tree};
ghost use Rattle.sc_rule_laws.specs.Signed.{Holds};
ghost use Rattle.sc_rule_laws.specs.Equal.{eq1, eq2, eq3, eq4, eq5, eq6, eq7, eq8};
ghost use Rattle.sc_rule_laws.specs.Sets.{se1, se2, se3, se4, se5, se6, se7, se8, se9, se10};
ghost use Rattle.sc_rule_laws.specs.Entities.{en1, en2, en3, en4, en5, en6, en7, en8, eq9};
ghost use Rattle.sc_rule_laws.specs.Strings.{Pattern, Signs, AreFew, st1, st2, st3};
ghost use Rattle.sc_rule_laws.specs.Laws.{InWorlds};

/// The rules of equations, choices, records and options: equality is transitive; a choice is what
/// its condition says; records are equal just where their fields are; options are equal just where
/// both hold nothing or equal values, and hold the default where they hold nothing.
pub fn equal_laws()
    ensures transitive { (w : AnyWorld) (a b c : Tree) → Holds w (eq1 a b c) }
    ensures chosen { (w : AnyWorld) (x : Tree) (i : ℕ) → Holds w (eq2 x i) }
    ensures fields { InWorlds (λ d IsTerm w. (r s : Tree) (i : ℕ) → IsTerm r → IsTerm s → Holds w (eq3 r s i)) }
    ensures records { InWorlds (λ d IsTerm w. (r s : Tree) → IsTerm r → IsTerm s → Holds w (eq4 r s)) }
    ensures presence { (w : AnyWorld) (o q : Tree) → Holds w (eq5 o q) }
    ensures held { (w : AnyWorld) (o q : Tree) → Holds w (eq6 o q) }
    ensures options { InWorlds (λ d IsTerm w. (o q : Tree) (i : ℕ) → IsTerm o → IsTerm q → Holds w (eq7 o q i)) }
    ensures absent { (w : AnyWorld) (o : Tree) → Holds w (eq8 o) }
{}

/// The rules of sets: members by value; a set term has just the members that stand there; subsets,
/// common members, and the members that show that a set is no subset or has one in common; sets
/// are equal just where each is a subset of the other; of a set term both that it is a subset and
/// that it has a member in common are told by those that stand there.
pub fn set_laws()
    ensures moved { (w : AnyWorld) (x y s : Tree) → Holds w (se1 x y s) }
    ensures among { InWorlds (λ d IsTerm w. (x s : Tree) → IsTerm x → IsTerm s → Holds w (se2 x s)) }
    ensures standing { (w : AnyWorld) (x s : Tree) (i : ℕ) → Holds w (se3 x s i) }
    ensures subsets { (w : AnyWorld) (s t x : Tree) → Holds w (se4 s t x) }
    ensures missing { (w : AnyWorld) (s t : Tree) (i : ℕ) → Holds w (se5 s t i) }
    ensures shared { (w : AnyWorld) (s t : Tree) (i : ℕ) → Holds w (se6 s t i) }
    ensures common { (w : AnyWorld) (s t x : Tree) → Holds w (se7 s t x) }
    ensures sets { InWorlds (λ d IsTerm w. (s t : Tree) (i : ℕ) → IsTerm s → IsTerm t → Holds w (se8 s t i)) }
    ensures each { (w : AnyWorld) (s t : Tree) (i : ℕ) → Holds w (se9 s t i) }
    ensures some { (w : AnyWorld) (s t : Tree) (i : ℕ) → Holds w (se10 s t i) }
{}

/// The rules of entities: equal ones have alike attributes, ancestors, keys and tags; ancestors are
/// transitive and acyclic; a tag without a key is the default; actions have their declared
/// ancestors, an entity of a type of actions is a declared one, and one of an enumerated type is a
/// choice.
pub fn entity_laws()
    ensures attributes { (w : AnyWorld) (x y : Tree) (i : ℕ) (z : Option Tree) → Holds w (en1 x y i z) }
    ensures sets { (w : AnyWorld) (x s z : Tree) → Holds w (en2 x s z) }
    ensures tags { (w : AnyWorld) (x y : Tree) (i : ℕ) (z : Option Tree) → Holds w (en3 x y i z) }
    ensures acyclic { InWorlds (λ d IsTerm w. (e : Tree) → Holds w (en4 e)) }
    ensures transitive { InWorlds (λ d IsTerm w. (e f x u : Tree) → Holds w (en5 e f x u)) }
    ensures absent { InWorlds (λ d IsTerm w. (a : Tree) → IsTerm a → Holds w (en6 a)) }
    ensures declared { InWorlds (λ d IsTerm w. (s x : Tree) → Holds w (en7 d s x)) }
    ensures acting { InWorlds (λ d IsTerm w. (x : Tree) → IsTerm x → Holds w (en8 d x)) }
    ensures enumerated { InWorlds (λ d IsTerm w. (x : Tree) → IsTerm x → Holds w (eq9 d x)) }
{}

/// The rules of strings: equal ones match the same patterns, and of as many strings as there are
/// texts with their signs, or more, one has another sign or two are equal.
pub fn string_laws()
    ensures moved { (w : AnyWorld) (qs : List Pattern) (a b : Tree) (i : ℕ) → Holds w (st1 qs a b i) }
    ensures counted { InWorlds (λ d IsTerm w. (qs : List Pattern) (v : Signs) (ts : List Tree) → All IsTerm ts
        → AreFew qs v (length ts) → Holds w (st2 qs v ts)) }
    ensures crowded { InWorlds (λ d IsTerm w. (qs : List Pattern) (v : Signs) (ts : List Tree) → All IsTerm ts
        → AreFew qs v (length ts) → Holds w (st3 qs v ts)) }
{}
