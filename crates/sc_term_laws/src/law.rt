//! Laws of terms.
ghost use Rattle.std.specs.Prelude.{◌≡◌, ◌↔◌, ◌&&◌, ◌||◌, ℕ, Bool, true, List, None, Some, not, find, All};
ghost use Rattle.std.specs.Cmp.{IsTotalOrder};
ghost use Rattle.std.specs.List.{list_all, list_any};
ghost use Rattle.std.specs.Map.{lookup};
ghost use Rattle.std.specs.Str.{bytes_eq};
ghost use Rattle.std.specs.declared.cmp.Ordering.TheVariants.{Equal as Level};
ghost use Rattle.sc_names.specs.declared.uid.Uid.{Uid as AnyUid};
ghost use Rattle.sc_pattern.specs.declared.part.Part.{Part as AnyPart};
ghost use Rattle.sc_schema.specs.declared.declarations.Env.{Env as AnyEnv};
ghost use Rattle.sc_schema.specs.Declarations.{Declarations};
ghost use Rattle.sc_schema.specs.Lawful.{IsLawful, IsTypeOf};
ghost use Rattle.sc_schema.specs.declared.ty.Ty.{Ty as AnyTy};
ghost use Rattle.sc_sorts.specs.declared.sort.Sort.{Sort as AnySort};
ghost use Rattle.sc_sorts.specs.declared.sort.Sort.TheVariants as sorts;
ghost use Rattle.sc_sorts.specs.Defaults.{default_of, is_option};
ghost use Rattle.sc_sorts.specs.Inside.{SortFields};
ghost use Rattle.sc_sorts.specs.OfTypes.{sort_of};
ghost use Rattle.sc_values.specs.declared.value.Value.{Value as AnyValue, out-Value};
ghost use Rattle.sc_values.specs.declared.value.Value.TheVariants as value;
ghost use Rattle.sc_values.specs.Records.{field};
ghost use Rattle.sc_world.specs.Conforms.{conforms};
ghost use Rattle.sc_world.specs.Defaults.{default_value};
ghost use Rattle.sc_world.specs.declared.world.World.{World as AnyWorld};
ghost use Rattle.sc_sorts.specs.declared.node.UnaryOp.TheVariants.{Not, Bit, Present, Held, Like, Field};
ghost use Rattle.sc_sorts.specs.declared.node.BinaryOp.TheVariants.{And, Or, Equal};
ghost use Rattle.sc_terms.specs.Folds.{not_term, and_term, or_term, choice_term, equal_term, present_term, held_term, bit_term, like_term, field_term, default_term};
ghost use Rattle.sc_terms.specs.Joined.{all_of, any_of};
ghost use Rattle.sc_terms.specs.Order.{tree_cmp};
ghost use Rattle.sc_terms.specs.Trees.{Tree, one, two, choice};
ghost use Rattle.sc_terms.specs.TreeSorts.{tree_sort};
ghost use Rattle.sc_terms.specs.Values.{Val, val, val_eq, value_eq, seen, truth, yes, default_val, not_value, and_value, or_value, equal_value, fields_seen, set_from, HasKinds};
ghost use Rattle.sc_term_laws.specs.Fitting.{fits, TermsFit, TermsHaveKinds};
ghost use Rattle.sc_term_laws.specs.Judging.{IsTermOf, HasPlace};
ghost use Rattle.sc_term_laws.specs.LawfulSorts.{IsSortOf};
ghost use Rattle.sc_term_laws.specs.Unfolded.{stays_not, stays_two, stays_choice, stays_equal, stays_field, stays_option, stays_literal};

/// The order of terms is total, and two terms are level in it exactly where they are one.
pub fn order_laws()
    ensures total { IsTotalOrder tree_cmp }
    ensures level { (a b : Tree) → tree_cmp a b ≡ Level ↔ a ≡ b }
{}

/// A folded term has the value of the term that isn't folded, in each world and of any parts; of a
/// field where the record's parts are as their sorts say.
pub fn value_laws()
    ensures negation { (a : Tree) (w : AnyWorld) → val (not_term a) w ≡ val (one Not a) w }
    ensures both { (a b : Tree) (w : AnyWorld) → val (and_term a b) w ≡ val (two And a b) w }
    ensures either { (a b : Tree) (w : AnyWorld) → val (or_term a b) w ≡ val (two Or a b) w }
    ensures equation { (a b : Tree) (w : AnyWorld) → val (equal_term a b) w ≡ val (two Equal a b) w }
    ensures chosen { (c a b : Tree) (w : AnyWorld) → val (choice_term c a b) w ≡ val (choice c a b) w }
    ensures present { (a : Tree) (w : AnyWorld) → val (present_term a) w ≡ val (one Present a) w }
    ensures held { (a : Tree) (w : AnyWorld) → val (held_term a) w ≡ val (one Held a) w }
    ensures bit { (a : Tree) (i : ℕ) (w : AnyWorld) → val (bit_term a i) w ≡ val (one (Bit i) a) w }
    ensures like { (a : Tree) (p : List AnyPart) (w : AnyWorld) → val (like_term a p) w ≡ val (one (Like p) a) w }
    ensures component { (name : List ℕ) (a : Tree) (w : AnyWorld) → HasKinds a w → val (field_term name a) w
        ≡ val (one (Field name) a) w }
    ensures defaults { (k : AnySort) (w : AnyWorld) → val (default_term k) w ≡ default_val k }
{}

/// What the connectives say: a negation of a truth value is true where that isn't, both are true
/// where each is, one is where either is, and an equation is true where its sides are one.
pub fn truth_laws()
    ensures negation { (x : Val) (b : Bool) → seen x ≡ Some b → truth (not_value x) ≡ not (truth x) }
    ensures both { (x y : Val) → truth (and_value x y) ≡ (truth x && truth y) }
    ensures either { (x y : Val) → truth (or_value x y) ≡ (truth x || truth y) }
    ensures bools { (b c : Bool) → equal_value (yes b) (yes c) ≡ yes (value_eq (value.Bool b) (value.Bool c)) }
    ensures others { (x y : Val) → seen x ≡ None → seen y ≡ None → equal_value x y ≡ yes (val_eq x y) }
    ensures all { (ts : List Tree) (w : AnyWorld) → truth (val (all_of ts) w) ≡ list_all (λ t. truth (val t w)) ts }
    ensures any { (ts : List Tree) (w : AnyWorld) → truth (val (any_of ts) w) ≡ list_any (λ t. truth (val t w)) ts }
{}

/// The default of a type's sort is the default of the type, for types that a schema writes.
pub fn default_laws()
    ensures { (s : Declarations) (t : AnyTy) → IsLawful s → IsTypeOf s t → default_of (sort_of t) ≡ default_value s t }
{}

/// The sort that a table keeps of a term is the sort that the term is judged to have.
pub fn term_laws()
    ensures { (s : Declarations) (env : AnyEnv) (written : List AnyUid) (k : AnySort) (t : Tree)
        → IsTermOf s env written k t → tree_sort t ≡ k }
{}

/// A term that stays as it is, is what its constructor makes.
pub fn unfolded_laws()
    ensures negation { (a : Tree) → stays_not a ≡ true → not_term a ≡ one Not a }
    ensures both { (a b : Tree) → stays_two a b ≡ true → and_term a b ≡ two And a b }
    ensures either { (a b : Tree) → stays_two a b ≡ true → or_term a b ≡ two Or a b }
    ensures chosen { (c a b : Tree) → stays_choice c a b ≡ true → choice_term c a b ≡ choice c a b }
    ensures equation { (a b : Tree) → stays_equal a b ≡ true → equal_term a b ≡ two Equal a b }
    ensures component { (name : List ℕ) (a : Tree) → stays_field name a ≡ true
        → field_term name a ≡ one (Field name) a }
    ensures present { (a : Tree) → stays_option a ≡ true → present_term a ≡ one Present a }
    ensures held { (a : Tree) → stays_option a ≡ true → held_term a ≡ one Held a }
    ensures bit { (a : Tree) (i : ℕ) → stays_literal a ≡ true → bit_term a i ≡ one (Bit i) a }
    ensures like { (a : Tree) (p : List AnyPart) → stays_literal a ≡ true → like_term a p ≡ one (Like p) a }
{}

/// A value that conforms to a type fits the sort of the type. Of a record that fits its sort, what it
/// has at a field fits the field's sort, and it lacks only a field of an option sort. What holds of
/// each value of a list holds of each member of its set, and of what is found in it.
pub fn fit_laws()
    ensures types { (t : AnyTy) (x : AnyValue) → conforms t x ≡ true → fits (sort_of t) x ≡ true }
    ensures fields { (fs : SortFields) (name : List ℕ) (k : AnySort) (x y : AnyValue)
        → lookup (bytes_eq name) fs ≡ Some k → fits (sorts.Record fs) x ≡ true
        → field name (fields_seen (out-Value x)) ≡ Some y → fits k y ≡ true }
    ensures lacks { (fs : SortFields) (name : List ℕ) (k : AnySort) (x : AnyValue) → lookup (bytes_eq name) fs ≡ Some k
        → fits (sorts.Record fs) x ≡ true → field name (fields_seen (out-Value x)) ≡ None → is_option k ≡ true }
    ensures members { (p : AnyValue → Bool) (xs : List AnyValue) → list_all p xs ≡ true
        → list_all p (set_from xs) ≡ true }
    ensures found { (p q : AnyValue → Bool) (xs : List AnyValue) (y : AnyValue)
        → list_all p xs ≡ true → find q xs ≡ Some y → p y ≡ true }
{}

/// Where the parts are terms, so is what each constructor that folds makes of them, and the list of
/// truth values joined. The default of a lawful sort is a term.
pub fn made_laws()
    ensures negation { (s : Declarations) (env : AnyEnv) (written : List AnyUid) (a : Tree)
        → IsTermOf s env written sorts.Bool a → IsTermOf s env written sorts.Bool (not_term a) }
    ensures both { (s : Declarations) (env : AnyEnv) (written : List AnyUid) (a b : Tree)
        → IsTermOf s env written sorts.Bool a → IsTermOf s env written sorts.Bool b
        → IsTermOf s env written sorts.Bool (and_term a b) }
    ensures either { (s : Declarations) (env : AnyEnv) (written : List AnyUid) (a b : Tree)
        → IsTermOf s env written sorts.Bool a → IsTermOf s env written sorts.Bool b
        → IsTermOf s env written sorts.Bool (or_term a b) }
    ensures chosen { (s : Declarations) (env : AnyEnv) (written : List AnyUid) (k : AnySort) (c a b : Tree)
        → IsTermOf s env written sorts.Bool c → IsTermOf s env written k a → IsTermOf s env written k b
        → IsTermOf s env written k (choice_term c a b) }
    ensures equation { (s : Declarations) (env : AnyEnv) (written : List AnyUid) (k : AnySort) (a b : Tree)
        → IsTermOf s env written k a → IsTermOf s env written k b → IsTermOf s env written sorts.Bool (equal_term a b) }
    ensures component { (s : Declarations) (env : AnyEnv) (written : List AnyUid) (fs : SortFields) (name : List ℕ)
        (k : AnySort) (a : Tree) → IsTermOf s env written (sorts.Record fs) a → lookup (bytes_eq name) fs ≡ Some k
        → IsTermOf s env written k (field_term name a) }
    ensures present { (s : Declarations) (env : AnyEnv) (written : List AnyUid) (k : AnySort) (a : Tree)
        → IsTermOf s env written (sorts.Option k) a → IsTermOf s env written sorts.Bool (present_term a) }
    ensures held { (s : Declarations) (env : AnyEnv) (written : List AnyUid) (k : AnySort) (a : Tree)
        → IsTermOf s env written (sorts.Option k) a → IsTermOf s env written k (held_term a) }
    ensures bit { (s : Declarations) (env : AnyEnv) (written : List AnyUid) (k : AnySort) (i : ℕ) (a : Tree)
        → HasPlace k i → IsTermOf s env written k a → IsTermOf s env written sorts.Bool (bit_term a i) }
    ensures like { (s : Declarations) (env : AnyEnv) (written : List AnyUid) (p : List AnyPart) (a : Tree)
        → IsTermOf s env written sorts.String a → IsTermOf s env written sorts.Bool (like_term a p) }
    ensures all { (s : Declarations) (env : AnyEnv) (written : List AnyUid) (ts : List Tree)
        → All (IsTermOf s env written sorts.Bool) ts → IsTermOf s env written sorts.Bool (all_of ts) }
    ensures any { (s : Declarations) (env : AnyEnv) (written : List AnyUid) (ts : List Tree)
        → All (IsTermOf s env written sorts.Bool) ts → IsTermOf s env written sorts.Bool (any_of ts) }
    ensures defaults { (s : Declarations) (env : AnyEnv) (written : List AnyUid) (k : AnySort)
        → IsSortOf s k → IsTermOf s env written k (default_term k) }
{}

/// In a well-formed world of a lawful schema the value of a term fits its sort.
pub fn terms_fit()
    ensures value { TermsFit }
    ensures kinds { TermsHaveKinds }
{}
