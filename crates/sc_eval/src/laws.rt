//! What the definitions of evaluation come to.
ghost use Rattle.std.specs.Prelude.{◌≡◌, ◌↔◌, ◌∷◌, [], ℕ, List, map, reverse, Ok, Some, Contains, IsTrue, IfOk};
ghost use Rattle.std.specs.List.Sorted.{IsStrictlySortedBy};
ghost use Rattle.std.specs.Map.{keys_of};
ghost use Rattle.sc_ip.specs.Addresses.{IsIp};
ghost use Rattle.sc_ip.specs.IpValue.{ip_of};
ghost use Rattle.sc_ip.specs.declared.ip.Ip.{Ip as AnyIp};
ghost use Rattle.sc_names.specs.Uids.{text_cmp};
ghost use Rattle.sc_ast.specs.declared.expr.Expr.{Expr as AnyExpr};
ghost use Rattle.sc_ast.specs.declared.expr.Expr.TheVariants as expr;
ghost use Rattle.sc_ast.specs.declared.expr.TypeName.{TypeName as AnyTypeName};
ghost use Rattle.sc_ast.specs.declared.expr.Variable.{Variable as AnyVariable};
ghost use Rattle.sc_ast.specs.declared.literal.Literal.{Literal as AnyLiteral};
ghost use Rattle.sc_ast.specs.declared.operator.BinaryOperator.{BinaryOperator as AnyBinary};
ghost use Rattle.sc_ast.specs.declared.operator.BinaryOperator.TheVariants.{In};
ghost use Rattle.sc_ast.specs.declared.operator.UnaryOperator.{UnaryOperator as AnyUnary};
ghost use Rattle.sc_ast.specs.declared.place.Place.{Place as AnyPlace};
ghost use Rattle.sc_pattern.specs.declared.part.Part.{Part as AnyPart};
ghost use Rattle.sc_values.specs.declared.value.Value.{Value as AnyValue};
ghost use Rattle.sc_values.specs.Proper.{IsProper};
ghost use Rattle.sc_values.specs.Records.{Fields, field};
ghost use Rattle.sc_values.specs.Sets.{IsSetOf};
ghost use Rattle.sc_world.specs.declared.world.World.{World as AnyWorld};
ghost use Rattle.sc_world.specs.WellFormed.{IsProperWorld};
ghost use Rattle.sc_eval.specs.Collections.{is_same, is_member, members_of, fields_of};
ghost use Rattle.sc_eval.specs.Entities.{has, has_path};
ghost use Rattle.sc_eval.specs.Eval.{eval, choice, either, both, operated, having, matching, typed, typed_in, applied, accessed, set_literal, record_literal};
ghost use Rattle.sc_eval.specs.Operators.{literal_value, variable_value};
ghost use Rattle.sc_eval.specs.Written.{has_each, HasProperConstants};

/// What each construct comes to in a world, from its parts, in the order of the grammar.
pub fn construct_laws()
    ensures of_if { (p : AnyPlace) (c a b : AnyExpr) (w : AnyWorld) →
        eval (expr.If p c a b) w ≡ choice (eval c) (eval a) (eval b) w }
    ensures of_or { (p : AnyPlace) (a b : AnyExpr) (w : AnyWorld) →
        eval (expr.Or p a b) w ≡ either (eval a) (eval b) w }
    ensures of_and { (p : AnyPlace) (a b : AnyExpr) (w : AnyWorld) →
        eval (expr.And p a b) w ≡ both (eval a) (eval b) w }
    ensures of_binary { (p : AnyPlace) (operator : AnyBinary) (a b : AnyExpr) (w : AnyWorld) →
        eval (expr.Binary p operator a b) w ≡ operated operator (eval a) (eval b) w }
    ensures of_has { (p : AnyPlace) (a : AnyExpr) (names : List (List ℕ)) (w : AnyWorld) →
        eval (expr.Has p a names) w ≡ having names (eval a) w }
    ensures of_like { (p : AnyPlace) (a : AnyExpr) (pattern : List AnyPart) (w : AnyWorld) →
        eval (expr.Like p a pattern) w ≡ matching pattern (eval a) w }
    ensures of_is { (p : AnyPlace) (a : AnyExpr) (t : AnyTypeName) (w : AnyWorld) →
        eval (expr.Is p a t) w ≡ typed t.name (eval a) w }
    ensures of_is_in { (p : AnyPlace) (a : AnyExpr) (t : AnyTypeName) (q : AnyPlace) (b : AnyExpr) (w : AnyWorld) →
        eval (expr.IsIn p a t q b) w ≡ typed_in t.name (eval a) (eval b) w }
    ensures of_unary { (p : AnyPlace) (operator : AnyUnary) (a : AnyExpr) (w : AnyWorld) →
        eval (expr.Unary p operator a) w ≡ applied operator (eval a) w }
    ensures of_access { (p : AnyPlace) (a : AnyExpr) (name : List ℕ) (w : AnyWorld) →
        eval (expr.Access p a name) w ≡ accessed name (eval a) w }
    ensures of_literal { (p : AnyPlace) (l : AnyLiteral) (w : AnyWorld) →
        eval (expr.Literal p l) w ≡ Ok (literal_value l) }
    ensures of_variable { (p : AnyPlace) (x : AnyVariable) (w : AnyWorld) →
        eval (expr.Variable p x) w ≡ Ok (variable_value x w.request) }
    ensures of_set { (p : AnyPlace) (members : List AnyExpr) (w : AnyWorld) →
        eval (expr.Set p members) w ≡ set_literal (map eval members) w }
    ensures of_record { (p : AnyPlace) (fields : List (List ℕ × AnyExpr)) (w : AnyWorld) →
        eval (expr.Record p fields) w
        ≡ record_literal (map (λ (f : List ℕ × AnyExpr). (f.0, eval f.1)) fields) w }
{}

/// `x has a.b.c` is `x has a && x.a has b && x.a.b has c`, and `x is T in b` is `x is T && x in b`, by
/// value and by error. Where the world and the constants are made of values, so is what comes out; the address
/// that a text spells is within its version's bits.
pub fn eval_laws()
    ensures one_name { (name : List ℕ) (w : AnyWorld) (x : AnyValue) → has_path (name ∷ []) w x ≡ has name w x }
    ensures has { (place : AnyPlace) (x : AnyExpr) (name : List ℕ) (names : List (List ℕ)) (w : AnyWorld) →
        eval (expr.Has place x (name ∷ names)) w ≡ eval (has_each place x name names) w }
    ensures is_in { (place in_place : AnyPlace) (x b : AnyExpr) (t : AnyTypeName) (w : AnyWorld) →
        eval (expr.IsIn place x t in_place b) w
        ≡ eval (expr.And place (expr.Is place x t) (expr.Binary in_place In x b)) w }
    ensures proper { (w : AnyWorld) (x : AnyExpr) →
        IsProperWorld w → HasProperConstants x → IfOk (eval x w) IsProper }
    ensures address { (text : List ℕ) (a : AnyIp) → ip_of text ≡ Some a → IsIp a }
{}

/// Equality and membership are those of values. A set that is written has just its members, each once,
/// and a record that is written has its fields by name, in order: of two fields of one name the last.
pub fn collection_laws()
    ensures same { (x y : AnyValue) → IsTrue (is_same x y) ↔ x ≡ y }
    ensures member { (members : List AnyValue) (x : AnyValue) → IsTrue (is_member members x) ↔ Contains members x }
    ensures set { (members : List AnyValue) → IsSetOf members (members_of members) }
    ensures ascending { (pairs : Fields) → IsStrictlySortedBy text_cmp (keys_of (fields_of pairs)) }
    ensures names { (pairs : Fields) (name : List ℕ) →
        Contains (keys_of (fields_of pairs)) name ↔ Contains (keys_of pairs) name }
    ensures fields { (pairs : Fields) (name : List ℕ) →
        field name (fields_of pairs) ≡ field name (reverse pairs) }
{}
