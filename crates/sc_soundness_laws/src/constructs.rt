//! Constructs of sound operands are sound.
ghost use Rattle.std.specs.Prelude.{ℕ, List, IfOk};
ghost use Rattle.sc_names.specs.declared.uid.Uid.{Uid as AnyUid};
ghost use Rattle.sc_ast.specs.declared.expr.TypeName.{TypeName as AnyTypeName};
ghost use Rattle.sc_ast.specs.declared.operator.BinaryOperator.{BinaryOperator as AnyBinary};
ghost use Rattle.sc_ast.specs.declared.operator.UnaryOperator.{UnaryOperator as AnyUnary};
ghost use Rattle.sc_ast.specs.declared.place.Place.{Place as AnyPlace};
ghost use Rattle.sc_pattern.specs.declared.part.Part.{Part as AnyPart};
ghost use Rattle.sc_schema.specs.declared.declarations.Env.{Env as AnyEnv};
ghost use Rattle.sc_schema.specs.Declarations.{Declarations};
ghost use Rattle.sc_schema.specs.Lawful.{IsLawful};
ghost use Rattle.sc_world.specs.declared.world.World.{World as AnyWorld};
ghost use Rattle.sc_world.specs.WellFormed.{IsWellFormed};
ghost use Rattle.sc_eval.specs.Eval.{eval};
ghost use Rattle.sc_eval.specs.Eval as evaluated;
ghost use Rattle.sc_typed.specs.Capabilities.{Capabilities};
ghost use Rattle.sc_typing_rules.specs.Rules.{Operand, choice, either, both, operated, having, matching, tested, tested_in, applied, accessed};
ghost use Rattle.sc_soundness_laws.specs.Sound.{SoundAs, Sounds};

/// `if`, `||` and `&&`: what is skipped is never evaluated, what is given holds where the whole is true.
#[tactic(auto, using(crate::proofs::LogicLaws::choice_sound, crate::proofs::LogicLaws::either_sound, crate::proofs::LogicLaws::both_sound))]
pub fn logic_laws()
    ensures choice { (w : AnyWorld) (place : AnyPlace) (c a b : Operand) → Sounds w c → Sounds w a → Sounds w b
        → (known : Capabilities) →
        IfOk (choice place c a b known)
        (SoundAs w known (evaluated.choice (eval c.expr) (eval a.expr) (eval b.expr) w)) }
    ensures either { (w : AnyWorld) (place : AnyPlace) (a b : Operand) → Sounds w a → Sounds w b
        → (known : Capabilities) →
        IfOk (either place a b known) (SoundAs w known (evaluated.either (eval a.expr) (eval b.expr) w)) }
    ensures both { (w : AnyWorld) (place : AnyPlace) (a b : Operand) → Sounds w a → Sounds w b
        → (known : Capabilities) →
        IfOk (both place a b known) (SoundAs w known (evaluated.both (eval a.expr) (eval b.expr) w)) }
{}

/// Operators: they err only by Overflow, and what they give is of the type that they have.
#[tactic(auto, using(crate::proofs::ConstructLaws::applied_sound, crate::proofs::ConstructLaws::operated_sound))]
pub fn operator_laws()
    ensures one { (w : AnyWorld) (place : AnyPlace) (operator : AnyUnary) (a : Operand) → Sounds w a
        → (known : Capabilities) →
        IfOk (applied place operator a known) (SoundAs w known (evaluated.applied operator (eval a.expr) w)) }
    ensures two { (w : AnyWorld) (s : Declarations) (env : AnyEnv) (literals : List AnyUid) → IsLawful s
        → IsWellFormed s env literals w →
        (place : AnyPlace) (operator : AnyBinary) (a b : Operand) → Sounds w a → Sounds w b → (known : Capabilities) →
        IfOk (operated s place operator a b known)
        (SoundAs w known (evaluated.operated operator (eval a.expr) (eval b.expr) w)) }
{}

/// `like`, `is` and `is T in`.
#[tactic(auto, using(crate::proofs::ConstructLaws::matching_sound, crate::proofs::ConstructLaws::tested_sound, crate::proofs::ConstructLaws::tested_in_sound))]
pub fn test_laws()
    ensures like { (w : AnyWorld) (place : AnyPlace) (pattern : List AnyPart) (a : Operand) → Sounds w a
        → (known : Capabilities) →
        IfOk (matching place pattern a known) (SoundAs w known (evaluated.matching pattern (eval a.expr) w)) }
    ensures of_type { (w : AnyWorld) (place : AnyPlace) (name : AnyTypeName) (a : Operand) → Sounds w a
        → (known : Capabilities) →
        IfOk (tested place name a known) (SoundAs w known (evaluated.typed name.name (eval a.expr) w)) }
    ensures of_type_in { (w : AnyWorld) (s : Declarations) (env : AnyEnv) (literals : List AnyUid) → IsLawful s
        → IsWellFormed s env literals w →
        (place : AnyPlace) (name : AnyTypeName) (in_place : AnyPlace) (a b : Operand) → Sounds w a → Sounds w b
        → (known : Capabilities) →
        IfOk (tested_in s place name in_place a b known)
        (SoundAs w known (evaluated.typed_in name.name (eval a.expr) (eval b.expr) w)) }
{}

/// `has` and `.`: an attribute is read only where it is there.
#[tactic(auto, using(crate::proofs::ConstructLaws::having_sound, crate::proofs::ConstructLaws::accessed_sound))]
pub fn attribute_laws()
    ensures has { (w : AnyWorld) (s : Declarations) (env : AnyEnv) (literals : List AnyUid) → IsLawful s
        → IsWellFormed s env literals w →
        (place : AnyPlace) (names : List (List ℕ)) (a : Operand) → Sounds w a → (known : Capabilities) →
        IfOk (having s place names a known) (SoundAs w known (evaluated.having names (eval a.expr) w)) }
    ensures read { (w : AnyWorld) (s : Declarations) (env : AnyEnv) (literals : List AnyUid) → IsLawful s
        → IsWellFormed s env literals w →
        (place : AnyPlace) (name : List ℕ) (a : Operand) → Sounds w a → (known : Capabilities) →
        IfOk (accessed s place name a known) (SoundAs w known (evaluated.accessed name (eval a.expr) w)) }
{}
