//! What is true of generated policies under their schema.
ghost use Rattle.std.specs.Prelude.{◌≡◌, ℕ, List, None};
ghost use Rattle.sc_schema_json.specs.Spelling.{Spells};
ghost use Rattle.sc_typing.specs.Checking.{type_fault};
ghost use Rattle.sc_typing.specs.Names.{name_fault};
ghost use Rattle.sc_generated.specs.Generated.{schema_text};
ghost use Rattle.sc_generated_laws.specs.Texts.{policies_in};
ghost use Rattle.sc_generated_typing_laws.specs.Schema.{declared};

/// The text of the schema spells it, and under it the policies of any numbers are served.
#[tactic(auto, using(crate::proofs::DeclaringLaws::schema_spelled, crate::proofs::PoliciesLaws::names_declared, crate::proofs::PoliciesLaws::all_typed))]
pub fn generated_typing_laws()
    // The text spells what is declared.
    ensures schema { Spells schema_text declared }
    // The policies write declared names alone.
    ensures names { (whole : ℕ) (xs : List ℕ) → name_fault declared (policies_in whole xs) ≡ None }
    // Each has a type in each environment.
    ensures types { (whole : ℕ) (xs : List ℕ) → type_fault declared (policies_in whole xs) ≡ None }
{}
