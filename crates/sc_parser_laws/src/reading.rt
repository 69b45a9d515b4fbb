//! Each policy file is read as something.
ghost use Rattle.std.specs.Prelude.{ℕ, List, Result};
ghost use Rattle.sc_ast.specs.declared.policy.Policy.{Policy as AnyPolicy};
ghost use Rattle.sc_parser.specs.Spelling.{IsReading};
ghost use Rattle.sc_parser.specs.declared.fault.PolicyFault.{PolicyFault as AnyFault};

/// Each list of bytes spells policies or has a first fault, since reading goes forward among the tokens and so comes to
/// an end. (That none has two readings is a law of `sc_parser`.)
#[tactic(auto, using(crate::proofs::TotalLaws::has_reading))]
pub fn totality_laws()
    ensures { (bytes : List ℕ) → (told : Result (List AnyPolicy) AnyFault) × IsReading bytes told }
{}
