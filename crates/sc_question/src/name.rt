//! The names of questions.
ghost use Rattle.std.specs.Prelude.{◌≡◌, ◌≢◌, IfSome, IfNone};
ghost use Rattle.sc_question.specs.Questions.{name_of};
ghost use Rattle.sc_question.specs.declared.question.Question.{Question as AnyQuestion};

use crate::question::Question;

/// The question of this name, in small letters and with a hyphen between its words, as `always-denies`.
pub fn question_named(word: &str) -> Option<Question>
    ensures found { IfSome result (λ q. name_of q ≡ word.now) }
    ensures none { IfNone result ((q : AnyQuestion) → name_of q ≢ word.now) }
{
    match word {
        "never-errors" => Some(Question::NeverErrors),
        "always-allows" => Some(Question::AlwaysAllows),
        "always-denies" => Some(Question::AlwaysDenies),
        "implies" => Some(Question::Implies),
        "equivalent" => Some(Question::Equivalent),
        "disjoint" => Some(Question::Disjoint),
        _ => None,
    }
}

/// No two questions have one name.
#[tactic(auto, using(crate::proofs::NameLaws::one_name))]
pub fn name_laws()
    ensures { (q r : AnyQuestion) → name_of q ≡ name_of r → q ≡ r }
{}
