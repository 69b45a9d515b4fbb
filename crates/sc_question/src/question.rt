//! Questions.
ghost use Rattle.std.specs.Prelude.{◌≡◌};
ghost use Rattle.sc_question.specs.Questions.{takes_two};

/// What is asked of one policy set, or of two. Each asks whether every world has a property.
#[derive(Clone, Copy, Debug, PartialEq, Eq, PartialOrd, Ord)]
pub enum Question {
    /// No policy of the set errs.
    NeverErrors,
    /// The set allows.
    AlwaysAllows,
    /// The set doesn't allow.
    AlwaysDenies,
    /// Where the first set allows, the second does.
    Implies,
    /// The first set allows exactly where the second does.
    Equivalent,
    /// The two sets don't both allow.
    Disjoint,
}

/// Whether the question is asked of two sets.
pub fn takes_two(question: Question) -> bool
    ensures { result ≡ takes_two question }
{
    match question {
        Question::NeverErrors | Question::AlwaysAllows | Question::AlwaysDenies => false,
        Question::Implies | Question::Equivalent | Question::Disjoint => true,
    }
}
