//! Tests of the names of questions.
use sc_question::{Question, question_named, takes_two};

fn is_named(word: &str, question: Question) -> bool {
    question_named(word) == Some(question)
}

#[test]
fn each_question_has_its_name(rt: HostRuntime) {
    assert!(rt; is_named("never-errors", Question::NeverErrors));
    assert!(rt; is_named("always-allows", Question::AlwaysAllows));
    assert!(rt; is_named("always-denies", Question::AlwaysDenies));
    assert!(rt; is_named("implies", Question::Implies));
    assert!(rt; is_named("equivalent", Question::Equivalent));
    assert!(rt; is_named("disjoint", Question::Disjoint));
}

#[test]
fn other_words_name_no_question(rt: HostRuntime) {
    assert!(rt; question_named("").is_none());
    assert!(rt; question_named("Implies").is_none());
    assert!(rt; question_named("always_denies").is_none());
    assert!(rt; question_named("disjoint ").is_none());
}

#[test]
fn three_questions_take_two_sets(rt: HostRuntime) {
    assert!(rt; !takes_two(Question::NeverErrors));
    assert!(rt; !takes_two(Question::AlwaysDenies));
    assert!(rt; takes_two(Question::Implies));
    assert!(rt; takes_two(Question::Disjoint));
}
