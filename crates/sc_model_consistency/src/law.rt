//! The law of assignments that falsify no instance.
ghost use Rattle.sc_model_consistency.specs.Laws.{InstancesSuffice};

use sc_footprint::problem_laws;

/// An assignment that has a value for each listed atom, and falsifies neither a defining clause nor
/// the clause of an instance, falsifies nothing, if the terms that go with a closed one are few
/// enough for a log to hold their places.
pub fn consistency_laws()
    ensures { InstancesSuffice }
{
    problem_laws();
}
