//! The law that a history of writes has one count of steps, however its keys are cut.

ghost use Rattle.share_judge.specs.Answers.{StepsHaveOneCount, AWriteMakesThreeSteps};

/// Last versions have one count of steps, however the keys are cut: one before any write, and three
/// after a write of keys that lie inside.
pub fn one_count_of_steps_law()
    ensures one_count { StepsHaveOneCount }
    ensures scenario { AWriteMakesThreeSteps }
{}
