//! A law of runs. The function does nothing; its contract is the law.
ghost use Rattle.attr_engine.specs.Laws.{RoundsAreOne, RoundsStand, RoundsComeAfter};

/// The rounds of a run are as the statement of its report requires, and the seat of its writer determines them.
pub fn run_result_law()
    ensures stand { RoundsStand }
    ensures one { RoundsAreOne }
    ensures after { RoundsComeAfter }
{}
