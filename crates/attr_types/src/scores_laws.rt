//! Laws of the answers of a table. Each function does nothing; its contract is the law.
ghost use Rattle.attr_types.specs.ScoresLaws.{ScoresFit, ScoresAscend};

/// Each score fits in 128 signed bits, and scores ascend by document.
pub fn scores_law()
    ensures fit { ScoresFit }
    ensures ascend { ScoresAscend }
{}
