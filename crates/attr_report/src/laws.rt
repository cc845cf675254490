//! Laws of the history of a run. Each function does nothing; its contract is the law.
ghost use Rattle.attr_report.specs.Laws.{HistoriesAreLegal, NoRoundComesFirst};

/// If the rounds of a run are at loaded commit points and never fall, its history is legal. No legal history begins
/// with a round: each round comes after its commit.
pub fn history_law()
    ensures legal { HistoriesAreLegal }
    ensures first { NoRoundComesFirst }
{}
