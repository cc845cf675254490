//! Laws of visited keys. The function does nothing; its contract is the law.
ghost use Rattle.compaction_moves.specs.Laws.{AllIsVisited, NothingIsLeft, NothingIsVisited, VisitedStays};

/// At first no key is visited. When a place moves forward, visited keys stay visited. Past the last phase of the last
/// attribute all keys are visited, and nothing that the attributes reach lies in the victim.
#[tactic(none)]
pub fn cleared_law()
    ensures begins { NothingIsVisited }
    ensures stays { VisitedStays }
    ensures ends { AllIsVisited }
    ensures left { NothingIsLeft }
{}
