//! Laws of visited keys. The function does nothing; its contract is the law.
ghost use Rattle.compaction_moves.specs.Visits.{
  AreAllBefore,
  EarlierIsVisited,
  EndIsVisited,
  IsNoneBehind,
  NextIsVisited,
  NextStageIsVisited,
  OthersAreVisited,
};

/// After one more key, only that key is newly visited. At the end of a phase all its keys are visited. All keys of
/// earlier phases and attributes are visited, and none of later ones. So after one more phase, only keys of the phase
/// that ended are newly visited.
#[tactic(none)]
pub fn visited_law()
    ensures next { NextIsVisited }
    ensures end { EndIsVisited }
    ensures earlier { EarlierIsVisited }
    ensures before { AreAllBefore }
    ensures behind { IsNoneBehind }
    ensures others { OthersAreVisited }
    ensures stage { NextStageIsVisited }
{}
