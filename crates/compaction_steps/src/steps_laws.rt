//! Laws of what was cleared. Each function does nothing; its contract is the law.
ghost use Rattle.compaction_steps.specs.StepsLaws.{
  AllStayLeavesCleared,
  FirstIsCleared,
  NothingIsReached,
  OperationLeavesCleared,
  OthersStayCleared,
  PhaseEndLeavesCleared,
  StayLeavesCleared,
};

use attr_field::field_law;
use store_api::Store;

/// While the records of one attribute, or of all attributes, stay the same, what was cleared stays cleared.
#[tactic(none)]
pub fn same_law()
    ensures one { StayLeavesCleared }
    ensures all { AllStayLeavesCleared }
{}

/// Before the first key, and at the end of a phase, nothing more has to be cleared. After one more key in an
/// attribute, nothing more has to be cleared in the others. Past the last phase of the last attribute, nothing that
/// the attributes reach lies in the victim.
#[tactic(none)]
pub fn stage_law()
    ensures first { FirstIsCleared }
    ensures phase { PhaseEndLeavesCleared }
    ensures others { OthersStayCleared }
    ensures last { NothingIsReached }
{
    field_law();
}

/// An operation leaves what was cleared as it was.
#[tactic(none)]
pub fn step_law<const OFFSET_BITS: u32, S: Store<OFFSET_BITS>>()
    ensures { OperationLeavesCleared OFFSET_BITS S.Home }
{}
