//! A step of a compaction: it is begun, keys are visited, each in a unit of its own, and it ends.
//!
//! What a compaction has cleared stays cleared: while records stay the same, through operations, and at later places.
//!
//! Keys of a phase are passed together if nothing that belongs to them lies in the buffer that is emptied.
#![tactic(auto)]

mod clear_passing;
mod ending;
mod key;
mod nodes;
mod opening;
mod passing;
mod runs;
mod sights;
mod stepping;
mod steps_laws;
mod trees;
mod unit;
mod walk;
mod ways;

pub use clear_passing::{Passed, pass_clear};
pub use ending::give_up;
pub use stepping::{Step, compact};
pub use steps_laws::{same_law, stage_law, step_law};
