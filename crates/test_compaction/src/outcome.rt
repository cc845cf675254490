//! The result of a run, by what was seen at its commits.
use crate::course::{Course, Load, Told};
use crate::ended::{Copied, look_back};
use crate::watch::Watch;

/// The result of a run, and what its compactions moved.
#[derive(Clone, Copy)]
pub struct Outcome {
    pub load: Load,
    pub told: Told,
    pub copied: Copied,
}

/// Returns the result of a run with this many commits.
pub fn outcome_of(course: &Course, commits: u32, watch: &Watch) -> Outcome {
    let mut told = course.told;
    let copied = look_back(watch, course.ended.as_slice(), commits as usize);
    if commits != told.commits || copied.differs {
        told.differs = true;
    }
    Outcome {
        load: course.load,
        told,
        copied,
    }
}
