//! A run in progress: the plain table beside its attributes, and its result so far.
use crate::ended::Ended;
use crate::script::{Script, follow_one};
use crate::turn::{Answer, Stepped};
use attr_types::Fields;
use plain_model::PlainTable;
use std::alloc::{AllocError, Global};

/// The parameters of a run.
#[derive(Clone, Copy)]
pub struct Load {
    pub buffers: u32,
    pub script: Script,
    /// The number of operations of each commit.
    pub commits: u32,
    /// The number of keys that a step visits.
    pub keys: u32,
    /// The number of compactions that must end.
    pub finishes: u32,
    /// One commit in this many is read by the slow checker.
    pub checks: u32,
    /// A commit follows each step.
    pub each: bool,
    /// After each step the document with the lowest number is removed, and a commit follows.
    pub removes: bool,
    /// The first step of a compaction visits this many times the number of documents, and then the lowest document is
    /// removed.
    pub parts: u32,
    /// The last operations before the first compaction wait for their commit.
    pub waits: bool,
    /// Frequent values have bit vectors.
    pub dense: bool,
}

/// The result of a run.
#[derive(Clone, Copy)]
pub struct Told {
    pub differs: bool,
    pub operations: u32,
    pub commits: u32,
    pub steps: u32,
    /// The number of compactions that ended.
    pub finished: u32,
    /// Steps that were refused, and those that ended early.
    pub refused: u32,
    pub stopped: u32,
    /// Steps without memory for their first key, those that ended early for lack of memory, and whether the last step
    /// was one of these.
    pub short: u32,
    pub cut: u32,
    pub lacks: bool,
    /// What was done for space since a step was refused, and how often a step succeeded afterwards.
    pub tries: u32,
    pub resumed: u32,
    /// There was nothing more to compact.
    pub idle: bool,
    /// An operation or a commit was refused.
    pub full: bool,
    /// The commit before the compaction in progress, whether no operation followed, and whether its first step is
    /// next.
    pub begun: usize,
    pub quiet: bool,
    pub is_first: bool,
}

/// What follows a step.
#[derive(Clone, Copy)]
pub enum Next {
    /// Nothing more.
    End,
    Step,
    Commit,
    /// The lowest document is removed, and a commit follows.
    Remove,
    /// A commit, and then the same.
    CommitRemove,
    /// The buffer with this number was emptied, and goes on hold with a commit.
    Finish(u32),
}

impl Told {
    /// Returns an empty result.
    pub fn new() -> Told {
        Told {
            differs: false,
            operations: 0,
            commits: 0,
            steps: 0,
            finished: 0,
            refused: 0,
            stopped: 0,
            short: 0,
            cut: 0,
            lacks: false,
            tries: 0,
            resumed: 0,
            idle: false,
            full: false,
            begun: 0,
            quiet: true,
            is_first: true,
        }
    }

    /// Notes the result of an operation or a commit. Returns whether the run continues.
    fn goes_on(&mut self, answer: Answer) -> bool {
        match answer {
            Answer::Done => return true,
            Answer::Full => self.full = true,
            Answer::Odd => self.differs = true,
        }
        false
    }

    /// Notes that a step succeeded, perhaps after one that was refused or ended early for lack of memory.
    fn resume(&mut self) {
        if self.tries > 0 || self.lacks {
            self.resumed = self.resumed.saturating_add(1);
        }
        self.tries = 0;
        self.lacks = false;
    }

    /// Notes that a step visited all of its keys.
    fn move_on(&mut self, load: Load) -> Next {
        self.resume();
        let was_first = self.is_first;
        self.is_first = false;
        if load.removes && load.each {
            return Next::CommitRemove;
        }
        if load.removes || was_first && load.parts > 0 {
            return Next::Remove;
        }
        if load.each { Next::Commit } else { Next::Step }
    }

    /// Notes that a step visited some of its keys, for lack of space or of memory.
    fn break_off(&mut self, done: u32, keys: u32) -> Next {
        if done == 0 || done >= keys {
            self.differs = true;
        }
        self.resume();
        self.is_first = false;
        Next::Step
    }

    /// Returns what follows a step that was refused at its first key: a commit, and if that was not enough, the
    /// removal of the lowest document.
    fn make_room(&mut self) -> Next {
        self.refused = self.refused.saturating_add(1);
        self.is_first = false;
        self.tries = self.tries.saturating_add(1);
        if self.tries == 1 {
            Next::Commit
        } else {
            Next::Remove
        }
    }

    /// Notes the result of a step of this many keys.
    fn note_step(&mut self, load: Load, keys: u32, stepped: Stepped) -> Next {
        match stepped {
            Stepped::Idle => {
                self.idle = true;
                Next::End
            }
            Stepped::Moved(done) => {
                if done != keys {
                    self.differs = true;
                }
                self.move_on(load)
            }
            Stepped::Stopped(done) => {
                self.stopped = self.stopped.saturating_add(1);
                self.break_off(done, keys)
            }
            Stepped::Short => {
                self.short = self.short.saturating_add(1);
                self.lacks = true;
                self.is_first = false;
                Next::Step
            }
            Stepped::Cut(done) => {
                self.cut = self.cut.saturating_add(1);
                let next = self.break_off(done, keys);
                self.lacks = true;
                next
            }
            Stepped::Full => self.make_room(),
            Stepped::Finished(buffer) => {
                self.resume();
                self.finished = self.finished.saturating_add(1);
                Next::Finish(buffer)
            }
            Stepped::Odd => {
                self.differs = true;
                Next::End
            }
        }
    }
}

/// A run in progress.
#[derive(Drop)]
pub struct Course {
    pub load: Load,
    pub plain: PlainTable,
    pub told: Told,
    pub ended: Vec<Ended>,
}

/// More than the number of documents of a row.
const MOST_DOCUMENTS: usize = 1_000_000;

impl Course {
    /// Returns a run that is about to begin.
    pub fn new(alloc: Global, fields: &Fields, load: Load) -> Result<Course, AllocError> {
        let own = fields.clone()?;
        Ok(Course {
            load,
            plain: PlainTable::new(alloc, own),
            told: Told::new(),
            ended: Vec::new(alloc),
        })
    }

    /// Notes the result of the next operation on the attributes. If it was applied, the plain table follows. Returns
    /// whether the run continues.
    pub fn note_turn(&mut self, alloc: Global, answer: Answer) -> Result<bool, AllocError> {
        if !self.told.goes_on(answer) {
            return Ok(false);
        }
        let number = self.told.operations;
        self.told.operations = number.saturating_add(1);
        let _ = follow_one(alloc, self.load.script, number, &mut self.plain)?;
        Ok(true)
    }

    /// Notes the result of a commit. Returns whether the run continues.
    pub fn note_commit(&mut self, answer: Answer) -> bool {
        if !self.told.goes_on(answer) {
            return false;
        }
        self.told.commits = self.told.commits.saturating_add(1);
        true
    }

    /// Returns whether a commit follows this operation before the first compaction, counted from 0.
    pub fn is_due(&self, number: u32) -> bool {
        let operations = number.saturating_add(1);
        if operations == self.load.script.load() {
            return !self.load.waits;
        }
        operations % self.load.commits.max(1) == 0
    }

    /// Begins the compactions.
    pub fn begin_steps(&mut self) {
        self.told.begun = self.told.commits as usize;
        self.told.quiet = !self.load.waits;
    }

    /// Returns how many keys the next step visits. The first step of a compaction may go to the end of a phase.
    pub fn next_keys(&mut self) -> u32 {
        self.told.steps = self.told.steps.saturating_add(1);
        if self.told.is_first && self.load.parts > 0 {
            let documents = self.plain.documents().len().min(MOST_DOCUMENTS) as u32;
            return documents.saturating_mul(self.load.parts);
        }
        self.load.keys
    }

    /// Notes the result of a step of this many keys.
    pub fn note_step(&mut self, keys: u32, stepped: Stepped) -> Next {
        self.told.note_step(self.load, keys, stepped)
    }

    /// Notes that a compaction ended, and its buffer went on hold with a commit.
    pub fn end_one(&mut self, buffer: u32) -> Result<(), AllocError> {
        let closed = self.told.commits as usize;
        self.ended.push(Ended {
            buffer,
            begun: self.told.begun,
            closed,
            quiet: self.told.quiet,
        })?;
        self.told.begun = closed;
        self.told.quiet = true;
        self.told.is_first = true;
        Ok(())
    }
}
