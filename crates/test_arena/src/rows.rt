//! Rows: `row READERS COMMITS GENERATIONS BUFFERS`, or `store ..`, begins a row, and `PARTY TASK = ANSWER` is a step
//! of it. Other lines are comments.
use crate::answers::{Answer, push_answer};
use crate::parties::answers;
use crate::playing::Told;
use crate::steps::{Setting, Step, setting_in, step_in};
use std::alloc::{AllocError, Global};
use std::io;
use std::thread::Threads;
use test_kit::Tally;

/// Counts the result of a step. A wrong result is printed.
fn judge(
    rt: &HostRuntime,
    step: &Step,
    answer: Answer,
    text: &mut String,
    tally: &mut Tally,
) -> io::Result<()> {
    text.clear();
    push_answer(text, answer)?;
    tally.note(rt, &step.asked, text, &step.wanted)
}

/// Counts the results of a party's steps.
fn judge_all(
    rt: &HostRuntime,
    steps: &[Step],
    party: &[Told],
    text: &mut String,
    tally: &mut Tally,
) -> io::Result<()> {
    for told in party {
        if let Some(step) = steps.get(told.step) {
            judge(rt, step, told.answer, text, tally)?;
        }
    }
    Ok(())
}

/// The current row with its steps, the text of the last answer, the number of steps, and the count of those with a
/// result.
#[derive(Drop)]
struct Rows {
    setting: Setting,
    steps: Vec<Step>,
    text: String,
    all: u64,
    tally: Tally,
}

impl Rows {
    fn new(alloc: Global) -> Rows {
        Rows {
            setting: Setting::default(),
            steps: Vec::new(alloc),
            text: String::new(alloc),
            all: 0,
            tally: Tally::default(),
        }
    }

    /// Plays the current row.
    fn play<R: Threads + Sync>(&mut self, rt: &HostRuntime, threads: &R) -> io::Result<()> {
        self.all = self.all.saturating_add(self.steps.len() as u64);
        for party in answers(threads, rt.alloc(), self.setting, &self.steps)? {
            judge_all(rt, &self.steps, &party?, &mut self.text, &mut self.tally)?;
        }
        Ok(())
    }

    /// Adds the step of a line, if it is one.
    fn add(&mut self, alloc: Global, line: &str) -> Result<(), AllocError> {
        match step_in(alloc, line)? {
            Some(step) => Ok(self.steps.push(step)?),
            None => Ok(()),
        }
    }

    fn take<R: Threads + Sync>(
        &mut self,
        rt: &HostRuntime,
        threads: &R,
        line: &str,
    ) -> io::Result<()> {
        let Some(setting) = setting_in(line) else {
            return Ok(self.add(rt.alloc(), line)?);
        };
        self.play(rt, threads)?;
        self.steps.clear();
        self.setting = setting;
        Ok(())
    }
}

/// Plays the rows of standard input. Returns the number of steps, and how many of them had the expected result.
pub fn compare<R: Threads + Sync>(rt: &HostRuntime, threads: &R) -> io::Result<(u64, u64)> {
    let mut rows = Rows::new(rt.alloc());
    for line in rt.lines(rt.alloc()) {
        rows.take(rt, threads, line?.as_str())?;
    }
    rows.play(rt, threads)?;
    Ok((rows.all, rows.tally.right))
}
