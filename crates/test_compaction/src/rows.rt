//! Rows of standard input: `run FIELDS BUFFERS PUTS VALUES LAST KEEP COMMITS KEYS FINISHES CHECKS EACH REMOVES PARTS
//! WAITS`, followed by DENSE and DROPS; then `said LINE`, how much it must have done, and `met WORDS`, what must have
//! occurred. `tell` prints all of it. FIELDS are `KIND:TYPE`, separated by commas.
//! Other lines are comments.
use crate::course::Load;
use crate::memory::run;
use crate::outcome::Outcome;
use crate::script::Script;
use std::alloc::{AllocError, Global};
use std::io;
use test_kit::{Tally, fields_in, number_at};

fn count_at(row: &str, place: usize) -> u32 {
    number_at(row, place).min(1_000_000)
}

fn load_in(row: &str) -> Load {
    Load {
        buffers: count_at(row, 1),
        script: Script {
            puts: count_at(row, 2),
            values: count_at(row, 3),
            last: count_at(row, 4),
            keep: count_at(row, 5),
            drops: count_at(row, 15) != 0,
        },
        commits: count_at(row, 6),
        keys: count_at(row, 7),
        finishes: count_at(row, 8),
        checks: count_at(row, 9),
        each: count_at(row, 10) != 0,
        removes: count_at(row, 11) != 0,
        parts: count_at(row, 12),
        waits: count_at(row, 13) != 0,
        dense: count_at(row, 14) != 0,
    }
}

/// Returns how much was done; only about compactions if a row does not fix how many operations come between steps.
fn counts_of(alloc: Global, outcome: Outcome) -> Result<String, AllocError> {
    let told = outcome.told;
    let finished = told.finished;
    if outcome.copied.lost {
        return String::from_str(alloc, "no memory for what was seen");
    }
    if told.differs {
        return format!(in alloc; "differs in compaction {finished}");
    }
    if told.full {
        return String::from_str(alloc, "no room");
    }
    let (operations, commits, steps) = (told.operations, told.commits, told.steps);
    if told.refused > 0 || told.stopped > 0 || outcome.load.removes {
        return format!(in alloc; "same: {finished} compactions");
    }
    format!(in alloc;
        "same: {operations} operations, {commits} commits, {finished} compactions in {steps} steps"
    )
}

/// Returns whether something occurred in a run.
fn has_met(outcome: Outcome, word: &str) -> bool {
    let (told, copied) = (outcome.told, outcome.copied);
    match word {
        "keys" => copied.counts[0] > 0,
        "documents" => copied.counts[1] > 0,
        "lists" => copied.counts[2] > 0,
        "nodes" => copied.counts[3] > 0,
        "blocks" => copied.counts[4] > 0,
        "width 2" => copied.twos > 0,
        "width 4" => copied.fours > 0,
        "width 16" => copied.sixteens > 0,
        "width 34" => copied.nodes > 0,
        "width 64" => copied.blocks > 0,
        "refused" => told.refused > 0,
        "stopped" => told.stopped > 0,
        "went on" => told.resumed > 0,
        "idle" => told.idle,
        _ => false,
    }
}

fn has_met_all(outcome: Outcome, words: &str) -> bool {
    for word in words.split(", ") {
        if !has_met(outcome, word) {
            return false;
        }
    }
    true
}

/// Returns whether a run is as a line requires, or `None` if the line is a comment.
fn is_as_wanted(
    alloc: Global,
    outcome: Option<Outcome>,
    line: &str,
) -> Result<Option<bool>, AllocError> {
    let Some(outcome) = outcome else {
        return Ok(None);
    };
    if let Some(wanted) = line.strip_prefix("said ") {
        let counts = counts_of(alloc, outcome)?;
        return Ok(Some(counts.as_str() == wanted));
    }
    match line.strip_prefix("met ") {
        Some(words) => Ok(Some(has_met_all(outcome, words))),
        None => Ok(None),
    }
}

/// Returns everything about a run.
fn described(alloc: Global, outcome: Option<Outcome>) -> Result<String, AllocError> {
    let Some(outcome) = outcome else {
        return String::from_str(alloc, "no run");
    };
    let counts = counts_of(alloc, outcome)?;
    let (told, copied) = (outcome.told, outcome.copied);
    let done = [told.operations, told.commits, told.steps];
    let broken = [
        told.refused,
        told.stopped,
        told.short,
        told.cut,
        told.resumed,
    ];
    let (idle, full) = (told.idle, told.full);
    let moved = copied.counts;
    let widths = [
        copied.twos,
        copied.fours,
        copied.sixteens,
        copied.nodes,
        copied.blocks,
    ];
    format!(in alloc;
        "{counts}; operations, commits, steps {done:?}; refused, stopped, short, cut, resumed {broken:?}; idle {idle} full {full}; copied {moved:?}; widths {widths:?}"
    )
}

/// Returns the result of a row's run, if it names one to eight attributes.
fn outcome_of(alloc: Global, row: &str) -> Result<Option<Outcome>, AllocError> {
    match fields_in(alloc, row)? {
        Some(fields) => Ok(Some(run(alloc, &fields, load_in(row))?)),
        None => Ok(None),
    }
}

/// The last row, its result, and the number of lines compared.
#[derive(Drop)]
struct Rows {
    case: String,
    last: Option<Outcome>,
    tally: Tally,
}

impl Rows {
    fn begin(&mut self, alloc: Global, row: &str) -> Result<(), AllocError> {
        self.last = outcome_of(alloc, row)?;
        self.case = String::from_str(alloc, row)?;
        Ok(())
    }

    fn tell(&self, rt: &HostRuntime) -> io::Result<()> {
        let found = described(rt.alloc(), self.last)?;
        println!(rt; "{}: {found}", self.case)
    }

    fn judge(&mut self, rt: &HostRuntime, is_right: bool, line: &str) -> io::Result<()> {
        if self.tally.count(is_right) {
            return Ok(());
        }
        let found = described(rt.alloc(), self.last)?;
        println!(rt; "{}: {found} in place of {line}", self.case)
    }

    fn take(&mut self, rt: &HostRuntime, line: &str) -> io::Result<()> {
        let alloc = rt.alloc();
        if let Some(row) = line.strip_prefix("run ") {
            return Ok(self.begin(alloc, row)?);
        }
        if line == "tell" {
            return self.tell(rt);
        }
        match is_as_wanted(alloc, self.last, line)? {
            Some(is_right) => self.judge(rt, is_right, line),
            None => Ok(()),
        }
    }
}

/// Compares the rows of standard input, one after another.
pub fn compare(rt: &HostRuntime) -> io::Result<()> {
    let mut rows = Rows {
        case: String::new(rt.alloc()),
        last: None,
        tally: Tally::default(),
    };
    for line in rt.lines(rt.alloc()) {
        rows.take(rt, line?.as_str())?;
    }
    rows.tally.print(rt, "rows")
}
