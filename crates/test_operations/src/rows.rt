//! Rows of standard input: `run FIELDS SEED EPISODES OPERATIONS DOCUMENTS VALUES ITEMS PERIOD COMMITS BUFFERS CHECKS
//! DENSE`; then `said LINE`, how much it must have done, and `met WORDS`, what must have occurred often enough. FIELDS
//! are `KIND:TYPE`, separated by commas. Or `forms FIELDS BUFFERS DENSE`; then an operation of a feed or `commit` in
//! each line, and `answers LINE`, the forms of lists. Other lines are comments.
use crate::counts::Told;
use crate::lines::Lines;
use crate::make::Sizes;
use crate::run::{Load, run};
use std::alloc::{AllocError, Global};
use std::io;
use test_kit::{Tally, fields_in, number_at};

fn load_in(row: &str) -> Load {
    Load {
        seed: number_at(row, 1),
        episodes: number_at(row, 2),
        operations: number_at(row, 3).min(1_000_000),
        sizes: Sizes {
            documents: number_at(row, 4),
            values: number_at(row, 5).min(1_000_000),
            items: number_at(row, 6).min(1000),
            period: number_at(row, 7),
        },
        commits: number_at(row, 8),
        buffers: number_at(row, 9),
        checks: number_at(row, 10) != 0,
        dense: number_at(row, 11) != 0,
    }
}

/// Writes how much was done. Operations and commits are included only if nothing was refused, since a row does not
/// fix how much is refused.
fn push_counts(line: &mut String, told: Told) -> Result<(), AllocError> {
    if told.differs {
        return write!(line, "differs in episode {}", told.episodes);
    }
    line.push_str("same: ")?;
    if told.refused == 0 && told.full == 0 {
        let operations = u64::from(told.changed) + u64::from(told.skipped);
        write!(line, "{operations} operations, {} commits, ", told.commits)?;
    }
    write!(line, "{} images", told.images)
}

/// Returns what may be required to occur in a run, how often it did, and how often it must.
fn counts_of(told: Told) -> [(&'static str, u32, u32); 6] {
    [
        ("changed", told.changed, 1000),
        ("skipped", told.skipped, 100),
        ("refused", told.refused, 20),
        ("accepted after a commit", told.again, 10),
        ("refused after it", told.twice, 2),
        ("commits refused", told.full, 2),
    ]
}

/// Returns whether something occurred often enough in a run.
fn has_met(told: Told, word: &str) -> bool {
    for (name, count, least) in counts_of(told) {
        if name == word {
            return count >= least;
        }
    }
    false
}

fn has_met_all(told: Told, words: &str) -> bool {
    for word in words.split(", ") {
        if !has_met(told, word) {
            return false;
        }
    }
    true
}

/// Writes what may be required to occur, and how often it did.
fn push_met(line: &mut String, told: Told) -> Result<(), AllocError> {
    for (name, count, _) in counts_of(told) {
        write!(line, "{name} {count} ")?;
    }
    Ok(())
}

/// Returns the result of a row's run, if it names one to eight attributes.
fn told(alloc: Global, row: &str) -> Result<Option<Told>, AllocError> {
    match fields_in(alloc, row)? {
        Some(fields) => Ok(Some(run(alloc, &fields, load_in(row))?)),
        None => Ok(None),
    }
}

/// The last row, its result, and the counts of what was compared.
#[derive(Drop)]
struct Rows {
    case: String,
    told: Option<Told>,
    forms: Lines,
    tally: Tally,
}

impl Rows {
    fn new(alloc: Global) -> Result<Rows, AllocError> {
        Ok(Rows {
            case: String::new(alloc),
            told: None,
            forms: Lines::new(alloc, "")?,
            tally: Tally::default(),
        })
    }

    fn begin_run(&mut self, alloc: Global, row: &str) -> Result<(), AllocError> {
        self.told = told(alloc, row)?;
        self.case = String::from_str(alloc, row)?;
        Ok(())
    }

    fn begin_forms(&mut self, alloc: Global, row: &str) -> Result<(), AllocError> {
        self.told = None;
        self.forms = Lines::new(alloc, row)?;
        self.case = String::from_str(alloc, row)?;
        Ok(())
    }

    fn compare_forms(&mut self, rt: &HostRuntime, wanted: &str) -> io::Result<()> {
        let found = self.forms.answer(rt.alloc())?;
        self.tally.note(rt, &self.case, &found, wanted)
    }

    fn compare_counts(&mut self, rt: &HostRuntime, told: Told, wanted: &str) -> io::Result<()> {
        let mut found = String::new(rt.alloc());
        push_counts(&mut found, told)?;
        self.tally.note(rt, &self.case, &found, wanted)
    }

    fn compare_met(&mut self, rt: &HostRuntime, told: Told, words: &str) -> io::Result<()> {
        if self.tally.count(has_met_all(told, words)) {
            return Ok(());
        }
        let mut found = String::new(rt.alloc());
        push_met(&mut found, told)?;
        println!(rt; "{}: {found} in place of {words}", self.case)
    }

    /// Compares a run with a line, if the line is about it.
    fn compare_run(&mut self, rt: &HostRuntime, told: Told, line: &str) -> io::Result<()> {
        if let Some(wanted) = line.strip_prefix("said ") {
            return self.compare_counts(rt, told, wanted);
        }
        if let Some(words) = line.strip_prefix("met ") {
            return self.compare_met(rt, told, words);
        }
        Ok(())
    }

    fn take(&mut self, rt: &HostRuntime, line: &str) -> io::Result<()> {
        if let Some(row) = line.strip_prefix("run ") {
            return Ok(self.begin_run(rt.alloc(), row)?);
        }
        if let Some(row) = line.strip_prefix("forms ") {
            return Ok(self.begin_forms(rt.alloc(), row)?);
        }
        if let Some(wanted) = line.strip_prefix("answers") {
            return self.compare_forms(rt, wanted);
        }
        match self.told {
            Some(told) => self.compare_run(rt, told, line),
            None => Ok(self.forms.take(line)?),
        }
    }
}

pub fn compare(rt: &HostRuntime) -> io::Result<()> {
    let mut rows = Rows::new(rt.alloc())?;
    for line in rt.lines(rt.alloc()) {
        rows.take(rt, line?.as_str())?;
    }
    rows.tally.print(rt, "rows")
}
