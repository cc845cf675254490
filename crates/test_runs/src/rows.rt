//! Rows of standard input: `words LINE`, then `each FIRST LAST LINE` for lines of the feed, one for each number, which replaces `#`; and at
//! last `answers LINE`: what the run answers that the program does not write.
//!
//! - `torture RUNS COMMITS`: RUNS runs of COMMITS commits each, with a save beside the loading. Each save must be that of its operations. A
//! third number above 0 asks how many of them were older than the last commit.
//!
//! Other lines are comments.
use crate::run::answer;
use crate::saver;
use std::alloc::{AllocError, Global};
use std::io;
use std::thread::Threads;
use test_kit::{Tally, number_at};

/// The current row.
#[derive(Drop)]
struct Row {
    words: String,
    feed: String,
}

impl Row {
    fn new(alloc: Global, words: &str) -> Result<Row, AllocError> {
        let words = String::from_str(alloc, words)?;
        let feed = String::new(alloc);
        Ok(Row { words, feed })
    }
}

/// Appends a line, with a number in place of each `#`.
fn push_for(alloc: Global, feed: &mut String, line: &str, number: u32) -> Result<(), AllocError> {
    let number = format!(in alloc; "{number}")?;
    feed.push_str(&line.replace(alloc, "#", &number)?)?;
    feed.push_str("\n")
}

/// Appends a line for each number from the first to the last.
fn push_each(alloc: Global, feed: &mut String, asked: &str) -> Result<(), AllocError> {
    let line = asked.splitn(3, ' ').skip(2).next().unwrap_or("");
    for number in number_at(asked, 0)..=number_at(asked, 1) {
        push_for(alloc, feed, line, number)?;
    }
    Ok(())
}

fn compare_answer<R: Threads + Sync>(
    rt: &HostRuntime,
    threads: &R,
    tally: &mut Tally,
    row: &Row,
    wanted: &str,
) -> io::Result<()> {
    let found = answer(threads, rt.alloc(), &row.words, &row.feed)?;
    tally.note(rt, &row.words, &found, wanted)
}

fn torture<R: Threads + Sync>(rt: &HostRuntime, threads: &R, asked: &str) -> io::Result<()> {
    let runs = u64::from(number_at(asked, 0));
    let commits = u64::from(number_at(asked, 1));
    saver::torture(rt, threads, runs, commits, number_at(asked, 2) > 0)
}

fn take<R: Threads + Sync>(
    rt: &HostRuntime,
    threads: &R,
    tally: &mut Tally,
    row: &mut Row,
    line: &str,
) -> io::Result<()> {
    let (kind, rest) = line.split_once(' ').unwrap_or((line, ""));
    match kind {
        "words" => *row = Row::new(rt.alloc(), rest)?,
        "each" => push_each(rt.alloc(), &mut row.feed, rest)?,
        "answers" => return compare_answer(rt, threads, tally, row, rest),
        "torture" => return torture(rt, threads, rest),
        _ => {}
    }
    Ok(())
}

pub fn compare<R: Threads + Sync>(rt: &HostRuntime, threads: &R) -> io::Result<()> {
    let mut tally = Tally::default();
    let mut row = Row::new(rt.alloc(), "")?;
    for line in rt.lines(rt.alloc()) {
        take(rt, threads, &mut tally, &mut row, line?.as_str())?;
    }
    tally.print(rt, "answers of runs")
}
