//! Rows of standard input: a word that selects the test, followed by numbers or steps; and then `said ANSWER`, the
//! expected result. Other lines are comments.
ghost use Rattle.std.specs.Prelude.{◌≤◌, ◌<◌};
ghost use Rattle.entry_ref.specs.References.{offset_limit, buffer_limit};

use crate::texts::number_at;
use crate::trees::new_tree;
use crate::{changes, example, keys, of_build, of_touch, steps};
use number_tree::{NumberTree, TreeLayout};
use std::alloc::{AllocError, Global};
use std::io;
use store_api::Store;
use test_kit::Tally;

/// The test of a row, and its number of buffers.
#[derive(Clone, Copy)]
struct Row<'a> {
    kind: &'a str,
    words: &'a str,
    buffers: u32,
    ghost some: { 1 ≤ buffers },
    ghost most: { buffers ≤ 64 },
}

/// Returns the row of a line, if it is one.
fn row_in(line: &str) -> Option<Row<'_>> {
    let (kind, words) = line.split_once(' ').unwrap_or((line, ""));
    let buffers = match kind {
        "tree" => number_at(words, 0).max(1).min(8) as u32,
        "built" => 8,
        "replaced" => 8,
        "touched" => 64,
        "changed" => 64,
        "beside" => 1,
        "example" => 1,
        _ => return None,
    };
    Some(Row {
        kind,
        words,
        buffers,
    })
}

/// Returns the result of a row on a new tree.
fn answer_in<const OFFSET_BITS: u32, S: Store<OFFSET_BITS, Layout = TreeLayout> + Drop>(
    alloc: Global,
    tree: NumberTree<OFFSET_BITS, S>,
    row: Row<'_>,
    line: &mut String,
) -> Result<(), AllocError> {
    match row.kind {
        "tree" => steps::answer(alloc, tree, row.words, line),
        "changed" => changes::answer(alloc, tree, row.words, line),
        "touched" => of_touch::answer(alloc, tree, row.words, line),
        "example" => example::answer(tree, line),
        _ => answer_on(alloc, tree, row, line),
    }
}

/// Returns the result of a row that tests the tree's store.
fn answer_on<const OFFSET_BITS: u32, S: Store<OFFSET_BITS, Layout = TreeLayout> + Drop>(
    alloc: Global,
    tree: NumberTree<OFFSET_BITS, S>,
    row: Row<'_>,
    line: &mut String,
) -> Result<(), AllocError> {
    let mut store = tree.into_store();
    match row.kind {
        "built" => of_build::answer(alloc, &mut store, number_at(row.words, 0), line),
        "beside" => keys::beside(&mut store, number_at(row.words, 0), line),
        _ => keys::replaced(alloc, &mut store, line),
    }
}

/// Returns the result of a row on a tree in a store of its own.
fn answer<const OFFSET_BITS: u32>(
    alloc: Global,
    row: Row<'_>,
    line: &mut String,
) -> Result<(), AllocError>
    requires few { 64 < buffer_limit OFFSET_BITS }
    requires offsets { 8192 ≤ offset_limit OFFSET_BITS }
{
    answer_in(
        alloc,
        new_tree::<OFFSET_BITS>(alloc, row.buffers)?,
        row,
        line,
    )
}

/// The last row, and its results for references with 22 and with 19 bits.
#[derive(Drop)]
struct Rows {
    row: String,
    found: String,
    wide: String,
    tally: Tally,
}

impl Rows {
    fn new(alloc: Global) -> Rows {
        Rows {
            row: String::new(alloc),
            found: String::new(alloc),
            wide: String::new(alloc),
            tally: Tally::default(),
        }
    }

    fn answer(&mut self, alloc: Global, row: Row<'_>) -> Result<(), AllocError> {
        self.found.clear();
        self.wide.clear();
        answer::<22>(alloc, row, &mut self.found)?;
        answer::<19>(alloc, row, &mut self.wide)?;
        if self.found != self.wide {
            self.found.push_str(", of 19 bits")?;
            self.found.push_str(&self.wide)?;
        }
        Ok(())
    }

    fn ask(&mut self, alloc: Global, line: &str) -> Result<(), AllocError> {
        let Some(row) = row_in(line) else {
            return Ok(());
        };
        self.row.clear();
        self.row.push_str(line)?;
        self.answer(alloc, row)
    }

    fn take(&mut self, rt: &HostRuntime, line: &str) -> io::Result<()> {
        match line.strip_prefix("said") {
            Some(wanted) => self.tally.note(rt, &self.row, &self.found, wanted),
            None => Ok(self.ask(rt.alloc(), line)?),
        }
    }
}

pub fn compare(rt: &HostRuntime) -> io::Result<()> {
    let mut rows = Rows::new(rt.alloc());
    for line in rt.lines(rt.alloc()) {
        rows.take(rt, line?.as_str())?;
    }
    rows.tally.print(rt, "rows")
}
