//! What is seen of a run at its commits: each image is compared with the plain table after the operations that it
//! counts.
use crate::census::{Census, take};
use crate::course::Load;
use crate::script::{Script, follow_one};
use crate::table::{is_lawful, reads_as};
use attr_types::Fields;
use check_images::CheckFault;
use entry_ref::{word_in, words_at};
use plain_model::PlainTable;
use std::alloc::{AllocError, Global};
use std::collections::BTreeMap;

/// A commit.
#[derive(Drop)]
pub struct Seen {
    /// Its image represents the plain table.
    pub same: bool,
    /// What it reaches in each buffer, if that was counted.
    pub census: Option<Census>,
}

/// Returns a commit whose image differs from the plain table, or was only read quickly.
fn seen_quickly(same: bool) -> Seen {
    Seen { same, census: None }
}

/// A buffer that was handed out after this many commits.
#[derive(Clone, Copy)]
struct Handed {
    commits: usize,
    buffer: u32,
    width: u32,
}

/// The commits of a run so far, and a plain table that follows them.
#[derive(Drop)]
pub struct Watch {
    alloc: Global,
    script: Script,
    /// One commit in this many is read by the slow checker, and counted.
    checks: usize,
    plain: PlainTable,
    done: u32,
    seen: Vec<Seen>,
    handed: Vec<Handed>,
    /// Something could not be kept.
    failed: bool,
}

impl Watch {
    /// Returns a watch that has seen nothing.
    pub fn new(alloc: Global, fields: &Fields, load: Load) -> Result<Watch, AllocError> {
        let own = fields.clone()?;
        Ok(Watch {
            alloc,
            script: load.script,
            checks: load.checks as usize,
            plain: PlainTable::new(alloc, own),
            done: 0,
            seen: Vec::new(alloc),
            handed: Vec::new(alloc),
            failed: false,
        })
    }

    /// Applies one more operation to the plain table.
    fn follow_one(&mut self) -> Result<(), AllocError> {
        let number = self.done;
        self.done = number.saturating_add(1);
        if !follow_one(self.alloc, self.script, number, &mut self.plain)? {
            self.failed = true;
        }
        Ok(())
    }

    /// Applies operations to the plain table, up to this number.
    fn follow(&mut self, operations: u64) -> Result<(), AllocError> {
        let more = operations
            .saturating_sub(u64::from(self.done))
            .min(1_000_000);
        for _ in 0..more {
            self.follow_one()?;
        }
        Ok(())
    }

    /// Reads an image by the slow checker, and counts what it reaches.
    fn read_whole(&self, records: &BTreeMap<u32, Vec<u64>>, root: u64) -> Result<Seen, CheckFault> {
        let (alloc, fields) = (self.alloc, self.plain.fields());
        let same = is_lawful(alloc, fields, records, root, &self.plain)?;
        let census = take(alloc, fields.as_slice(), records, root)?;
        Ok(Seen {
            same,
            census: Some(census),
        })
    }

    /// Compares an image with the plain table, completely or quickly.
    fn compare(
        &mut self,
        records: &BTreeMap<u32, Vec<u64>>,
        root: u64,
        whole: bool,
    ) -> Result<Seen, CheckFault> {
        let operations = word_in(words_at(records, root), 0);
        self.follow(operations)?;
        if operations != u64::from(self.done) {
            return Ok(seen_quickly(false));
        }
        if whole {
            return self.read_whole(records, root);
        }
        let fields = self.plain.fields().as_slice();
        let same = reads_as(self.alloc, fields, records, root, &self.plain)?;
        Ok(seen_quickly(same))
    }

    fn add(&mut self, seen: Result<Seen, CheckFault>) -> Result<(), AllocError> {
        let one = match seen {
            Ok(seen) => seen,
            Err(CheckFault::Broken) => seen_quickly(false),
            Err(CheckFault::Memory) => return Err(AllocError),
        };
        self.seen.push(one)?;
        Ok(())
    }

    /// Notes a commit.
    pub fn published(&mut self, records: &BTreeMap<u32, Vec<u64>>, root: u64) {
        let number = self.seen.len().saturating_add(1);
        let whole = number % self.checks.max(1) == 0;
        let seen = self.compare(records, root, whole);
        if self.add(seen).is_err() {
            self.failed = true;
        }
    }

    /// Notes that a buffer was handed out.
    pub fn handed_out(&mut self, buffer: u32, width: u32) {
        let commits = self.seen.len();
        if self
            .handed
            .push(Handed {
                commits,
                buffer,
                width,
            })
            .is_err()
        {
            self.failed = true;
        }
    }

    /// Reads the last commit once more, completely.
    pub fn look_again(&mut self, records: &BTreeMap<u32, Vec<u64>>, root: u64) {
        let seen = self.compare(records, root, true);
        let _last = self.seen.pop();
        if self.add(seen).is_err() {
            self.failed = true;
        }
    }

    /// Returns the commits, if each of them was kept.
    pub fn seen(&self) -> Option<&[Seen]> {
        if self.failed {
            return None;
        }
        Some(self.seen.as_slice())
    }

    /// Returns the width that a buffer had after this many commits, or 0 if it was not handed out.
    pub fn width_of(&self, buffer: u32, commits: usize) -> u32 {
        let mut width = 0u32;
        for handed in self.handed.as_slice() {
            if handed.buffer == buffer && handed.commits <= commits {
                width = handed.width;
            }
        }
        width
    }
}
