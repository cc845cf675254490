//! The operations of a row, by their number.
use crate::values::document_at;
use attr_types::{Doc, Field, Op, fits};
use plain_model::PlainTable;
use std::alloc::{AllocError, Global};

/// The operations are puts to the documents 1 to `puts`; removes of those from 1 to `last` that `keep` does not
/// divide, or of all if it is 0, or with `drops` of those that it divides; and then removes of the lowest document.
#[derive(Clone, Copy)]
pub struct Script {
    pub puts: u32,
    pub values: u32,
    pub last: u32,
    pub keep: u32,
    pub drops: bool,
}

impl Script {
    /// Returns how many operations come before a compaction.
    pub fn load(self) -> u32 {
        self.puts.saturating_add(self.removes())
    }

    fn removes(self) -> u32 {
        if self.keep == 0 {
            return self.last;
        }
        let divided = self.last / self.keep;
        if self.drops {
            return divided;
        }
        self.last.saturating_sub(divided)
    }

    /// Returns the number of the document that this remove, counted from 0, removes.
    fn gone(self, number: u32) -> u32 {
        if self.drops && self.keep > 0 {
            return number.saturating_add(1).saturating_mul(self.keep);
        }
        removed(self.keep, number)
    }
}

fn doc_of(number: u32) -> Doc {
    Doc::new(number.max(1).min(Doc::LAST))
}

/// Returns the number of the document that this remove, counted from 0, removes if those that `keep` divides stay.
fn removed(keep: u32, number: u32) -> u32 {
    if keep < 2 {
        return number.saturating_add(1);
    }
    let others = keep.saturating_sub(1).max(1);
    let rounds = (number / others).saturating_mul(keep);
    rounds.saturating_add(number % others).saturating_add(1)
}

/// Returns the lowest document that exists.
pub fn lowest(plain: &PlainTable) -> Option<Doc> {
    for (doc, _) in plain.documents() {
        return Some(*doc);
    }
    None
}

/// Returns the operation with this number, counted from 0, on a table after those before it.
pub fn op_at(
    alloc: Global,
    fields: &[Field],
    script: Script,
    number: u32,
    plain: &PlainTable,
) -> Result<Op, AllocError> {
    if number < script.puts {
        let next = number.saturating_add(1);
        let items = document_at(alloc, fields, next, script.values)?;
        return Ok(Op::Put {
            doc: doc_of(next),
            items,
        });
    }
    if number < script.load() {
        let doc = doc_of(script.gone(number.saturating_sub(script.puts)));
        return Ok(Op::Remove { doc });
    }
    match lowest(plain) {
        Some(doc) => Ok(Op::Remove { doc }),
        None => Ok(Op::Remove { doc: doc_of(1) }),
    }
}

/// Applies the operation with this number to the plain table. Returns whether it fits.
pub fn follow_one(
    alloc: Global,
    script: Script,
    number: u32,
    plain: &mut PlainTable,
) -> Result<bool, AllocError> {
    let op = op_at(alloc, plain.fields().as_slice(), script, number, plain)?;
    if !fits(plain.fields(), &op) {
        return Ok(false);
    }
    let _ = plain.apply(alloc, op)?;
    Ok(true)
}
