//! Given documents as a set.
ghost use Rattle.std.specs.Prelude.{◌≡◌, ◌++◌, true, length, filter, IfOk, IfSome, OnOk};
ghost use Rattle.index_model.specs.Sets.{in_words, IsAscending};
ghost use Rattle.query_results.specs.Dictionaries.{IsSetOf};

use attr_types::Doc;
use index_model::{DocSet, Gathered};
use std::alloc::{AllocError, Global};

/// Returns whether documents ascend, so that none is there twice.
fn is_ascending(docs: &[Doc]) -> bool
    ensures { result ≡ true → IsAscending docs.now }
{
    for place in 1..docs.len() {
        if docs[place - 1] >= docs[place] {
            return false;
        }
    }
    true
}

/// Returns the set of documents that ascend. Returns `None` if they do not.
pub fn set_of(alloc: Global, docs: &[Doc]) -> Result<Option<DocSet>, AllocError>
    ensures { IfOk result (λ set. IfSome set (λ words. IsSetOf words docs.now)) }
{
    if !is_ascending(docs) {
        return Ok(None);
    }
    let all = Gathered::Many(DocSet::new(alloc)).with_docs(alloc, docs)?;
    Ok(Some(all.into_set(alloc)?))
}

/// Returns how many of these documents are in a set.
pub fn count_in(set: &DocSet, docs: &[Doc]) -> u64
    ensures { result ≡ length (filter (in_words set.now) docs.now) }
{
    let mut count = 0;
    for doc in docs {
        if set.contains(*doc) {
            count += 1;
        }
    }
    count
}

/// Adds those of these documents that are in a set, in their order.
pub fn push_kept(kept: &mut Vec<Doc>, docs: &[Doc], set: &DocSet) -> Result<(), AllocError>
    ensures { OnOk result (kept.new.items ≡ kept.old.items ++ filter (in_words set.now) docs.now) }
{
    for doc in docs {
        if set.contains(*doc) {
            kept.push(*doc)?;
        }
    }
    Ok(())
}
