//! The best of the scores of a dot product.
ghost use Rattle.std.specs.Prelude.{◌≡◌, ◌≤◌, length, map, take, IfOk};
ghost use Rattle.image_format.specs.Images.{table_of, IsLawfulImage};
ghost use Rattle.image_format.specs.Shapes.{shape_of, types_of};
ghost use Rattle.attr_types.specs.declared.field.TheConstants.{MOST_FIELDS};
ghost use Rattle.result_model.specs.Orders as model;
ghost use Rattle.query_results.specs.Ranks.{as_key, as_score};

use crate::orders::{put_in_order, window};
use arena_api::Frozen;
use attr_types::{Doc, Fields, Parts, Score, ScoreList};
use entry_ref::EntryRef;
use query_eval::scores;
use std::alloc::{AllocError, Global};
use std::cmp::Reverse;

/// A score as a key: the greatest first, and equal ones by document.
#[derive(Clone, Copy, Drop, PartialEq, Eq, PartialOrd, Ord)]
pub struct ScoreKey {
    pub score: Reverse<i128>,
    pub doc: Doc,
}

/// Returns scores as keys.
fn keys_of(alloc: Global, scores: &[Score]) -> Result<Vec<ScoreKey>, AllocError>
    ensures { IfOk result (λ keys. keys.items ≡ map as_key scores.now) }
{
    let mut keys = Vec::new(alloc);
    for score in scores {
        keys.push(ScoreKey {
            score: Reverse(score.score),
            doc: score.doc,
        })?;
    }
    Ok(keys)
}

/// Returns the scores of keys.
fn scores_of(alloc: Global, keys: &[ScoreKey]) -> Result<ScoreList, AllocError>
    ensures { IfOk result (λ scores. scores ≡ map as_score keys.now) }
{
    let mut scores = ScoreList::new(alloc);
    for key in keys {
        scores.push(Score {
            doc: key.doc,
            score: key.score.0,
        })?;
    }
    Ok(scores)
}

/// Returns the `count` best of some scores.
fn best_of(alloc: Global, scores: &[Score], count: usize) -> Result<ScoreList, AllocError>
    ensures { IfOk result (λ list. list ≡ take count (model.in_order model.by_score scores.now)) }
{
    let mut keys = keys_of(alloc, scores)?;
    put_in_order(&mut keys);
    scores_of(alloc, window(keys.as_slice(), 0, count))
}

/// Returns the `count` best scores of a dot product over the attribute with this number: the greatest first, and equal
/// ones by document.
pub fn best<const OFFSET_BITS: u32, F: Frozen<OFFSET_BITS>>(
    alloc: Global,
    frozen: &mut F,
    root: EntryRef<OFFSET_BITS>,
    fields: &Fields,
    field: u32,
    parts: &Parts,
    count: usize,
) -> Result<ScoreList, AllocError>
    requires few { length fields.now ≤ MOST_FIELDS }
    requires shape { F.shape frozen.old ≡ shape_of (types_of fields.now) }
    requires image { IsLawfulImage (F.shape frozen.old) (F.records frozen.old) root }
    ensures best { IfOk result (λ list. list
        ≡ model.best field parts.now count (table_of (F.shape frozen.old) (F.records frozen.old) root.entry)) }
    ensures same { frozen.new ≡ frozen.old }
{
    let found = scores(alloc, frozen, root, fields, field, parts)?;
    best_of(alloc, found.as_slice(), count)
}
