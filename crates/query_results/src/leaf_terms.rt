//! The values of an attribute that meet a leaf, with how many documents have each.
ghost use Rattle.std.specs.Prelude.{◌≡◌, ◌≤◌, length, take, IfOk};
ghost use Rattle.tree_read.specs.SearchPlaces.{IsAt, pairs_from};
ghost use Rattle.image_format.specs.Images.{table_of, IsLawfulImage};
ghost use Rattle.image_format.specs.Postings.{list_form, postings_at};
ghost use Rattle.image_format.specs.Shapes.{shape_of, types_of};
ghost use Rattle.image_format.specs.Values.{stored_value};
ghost use Rattle.attr_types.specs.declared.field.TheConstants.{MOST_FIELDS};
ghost use Rattle.index_model.specs.Leaves.{meeting, run};
ghost use Rattle.query_eval.specs.Parts.{index_of_pairs, AreIndexPairs, IsIndexPair, IsIndexed};
ghost use Rattle.result_model.specs.Groups as model;
ghost use Rattle.query_results.specs.Dictionaries.{index_in, term_of, terms_of};

use crate::dictionary::{Dictionary, dictionary_of};
use crate::lists::count_of;
use arena_api::Frozen;
use attr_types::{Fields, Leaf, ValueType};
use entry_ref::EntryRef;
use frozen_btree::Cursor;
use index_model::is_beyond;
use query_eval::{first_of_leaf, value_at};
use result_model::{Group, Groups};
use std::alloc::{AllocError, Global};

/// Returns the value of a pair of a dictionary, with how many documents have it.
fn term_at<const OFFSET_BITS: u32, F: Frozen<OFFSET_BITS>>(
    alloc: Global,
    frozen: &mut F,
    value_type: ValueType,
    key: u64,
    list: u64,
) -> Result<Group, AllocError>
    requires { IsIndexPair value_type (F.records frozen.old) (key, list) }
    ensures term { IfOk result (λ term. term
        ≡ term_of (stored_value value_type (F.records frozen.old) key, postings_at (F.records frozen.old) (list_form list))) }
    ensures same { frozen.new ≡ frozen.old }
{
    let value = value_at(alloc, frozen, key, value_type)?;
    let count = count_of(frozen, list);
    Ok(Group { value, count })
}

/// Returns the first `count` values from the cursor on, up to the first value after those of the leaf, with how many
/// documents have each.
fn terms_from<const OFFSET_BITS: u32, F: Frozen<OFFSET_BITS>>(
    alloc: Global,
    frozen: &mut F,
    cursor: &mut Cursor<OFFSET_BITS>,
    value_type: ValueType,
    leaf: &Leaf,
    count: usize,
) -> Result<Groups, AllocError>
    requires at { IsAt (F.records frozen.old) cursor.old }
    requires pairs { AreIndexPairs value_type (F.records frozen.old) (pairs_from (F.records frozen.old) cursor.old) }
    ensures terms { IfOk result (λ terms. terms
        ≡ take count (terms_of (run leaf.now (index_of_pairs value_type (F.records frozen.old) (pairs_from (F.records frozen.old) cursor.old))))) }
    ensures same { frozen.new ≡ frozen.old }
{
    let mut terms = Groups::new(alloc);
    let mut left = count;
    while left > 0 {
        if cursor.at_end() {
            return Ok(terms);
        }
        let term = term_at(alloc, frozen, value_type, cursor.key(), cursor.value())?;
        if is_beyond(leaf, &term.value) {
            return Ok(terms);
        }
        terms.push(term)?;
        cursor.next(frozen);
        left -= 1;
    }
    Ok(terms)
}

/// Returns the first `count` values of a dictionary that meet a leaf, ascending, with how many documents have each.
fn terms_in<const OFFSET_BITS: u32, F: Frozen<OFFSET_BITS>>(
    alloc: Global,
    frozen: &mut F,
    dictionary: Dictionary<OFFSET_BITS>,
    leaf: &Leaf,
    count: usize,
) -> Result<Groups, AllocError>
    requires { IsIndexed dictionary.value_type (F.records frozen.old) dictionary.root }
    ensures terms { IfOk result (λ terms. terms ≡ take count (terms_of (meeting leaf.now (index_in OFFSET_BITS (F.records frozen.old) dictionary.entry)))) }
    ensures same { frozen.new ≡ frozen.old }
{
    let Dictionary {
        kind: _,
        value_type,
        root,
    } = dictionary;
    let mut cursor = first_of_leaf(alloc, frozen, root, value_type, leaf)?;
    terms_from(alloc, frozen, &mut cursor, value_type, leaf, count)
}

/// Returns the first `count` values of the attribute with this number that meet a leaf, ascending, with how many
/// documents have each.
pub fn terms<const OFFSET_BITS: u32, F: Frozen<OFFSET_BITS>>(
    alloc: Global,
    frozen: &mut F,
    root: EntryRef<OFFSET_BITS>,
    fields: &Fields,
    field: u32,
    leaf: &Leaf,
    count: usize,
) -> Result<Groups, AllocError>
    requires few { length fields.now ≤ MOST_FIELDS }
    requires shape { F.shape frozen.old ≡ shape_of (types_of fields.now) }
    requires image { IsLawfulImage (F.shape frozen.old) (F.records frozen.old) root }
    ensures terms { IfOk result (λ terms. terms
        ≡ model.terms field leaf.now count (table_of (F.shape frozen.old) (F.records frozen.old) root.entry)) }
    ensures same { frozen.new ≡ frozen.old }
{
    let dictionary = dictionary_of(frozen, root, fields.as_slice(), field);
    terms_in(alloc, frozen, dictionary, leaf, count)
}
