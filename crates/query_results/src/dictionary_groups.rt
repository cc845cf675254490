//! Groups of documents by a walk of the dictionary, which is faster than reading each document where these are many.
ghost use Rattle.std.specs.Prelude.{◌≡◌, ◌≤◌, ◌∷◌, ◌++◌, [], filter, length, IfOk, IfSome, OnOk};
ghost use Rattle.attr_types.specs.declared.field.TheConstants.{MOST_FIELDS};
ghost use Rattle.image_format.specs.Images.{table_of, IsLawfulImage};
ghost use Rattle.image_format.specs.Postings.{index_of};
ghost use Rattle.image_format.specs.Shapes.{shape_of, types_of};
ghost use Rattle.image_format.specs.Values.{stored_value, IsValueRecord};
ghost use Rattle.index_model.specs.Sets.{in_words};
ghost use Rattle.query_eval.specs.Parts.{IsIndexed};
ghost use Rattle.query_results.specs.Dictionaries.{groups_in, some_documents};
ghost use Rattle.result_model.specs.Groups as model;

use crate::dictionary::dictionary_of;
use crate::hit_set::{count_in, set_of};
use crate::lists::documents_in;
use arena_api::Frozen;
use attr_types::{DocList, Fields, ValueType};
use entry_ref::EntryRef;
use frozen_btree::Cursor;
use index_model::DocSet;
use query_eval::value_at;
use result_model::{Group, Groups};
use std::alloc::{AllocError, Global};

/// Adds the group of a value, if it has documents.
fn push_group<const OFFSET_BITS: u32, F: Frozen<OFFSET_BITS>>(
    alloc: Global,
    frozen: &mut F,
    value_type: ValueType,
    key: u64,
    count: u64,
    groups: &mut Groups,
) -> Result<(), AllocError>
    requires { IsValueRecord value_type (F.records frozen.old key) }
    ensures group { OnOk result (groups.new ≡ groups.old
        ++ filter some_documents (record { value = stored_value value_type (F.records frozen.old) key; count = count } ∷ [])) }
    ensures same { frozen.new ≡ frozen.old }
{
    if count == 0 {
        return Ok(());
    }
    let value = value_at(alloc, frozen, key, value_type)?;
    groups.push(Group { value, count })
}

/// Returns the values of a dictionary that documents of a set have, with how many of them have each.
fn groups_in_set<const OFFSET_BITS: u32, F: Frozen<OFFSET_BITS>>(
    alloc: Global,
    frozen: &mut F,
    root: EntryRef<OFFSET_BITS>,
    value_type: ValueType,
    set: &DocSet,
) -> Result<Groups, AllocError>
    requires { IsIndexed value_type (F.records frozen.old) root }
    ensures groups { IfOk result (λ groups. groups ≡ groups_in (in_words set.now) (index_of value_type (F.records frozen.old) root.entry)) }
    ensures same { frozen.new ≡ frozen.old }
{
    let mut groups = Groups::new(alloc);
    let mut docs = Vec::new(alloc);
    let mut cursor = Cursor::first(frozen, root);
    while !cursor.at_end() {
        docs = documents_in(frozen, cursor.value(), docs)?;
        let count = count_in(set, docs.as_slice());
        push_group(alloc, frozen, value_type, cursor.key(), count, &mut groups)?;
        cursor.next(frozen);
    }
    Ok(groups)
}

/// Returns each distinct value of these documents with how many of them have it, by value. Returns `None` if the
/// documents do not ascend.
pub fn groups_by_dictionary<const OFFSET_BITS: u32, F: Frozen<OFFSET_BITS>>(
    alloc: Global,
    frozen: &mut F,
    root: EntryRef<OFFSET_BITS>,
    fields: &Fields,
    field: u32,
    docs: &DocList,
) -> Result<Option<Groups>, AllocError>
    requires few { length fields.now ≤ MOST_FIELDS }
    requires shape { F.shape frozen.old ≡ shape_of (types_of fields.now) }
    requires image { IsLawfulImage (F.shape frozen.old) (F.records frozen.old) root }
    ensures groups { IfOk result (λ found. IfSome found (λ list. list
        ≡ model.all_groups field docs.now (table_of (F.shape frozen.old) (F.records frozen.old) root.entry))) }
    ensures same { frozen.new ≡ frozen.old }
{
    let dictionary = dictionary_of(frozen, root, fields.as_slice(), field);
    let Some(set) = set_of(alloc, docs.as_slice())? else {
        return Ok(None);
    };
    Ok(Some(groups_in_set(alloc, frozen, dictionary.root, dictionary.value_type, &set)?))
}
