//! The list of a value, by a dictionary.
ghost use Rattle.std.specs.Prelude.{◌≡◌, ◌||◌, ◌&&◌, ℕ, IfOk};
ghost use Rattle.std.specs.Map.{keys_of};
ghost use Rattle.image_format.specs.Postings.{index_of};
ghost use Rattle.index_model.specs.Gathers.{is_gathered};
ghost use Rattle.index_model.specs.Index.{list_of};
ghost use Rattle.index_model.specs.Sets.{has};
ghost use Rattle.query_eval.specs.Parts.{IsIndexed};
ghost use Rattle.query_eval.specs.Weights.{word_list, IsListWord};

use crate::lists::{gather_list, keep_list};
use crate::values::is_of_type;
use arena_api::Frozen;
use attr_types::{DocList, Value, ValueType};
use entry_ref::EntryRef;
use enum_dictionary::find;
use index_model::Gathered;
use std::alloc::{AllocError, Global};

/// Returns the word of a value's list, if the dictionary has the value.
pub fn word_of<const OFFSET_BITS: u32, F: Frozen<OFFSET_BITS>>(
    frozen: &mut F,
    root: EntryRef<OFFSET_BITS>,
    value_type: ValueType,
    value: &Value,
) -> Option<u64>
    requires { IsIndexed value_type (F.records frozen.old) root }
    ensures form { IsListWord (F.records frozen.old) result }
    ensures list { word_list (F.records frozen.old) result ≡ list_of value.now (index_of value_type (F.records frozen.old) root.entry) }
    ensures same { frozen.new ≡ frozen.old }
{
    if !is_of_type(value, value_type) {
        return None;
    }
    match find(frozen, root, value) {
        Some(entry) => Some(entry.posting),
        None => None,
    }
}

/// Adds the documents that have a value to those gathered.
pub fn with_value<const OFFSET_BITS: u32, F: Frozen<OFFSET_BITS>>(
    alloc: Global,
    frozen: &mut F,
    root: EntryRef<OFFSET_BITS>,
    value_type: ValueType,
    value: &Value,
    gathered: Gathered,
) -> Result<Gathered, AllocError>
    requires { IsIndexed value_type (F.records frozen.old) root }
    ensures docs { IfOk result (λ all. (doc : ℕ) → is_gathered all doc
        ≡ (is_gathered gathered doc || has (keys_of (list_of value.now (index_of value_type (F.records frozen.old) root.entry))) doc)) }
    ensures same { frozen.new ≡ frozen.old }
{
    match word_of(frozen, root, value_type, value) {
        Some(list) => gather_list(alloc, frozen, list, gathered),
        None => Ok(gathered),
    }
}

/// Returns the documents of `docs` that have a value.
pub fn kept_with<const OFFSET_BITS: u32, F: Frozen<OFFSET_BITS>>(
    alloc: Global,
    frozen: &mut F,
    root: EntryRef<OFFSET_BITS>,
    value_type: ValueType,
    value: &Value,
    docs: &DocList,
) -> Result<DocList, AllocError>
    requires { IsIndexed value_type (F.records frozen.old) root }
    ensures kept { IfOk result (λ kept. (doc : ℕ) → has kept doc
        ≡ (has docs.now doc && has (keys_of (list_of value.now (index_of value_type (F.records frozen.old) root.entry))) doc)) }
    ensures same { frozen.new ≡ frozen.old }
{
    match word_of(frozen, root, value_type, value) {
        Some(list) => keep_list(alloc, frozen, list, docs),
        None => Ok(DocList::new(alloc)),
    }
}
