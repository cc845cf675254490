//! The steps of a change: the document is added to the index by its new values, its items are set, and it is removed
//! from the index by its old values. Without maps of weights the document has at most one item: no value is sought again.
ghost use Rattle.std.specs.Prelude.{◌≡◌, ℕ, ◌+◌, ◌*◌, ◌^◌, ◌<◌, [], true, length, IsSome, None, Some, IfOk, IfErr};
ghost use Rattle.std.specs.BTreeMap.{is_at};
ghost use Rattle.std.specs.Map.{lookup};
ghost use Rattle.std.specs.Ordering.{nat_cmp};
ghost use Rattle.store_api.specs.Calls.{Refuses, RefusesOf};
ghost use Rattle.store_api.specs.Units.{MayDo, MakesWithin};
ghost use Rattle.tree_read.specs.declared.node_format.TheConstants.{NODE_WORDS};
ghost use Rattle.attr_field.specs.Counts.{item_weights};
ghost use Rattle.attr_field.specs.DocumentsChanges.{documents_most, IsDocumentWidth};
ghost use Rattle.attr_field.specs.Steps.{FindsBy, IsMadeBy, StandsField, StepsField};
ghost use Rattle.image_format.specs.Documents.{column_at};
ghost use Rattle.image_format.specs.Postings.{index_of};
ghost use Rattle.index_model.specs.Changes.{IsBetween, first_given, first_weights};
ghost use Rattle.index_model.specs.Columns.{with_change};
ghost use Rattle.index_model.specs.Index.{Index, IsIndexOf, list_of};
ghost use Rattle.attr_types.specs.Lawful.{ItemsFit};
ghost use Rattle.attr_types.specs.Value.{values_of, AreOfType};
ghost use Rattle.attr_types.specs.declared.value.Value.{Value as OneValue};
ghost use Rattle.value_index.specs.Counts.{added_most, by_width, gone_most, value_nodes, AddsLow, RemovesLow};
ghost use Rattle.value_index.specs.Forms.{IsOfForm, KeepsForm, WeighOnes};
ghost use Rattle.value_index.specs.Widths.{IsWalkWidth};

use crate::keys::keys_of;
use crate::weights::Weights;
use crate::{documents_law, remove_document, set_document};
use attr_types::{Doc, Item, Kind, ValueType};
use entry_ref::EntryRef;
use std::alloc::Global;
use store_api::{Store, StoreError};
use value_index::{Added, add_all, add_with_key, index_law, key_law, remove, remove_all};

/// Adds the document to the lists of its new values. Returns the root of the new index, and for a single the key of its
/// value. With `dense` the list of a frequent value among `total` documents becomes a bit vector.
#[tactic(none)]
pub fn add_values<const OFFSET_BITS: u32, S: Store<OFFSET_BITS>>(
    alloc: Global,
    store: &mut S,
    kind: Kind,
    value_type: ValueType,
    documents: EntryRef<OFFSET_BITS>,
    dictionary: EntryRef<OFFSET_BITS>,
    doc: Doc,
    old: &[Item],
    new: &[Item],
    weights: &Option<Weights>,
    dense: bool,
    total: u32,
) -> Result<Added<OFFSET_BITS>, StoreError>
    requires unit { (S.ledger store.old).unit ≡ true }
    requires stands { StandsField kind value_type (S.ledger store.old) (S.records store.old) documents dictionary }
    requires form { IsOfForm dense value_type (S.records store.old) dictionary }
    requires indexed { IsIndexOf (column_at kind value_type (S.records store.old) documents)
        (index_of value_type (S.records store.old) dictionary) }
    requires how { IsMadeBy old.now new.now weights.now }
    requires ones { WeighOnes dense (first_weights [] new.now) }
    requires typed { AreOfType value_type (values_of new.now) }
    requires has { (value : OneValue) → lookup (is_at (nat_cmp doc)) (list_of value (index_of value_type (S.records store.old) dictionary))
        ≡ item_weights old.now value }
    ensures steps { IfOk result (λ added. StepsField kind value_type (S.ledger store.old) (S.ledger store.new)
        (S.records store.old) (S.records store.new) documents.entry dictionary.entry
        (column_at kind value_type (S.records store.old) documents.entry) documents.entry added.root) }
    ensures form { IfOk result (λ added. IsOfForm dense value_type (S.records store.new) added.root) }
    ensures between { IfOk result (λ added. IsBetween (index_of value_type (S.records store.old) dictionary.entry) doc
        (item_weights new.now) (λ value. None) (index_of value_type (S.records store.new) added.root)) }
    ensures found { IfOk result (λ added. FindsBy value_type (S.records store.new) added.root new.now added.key weights.now) }
    ensures counts { MakesWithin (S.ledger store.old) (S.ledger store.new)
        (added_most dense (index_of value_type (S.records store.old) dictionary.entry) doc (item_weights old.now)
        (first_weights [] new.now) 34) }
    ensures low { (levels : ℕ) → AddsLow levels (index_of value_type (S.records store.old) dictionary.entry) doc (first_weights [] new.now)
        → MakesWithin (S.ledger store.old) (S.ledger store.new)
        (added_most dense (index_of value_type (S.records store.old) dictionary.entry) doc (item_weights old.now)
        (first_weights [] new.now) (value_nodes levels)) }
    ensures refuses { IfErr result (RefusesOf
        (IsWalkWidth dense (index_of value_type (S.records store.old) dictionary.entry) doc (item_weights new.now) (λ value. None))
        (S.ledger store.old) (S.ledger store.new)) }
    ensures may { MayDo (S.ledger store.old) (S.ledger store.new) }
{
    documents_law();
    index_law();
    key_law();
    let _ = kind;
    let _ = documents;
    let _ = old;
    let nothing = EntryRef::from_raw(0);
    match weights {
        None => match new.first() {
            Some(item) => add_with_key(alloc, store, dictionary, &item.value, doc, 1, dense, total),
            None => Ok(Added {
                root: dictionary,
                key: nothing,
            }),
        },
        Some(weights) => {
            let root = add_all(
                alloc,
                store,
                value_type,
                dictionary,
                doc,
                &weights.before,
                &weights.after,
                dense,
                total,
            )?;
            Ok(Added { root, key: nothing })
        }
    }
}

/// Sets the items of the document: the key of a single's value is given, and those of other values are sought. Returns the
/// root of the new documents.
#[tactic(none)]
pub fn set_items<const OFFSET_BITS: u32, S: Store<OFFSET_BITS>>(
    alloc: Global,
    store: &mut S,
    kind: Kind,
    value_type: ValueType,
    documents: EntryRef<OFFSET_BITS>,
    dictionary: EntryRef<OFFSET_BITS>,
    doc: Doc,
    key: EntryRef<OFFSET_BITS>,
    items: &[Item],
    weights: &Option<Weights>,
) -> Result<EntryRef<OFFSET_BITS>, StoreError>
    requires unit { (S.ledger store.old).unit ≡ true }
    requires stands { StandsField kind value_type (S.ledger store.old) (S.records store.old) documents dictionary }
    requires fits { ItemsFit kind value_type items.now }
    requires found { FindsBy value_type (S.records store.old) dictionary items.now key weights.now }
    ensures steps { IfOk result (λ next. StepsField kind value_type (S.ledger store.old) (S.ledger store.new)
        (S.records store.old) (S.records store.new) documents.entry dictionary.entry
        (with_change (column_at kind value_type (S.records store.old) documents.entry) doc (Some items.now)) next dictionary.entry) }
    ensures index { IfOk result (λ next. index_of value_type (S.records store.new) dictionary.entry
        ≡ index_of value_type (S.records store.old) dictionary.entry) }
    ensures form { IfOk result (λ next. KeepsForm value_type (S.records store.old) (S.records store.new) dictionary.entry) }
    ensures counts { MakesWithin (S.ledger store.old) (S.ledger store.new) (documents_most kind (length items.now) 17) }
    ensures low { (levels : ℕ) → 0 < levels → length (column_at kind value_type (S.records store.old) documents.entry) < 2 * 8 ^ levels
        → MakesWithin (S.ledger store.old) (S.ledger store.new) (documents_most kind (length items.now) (2 * levels + 1)) }
    ensures refuses { IfErr result (RefusesOf (IsDocumentWidth kind (length items.now)) (S.ledger store.old) (S.ledger store.new)) }
    ensures may { MayDo (S.ledger store.old) (S.ledger store.new) }
{
    index_law();
    key_law();
    match weights {
        None => {
            let keys = [key];
            let given = &keys[..items.len()];
            set_document(alloc, store, kind, value_type, documents, doc, given, items)
        }
        Some(_) => {
            let Ok(keys) = keys_of(alloc, store, value_type, dictionary, items) else {
                return Err(StoreError::Memory);
            };
            let given = keys.as_slice();
            set_document(alloc, store, kind, value_type, documents, doc, given, items)
        }
    }
}

/// Removes the document, which must exist. Returns the root of the new documents.
#[tactic(none)]
pub fn take_out<const OFFSET_BITS: u32, S: Store<OFFSET_BITS>>(
    store: &mut S,
    kind: Kind,
    value_type: ValueType,
    documents: EntryRef<OFFSET_BITS>,
    dictionary: EntryRef<OFFSET_BITS>,
    doc: Doc,
) -> Result<EntryRef<OFFSET_BITS>, StoreError>
    requires unit { (S.ledger store.old).unit ≡ true }
    requires stands { StandsField kind value_type (S.ledger store.old) (S.records store.old) documents dictionary }
    requires there { IsSome (lookup (is_at (nat_cmp doc)) (column_at kind value_type (S.records store.old) documents)) }
    ensures steps { IfOk result (λ next. StepsField kind value_type (S.ledger store.old) (S.ledger store.new)
        (S.records store.old) (S.records store.new) documents.entry dictionary.entry
        (with_change (column_at kind value_type (S.records store.old) documents.entry) doc None) next dictionary.entry) }
    ensures index { IfOk result (λ next. index_of value_type (S.records store.new) dictionary.entry
        ≡ index_of value_type (S.records store.old) dictionary.entry) }
    ensures form { IfOk result (λ next. KeepsForm value_type (S.records store.old) (S.records store.new) dictionary.entry) }
    ensures counts { MakesWithin (S.ledger store.old) (S.ledger store.new) (by_width 17 (λ width. 0)) }
    ensures low { (levels : ℕ) → 0 < levels → length (column_at kind value_type (S.records store.old) documents.entry) < 2 * 8 ^ levels
        → MakesWithin (S.ledger store.old) (S.ledger store.new) (by_width (2 * levels + 1) (λ width. 0)) }
    ensures refuses { IfErr result (Refuses (S.ledger store.old) (S.ledger store.new) NODE_WORDS) }
    ensures may { MayDo (S.ledger store.old) (S.ledger store.new) }
{
    index_law();
    key_law();
    let _ = dictionary;
    remove_document(store, kind, value_type, documents, doc)
}

/// Removes the document from the lists of its old values. Returns the root of the new index, which is the index of the
/// documents. With `dense` the list of a frequent value among `total` documents becomes or remains a bit vector.
#[tactic(none)]
pub fn remove_values<const OFFSET_BITS: u32, S: Store<OFFSET_BITS>>(
    alloc: Global,
    store: &mut S,
    kind: Kind,
    value_type: ValueType,
    documents: EntryRef<OFFSET_BITS>,
    dictionary: EntryRef<OFFSET_BITS>,
    doc: Doc,
    old: &[Item],
    new: &[Item],
    weights: &Option<Weights>,
    dense: bool,
    total: u32,
) -> Result<EntryRef<OFFSET_BITS>, StoreError>
    requires unit { (S.ledger store.old).unit ≡ true }
    requires stands { StandsField kind value_type (S.ledger store.old) (S.records store.old) documents dictionary }
    requires form { IsOfForm dense value_type (S.records store.old) dictionary }
    requires how { IsMadeBy old.now new.now weights.now }
    requires typed { AreOfType value_type (values_of old.now) }
    requires has { (value : OneValue) → lookup (is_at (nat_cmp doc)) (list_of value (index_of value_type (S.records store.old) dictionary))
        ≡ first_given (item_weights new.now value) (item_weights old.now value) }
    requires ends { (index : Index)
        → IsBetween (index_of value_type (S.records store.old) dictionary) doc (item_weights new.now) (item_weights old.now) index
        → IsIndexOf (column_at kind value_type (S.records store.old) documents) index }
    ensures steps { IfOk result (λ next. StepsField kind value_type (S.ledger store.old) (S.ledger store.new)
        (S.records store.old) (S.records store.new) documents.entry dictionary.entry
        (column_at kind value_type (S.records store.old) documents.entry) documents.entry next) }
    ensures form { IfOk result (IsOfForm dense value_type (S.records store.new)) }
    ensures index { IfOk result (λ next. IsIndexOf (column_at kind value_type (S.records store.old) documents.entry)
        (index_of value_type (S.records store.new) next)) }
    ensures counts { MakesWithin (S.ledger store.old) (S.ledger store.new)
        (gone_most dense (index_of value_type (S.records store.old) dictionary.entry) doc (item_weights new.now)
        (first_weights [] old.now) 34) }
    ensures low { (levels : ℕ)
        → RemovesLow levels (index_of value_type (S.records store.old) dictionary.entry) doc (item_weights new.now)
        (first_weights [] old.now)
        → MakesWithin (S.ledger store.old) (S.ledger store.new)
        (gone_most dense (index_of value_type (S.records store.old) dictionary.entry) doc (item_weights new.now)
        (first_weights [] old.now) (value_nodes levels)) }
    ensures refuses { IfErr result (RefusesOf
        (IsWalkWidth dense (index_of value_type (S.records store.old) dictionary.entry) doc (item_weights new.now) (item_weights old.now))
        (S.ledger store.old) (S.ledger store.new)) }
    ensures may { MayDo (S.ledger store.old) (S.ledger store.new) }
{
    documents_law();
    index_law();
    key_law();
    let _ = kind;
    let _ = documents;
    let _ = new;
    match weights {
        None => match old.first() {
            Some(item) => remove(alloc, store, dictionary, &item.value, doc, dense, total),
            None => Ok(dictionary),
        },
        Some(weights) => remove_all(
            alloc,
            store,
            value_type,
            dictionary,
            doc,
            &weights.before,
            &weights.after,
            dense,
            total,
        ),
    }
}
