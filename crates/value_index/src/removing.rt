//! Removes a document from the list of a value.

ghost use Rattle.std.specs.Prelude.{◌≡◌, ◌∷◌, [], true, false, length, IsSome, IfOk, IfErr, Some};
ghost use Rattle.std.specs.BTreeMap.{is_at};
ghost use Rattle.std.specs.Map.{lookup as lookup_in, remove_entry};
ghost use Rattle.std.specs.Ordering.{nat_cmp};
ghost use Rattle.tree_read.specs.Trees.{tree_pairs};
ghost use Rattle.tree_read.specs.Pairs.{lookup_pair};
ghost use Rattle.store_api.specs.Calls.{RefusesOf};
ghost use Rattle.store_api.specs.Parts.{Owns};
ghost use Rattle.store_api.specs.Units.{MayDo, MakesWithin};
ghost use Rattle.image_format.specs.Postings.{index_of};
ghost use Rattle.index_model.specs.Index.{list_of, without_posting};
ghost use Rattle.attr_types.specs.Value.{type_of};
ghost use Rattle.enum_dictionary.specs.Dictionaries.{beside_value};
ghost use Rattle.posting_store.specs.Lists.{AreOnes};
ghost use Rattle.value_index.specs.Changes.{change_most, IsChangeWidth, MakesIndex};
ghost use Rattle.value_index.specs.Forms.{IsPlainIndex};
ghost use Rattle.value_index.specs.Indexes.{index_part, IsIndex};

use attr_types::{Doc, Value};
use entry_ref::EntryRef;
use enum_dictionary::{find, remove as remove_pair, set};
use posting_store::{Posting, remove as remove_posting};
use std::alloc::Global;
use store_api::{Store, StoreError, drop_one};

/// Removes a document from the list of an existing value, and removes the value if its list becomes empty.
#[tactic(none)]
fn remove_from<const OFFSET_BITS: u32, S: Store<OFFSET_BITS>>(
    alloc: Global,
    store: &mut S,
    root: EntryRef<OFFSET_BITS>,
    value: &Value,
    key: EntryRef<OFFSET_BITS>,
    list: Posting,
    doc: Doc,
    dense: bool,
    documents: u32,
) -> Result<EntryRef<OFFSET_BITS>, StoreError>
    requires unit { (S.ledger store.old).unit ≡ true }
    requires index { IsIndex (type_of value.now) (S.records store.old) root }
    requires owns { Owns (S.ledger store.old) (S.records store.old) (index_part root ∷ []) }
    requires plain { dense ≡ false → IsPlainIndex (S.records store.old) root }
    requires ones { dense ≡ true → AreOnes (list_of value.now (index_of (type_of value.now) (S.records store.old) root)) }
    requires found { lookup_pair (beside_value value.now (S.records store.old)) (tree_pairs (S.records store.old) root)
        ≡ Some (key, list) }
    requires there { IsSome (lookup_in (is_at (nat_cmp doc))
        (list_of value.now (index_of (type_of value.now) (S.records store.old) root))) }
    ensures makes { IfOk result (MakesIndex (type_of value.now) (S.ledger store.old) (S.ledger store.new)
        (S.records store.old) (S.records store.new) root.entry
        (without_posting value.now doc (index_of (type_of value.now) (S.records store.old) root.entry))) }
    ensures plain { IfOk result (λ next. dense ≡ false → IsPlainIndex (S.records store.new) next) }
    ensures counts { MakesWithin (S.ledger store.old) (S.ledger store.new) (change_most value.now (S.records store.old) root.entry
        dense documents (remove_entry (is_at (nat_cmp doc))
        (list_of value.now (index_of (type_of value.now) (S.records store.old) root.entry)))) }
    ensures refuses { IfErr result (RefusesOf (IsChangeWidth dense value.now
        (length (remove_entry (is_at (nat_cmp doc)) (list_of value.now (index_of (type_of value.now) (S.records store.old) root.entry)))))
        (S.ledger store.old) (S.ledger store.new)) }
    ensures may { MayDo (S.ledger store.old) (S.ledger store.new) }
{
    let next = remove_posting(alloc, store, list, doc, dense, documents)?;
    if next.word() != 0 {
        return set(store, root, value, key, next.word());
    }
    let left = remove_pair(store, root, value)?;
    drop_one(store, key);
    Ok(left)
}

/// Removes a document from the list of a value that has it. Returns the root of the new index, or 0 if no value is
/// left. With `dense` the list becomes or remains a bit vector if it is long, for `documents` documents in all.
pub fn remove<const OFFSET_BITS: u32, S: Store<OFFSET_BITS>>(
    alloc: Global,
    store: &mut S,
    root: EntryRef<OFFSET_BITS>,
    value: &Value,
    doc: Doc,
    dense: bool,
    documents: u32,
) -> Result<EntryRef<OFFSET_BITS>, StoreError>
    requires unit { (S.ledger store.old).unit ≡ true }
    requires index { IsIndex (type_of value.now) (S.records store.old) root }
    requires owns { Owns (S.ledger store.old) (S.records store.old) (index_part root ∷ []) }
    requires plain { dense ≡ false → IsPlainIndex (S.records store.old) root }
    requires ones { dense ≡ true → AreOnes (list_of value.now (index_of (type_of value.now) (S.records store.old) root)) }
    requires there { IsSome (lookup_in (is_at (nat_cmp doc))
        (list_of value.now (index_of (type_of value.now) (S.records store.old) root))) }
    ensures makes { IfOk result (MakesIndex (type_of value.now) (S.ledger store.old) (S.ledger store.new)
        (S.records store.old) (S.records store.new) root.entry
        (without_posting value.now doc (index_of (type_of value.now) (S.records store.old) root.entry))) }
    ensures plain { IfOk result (λ next. dense ≡ false → IsPlainIndex (S.records store.new) next) }
    ensures counts { MakesWithin (S.ledger store.old) (S.ledger store.new) (change_most value.now (S.records store.old) root.entry
        dense documents (remove_entry (is_at (nat_cmp doc))
        (list_of value.now (index_of (type_of value.now) (S.records store.old) root.entry)))) }
    ensures refuses { IfErr result (RefusesOf (IsChangeWidth dense value.now
        (length (remove_entry (is_at (nat_cmp doc)) (list_of value.now (index_of (type_of value.now) (S.records store.old) root.entry)))))
        (S.ledger store.old) (S.ledger store.new)) }
    ensures may { MayDo (S.ledger store.old) (S.ledger store.new) }
{
    match find(store, root, value) {
        Some(entry) => remove_from(
            alloc,
            store,
            root,
            value,
            entry.key,
            Posting::from_word(entry.posting),
            doc,
            dense,
            documents,
        ),
        None => unreachable!(),
    }
}
