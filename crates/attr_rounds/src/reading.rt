//! The documents of one attribute of an image, collected in order.

ghost use Rattle.std.specs.Prelude.{◌≡◌, ◌∷◌, [], List, Some, IsSome, IfOk, OnOk};
ghost use Rattle.std.specs.BTreeMap.{insert_entry, is_at};
ghost use Rattle.std.specs.Map.{lookup};
ghost use Rattle.std.specs.Ordering.{nat_cmp};
ghost use Rattle.attr_field.specs.Documents.{IsDocuments};
ghost use Rattle.image_format.specs.Documents.{column_at};
ghost use Rattle.index_model.specs.Columns.{column_of};
ghost use Rattle.attr_types.specs.declared.items.Item.{Item};

use arena_api::Frozen;
use attr_field::document_items as read_items;
use attr_types::{Doc, FieldItems, Kind, ValueType};
use entry_ref::EntryRef;
use frozen_btree::Cursor;
use std::alloc::{AllocError, Global};
use std::collections::BTreeMap;

/// Inserts a document with its items.
fn push_document<const OFFSET_BITS: u32, F: Frozen<OFFSET_BITS>>(
    alloc: Global,
    frozen: &mut F,
    kind: Kind,
    value_type: ValueType,
    root: EntryRef<OFFSET_BITS>,
    doc: Doc,
    documents: &mut BTreeMap<Doc, FieldItems>,
) -> Result<(), AllocError>
    requires documents { IsDocuments kind value_type (F.records frozen.old) root }
    requires there { IsSome (lookup (is_at (nat_cmp doc)) (column_at kind value_type (F.records frozen.old) root)) }
    ensures put { OnOk result ((items : List Item)
        → lookup (is_at (nat_cmp doc)) (column_at kind value_type (F.records frozen.old) root.entry) ≡ Some items
        → documents.new.entries ≡ insert_entry nat_cmp documents.old.entries doc (items ∷ [])) }
    ensures same { frozen.new ≡ frozen.old }
{
    match read_items(alloc, frozen, kind, value_type, root, doc)? {
        Some(items) => {
            let items = FieldItems::of_one(alloc, items)?;
            documents.insert(doc, items)?;
            Ok(())
        }
        None => unreachable!(),
    }
}

/// Returns the documents of an attribute, each with its items in that attribute only.
pub fn documents_in<const OFFSET_BITS: u32, F: Frozen<OFFSET_BITS>>(
    alloc: Global,
    frozen: &mut F,
    kind: Kind,
    value_type: ValueType,
    root: EntryRef<OFFSET_BITS>,
) -> Result<BTreeMap<Doc, FieldItems>, AllocError>
    requires { IsDocuments kind value_type (F.records frozen.old) root }
    ensures column { IfOk result (λ documents. column_of 0 documents.entries
        ≡ column_at kind value_type (F.records frozen.old) root.entry) }
    ensures same { frozen.new ≡ frozen.old }
{
    let mut documents = BTreeMap::new(alloc);
    let mut cursor = Cursor::first(frozen, root);
    while !cursor.at_end() {
        let doc = Doc::new(cursor.key() as u32);
        push_document(alloc, frozen, kind, value_type, root, doc, &mut documents)?;
        cursor.next(frozen);
    }
    Ok(documents)
}
