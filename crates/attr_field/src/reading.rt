//! The items of a document of an attribute.

ghost use Rattle.std.specs.Prelude.{◌≡◌, IfOk};
ghost use Rattle.std.specs.BTreeMap.{is_at};
ghost use Rattle.std.specs.Map.{lookup};
ghost use Rattle.std.specs.Ordering.{nat_cmp};
ghost use Rattle.attr_field.specs.Fields.{IsField};
ghost use Rattle.image_format.specs.Documents.{column_at};

use crate::document_items as read_items;
use crate::roots::FieldRoots;
use arena_api::Frozen;
use attr_types::{Doc, Items, Kind, ValueType};
use std::alloc::{AllocError, Global};

/// Returns the items of a document, if it exists.
pub fn items<const OFFSET_BITS: u32, F: Frozen<OFFSET_BITS>>(
    alloc: Global,
    frozen: &mut F,
    kind: Kind,
    value_type: ValueType,
    roots: FieldRoots<OFFSET_BITS>,
    doc: Doc,
) -> Result<Option<Items>, AllocError>
    requires { IsField kind value_type (F.records frozen.old) roots.documents roots.dictionary }
    ensures items { IfOk result (λ items. items
        ≡ lookup (is_at (nat_cmp doc)) (column_at kind value_type (F.records frozen.old) roots.entry.documents)) }
    ensures same { frozen.new ≡ frozen.old }
{
    read_items(alloc, frozen, kind, value_type, roots.documents, doc)
}
