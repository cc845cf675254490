//! The items of given documents.
ghost use Rattle.std.specs.Prelude.{◌≡◌, ◌≤◌, length, map, IfOk};
ghost use Rattle.image_format.specs.Images.{table_of, IsLawfulImage};
ghost use Rattle.image_format.specs.Shapes.{shape_of, types_of};
ghost use Rattle.index_model.specs.Columns.{items_of};
ghost use Rattle.attr_types.specs.declared.field.TheConstants.{MOST_FIELDS};
ghost use Rattle.result_model.specs.Values.{values};
ghost use Rattle.query_results.specs.Attributes.{column_in, HasDocuments};

use crate::attribute::{Attribute, attribute_of};
use crate::items::next_items;
use crate::walks::walk_of;
use arena_api::Frozen;
use attr_types::{Doc, DocList, Fields, Items, ListOf};
use entry_ref::EntryRef;
use std::alloc::{AllocError, Global};

/// Returns the items of these documents in an attribute.
fn values_along<const OFFSET_BITS: u32, F: Frozen<OFFSET_BITS>>(
    alloc: Global,
    frozen: &mut F,
    attribute: &Attribute<OFFSET_BITS>,
    docs: &[Doc],
) -> Result<ListOf<Items>, AllocError>
    requires { HasDocuments OFFSET_BITS (F.records frozen.old) attribute.now }
    ensures values { IfOk result (λ list. list ≡ map (items_of (column_in OFFSET_BITS (F.records frozen.old) attribute.now)) docs.now) }
    ensures same { frozen.new ≡ frozen.old }
{
    let mut list = ListOf::new(alloc);
    let mut walk = walk_of(frozen, attribute.documents);
    for doc in docs {
        let items = next_items(alloc, frozen, attribute, &mut walk, *doc)?;
        list.push(items)?;
    }
    Ok(list)
}

/// Returns the items of these documents in the attribute with this number, in their order. A document that does not
/// exist has none. Documents may be in any order and may repeat; it is fastest if they ascend.
pub fn values<const OFFSET_BITS: u32, F: Frozen<OFFSET_BITS>>(
    alloc: Global,
    frozen: &mut F,
    root: EntryRef<OFFSET_BITS>,
    fields: &Fields,
    field: u32,
    docs: &DocList,
) -> Result<ListOf<Items>, AllocError>
    requires few { length fields.now ≤ MOST_FIELDS }
    requires shape { F.shape frozen.old ≡ shape_of (types_of fields.now) }
    requires image { IsLawfulImage (F.shape frozen.old) (F.records frozen.old) root }
    ensures values { IfOk result (λ list. list ≡ values field docs.now (table_of (F.shape frozen.old) (F.records frozen.old) root.entry)) }
    ensures same { frozen.new ≡ frozen.old }
{
    let attribute = attribute_of(frozen, root, fields.as_slice(), field);
    values_along(alloc, frozen, &attribute, docs.as_slice())
}
