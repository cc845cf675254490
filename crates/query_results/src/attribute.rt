//! An attribute of an image, by the roots that the root record names.
ghost use Rattle.std.specs.Prelude.{◌≡◌, ◌≤◌, length};
ghost use Rattle.image_format.specs.Images.{table_of, IsLawfulImage};
ghost use Rattle.image_format.specs.Shapes.{shape_of, types_of};
ghost use Rattle.attr_types.specs.declared.field.TheConstants.{MOST_FIELDS};
ghost use Rattle.query_results.specs.Attributes.{IsAttributeOf};

use arena_api::Frozen;
use attr_types::{Field, Kind, ValueType};
use entry_ref::EntryRef;
use query_eval::root_at;

/// An attribute: its kind, the type of its values, and the root of its documents.
#[derive(Clone, Copy, Drop)]
pub struct Attribute<const OFFSET_BITS: u32> {
    pub kind: Kind,
    pub value_type: ValueType,
    pub documents: EntryRef<OFFSET_BITS>,
}

/// Returns the attribute with this number. One that is not there has no documents.
pub fn attribute_of<const OFFSET_BITS: u32, F: Frozen<OFFSET_BITS>>(
    frozen: &mut F,
    root: EntryRef<OFFSET_BITS>,
    fields: &[Field],
    field: u32,
) -> Attribute<OFFSET_BITS>
    requires few { length fields.now ≤ MOST_FIELDS }
    requires shape { F.shape frozen.old ≡ shape_of (types_of fields.now) }
    requires image { IsLawfulImage (F.shape frozen.old) (F.records frozen.old) root }
    ensures attribute { IsAttributeOf OFFSET_BITS (F.records frozen.old) field
        (table_of (F.shape frozen.old) (F.records frozen.old) root.entry) result }
    ensures same { frozen.new ≡ frozen.old }
{
    match fields.get(field as usize) {
        Some(own) => Attribute {
            kind: own.kind,
            value_type: own.value,
            documents: root_at(frozen, root, 1 + 2 * field),
        },
        None => Attribute {
            kind: Kind::Single,
            value_type: ValueType::Long,
            documents: EntryRef::from_raw(0),
        },
    }
}
