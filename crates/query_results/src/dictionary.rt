//! The dictionary of an attribute, by the root that the root record names.
ghost use Rattle.std.specs.Prelude.{◌≡◌, ◌≤◌, length};
ghost use Rattle.image_format.specs.Images.{table_of, IsLawfulImage};
ghost use Rattle.image_format.specs.Shapes.{shape_of, types_of};
ghost use Rattle.attr_types.specs.declared.field.TheConstants.{MOST_FIELDS};
ghost use Rattle.query_results.specs.Dictionaries.{IsDictionaryOf};

use arena_api::Frozen;
use attr_types::{Field, Kind, ValueType};
use entry_ref::EntryRef;
use query_eval::root_at;

/// The dictionary of an attribute: the attribute's kind, the type of its values, and the root.
#[derive(Clone, Copy, Drop)]
pub struct Dictionary<const OFFSET_BITS: u32> {
    pub kind: Kind,
    pub value_type: ValueType,
    pub root: EntryRef<OFFSET_BITS>,
}

/// Returns the dictionary of the attribute with this number. One that is not there has no values.
pub fn dictionary_of<const OFFSET_BITS: u32, F: Frozen<OFFSET_BITS>>(
    frozen: &mut F,
    root: EntryRef<OFFSET_BITS>,
    fields: &[Field],
    field: u32,
) -> Dictionary<OFFSET_BITS>
    requires few { length fields.now ≤ MOST_FIELDS }
    requires shape { F.shape frozen.old ≡ shape_of (types_of fields.now) }
    requires image { IsLawfulImage (F.shape frozen.old) (F.records frozen.old) root }
    ensures dictionary { IsDictionaryOf OFFSET_BITS (F.records frozen.old) field
        (table_of (F.shape frozen.old) (F.records frozen.old) root.entry) result }
    ensures same { frozen.new ≡ frozen.old }
{
    match fields.get(field as usize) {
        Some(own) => Dictionary {
            kind: own.kind,
            value_type: own.value,
            root: root_at(frozen, root, 2 + 2 * field),
        },
        None => Dictionary {
            kind: Kind::Single,
            value_type: ValueType::Long,
            root: EntryRef::from_raw(0),
        },
    }
}
