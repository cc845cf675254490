//! The contents of an image's root record.
ghost use Rattle.std.specs.Prelude.{◌≡◌, ◌≤◌, ◌<◌, ◌^◌, length, slice_index, IfOk};
ghost use Rattle.image_format.specs.Images.{root_words, table_of, IsLawfulImage};
ghost use Rattle.attr_types.specs.declared.field.TheConstants.{MOST_FIELDS};
ghost use Rattle.query_eval.specs.Indexes.{HasDictionaries, dictionaries_at};

use crate::dictionary::Dictionary;
use arena_api::Frozen;
use attr_types::Field;
use entry_ref::EntryRef;
use frozen_btree::total;
use std::alloc::{AllocError, Global};

/// Returns the root in word `i` of the root record.
pub fn root_at<const OFFSET_BITS: u32, F: Frozen<OFFSET_BITS>>(
    frozen: &mut F,
    root: EntryRef<OFFSET_BITS>,
    i: u32,
) -> EntryRef<OFFSET_BITS>
    requires there { 0 < root → i < length (F.records frozen.old root) }
    requires small { slice_index (root_words (F.records frozen.old) root) i < 2 ^ 32 }
    ensures root { result ≡ slice_index (root_words (F.records frozen.old) root.entry) i }
    ensures same { frozen.new ≡ frozen.old }
{
    if root.valid() {
        EntryRef::from_raw(frozen.word(root, i) as u32)
    } else {
        EntryRef::from_raw(0)
    }
}

/// Returns the dictionaries of the attributes.
pub fn dictionaries_of<const OFFSET_BITS: u32, F: Frozen<OFFSET_BITS>>(
    alloc: Global,
    frozen: &mut F,
    root: EntryRef<OFFSET_BITS>,
    fields: &[Field],
) -> Result<Vec<Dictionary<OFFSET_BITS>>, AllocError>
    requires few { length fields.now ≤ MOST_FIELDS }
    requires roots { HasDictionaries (F.records frozen.old) root 0 fields.now }
    ensures list { IfOk result (λ list. list.items ≡ dictionaries_at OFFSET_BITS (F.records frozen.old) root.entry 0 fields.now) }
    ensures same { frozen.new ≡ frozen.old }
{
    let mut list = Vec::with_capacity(alloc, fields.len())?;
    for (i, field) in fields.iter().enumerate() {
        let dictionary = root_at(frozen, root, 2 + 2 * i as u32);
        list.push(Dictionary {
            root: dictionary,
            values: field.value,
        })?;
    }
    Ok(list)
}

/// Returns the number of documents of an image.
pub fn documents<const OFFSET_BITS: u32, F: Frozen<OFFSET_BITS>>(
    frozen: &mut F,
    root: EntryRef<OFFSET_BITS>,
) -> u32
    requires image { IsLawfulImage (F.shape frozen.old) (F.records frozen.old) root }
    ensures count { result ≡ length (table_of (F.shape frozen.old) (F.records frozen.old) root.entry) }
    ensures same { frozen.new ≡ frozen.old }
{
    let tree = root_at(frozen, root, 1);
    total(frozen, tree)
}
