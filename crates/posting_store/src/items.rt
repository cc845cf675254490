//! The items of a short list.

ghost use Rattle.std.specs.Prelude.{◌≡◌, ◌≤◌, length, map};
ghost use Rattle.std.specs.BTreeMap.{insert_entry, is_at};
ghost use Rattle.std.specs.Map.{remove_entry};
ghost use Rattle.std.specs.Ordering.{nat_cmp};
ghost use Rattle.image_format.specs.Words.{unpacked};
ghost use Rattle.posting_store.specs.Lists.{list_at, IsList};

use crate::cursor::walk;
use crate::posting::Posting;
use arena_api::Frozen;
use arrayvec::ArrayVec;
use attr_types::Doc;
use image_format::WEIGHT_BASE;

/// The items of a short list, or of a list with one document more.
pub type Items = ArrayVec<u64, 9>;

/// Returns the item of a document with a weight.
fn item_of(doc: Doc, weight: i32) -> u64
    ensures { unpacked result ≡ (doc, weight) }
{
    doc.number() as u64 * WEIGHT_BASE + weight.cast_unsigned() as u64
}

/// The number of a document is valid. The function does nothing; its contract is the law.
pub fn number_law(doc: Doc)
    ensures first { 1 ≤ doc }
    ensures last { doc ≤ 1048575 }
{
    let _ = doc.number();
}

/// Returns the items of a list of at most nine documents.
pub fn items_of<const OFFSET_BITS: u32, F: Frozen<OFFSET_BITS>>(
    frozen: &mut F,
    list: Posting,
) -> Items
    requires list { IsList (F.records frozen.old) list }
    requires few { length (list_at (F.records frozen.old) list) ≤ 9 }
    ensures items { map unpacked result.items ≡ list_at (F.records frozen.old) list }
    ensures same { frozen.new ≡ frozen.old }
{
    let mut items = ArrayVec::new();
    let mut cursor = walk(frozen, list);
    while !cursor.at_end() {
        let doc = cursor.doc(frozen);
        let weight = cursor.weight(frozen);
        items.push(item_of(doc, weight));
        cursor.next(frozen);
    }
    items
}

/// Adds a document, or replaces its weight.
pub fn put_item(items: &mut Items, doc: Doc, weight: i32)
    requires { length items.old.items ≤ 8 }
    ensures { map unpacked items.new.items ≡ insert_entry nat_cmp (map unpacked items.old.items) doc weight }
{
    let number = doc.number() as u64;
    let item = item_of(doc, weight);
    for i in 0..items.len() {
        let here = items[i] / WEIGHT_BASE;
        if here == number {
            items.remove(i);
            items.insert(i, item);
            return;
        }
        if here > number {
            items.insert(i, item);
            return;
        }
    }
    items.push(item);
}

/// Removes a document.
pub fn take_item(items: &mut Items, doc: Doc)
    ensures { map unpacked items.new.items ≡ remove_entry (is_at (nat_cmp doc)) (map unpacked items.old.items) }
{
    let number = doc.number() as u64;
    for i in 0..items.len() {
        if items[i] / WEIGHT_BASE == number {
            items.remove(i);
            return;
        }
    }
}
