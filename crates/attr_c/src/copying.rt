//! What was answered, copied out.
ghost use Rattle.std.specs.Prelude.{◌≡◌, ◌≢◌, pos, Some, None, option_map, slice_get};
ghost use Rattle.attr_c.specs.Copies.{item_told, no_item, text_in, Copies};
ghost use Rattle.attr_c.specs.declared.codes.TheConstants.{BOUNDS, OK};

use crate::codes::{BOUNDS, OK};
use crate::told::ItemTold;
use attr_types::{Item, Value};

/// Copies the front of a list of bytes, as far as there is room, and says how many that were.
pub fn copy_bytes(from: &[u8], into: &mut [u8]) -> usize
    ensures { Copies from.now 0 into.old into.new result }
{
    let count = into.len().min(from.len());
    into[..count].copy_from_slice(&from[..count]);
    count
}

/// The same from the byte at this place on.
pub fn copy_from(from: &[u8], first: usize, into: &mut [u8]) -> usize
    ensures { Copies from.now first into.old into.new result }
{
    copy_bytes(&from[first.min(from.len())..], into)
}

fn told_item(item: &Item) -> ItemTold
    ensures { result ≡ item_told item.now }
{
    match &item.value {
        Value::Long(number) => ItemTold {
            number: *number,
            length: 0,
            weight: item.weight,
            is_text: 0,
        },
        Value::Text(text) => ItemTold {
            number: 0,
            length: text.len() as u64,
            weight: item.weight,
            is_text: 1,
        },
    }
}

fn no_item() -> ItemTold
    ensures { result ≡ no_item }
{
    ItemTold {
        number: 0,
        length: 0,
        weight: 0,
        is_text: 0,
    }
}

/// Tells the item of a number, from 0. If there is none, all that is told is 0.
pub fn item_at(items: &[Item], number: usize, told: &mut ItemTold) -> i32
    ensures there { result ≡ pos 0 → option_map item_told (slice_get items.now number) ≡ Some told.new }
    ensures none { result ≢ pos 0 → slice_get items.now number ≡ None }
    ensures bounds { result ≢ OK → result ≡ BOUNDS }
    ensures zeros { result ≢ OK → told.new ≡ no_item }
{
    match items.get(number) {
        Some(item) => {
            *told = told_item(item);
            OK
        }
        None => {
            *told = no_item();
            BOUNDS
        }
    }
}

/// The bytes of the text of an item; none where there is no such text.
pub fn text_at(items: &[Item], number: usize) -> &[u8]
    ensures { result.now ≡ text_in (slice_get items.now number) }
{
    match items.get(number) {
        Some(item) => match &item.value {
            Value::Long(_) => &[],
            Value::Text(text) => text.as_str().as_bytes(),
        },
        None => &[],
    }
}
