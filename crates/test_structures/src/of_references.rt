//! Rows of references.

ghost use Rattle.std.specs.Prelude.{◌<◌};
ghost use Rattle.entry_ref.specs.References.{buffer_limit, offset_limit};

use entry_ref::{EntryRef, place_of};

/// Returns whether the reference of an offset in a buffer is this number, and has both.
fn is_reference<const OFFSET_BITS: u32>(offset: u32, buffer: u32, raw: u32) -> bool
    requires offset { offset < offset_limit OFFSET_BITS }
    requires buffer { buffer < buffer_limit OFFSET_BITS }
{
    let entry = EntryRef::<OFFSET_BITS>::new(offset, buffer);
    entry.raw() == raw
        && entry == EntryRef::from_raw(raw)
        && entry.offset() == offset
        && entry.buffer() == buffer
        && entry.valid() == (raw > 0)
}

/// Returns whether each reference is its offset and its buffer.
fn are_references() -> bool {
    // offset, buffer, reference
    let rows = [
        (0, 0, 0),
        (0, 1023, 1023),
        (1, 0, 1024),
        (3, 2, 3074),
        (4_194_303, 1023, u32::MAX),
    ];
    for (offset, buffer, raw) in rows {
        if !is_reference::<22>(offset, buffer, raw) {
            return false;
        }
    }
    let rows = [
        (0, 0, 0),
        (0, 8191, 8191),
        (1, 0, 8192),
        (3, 2, 24578),
        (524_287, 8191, u32::MAX),
    ];
    for (offset, buffer, raw) in rows {
        if !is_reference::<19>(offset, buffer, raw) {
            return false;
        }
    }
    true
}

/// Returns whether words of entries stand at the worked places.
fn are_places() -> bool {
    // number of buffers, words of each, width; offset, buffer, word; place
    let rows = [
        ((8, 8192, 34), (3, 2, 0), 16512),
        ((8, 8192, 34), (3, 2, 33), 16545),
        ((2, 8, 2), (1, 0, 0), 22),
        ((2, 8, 2), (3, 1, 1), 35),
    ];
    for ((buffers, words, width), (offset, buffer, i), place) in rows {
        let of_22 = EntryRef::<22>::new(offset, buffer);
        let of_19 = EntryRef::<19>::new(offset, buffer);
        let found = place_of(buffers, words, width, of_22, i);
        if found != place || place_of(buffers, words, width, of_19, i) != place {
            return false;
        }
    }
    true
}

#[test]
fn references_and_words_stand_at_the_worked_places(rt: HostRuntime) {
    assert!(rt; are_references());
    assert!(rt; are_places());
}
