//! Which entries of a row were made before.
use entry_ref::EntryRef;

/// For each buffer, the width of its entries and the last offset that was made.
#[derive(Default, Drop)]
pub struct Marks {
    widths: [u32; 8],
    offsets: [u32; 8],
}

impl Marks {
    /// Returns whether an entry has an offset that was not made before. Afterwards it counts as made.
    pub fn is_new(&mut self, width: u32, reference: u32) -> bool {
        let entry = EntryRef::<22>::from_raw(reference);
        let at = (entry.buffer() % 8) as usize;
        if self.widths[at] == width && entry.offset() <= self.offsets[at] {
            return false;
        }
        self.widths[at] = width;
        self.offsets[at] = entry.offset();
        true
    }

    /// Returns the reference of a new entry, or `None` if it was made before.
    pub fn note(&mut self, width: u32, reference: u32) -> Option<u32> {
        if self.is_new(width, reference) {
            return Some(reference);
        }
        None
    }
}
