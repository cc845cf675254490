//! Records that can be read: what structures require of the memory that they are read from.
#![tactic(auto)]

ghost use Rattle.std.specs.Prelude.{◌≡◌, ◌<◌, ◌≤◌, ◌+◌, ◌^◌, ℕ, length, take, drop, IfSome};
ghost use Rattle.entry_ref.specs.Records.{Records, HasWord, word_at};

use entry_ref::EntryRef;

/// Records that do not change.
pub trait Frozen<const OFFSET_BITS: u32> {
    /// The shape by which a layout reads an image.
    ghost shape: { Self → ℕ };

    ghost records: { Self → Records };

    /// The place in memory where the words of a record begin.
    ghost begins: { Self → ℕ → ℕ };

    /// Returns word `i` of a record. Reading changes nothing.
    fn word(&mut self, entry: EntryRef<OFFSET_BITS>, i: u32) -> u64
        requires { HasWord (records self.old) entry i }
        ensures value { result ≡ word_at (records self.old) entry.entry i }
        ensures same { self.new ≡ self.old };

    /// Returns where the words of a record begin. `width` is its width, if the caller knows it.
    fn start_of(&mut self, entry: EntryRef<OFFSET_BITS>, width: Option<u32>) -> u64
        requires some { HasWord (records self.old) entry 0 }
        requires width { IfSome width (λ w. length (records self.old entry) ≡ w) }
        ensures start { result ≡ begins self.old entry.entry }
        ensures same { self.new ≡ self.old };

    /// Returns word `i` of a record whose words begin at `start`.
    fn word_from(&mut self, entry: EntryRef<OFFSET_BITS>, start: u64, i: u32) -> u64
        requires there { HasWord (records self.old) entry i }
        requires start { start ≡ begins self.old entry }
        ensures value { result ≡ word_at (records self.old) entry.entry i }
        ensures same { self.new ≡ self.old };

    /// Reads words of a record that begin at `start` into `into`, from word `first` on, until `into` is full.
    fn read_from(&mut self, entry: EntryRef<OFFSET_BITS>, start: u64, first: u32, into: &mut [u64])
        requires there { first + length into.old ≤ length (records self.old entry) }
        requires few { first + length into.old < 2 ^ 32 }
        requires start { start ≡ begins self.old entry }
        ensures words { into.new ≡ take (length into.old) (drop first (records self.old entry.entry)) }
        ensures same { self.new ≡ self.old };

    // a record's reference fits in 32 bits
    ghost references: { (s : Self) (r : ℕ) → 0 < length (records s r) → r < 2 ^ 32 };
}

/// Reads words of a record into `into`, from word `first` on, until `into` is full.
pub fn read<const OFFSET_BITS: u32, F: Frozen<OFFSET_BITS>>(
    frozen: &mut F,
    entry: EntryRef<OFFSET_BITS>,
    first: u32,
    into: &mut [u64],
)
    requires there { first + length into.old ≤ length (F.records frozen.old entry) }
    requires few { first + length into.old < 2 ^ 32 }
    ensures words { into.new ≡ take (length into.old) (drop first (F.records frozen.old entry.entry)) }
    ensures same { frozen.new ≡ frozen.old }
{
    if into.is_empty() {
        return;
    }
    let start = frozen.start_of(entry, None);
    frozen.read_from(entry, start, first, into);
}

/// Reads words of a record of this width, as `read` does.
pub fn read_of<const OFFSET_BITS: u32, F: Frozen<OFFSET_BITS>>(
    frozen: &mut F,
    entry: EntryRef<OFFSET_BITS>,
    width: u32,
    first: u32,
    into: &mut [u64],
)
    requires width { length (F.records frozen.old entry) ≡ width }
    requires there { first + length into.old ≤ width }
    ensures words { into.new ≡ take (length into.old) (drop first (F.records frozen.old entry.entry)) }
    ensures same { frozen.new ≡ frozen.old }
{
    if into.is_empty() {
        return;
    }
    let start = frozen.start_of(entry, Some(width));
    frozen.read_from(entry, start, first, into);
}

/// Returns word `i` of a record of this width, as `word` does.
pub fn word_of<const OFFSET_BITS: u32, F: Frozen<OFFSET_BITS>>(
    frozen: &mut F,
    entry: EntryRef<OFFSET_BITS>,
    width: u32,
    i: u32,
) -> u64
    requires width { length (F.records frozen.old entry) ≡ width }
    requires there { i < width }
    ensures value { result ≡ word_at (F.records frozen.old) entry.entry i }
    ensures same { frozen.new ≡ frozen.old }
{
    let start = frozen.start_of(entry, Some(width));
    frozen.word_from(entry, start, i)
}
