//! The places of the table's words, and how numbers are packed in them.
ghost use Rattle.std.specs.Prelude.{◌≡◌, ◌≤◌};
ghost use Rattle.entry_ref.specs.Places.{base};

use gen_core::Sizes;

/// The place of the root word.
pub(crate) const ROOT: usize = 0;

/// The place of the word of the newest hold.
pub(crate) const LAST: usize = 1;

/// The place of the count of hold 0.
pub(crate) const FIRST_COUNT: usize = 2;

/// The place of the state of buffer 0.
pub(crate) const FIRST_STATE: usize = 18;

/// The root word is `commit * COMMIT_BASE + reference`.
pub(crate) const COMMIT_BASE: u64 = 4_294_967_296;

/// The word of the newest hold is `generation * GENERATION_BASE + hold`.
pub(crate) const GENERATION_BASE: u64 = 65536;

/// What a closed hold adds to its count.
pub(crate) const CLOSED: u64 = 1;

/// What a reader adds to the count of the hold that it raises.
pub(crate) const RAISED: u64 = 2;

/// The state of a free buffer.
pub(crate) const FREE: u64 = 0;

/// The state of an active buffer.
pub(crate) const ACTIVE: u64 = 1;

/// The state of a buffer on hold.
pub(crate) const ON_HOLD: u64 = 2;

/// Returns the place of the first word of a buffer, which holds the width of its entries.
pub(crate) fn first_word(sizes: &Sizes, buffer: u32) -> usize
    requires few_buffers { sizes.now.buffers ≤ 67108864 }
    requires few_words { sizes.now.words ≤ 65536 }
    ensures { result ≡ base sizes.now.buffers sizes.now.words buffer }
{
    FIRST_STATE + sizes.buffers as usize + buffer as usize * sizes.words as usize
}
