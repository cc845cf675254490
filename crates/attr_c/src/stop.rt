//! Why a call of the writer stops.
ghost use Rattle.std.specs.Prelude.{◌≡◌, ◌≢◌, pos, slice_index};
ghost use Rattle.attr_c.specs.Holds.{with_hold, with_oldest};
ghost use Rattle.attr_c.specs.Stops.{line_code, noted_error, store_code, EndsBy, TellsError};
ghost use Rattle.attr_c.specs.Telling.{TellsBy};

use crate::codes::{
    BAD_ID, BAD_SAVE, BAD_VALUE, COMMITS_SPENT, FULL, LINE_TOO_LONG, MEMORY, NO_OPERATION,
    NOT_JSON, OPERATIONS_SPENT, OTHER_SAVE, TOO_MANY_ITEMS, UNSUPPORTED,
};
use crate::state::Counts;
use crate::told::Told;
use arena_api::{Advance, Oldest};
use attribute_kinds::AttrError;
use feed_reader::FeedError;

/// Why a call of the writer stops.
#[derive(Clone, Copy, Drop)]
pub enum Stop {
    /// A line is refused.
    Line(FeedError),
    /// An operation, a commit or a key is refused.
    Store(AttrError),
    /// No more operations are possible.
    Spent,
    /// The bytes are not a save.
    Save,
    /// A save is of another attribute.
    Other,
    Memory,
}

/// Returns the code of a line's refusal.
fn line_code(error: FeedError) -> i32
    ensures code { result ≡ line_code error }
    ensures failed { result ≢ pos 0 }
{
    match error {
        FeedError::NotJson { .. } => NOT_JSON,
        FeedError::NoOperation { .. } => NO_OPERATION,
        FeedError::BadId { .. } => BAD_ID,
        FeedError::BadValue { .. } => BAD_VALUE,
        FeedError::Unsupported { .. } => UNSUPPORTED,
        FeedError::TooManyItems { .. } => TOO_MANY_ITEMS,
        FeedError::FeedTooLong => LINE_TOO_LONG,
        FeedError::ReadFault => LINE_TOO_LONG,
        FeedError::Memory => MEMORY,
    }
}

/// Returns the last commit at the time when a hold became the newest.
fn since(counts: &Counts, hold: u32) -> u32
    ensures { result ≡ slice_index counts.now.since hold }
{
    match counts.since.get(hold as usize) {
        Some(commit) => *commit,
        None => 0,
    }
}

/// Notes the earliest commit on which the oldest reader may stand.
pub fn note_oldest(counts: &mut Counts, oldest: Oldest)
    ensures { counts.new ≡ with_oldest counts.old oldest }
{
    counts.oldest = since(counts, oldest.hold);
    counts.is_held = if oldest.newest { 0 } else { 1 };
}

/// Notes the commit with which a hold began.
pub fn note_advance(counts: &mut Counts, advance: Advance, commit: u32)
    ensures { counts.new ≡ with_hold counts.old advance commit }
{
    if let Advance::To { hold, .. } = advance
        && (hold as usize) < counts.since.len()
    {
        counts.since[hold as usize] = commit;
    }
}

/// Returns the code of the store's refusal, and writes its details.
fn store_code(counts: &mut Counts, error: AttrError, told: &mut Told) -> i32
    ensures code { result ≡ store_code error }
    ensures failed { result ≢ pos 0 }
    ensures counts { counts.new ≡ noted_error error counts.old }
    ensures error { TellsError error counts.new told.new }
    ensures tells { TellsBy told.old told.old told.new result }
    ensures line { told.new.line ≡ told.old.line }
    ensures place { told.new.place ≡ told.old.place }
    ensures next { told.new.next ≡ told.old.next }
    ensures operations { told.new.operations ≡ told.old.operations }
    ensures skipped { told.new.skipped ≡ told.old.skipped }
    ensures keys { told.new.keys ≡ told.old.keys }
    ensures finished { told.new.finished ≡ told.old.finished }
{
    match error {
        AttrError::Full {
            width,
            active,
            held,
            oldest,
        } => {
            note_oldest(counts, oldest);
            told.width = width;
            told.active = active;
            told.held = held;
            told.oldest = counts.oldest;
            told.is_held = counts.is_held;
            FULL
        }
        AttrError::CommitsSpent { .. } => COMMITS_SPENT,
        AttrError::Memory => MEMORY,
    }
}

/// Returns the code of a stop, and writes its details.
pub fn code_of(counts: &mut Counts, stop: Stop, told: &mut Told) -> i32
    ensures ends { EndsBy stop counts.old counts.new told.new result }
    ensures tells { TellsBy told.old told.old told.new result }
    ensures failed { result ≢ pos 0 }
    ensures skipped { told.new.skipped ≡ told.old.skipped }
    ensures keys { told.new.keys ≡ told.old.keys }
    ensures finished { told.new.finished ≡ told.old.finished }
    ensures line { told.new.line ≡ told.old.line }
    ensures place { told.new.place ≡ told.old.place }
    ensures next { told.new.next ≡ told.old.next }
    ensures operations { told.new.operations ≡ told.old.operations }
{
    match stop {
        Stop::Line(error) => line_code(error),
        Stop::Store(error) => store_code(counts, error, told),
        Stop::Spent => OPERATIONS_SPENT,
        Stop::Save => BAD_SAVE,
        Stop::Other => OTHER_SAVE,
        Stop::Memory => MEMORY,
    }
}
