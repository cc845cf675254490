//! What a reader's handle holds.
ghost use Rattle.std.specs.Prelude.{◌≡◌, false};
ghost use Rattle.attr_c.specs.Seats.{is_kept, kept_view, reader_view, IsEmptySeat, IsTaken, LeavesGuard, Releases, TakesGuard};

use crate::answer::Answer;
use crate::kept::Kept;
use crate::state::AnyReader;
use attr_types::Items;
use result_model::Groups;
use std::alloc::Global;

/// A reader of either width under a guard.
#[derive(Drop)]
pub enum AnyKept {
    Narrow(Kept<22>),
    Wide(Kept<19>),
}

/// A reader, under a guard of its own or not.
#[derive(Drop)]
pub enum SeatState {
    Free(AnyReader),
    Kept(AnyKept),
}

/// A reader, and the answers that it keeps.
#[derive(Drop)]
pub struct Seat {
    /// None only while a call runs.
    pub place: Option<SeatState>,
    pub answer: Answer,
    pub items: Items,
    pub saved: Vec<u8>,
    pub groups: Groups,
}

impl Seat {
    /// Returns a seat without a reader.
    pub fn new(alloc: Global) -> Seat
        ensures { IsEmptySeat result }
    {
        Seat {
            place: None,
            answer: Answer::new(alloc),
            items: Items::new(alloc),
            saved: Vec::new(alloc),
            groups: Groups::new(alloc),
        }
    }
}

fn guarded_reader(reader: AnyReader) -> AnyKept
    ensures { IsTaken (reader_view reader) (kept_view result) }
{
    match reader {
        AnyReader::Narrow(waiting) => AnyKept::Narrow(Kept::new(waiting)),
        AnyReader::Wide(waiting) => AnyKept::Wide(Kept::new(waiting)),
    }
}

fn released(kept: AnyKept) -> AnyReader
    ensures { LeavesGuard false (kept_view kept) (SeatState.Free result) }
{
    match kept {
        AnyKept::Narrow(kept) => AnyReader::Narrow(kept.release()),
        AnyKept::Wide(kept) => AnyReader::Wide(kept.release()),
    }
}

/// A reader under a guard, and whether it was so before.
pub fn kept_of(place: SeatState) -> (AnyKept, bool)
    ensures guard { TakesGuard place (kept_view result.0) }
    ensures stays { result.1 ≡ is_kept place }
{
    match place {
        SeatState::Free(reader) => (guarded_reader(reader), false),
        SeatState::Kept(kept) => (kept, true),
    }
}

/// The reader, under the guard still or not.
pub fn left(kept: AnyKept, stays: bool) -> SeatState
    ensures { LeavesGuard stays (kept_view kept) result }
{
    if stays {
        SeatState::Kept(kept)
    } else {
        SeatState::Free(released(kept))
    }
}

/// The reader without a guard.
pub fn reader_of(place: SeatState) -> AnyReader
    ensures { Releases place result }
{
    match place {
        SeatState::Free(reader) => reader,
        SeatState::Kept(kept) => released(kept),
    }
}
