//! The writer's steps on holds, and on buffers that readers may still reach.
ghost use Rattle.std.specs.Prelude.{◌≡◌, ◌+◌, ◌<◌, ◌≤◌, length};
ghost use Rattle.gen_core.specs.Views.{oldest_of};
ghost use Rattle.gen_core.specs.Conditions.{MayReopen, MayPutOnHold};
ghost use Rattle.gen_core.specs.Events.{put_aside, advanced};
ghost use Rattle.arena_api.specs.Works.{active_width};
ghost use Rattle.word_arena.specs.Ruled.{writer_of};
ghost use Rattle.word_arena.specs.Knows.{buffers_by};
ghost use Rattle.word_arena.specs.WriterSteps.{ProbesNewest, AdvancesView, ClosesOldest, ClosesUnused, FreesOne, FreesUnused};

use crate::buffers::{unused_tag, width_of};
use crate::plays::{Close, FreeBuffer, Morph, Probe, PutOnHold, Reopen, StoreNewest};
use crate::words::{CLOSED, FIRST_COUNT, FIRST_STATE, FREE, GENERATION_BASE, LAST, ON_HOLD};
use crate::writer::Writer;
use arena_api::Advance;
use entry_ref::Layout;
use gen_core::{Buffer, Tag};
use generation_handler::HOLDS;

impl<const OFFSET_BITS: u32, L: Layout> Writer<OFFSET_BITS, L> {
    // Puts a buffer on hold in which the last commit has no record, with the current generation and that commit as
    // its tag.
    pub(crate) fn put_on_hold(&mut self, buffer: u32)
        requires { MayPutOnHold (writer_of self.old.place.me.0) buffer
            (active_width (buffers_by (writer_of self.old.place.me.0).buffers buffer)) }
        ensures table { self.new.place.table_id ≡ self.old.place.table_id }
        ensures view { writer_of self.new.place.me.0
            ≡ put_aside (writer_of self.old.place.me.0) buffer (active_width (buffers_by (writer_of self.old.place.me.0).buffers buffer)) }
    {
        let width = width_of(self.buffers.as_slice(), buffer);
        let newest = self.holds.newest();
        let tag = Tag {
            generation: newest.generation,
            commit: u64::from(self.last),
        };
        let at = buffer as usize;
        let arena = self.seats.arena();
        arena
            .table
            .shared
            .store::<PutOnHold<L>>(&mut self.place, FIRST_STATE + at, ON_HOLD);
        self.buffers[at] = Buffer::Held(width, tag);
    }

    // Tests whether the newest hold is in use. If it is unused, gives it the next generation. Returns its count.
    fn renew_unused(&mut self) -> u64
        requires { (writer_of self.old.place.me.0).queue.newest.generation + 1 ≤ (writer_of self.old.place.me.0).sizes.generation_limit }
        ensures table { self.new.place.table_id ≡ self.old.place.table_id }
        ensures view { ProbesNewest result (writer_of self.old.place.me.0) (writer_of self.new.place.me.0) }
    {
        let newest = self.holds.newest();
        let hold = newest.hold as usize;
        let arena = self.seats.arena();
        let count = arena
            .table
            .shared
            .load::<Probe<L>>(&mut self.place, FIRST_COUNT + hold);
        if count == 0 {
            let word = (newest.generation + 1) * GENERATION_BASE + u64::from(newest.hold);
            arena
                .table
                .shared
                .store::<Morph<L>>(&mut self.place, LAST, word);
            self.holds.renew(newest.generation + 1, self.last);
        }
        count
    }

    // Opens a closed hold as the newest, for the next generation.
    fn open_hold(&mut self, hold: u32)
        requires { MayReopen (writer_of self.old.place.me.0) hold }
        ensures table { self.new.place.table_id ≡ self.old.place.table_id }
        ensures view { writer_of self.new.place.me.0 ≡ advanced (writer_of self.old.place.me.0) hold }
    {
        let newest = self.holds.newest();
        let word = (newest.generation + 1) * GENERATION_BASE + u64::from(hold);
        let at = hold as usize;
        let arena = self.seats.arena();
        arena
            .table
            .shared
            .fetch_sub::<Reopen<L>>(&mut self.place, FIRST_COUNT + at, CLOSED);
        arena
            .table
            .shared
            .store::<StoreNewest<L>>(&mut self.place, LAST, word);
        self.holds.append(newest.generation + 1, hold, self.last);
    }

    // Begins the next generation.
    pub(crate) fn advance_generation(&mut self) -> Advance
        ensures table { self.new.place.table_id ≡ self.old.place.table_id }
        ensures view { AdvancesView result (writer_of self.old.place.me.0) (writer_of self.new.place.me.0) }
    {
        let newest = self.holds.newest();
        let arena = self.seats.arena();
        if newest.generation >= arena.sizes.generation_limit {
            return Advance::Spent {
                generation: newest.generation,
            };
        }
        let generation = newest.generation + 1;
        let found = self.renew_unused();
        if found == 0 {
            return Advance::To {
                generation,
                hold: newest.hold,
            };
        }
        match self.holds.open_next() {
            None => Advance::NoHold {
                holds: HOLDS,
                found,
            },
            Some(hold) => {
                self.open_hold(hold);
                Advance::To { generation, hold }
            }
        }
    }

    // Closes the oldest hold if it is unused. Returns its count.
    fn close_oldest(&mut self) -> u64
        requires { 1 < length self.old.holds }
        ensures table { self.new.place.table_id ≡ self.old.place.table_id }
        ensures view { ClosesOldest result (writer_of self.old.place.me.0) (writer_of self.new.place.me.0) }
    {
        let oldest = self.holds.oldest();
        let hold = oldest.hold as usize;
        let arena = self.seats.arena();
        let count = arena
            .table
            .shared
            .compare_exchange::<Close<L>>(&mut self.place, FIRST_COUNT + hold, 0, CLOSED);
        if count == 0 {
            self.holds.pop_oldest();
        }
        count
    }

    // Closes holds from the oldest on, up to the newest or to one in use. Returns the count of the one in use,
    // otherwise 0.
    pub(crate) fn close_unused(&mut self) -> u64
        ensures table { self.new.place.table_id ≡ self.old.place.table_id }
        ensures view { ClosesUnused result (writer_of self.old.place.me.0) (writer_of self.new.place.me.0) }
    {
        while self.holds.len() > 1 {
            let count = self.close_oldest();
            if count != 0 {
                return count;
            }
        }
        0
    }

    // Frees a buffer if it is on hold with a tag below the oldest open generation.
    fn free_one(&mut self, buffer: u32, oldest: u64)
        requires below { buffer < length (writer_of self.old.place.me.0).buffers }
        requires oldest { oldest ≡ (oldest_of (writer_of self.old.place.me.0).queue).generation }
        ensures table { self.new.place.table_id ≡ self.old.place.table_id }
        ensures view { FreesOne oldest buffer (writer_of self.old.place.me.0) (writer_of self.new.place.me.0) }
    {
        match unused_tag(self.buffers.as_slice(), buffer, oldest) {
            None => {}
            Some(tag) => {
                let at = buffer as usize;
                let arena = self.seats.arena();
                arena
                    .table
                    .shared
                    .store::<FreeBuffer<L>>(&mut self.place, FIRST_STATE + at, FREE);
                self.buffers[at] = Buffer::Free(Some(tag));
            }
        }
    }

    // Frees every buffer that is on hold with a tag below the oldest open generation.
    pub(crate) fn free_unused(&mut self)
        ensures table { self.new.place.table_id ≡ self.old.place.table_id }
        ensures view { FreesUnused (writer_of self.old.place.me.0) (writer_of self.new.place.me.0) }
    {
        let oldest = self.holds.oldest();
        let arena = self.seats.arena();
        let count = arena.sizes.buffers as u32;
        for buffer in 0..count {
            self.free_one(buffer, oldest.generation);
        }
    }
}
