//! What each step tells its seat: the view after the step, and the event of the core that it was.
ghost use Rattle.word_arena.specs.Ruled.{cut_left, cut_right, glued, gone};
ghost use Rattle.word_arena.specs.PlayEvents.{plays_hand_out, plays_width, plays_store, plays_find, plays_publish, plays_load_own};
ghost use Rattle.word_arena.specs.PlayEvents.{plays_meet};
ghost use Rattle.word_arena.specs.PlayEvents.{plays_hold, plays_free, plays_reopen, plays_store_newest, plays_morph, plays_probe};
ghost use Rattle.word_arena.specs.PlayEvents.{plays_close, plays_load_newest, plays_raise, plays_bounce, plays_load_root, plays_load_word};
ghost use Rattle.word_arena.specs.PlayEvents.{plays_release};

use crate::rule::Watched;
use atomic_table::{Join, Play, Split};
use entry_ref::Layout;
use std::marker::PhantomData;

pub(crate) struct HandOut<L> {
    layout: PhantomData<L>,
}

impl<L: Layout> Play<(), Watched> for HandOut<L> {
    ghost then = { plays_hand_out L.reaches L.lawful };
}

pub(crate) struct StoreWidth<L> {
    layout: PhantomData<L>,
}

impl<L: Layout> Play<(), Watched> for StoreWidth<L> {
    ghost then = { plays_width L.reaches L.lawful };
}

pub(crate) struct StoreWord<L> {
    layout: PhantomData<L>,
}

impl<L: Layout> Play<(), Watched> for StoreWord<L> {
    ghost then = { plays_store L.reaches L.lawful };
}

pub(crate) struct FindWord<L> {
    layout: PhantomData<L>,
}

impl<L: Layout> Play<(), Watched> for FindWord<L> {
    ghost then = { plays_find L.reaches L.lawful };
}

pub(crate) struct Publish<L> {
    layout: PhantomData<L>,
}

impl<L: Layout> Play<(), Watched> for Publish<L> {
    ghost then = { plays_publish L.reaches L.lawful };
}

pub(crate) struct LoadOwn<L> {
    layout: PhantomData<L>,
}

impl<L: Layout> Play<(), Watched> for LoadOwn<L> {
    ghost then = { plays_load_own L.reaches L.lawful };
}

pub(crate) struct MeetLoad<L> {
    layout: PhantomData<L>,
}

impl<L: Layout> Play<(), Watched> for MeetLoad<L> {
    ghost then = { plays_meet L.reaches L.lawful };
}

pub(crate) struct PutOnHold<L> {
    layout: PhantomData<L>,
}

impl<L: Layout> Play<(), Watched> for PutOnHold<L> {
    ghost then = { plays_hold L.reaches L.lawful };
}

pub(crate) struct FreeBuffer<L> {
    layout: PhantomData<L>,
}

impl<L: Layout> Play<(), Watched> for FreeBuffer<L> {
    ghost then = { plays_free L.reaches L.lawful };
}

pub(crate) struct Reopen<L> {
    layout: PhantomData<L>,
}

impl<L: Layout> Play<(), Watched> for Reopen<L> {
    ghost then = { plays_reopen L.reaches L.lawful };
}

pub(crate) struct StoreNewest<L> {
    layout: PhantomData<L>,
}

impl<L: Layout> Play<(), Watched> for StoreNewest<L> {
    ghost then = { plays_store_newest L.reaches L.lawful };
}

pub(crate) struct Morph<L> {
    layout: PhantomData<L>,
}

impl<L: Layout> Play<(), Watched> for Morph<L> {
    ghost then = { plays_morph L.reaches L.lawful };
}

pub(crate) struct Probe<L> {
    layout: PhantomData<L>,
}

impl<L: Layout> Play<(), Watched> for Probe<L> {
    ghost then = { plays_probe L.reaches L.lawful };
}

pub(crate) struct Close<L> {
    layout: PhantomData<L>,
}

impl<L: Layout> Play<(), Watched> for Close<L> {
    ghost then = { plays_close L.reaches L.lawful };
}

pub(crate) struct LoadNewest<L> {
    layout: PhantomData<L>,
}

impl<L: Layout> Play<(), Watched> for LoadNewest<L> {
    ghost then = { plays_load_newest L.reaches L.lawful };
}

pub(crate) struct Raise<L> {
    layout: PhantomData<L>,
}

impl<L: Layout> Play<(), Watched> for Raise<L> {
    ghost then = { plays_raise L.reaches L.lawful };
}

pub(crate) struct Bounce<L> {
    layout: PhantomData<L>,
}

impl<L: Layout> Play<(), Watched> for Bounce<L> {
    ghost then = { plays_bounce L.reaches L.lawful };
}

pub(crate) struct LoadRoot<L> {
    layout: PhantomData<L>,
}

impl<L: Layout> Play<(), Watched> for LoadRoot<L> {
    ghost then = { plays_load_root L.reaches L.lawful };
}

pub(crate) struct LoadWord<L> {
    layout: PhantomData<L>,
}

impl<L: Layout> Play<(), Watched> for LoadWord<L> {
    ghost then = { plays_load_word L.reaches L.lawful };
}

pub(crate) struct Release<L> {
    layout: PhantomData<L>,
}

impl<L: Layout> Play<(), Watched> for Release<L> {
    ghost then = { plays_release L.reaches L.lawful };
}

/// The play that makes a new reader's seat from the writer's.
pub(crate) struct Cut;

impl Split<Watched> for Cut {
    ghost left = { cut_left };

    ghost right = { cut_right };
}

/// The play that joins a reader's seat into the writer's.
pub(crate) struct Glue;

impl Join<Watched> for Glue {
    ghost both = { glued };

    ghost spent = { gone };
}
