//! The rounds of a reader: each under a guard of the last commit.

ghost use Rattle.std.specs.Prelude.{◌≡◌, ◌<◌, ◌+◌, ◌-◌, ◌^◌, length, IfOk, OnOk};
ghost use Rattle.gen_core.specs.declared.views.ReaderView.{ReaderView};
ghost use Rattle.word_arena.specs.Ruled.{reader_of, IsLater};
ghost use Rattle.attr_rounds.specs.Rounds.{MakesRounds, SeesSame};
ghost use Rattle.attr_rounds.specs.Posts.{view_at, table_at};

use crate::counting::{CountedSteps, run_with_count};
use crate::question::Question;
use attr_io::{Gate, Point};
use entry_ref::Layout;
use std::alloc::{AllocError, Global};
use std::marker::Brand;
use std::sync::ledger::{Blank, Ledger};
use word_arena::{Guarded, Reader, Steps};

/// A round of a reader: the number of its commit, the number of operations of the commit, and the answer.
#[derive(Debug, Drop)]
pub struct Round<A> {
    pub commit: u32,
    pub operations: u32,
    pub answer: A,
}

/// A reader, and the rounds that it has made.
#[derive(Drop)]
pub struct Reading<const OFFSET_BITS: u32, L: Layout, A> {
    pub reader: Reader<OFFSET_BITS, L>,
    pub rounds: Vec<Round<A>>,
}

/// The number of rounds for which a reader keeps its hold, before it takes a new one. While it keeps the hold, no
/// buffer that was put on hold since becomes free, so a reader that never released it would stop the writer. A new
/// guard costs an addition to a word that all readers share, and another at its release; loading the root under the
/// hold costs none. Over 64 rounds that is a thirtieth of an addition for each round.
pub const ROUNDS_ON_A_HOLD: u32 = 64;

/// The state of a reader between two rounds: without a guard, or still under the guard of the last round.
#[derive(Drop)]
enum Post<const OFFSET_BITS: u32, L: Layout> {
    Idle(Reader<OFFSET_BITS, L>),
    Under(Guarded<OFFSET_BITS, L>),
}

/// A guard takes as many tries as it takes. They are counted for the proof alone.
impl<const OFFSET_BITS: u32, L: Layout> CountedSteps for Reader<OFFSET_BITS, L> {
    type Output = Guarded<OFFSET_BITS, L>;

    ghost gives = { λ reader guard. IsLater L.reaches L.lawful (reader_of reader.place.me.0) (reader_of guard.place.me.0)
        × (guard.place.table_id ≡ reader.place.table_id) };

    fn run_counted<C: Ledger>(self, steps: &mut Steps<C>) -> Guarded<OFFSET_BITS, L> {
        self.guard(steps)
    }
}

/// Returns a guard of the last commit. The blank is for the count of the tries.
fn guard_of<const OFFSET_BITS: u32, L: Layout>(
    reader: Reader<OFFSET_BITS, L>,
) -> Guarded<OFFSET_BITS, L>
    ensures later { IsLater L.reaches L.lawful (reader_of reader.place.me.0) (reader_of result.place.me.0) }
    ensures table { result.place.table_id ≡ reader.place.table_id }
{
    run_with_count::<Reader<OFFSET_BITS, L>, Brand>(reader, Blank::new(1))
}

/// Returns the guard of the next round: a new one, or one of the last commit under the hold of the round before.
fn next_guard<const OFFSET_BITS: u32, L: Layout>(
    post: Post<OFFSET_BITS, L>,
) -> Guarded<OFFSET_BITS, L>
    ensures later { IsLater L.reaches L.lawful (view_at post) (reader_of result.place.me.0) }
    ensures table { result.place.table_id ≡ table_at post }
{
    match post {
        Post::Idle(reader) => guard_of(reader),
        Post::Under(guard) => guard.again(),
    }
}

/// Releases the guard, or keeps it.
fn post_after<const OFFSET_BITS: u32, L: Layout>(
    guard: Guarded<OFFSET_BITS, L>,
    ends: bool,
) -> Post<OFFSET_BITS, L>
    ensures same { SeesSame (reader_of guard.place.me.0) (view_at result) }
    ensures table { table_at result ≡ guard.place.table_id }
{
    if ends {
        Post::Idle(guard.release())
    } else {
        Post::Under(guard)
    }
}

/// Returns the reader without a guard.
fn let_go<const OFFSET_BITS: u32, L: Layout>(post: Post<OFFSET_BITS, L>) -> Reader<OFFSET_BITS, L>
    ensures same { SeesSame (view_at post) (reader_of result.place.me.0) }
    ensures table { result.place.table_id ≡ table_at post }
{
    match post {
        Post::Idle(reader) => reader,
        Post::Under(guard) => guard.release(),
    }
}

/// Returns whether a reader releases its hold after the round with this number.
fn ends_hold(round: u32, last: u32) -> bool {
    round % ROUNDS_ON_A_HOLD == 0 || round == last
}

/// Makes one more round, of at most `last`. Passes the gate before and after it. If memory is exhausted, no hold is
/// kept.
fn one_round<const OFFSET_BITS: u32, L: Layout, Q: Question<OFFSET_BITS, L>, G: Gate>(
    alloc: Global,
    post: Post<OFFSET_BITS, L>,
    reader_number: u32,
    last: u32,
    question: &Q,
    gate: &G,
    rounds: &mut Vec<Round<Q::Answer>>,
) -> Result<Post<OFFSET_BITS, L>, AllocError>
    requires fits { Q.fits question.now (view_at post).sizes.shape }
    requires few { length rounds.old.items < 2 ^ 32 - 1 }
    ensures rounds { IfOk result (λ next. (start : ReaderView)
        → MakesRounds Q.operations (Q.answers question.now) L.lawful start (view_at post) rounds.old.items
        → MakesRounds Q.operations (Q.answers question.now) L.lawful start (view_at next) rounds.new.items) }
    ensures count { OnOk result (length rounds.new.items ≡ length rounds.old.items + 1) }
    ensures table { IfOk result (λ next. table_at next ≡ table_at post) }
{
    let round = rounds.len() as u32 + 1;
    gate.pass(Point::RoundStart {
        reader: reader_number,
        round,
    });
    let mut guard = next_guard(post);
    let commit = guard.commit();
    let root = guard.root();
    let operations = question.operations(&mut guard, root);
    let answer = question.answer(alloc, &mut guard, root);
    let ends = answer.is_err() || ends_hold(round, last);
    let post = post_after(guard, ends);
    gate.pass(Point::RoundEnd {
        reader: reader_number,
        round,
        operations,
    });
    let answer = answer?;
    let made = Round {
        commit,
        operations,
        answer,
    };
    match rounds.push(made) {
        Ok(()) => Ok(post),
        Err(_) => {
            let _reader = let_go(post);
            Err(AllocError)
        }
    }
}

/// Makes a number of rounds with a reader; readers and rounds are counted from 1. Passes the gate before and after
/// each round. The reader keeps its hold between rounds, and releases it after every 64 rounds.
pub fn go_round<const OFFSET_BITS: u32, L: Layout, Q: Question<OFFSET_BITS, L>, G: Gate>(
    alloc: Global,
    reader: Reader<OFFSET_BITS, L>,
    reader_number: u32,
    count: u32,
    question: &Q,
    gate: &G,
) -> Result<Reading<OFFSET_BITS, L, Q::Answer>, AllocError>
    requires { Q.fits question.now (reader_of reader.place.me.0).sizes.shape }
    ensures rounds { IfOk result (λ r. MakesRounds Q.operations (Q.answers question.now) L.lawful (reader_of reader.place.me.0)
        (reader_of r.reader.place.me.0) r.rounds.items) }
    ensures count { IfOk result (λ r. length r.rounds.items ≡ count) }
    ensures table { IfOk result (λ r. r.reader.place.table_id ≡ reader.place.table_id) }
{
    let mut post = Post::Idle(reader);
    let mut rounds = Vec::new(alloc);
    for _ in 0..count {
        post = one_round(
            alloc,
            post,
            reader_number,
            count,
            question,
            gate,
            &mut rounds,
        )?;
    }
    let reader = let_go(post);
    Ok(Reading { reader, rounds })
}
