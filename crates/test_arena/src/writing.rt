//! The writer's seat, and its tasks.
ghost use Rattle.std.specs.Prelude.{◌≡◌, ◌<◌, None};
ghost use Rattle.word_arena.specs.Ruled.{writer_of};
ghost use Rattle.word_arena.specs.Knows.{view_of};
ghost use Rattle.test_arena.specs.Pasts.{IsOfPast};

use crate::answers::Answer;
use crate::steps::Task;
use arena_api::Work;
use test_kit::{Committed, OneNode, claim, commit, pass, turn};
use word_arena::Writer;

/// The last commit, the buffer of its node, if it has one, and the buffer that the last step claimed.
#[derive(Clone, Copy, Drop)]
pub struct Past {
    pub last: u32,
    pub node: Option<u32>,
    pub claimed: Option<u32>,
}

impl Past {
    /// Returns the state after a commit, in which no buffer is known.
    pub fn of(last: u32) -> Past
        ensures node { result.node ≡ None }
        ensures claimed { result.claimed ≡ None }
    {
        Past {
            last,
            node: None,
            claimed: None,
        }
    }
}

fn place<W: Work<22, Layout = OneNode>>(work: &mut W, past: Past) -> (Past, Answer)
    requires { IsOfPast (W.knows work.old) past }
    ensures { IsOfPast (W.knows work.new) result.0 }
{
    let Some(placed) = turn(work, past.node, past.last.saturating_add(1)) else {
        return (past, Answer::NoBuffer);
    };
    let (buffer, number) = (placed.buffer, placed.number);
    let node = Some(buffer);
    let (advance, oldest) = pass(work, node);
    let committed = Committed {
        number,
        advance,
        oldest,
    };
    let past = Past {
        last: number,
        node,
        claimed: None,
    };
    (past, Answer::Placed(buffer, committed))
}

fn commit_nothing<W: Work<22, Layout = OneNode>>(work: &mut W, past: Past) -> (Past, Answer)
    ensures { IsOfPast (W.knows work.new) result.0 }
{
    match commit(work) {
        Some(committed) => (Past::of(committed.number), Answer::Committed(committed)),
        None => (Past::of(past.last), Answer::NoCommit),
    }
}

fn claim_buffer<W: Work<22, Layout = OneNode>>(
    work: &mut W,
    past: Past,
    width: u32,
) -> (Past, Answer)
    requires { 0 < width }
    ensures { IsOfPast (W.knows work.new) result.0 }
{
    let Some(placed) = claim(work, width) else {
        return (Past::of(past.last), Answer::NoBuffer);
    };
    let (buffer, number) = (placed.buffer, placed.number);
    let past = Past {
        last: number,
        node: None,
        claimed: Some(buffer),
    };
    (past, Answer::Claimed(buffer, number))
}

fn put_on_hold<W: Work<22, Layout = OneNode>>(work: &mut W, past: Past) -> Answer
    requires { IsOfPast (W.knows work.old) past }
{
    match past.claimed {
        Some(buffer) => {
            work.retire_buffer(buffer);
            Answer::Done
        }
        None => Answer::Unfit,
    }
}

fn hand_out<W: Work<22, Layout = OneNode>>(work: &mut W, width: u32) -> Answer
    requires { 0 < width }
{
    match work.hand_out(width) {
        Some(buffer) => Answer::Buffer(buffer),
        None => Answer::NoBuffer,
    }
}

/// Does a task with the work.
pub fn work_on<W: Work<22, Layout = OneNode>>(
    work: &mut W,
    past: Past,
    task: Task,
) -> (Past, Answer)
    requires { IsOfPast (W.knows work.old) past }
    ensures { IsOfPast (W.knows work.new) result.0 }
{
    match task {
        Task::Node => place(work, past),
        Task::Commit => commit_nothing(work, past),
        Task::Claim(width) => claim_buffer(work, past, width.max(1)),
        Task::HandOut(width) => (Past::of(past.last), hand_out(work, width.max(1))),
        Task::Retire => (Past::of(past.last), put_on_hold(work, past)),
        Task::Advance => (Past::of(past.last), Answer::Advanced(work.advance())),
        Task::Reclaim => (Past::of(past.last), Answer::Reclaimed(work.reclaim())),
        Task::Free => (past, Answer::Count(work.free_buffers())),
        Task::Left => (past, Answer::Count(work.commits_left())),
        _ => (past, Answer::Unfit),
    }
}

fn seat(writer: &mut Writer<22, OneNode>) -> Answer {
    match writer.reader() {
        Ok(_) => Answer::Seat,
        Err(none) => Answer::NoSeat(none.made),
    }
}

fn take_in(writer: &mut Writer<22, OneNode>) -> Answer {
    match writer.reader() {
        Ok(reader) => {
            writer.take_in(reader);
            Answer::Seat
        }
        Err(none) => Answer::NoSeat(none.made),
    }
}

/// Does a task with the writer's seat.
pub fn write_on(writer: &mut Writer<22, OneNode>, past: Past, task: Task) -> (Past, Answer)
    requires { IsOfPast (view_of writer.old.place.table_id (writer_of writer.old.place.me.0)) past }
    ensures { IsOfPast (view_of writer.new.place.table_id (writer_of writer.new.place.me.0)) result.0 }
{
    match task {
        Task::Seat => (Past::of(past.last), seat(writer)),
        Task::TakeIn => (Past::of(past.last), take_in(writer)),
        _ => work_on(writer, past, task),
    }
}
