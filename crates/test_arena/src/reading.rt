//! A reader's seat, and its tasks.
ghost use Rattle.std.specs.Prelude.{◌≡◌, ◌<◌};

use crate::answers::Answer;
use crate::playing::Seat;
use crate::steps::Task;
use std::marker::Brand;
use std::mem::replace;
use std::sync::ledger::{Blank, Ledger};
use test_kit::{Held, OneNode, guarded, raised, tried};
use word_arena::{Again, Aimed, Reader, Steps};

/// The state of a reader's seat.
#[derive(Drop)]
pub enum Stand {
    Idle(Reader<22, OneNode>),
    Aimed(Aimed<22, OneNode>),
    Guards(Held),
    Gone,
}

fn told(held: Held) -> (Stand, Answer) {
    let mut held = held;
    let look = held.look();
    (Stand::Guards(held), Answer::Guards(look))
}

fn missed(again: Again<22, OneNode>) -> (Stand, Answer) {
    let Again { reader, found } = again;
    (Stand::Idle(reader), Answer::Closed(found))
}

fn raise(aimed: Aimed<22, OneNode>) -> (Stand, Answer) {
    match raised(aimed) {
        Ok(held) => told(held),
        Err(again) => missed(again),
    }
}

fn try_once(reader: Reader<22, OneNode>) -> (Stand, Answer) {
    match tried(reader) {
        Ok(held) => told(held),
        Err(again) => missed(again),
    }
}

/// Returns a guard, after as many tries as it takes.
fn guard_by<C: Ledger>(reader: Reader<22, OneNode>, blank: Blank) -> Held
    requires name { blank.name ≡ C.name }
    requires parts { blank.parts ≡ C.parts }
    requires some { 0 < C.parts }
{
    let mut tries = Steps::<C>::new(blank);
    guarded(reader, &mut tries)
}

/// Does a task with an idle reader.
fn from_idle(reader: Reader<22, OneNode>, task: Task) -> (Stand, Answer) {
    match task {
        Task::Aim => (Stand::Aimed(reader.aim()), Answer::Aimed),
        Task::Try => try_once(reader),
        Task::Guard => told(guard_by::<Brand>(reader, Blank::new(1))),
        _ => (Stand::Idle(reader), Answer::Unfit),
    }
}

fn from_guard(held: Held, task: Task) -> (Stand, Answer) {
    match task {
        Task::Read => told(held),
        Task::Again => told(held.again()),
        Task::Release => (Stand::Idle(held.release()), Answer::Done),
        Task::Forget => {
            drop(held);
            (Stand::Gone, Answer::Done)
        }
        _ => (Stand::Guards(held), Answer::Unfit),
    }
}

/// Does a task with a reader's seat.
fn read_on(stand: Stand, task: Task) -> (Stand, Answer) {
    match stand {
        Stand::Idle(reader) => from_idle(reader, task),
        Stand::Aimed(aimed) => match task {
            Task::Raise => raise(aimed),
            _ => (Stand::Aimed(aimed), Answer::Unfit),
        },
        Stand::Guards(held) => from_guard(held, task),
        Stand::Gone => (Stand::Gone, Answer::Unfit),
    }
}

impl Seat for Stand {
    fn take(&mut self, task: Task) -> Answer {
        let (next, answer) = read_on(replace(self, Stand::Gone), task);
        *self = next;
        answer
    }
}
