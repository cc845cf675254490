//! The rounds of one reader, as a task.

ghost use Rattle.std.specs.Prelude.{◌≡◌, length, IfOk};
ghost use Rattle.word_arena.specs.Ruled.{reader_of};
ghost use Rattle.attr_rounds.specs.Rounds.{MakesRounds};

use crate::question::Question;
use crate::rounds::{Reading, go_round};
use attr_io::{Gate, Task};
use entry_ref::Layout;
use std::alloc::{AllocError, Global};
use word_arena::Reader;

/// The rounds of one reader, as a task.
#[derive(Drop)]
pub struct Job<'a, const OFFSET_BITS: u32, L: Layout, Q, G> {
    pub alloc: Global,
    pub reader: Reader<OFFSET_BITS, L>,
    /// The number of the reader, from 1.
    pub number: u32,
    /// The number of its rounds.
    pub count: u32,
    pub question: &'a Q,
    pub gate: &'a G,
}

impl<'a, const OFFSET_BITS: u32, L: Layout, Q: Question<OFFSET_BITS, L>, G: Gate> Task
    for Job<'a, OFFSET_BITS, L, Q, G> {
    type Output = Result<Reading<OFFSET_BITS, L, Q::Answer>, AllocError>;

    ghost can_run = { λ job. Q.fits job.question.now (reader_of job.reader.place.me.0).sizes.shape };

    ghost run_gives = { λ job result. IfOk result (λ r.
        MakesRounds Q.operations (Q.answers job.question.now) L.lawful (reader_of job.reader.place.me.0)
        (reader_of r.reader.place.me.0) r.rounds.items
        × (length r.rounds.items ≡ job.count) × (r.reader.place.table_id ≡ job.reader.place.table_id)) };

    fn run(self) -> Result<Reading<OFFSET_BITS, L, Q::Answer>, AllocError> {
        let Job {
            alloc,
            reader,
            number,
            count,
            question,
            gate,
        } = self;
        go_round(alloc, reader, number, count, question, gate)
    }
}
