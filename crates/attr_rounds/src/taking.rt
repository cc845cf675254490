//! Takes a reader in again after its rounds.

ghost use Rattle.std.specs.Prelude.{◌≡◌, All};
ghost use Rattle.gen_core.specs.Events.{joined};
ghost use Rattle.word_arena.specs.Ruled.{reader_of, writer_of};
ghost use Rattle.word_arena.specs.Released.{IsWholeRun};
ghost use Rattle.word_arena.specs.Runs.{LoadsRootOnce, TookReads, KnowsCommits};
ghost use Rattle.attr_rounds.specs.Rounds.{AreSeen, IsOfCommit};

use crate::question::Question;
use crate::rounds::{Reading, Round};
use entry_ref::Layout;
use word_arena::Writer;

/// Joins a reader after its rounds with this question. Each round is then known to be at a commit of the writer, and what
/// the reader saw to be its own reads of the root.
pub fn take_in<const OFFSET_BITS: u32, L: Layout, Q: Question<OFFSET_BITS, L>>(
    writer: &mut Writer<OFFSET_BITS, L>,
    reading: Reading<OFFSET_BITS, L, Q::Answer>,
    _question: &Q,
) -> Vec<Round<Q::Answer>>
    requires table { reading.reader.place.table_id ≡ writer.old.place.table_id }
    requires seen { AreSeen Q.operations (Q.answers _question.now) L.lawful (reader_of reading.reader.place.me.0) reading.rounds.items }
    ensures rounds { All (IsOfCommit Q.operations (Q.answers _question.now) (reader_of reading.reader.place.me.0).sizes.shape
        (writer_of writer.new.place.me.0).commits) result.items }
    ensures same { result.items ≡ reading.rounds.items }
    ensures view { writer_of writer.new.place.me.0 ≡ joined (writer_of writer.old.place.me.0) (reader_of reading.reader.place.me.0) }
    ensures table { writer.new.place.table_id ≡ writer.old.place.table_id }
    ensures run { IsWholeRun L.reaches L.lawful (writer_of writer.old.place.me.0).sizes writer.new.place.me.0.seen }
    ensures meets { LoadsRootOnce writer.old.place.me.0 writer.new.place.me.0 }
    ensures reads { TookReads writer.new.place.me.0 }
    ensures knows { KnowsCommits L.reaches L.lawful (writer_of writer.old.place.me.0).sizes writer.new.place.me.0 }
{
    let Reading { reader, rounds } = reading;
    writer.take_in(reader);
    rounds
}
