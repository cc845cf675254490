//! The readers of a run: their tasks, and joining them with their rounds.
ghost use Rattle.std.specs.Prelude.{◌≡◌, ◌<◌, ◌≤◌, ◌+◌, List, length, map, is_some, IfOk, IfSome, IsOkAnd, All};
ghost use Rattle.std.specs.List.{AllByRecursion, AllZip};
ghost use Rattle.gen_core.specs.Views.{last_number};
ghost use Rattle.word_arena.specs.Ruled.{reader_of, writer_of};
ghost use Rattle.attr_rounds.specs.Lines.{CanAsk};
ghost use Rattle.attr_saver.specs.Images.{IsFirst};
ghost use Rattle.attr_types.specs.Scores.{ask_tree};
ghost use Rattle.attr_rounds.specs.Saves.{saves_of};
ghost use Rattle.attr_engine.specs.Steps.{KeepsWriter, IsReader, IsReading, IsTakenFrom, AreRoundsOf};
ghost use Rattle.gen_core.specs.declared.views.Event.{Event};
ghost use Rattle.gen_core.specs.Reads.{reads_of};
ghost use Rattle.attr_engine.specs.Rounds.{operations_of, commits_of};
ghost use Rattle.attr_engine.specs.Steps.{AllFrom, AllRead, AreReadFrom, IsLastAnswer, KeepsTaken, KnowsRun};
ghost use Rattle.attr_engine.specs.Saver.{one_if, IsSaverDone, IsSaveIn};

use crate::run_result::Save;
use attr_io::{Gate, NoGate, run_each};
use attr_rounds::{Asked, Job, Question, Reading, Round, Saver, Saving, Told, go_round, take_in};
use image_format::AttrLayout;
use std::alloc::{AllocError, Global};
use std::thread::Threads;
use word_arena::{Reader, Writer};

/// Makes a reader that has seen the last commit.
fn reader_in<const OFFSET_BITS: u32>(
    writer: &mut Writer<OFFSET_BITS, AttrLayout>,
) -> Reader<OFFSET_BITS, AttrLayout>
    requires { (writer_of writer.old.place.me.0).made < 64 }
    ensures reader { IsReader (writer_of writer.old.place.me.0) writer.old.place.table_id
        (reader_of result.place.me.0) result.place.table_id }
    ensures number { (reader_of result.place.me.0).number ≡ (writer_of writer.old.place.me.0).made }
    ensures taken { (writer_of writer.new.place.me.0).taken ≡ (writer_of writer.old.place.me.0).taken }
    ensures made { (writer_of writer.new.place.me.0).made ≡ (writer_of writer.old.place.me.0).made + 1 }
    ensures keeps { KeepsWriter (writer_of writer.old.place.me.0) (writer_of writer.new.place.me.0) }
    ensures table { writer.new.place.table_id ≡ writer.old.place.table_id }
{
    match writer.reader() {
        Ok(reader) => reader,
        Err(_) => unreachable!(),
    }
}

/// Returns the tasks of new readers, each of which has seen the last commit.
pub fn jobs_of<'a, const OFFSET_BITS: u32, G: Gate>(
    alloc: Global,
    writer: &mut Writer<OFFSET_BITS, AttrLayout>,
    readers: u32,
    rounds: u32,
    question: &'a Asked<'a>,
    gate: &'a G,
) -> Result<Vec<Job<'a, OFFSET_BITS, AttrLayout, Asked<'a>, G>>, AllocError>
    requires { (writer_of writer.old.place.me.0).made + readers ≤ 64 }
    ensures count { IfOk result (λ jobs. length jobs.items ≡ readers) }
    ensures made { IfOk result (λ jobs. (writer_of writer.new.place.me.0).made ≡ (writer_of writer.old.place.me.0).made + readers) }
    ensures jobs { IfOk result (λ jobs. All (λ job.
        IsReader (writer_of writer.old.place.me.0) writer.old.place.table_id (reader_of job.reader.place.me.0) job.reader.place.table_id
        × (job.count ≡ rounds) × (job.question.now ≡ question.now)) jobs.items) }
    ensures numbers { IfOk result (λ jobs. AllFrom (λ number job. (reader_of job.reader.place.me.0).number ≡ number)
        (writer_of writer.old.place.me.0).made jobs.items) }
    ensures taken { (writer_of writer.new.place.me.0).taken ≡ (writer_of writer.old.place.me.0).taken }
    ensures keeps { KeepsWriter (writer_of writer.old.place.me.0) (writer_of writer.new.place.me.0) }
    ensures table { writer.new.place.table_id ≡ writer.old.place.table_id }
{
    let mut jobs = Vec::new(alloc);
    for i in 0..readers {
        let reader = reader_in(writer);
        let number = i + 1;
        jobs.push(Job {
            alloc,
            reader,
            number,
            count: rounds,
            question,
            gate,
        })?;
    }
    Ok(jobs)
}

/// Joins readers after their rounds.
pub fn take_all<const OFFSET_BITS: u32>(
    alloc: Global,
    writer: &mut Writer<OFFSET_BITS, AttrLayout>,
    readings: Vec<Result<Reading<OFFSET_BITS, AttrLayout, Told>, AllocError>>,
    question: &Asked<'_>,
) -> Result<Vec<Vec<Round<Told>>>, AllocError>
    requires { AllByRecursion (λ reading. IfOk reading
        (λ r. IsReading question.now.counted (map ask_tree question.now.asks.now) (writer_of writer.old.place.me.0).sizes.shape
        writer.old.place.table_id (reader_of r.reader.place.me.0) r.reader.place.table_id r.rounds.items)) readings.items }
    ensures rounds { IfOk result (λ rounds. AllZip (λ reading taken. IsOkAnd reading (λ r.
        IsTakenFrom question.now.counted (map ask_tree question.now.asks.now) (writer_of writer.old.place.me.0).sizes.shape
        (writer_of writer.old.place.me.0).commits
        r.rounds.items taken.items)) readings.entry.items rounds.items) }
    ensures reads { IfOk result (λ rounds. (events : List Event) → AllRead events (writer_of writer.new.place.me.0)
        → AllZip (λ reading taken. IsOkAnd reading (λ r. commits_of taken.items ≡ reads_of (reader_of r.reader.place.me.0).number events))
        readings.entry.items rounds.items) }
    ensures taken { KeepsTaken (writer_of writer.old.place.me.0) (writer_of writer.new.place.me.0) }
    ensures made { (writer_of writer.new.place.me.0).made ≡ (writer_of writer.old.place.me.0).made }
    ensures keeps { KeepsWriter (writer_of writer.old.place.me.0) (writer_of writer.new.place.me.0) }
    ensures table { writer.new.place.table_id ≡ writer.old.place.table_id }
{
    let mut rounds = Vec::new(alloc);
    for reading in readings {
        let reading = reading?;
        let taken = take_in(writer, reading, question);
        rounds.push(taken)?;
    }
    Ok(rounds)
}

/// Makes the rounds of readers after the loading.
pub fn read_after<'a, const OFFSET_BITS: u32, R: Threads + Sync, G: Gate + Sync + 'static>(
    rt: &R,
    alloc: Global,
    writer: &mut Writer<OFFSET_BITS, AttrLayout>,
    readers: u32,
    count: u32,
    question: &'a Asked<'a>,
    gate: &'a G,
) -> Result<Vec<Vec<Round<Told>>>, AllocError>
    requires asks { CanAsk question.now.fields.now (length question.now.asks.now) (writer_of writer.old.place.me.0).sizes.shape }
    requires seats { (writer_of writer.old.place.me.0).made + readers ≤ 64 }
    ensures made { IfOk result (λ rounds. (writer_of writer.new.place.me.0).made ≡ (writer_of writer.old.place.me.0).made + readers) }
    ensures count { IfOk result (λ rounds. length rounds.items ≡ readers) }
    ensures rounds { IfOk result (λ rounds. AllByRecursion (λ r.
        AreRoundsOf question.now.counted (map ask_tree question.now.asks.now) (writer_of writer.old.place.me.0).sizes.shape
        (last_number (writer_of writer.old.place.me.0).commits) count
        (writer_of writer.old.place.me.0).commits r.items) rounds.items) }
    ensures reads { IfOk result (λ rounds. AreReadFrom (writer_of writer.new.place.me.0) (writer_of writer.old.place.me.0).made rounds.items) }
    ensures taken { KeepsTaken (writer_of writer.old.place.me.0) (writer_of writer.new.place.me.0) }
    ensures keeps { KeepsWriter (writer_of writer.old.place.me.0) (writer_of writer.new.place.me.0) }
    ensures table { writer.new.place.table_id ≡ writer.old.place.table_id }
{
    let jobs = jobs_of(alloc, writer, readers, count, question, gate)?;
    let readings = run_each(rt, jobs)?;
    take_all(alloc, writer, readings, question)
}

/// Returns the answer of the last commit, by one round of one more reader, which passes no gate. What the writer has seen is then the
/// whole run of the memory, in which no buffer was handed out while a reader had a guard from before its hold.
pub fn last_answer<const OFFSET_BITS: u32, Q: Question<OFFSET_BITS, AttrLayout>>(
    alloc: Global,
    writer: &mut Writer<OFFSET_BITS, AttrLayout>,
    question: &Q,
) -> Result<Q::Answer, AllocError>
    requires fits { Q.fits question.now (writer_of writer.old.place.me.0).sizes.shape }
    requires seat { (writer_of writer.old.place.me.0).made < 64 }
    ensures made { (writer_of writer.new.place.me.0).made ≡ (writer_of writer.old.place.me.0).made + 1 }
    ensures last { IfOk result (IsLastAnswer Q.operations (Q.answers question.now) (writer_of writer.old.place.me.0)) }
    ensures run { IfOk result (λ answer. KnowsRun writer.new.place.me.0) }
    ensures taken { KeepsTaken (writer_of writer.old.place.me.0) (writer_of writer.new.place.me.0) }
    ensures keeps { KeepsWriter (writer_of writer.old.place.me.0) (writer_of writer.new.place.me.0) }
{
    let reader = reader_in(writer);
    let reading = go_round(alloc, reader, 0, 1, question, &NoGate)?;
    let mut rounds = take_in(writer, reading, question);
    match rounds.pop() {
        Some(round) => Ok(round.answer),
        None => unreachable!(),
    }
}

/// The saver of a run that saves beside the loading: one more reader, which has seen the last commit.
pub fn saver_of<'a, const OFFSET_BITS: u32, G: Gate>(
    alloc: Global,
    writer: &mut Writer<OFFSET_BITS, AttrLayout>,
    saving: &'a Saving<'a, G>,
    save: bool,
) -> Option<Saver<'a, OFFSET_BITS, G>>
    requires { (writer_of writer.old.place.me.0).made < 64 }
    ensures asked { is_some result ≡ save }
    ensures saver { IfSome result (λ saver. IsReader (writer_of writer.old.place.me.0) writer.old.place.table_id
        (reader_of saver.reader.place.me.0) saver.reader.place.table_id × (saver.saving.now ≡ saving.now)) }
    ensures made { (writer_of writer.new.place.me.0).made ≡ (writer_of writer.old.place.me.0).made + one_if save }
    ensures keeps { KeepsWriter (writer_of writer.old.place.me.0) (writer_of writer.new.place.me.0) }
    ensures table { writer.new.place.table_id ≡ writer.old.place.table_id }
{
    if !save {
        return None;
    }
    let reader = reader_in(writer);
    Some(Saver {
        alloc,
        reader,
        saving,
    })
}

/// The save of a saver, which is taken in.
fn take_save<const OFFSET_BITS: u32, G: Gate>(
    writer: &mut Writer<OFFSET_BITS, AttrLayout>,
    reading: Reading<OFFSET_BITS, AttrLayout, Vec<u8>>,
    saving: &Saving<'_, G>,
) -> Save
    requires { IsSaverDone saving.now.field.now (writer_of writer.old.place.me.0).sizes.shape writer.old.place.table_id
        (reader_of reading.reader.place.me.0) reading.reader.place.table_id reading.rounds.items }
    ensures save { IsSaveIn saving.now.field.now (writer_of writer.old.place.me.0) result }
    ensures taken { KeepsTaken (writer_of writer.old.place.me.0) (writer_of writer.new.place.me.0) }
    ensures made { (writer_of writer.new.place.me.0).made ≡ (writer_of writer.old.place.me.0).made }
    ensures keeps { KeepsWriter (writer_of writer.old.place.me.0) (writer_of writer.new.place.me.0) }
    ensures table { writer.new.place.table_id ≡ writer.old.place.table_id }
{
    let mut rounds = take_in(writer, reading, saving);
    match rounds.pop() {
        Some(round) => Save {
            operations: round.operations,
            bytes: round.answer,
        },
        None => unreachable!(),
    }
}

/// The save that was made beside the loading, if one was.
pub fn take_saved<const OFFSET_BITS: u32, G: Gate>(
    writer: &mut Writer<OFFSET_BITS, AttrLayout>,
    given: Option<Result<Reading<OFFSET_BITS, AttrLayout, Vec<u8>>, AllocError>>,
    saving: &Saving<'_, G>,
) -> Result<Option<Save>, AllocError>
    requires { IfSome given (λ reading. IfOk reading (λ r. IsSaverDone saving.now.field.now (writer_of writer.old.place.me.0).sizes.shape
        writer.old.place.table_id (reader_of r.reader.place.me.0) r.reader.place.table_id r.rounds.items)) }
    ensures asked { IfOk result (λ saved. is_some saved ≡ is_some given.entry) }
    ensures save { IfOk result (λ saved. IfSome saved (IsSaveIn saving.now.field.now (writer_of writer.old.place.me.0))) }
    ensures taken { KeepsTaken (writer_of writer.old.place.me.0) (writer_of writer.new.place.me.0) }
    ensures made { (writer_of writer.new.place.me.0).made ≡ (writer_of writer.old.place.me.0).made }
    ensures keeps { KeepsWriter (writer_of writer.old.place.me.0) (writer_of writer.new.place.me.0) }
    ensures table { writer.new.place.table_id ≡ writer.old.place.table_id }
{
    match given {
        Some(reading) => {
            let save = take_save(writer, reading?, saving);
            Ok(Some(save))
        }
        None => Ok(None),
    }
}

/// The save of the last commit, by one more reader, where the table is saved after the loading.
pub fn last_saved<const OFFSET_BITS: u32, G: Gate>(
    alloc: Global,
    writer: &mut Writer<OFFSET_BITS, AttrLayout>,
    saving: &Saving<'_, G>,
    save: bool,
    operations: u32,
) -> Result<Option<Save>, AllocError>
    requires first { IsFirst saving.now.field.now.kind saving.now.field.now.value (writer_of writer.old.place.me.0).sizes.shape }
    requires seat { (writer_of writer.old.place.me.0).made + one_if save ≤ 64 }
    ensures asked { IfOk result (λ saved. is_some saved ≡ save) }
    ensures count { IfOk result (λ saved. IfSome saved (λ s. s.operations ≡ operations)) }
    ensures last { IfOk result (λ saved. IfSome saved (λ s. IsLastAnswer operations_of (saves_of saving.now.field.now)
        (writer_of writer.old.place.me.0) s.bytes)) }
    ensures run { IfOk result (λ saved. KnowsRun writer.old.place.me.0 → KnowsRun writer.new.place.me.0) }
    ensures taken { KeepsTaken (writer_of writer.old.place.me.0) (writer_of writer.new.place.me.0) }
    ensures keeps { KeepsWriter (writer_of writer.old.place.me.0) (writer_of writer.new.place.me.0) }
{
    if !save {
        return Ok(None);
    }
    let bytes = last_answer(alloc, writer, saving)?;
    Ok(Some(Save { operations, bytes }))
}
