//! The whole run, `attr_main`: reads the words and the feed, makes the run, and writes its text.

ghost use Rattle.std.specs.Prelude.{◌≡◌, ◌⊎◌, ◌<◌, ◌≤◌, ◌^◌, ℕ, [], Some, Ok, Err, length, Option};
ghost use Rattle.std.specs.Prelude.{IsOk, IsOkAnd, IfOk, IfErr, IsErrOf, OnOk, IfSome};
ghost use Rattle.std.specs.Io.KnownBytes.{Appends, Keeps};
ghost use Rattle.attr_io.specs.Bytes.{OfBytes, ReadsPieces};
ghost use Rattle.attr_io.specs.Faults.{Rose};
ghost use Rattle.clap.specs.Faults.{fault_of};
ghost use Rattle.command_line.specs.CommandLine.{attr_app};
ghost use Rattle.command_line.specs.Reading.{AskForHelp};
ghost use Rattle.feed_reader.specs.Feed.{most_bytes};
ghost use Rattle.attr_report.specs.Report.{written};
ghost use Rattle.attr_report.specs.History.{IsLoaded, IsRounds, IsAfterwards, IsSaved};
ghost use Rattle.attr_report.specs.History.{IsLegalHistory, history};
ghost use Rattle.attr_run.specs.Run.{asked, ReadsFeed, task_of};
ghost use Rattle.attr_run.specs.Settings.{IsAskedBy};
ghost use Rattle.attr_run.specs.Refusals.{IsRefusedFor};
ghost use Rattle.attr_run.specs.Texts.{answer_text};
ghost use Rattle.attr_run.specs.Answers.{progress_of, EndsRun, IsEnd, OfRun, ComesExactly};
ghost use Rattle.attr_run.specs.Answers.{ComesExactlyOfFeed, IsRefusedFeed, IsBeforeRun, IsProper, HasNoRun};
ghost use Rattle.attr_run.specs.Answers.{ReadsAsAsked, IsDue, IsFullRunOf, IsRunOfMemory, IsSmallRun, WritesFront};
ghost use Rattle.attr_run.specs.Steps.{IsStopped, IsProperStop, IsEarly, IsAnswer, HasEnded, ended_status};
ghost use Rattle.attr_run.specs.Steps.{TellsFault, IsRuled, IsRuledStop};
ghost use Rattle.attr_run.specs.declared.outcome.Status.TheVariants.{ReadFault};
ghost use Rattle.attr_run.specs.declared.stop.Stop.TheVariants as stops;
ghost use Rattle.std.specs.Prelude.{◌+◌, false};
ghost use Rattle.std.specs.List.{AllByRecursion};
ghost use Rattle.command_line.specs.Settings.{are_too_many};
ghost use Rattle.attr_types.specs.Lawful.{OpFits};
ghost use Rattle.attr_report.specs.Run.{run_in};
ghost use Rattle.attr_engine.specs.FullStore.{load_in, readers_of, IsOwed, IsQuiet};
ghost use Rattle.attr_engine.specs.Run.{IsRunOf};

use crate::feed::ops_in;
use crate::laws::settings_law;
use crate::outcome::{FeedFault, Outcome, Status, UsageCause};
use crate::request::request_in;
use crate::stop::Stop;
use crate::texts::text_in;
use crate::words::Words;
use atomic_table::Badge;
use attr_engine::{EngineError, NoRoom, Written, run_and_write};
use attr_io::{Gate, Sink, Source, write_all};
use attr_report::Request;
use attr_types::{Op, RoundList};
use std::alloc::{AllocError, Global};
use std::thread::Threads;

/// The outcome, and the text to write.
#[derive(Drop)]
struct Answer {
    outcome: Outcome,
    text: Vec<u8>,
}

/// Returns the status of a run that ended.
fn status_of(full: Option<NoRoom>) -> Status
    ensures { result ≡ ended_status full }
{
    match full {
        Some(room) => Status::Full {
            operation: room.operation,
            active: room.active,
            held: room.held,
        },
        None => Status::Done,
    }
}

/// Makes the run, with the references that it requests.
fn run_by<R: Threads + Sync, G: Gate + Sync + 'static>(
    rt: &R,
    alloc: Global,
    request: &Request,
    ops: &[Op],
    gate: &G,
) -> Result<Written, AllocError>
    requires in_batch { 1 ≤ request.now.batch }
    requires some_buffers { 1 ≤ request.now.buffers }
    requires few_buffers { request.now.buffers ≤ 8191 }
    requires some_words { 8192 ≤ request.now.words }
    requires few_words { request.now.words ≤ 65536 }
    requires room { are_too_many request.now.wide request.now.buffers request.now.words ≡ false }
    requires some_fields { 1 ≤ length request.now.fields }
    requires few_fields { length request.now.fields ≤ 8 }
    requires few_readers { request.now.readers ≤ 8 }
    requires few { length ops.now < 2 ^ 32 }
    requires fit { AllByRecursion (OpFits request.now.fields) ops.now }
    ensures { IfOk result (IsRunOf (run_in request.now) ops.now) }
{
    if request.wide {
        match run_and_write::<19, R, G>(rt, alloc, request, ops, gate) {
            Ok(written) => Ok(written),
            Err(EngineError::Memory) => Err(AllocError),
            Err(EngineError::TooManyReaders) => unreachable!(),
        }
    } else {
        match run_and_write::<22, R, G>(rt, alloc, request, ops, gate) {
            Ok(written) => Ok(written),
            Err(EngineError::Memory) => Err(AllocError),
            Err(EngineError::TooManyReaders) => unreachable!(),
        }
    }
}

/// Returns the answer of a run that ended.
fn answer_of(written: Written) -> Answer
    ensures status { result.outcome.status ≡ ended_status written.full }
    ensures loaded { result.outcome.loaded ≡ written.loaded }
    ensures rounds { result.outcome.rounds ≡ written.rounds }
    ensures saved { result.outcome.saved ≡ written.saved }
    ensures text { result.text.items ≡ written.text.items }
    ensures writer { result.outcome.writer ≡ written.writer }
{
    let Written {
        loaded,
        full,
        rounds,
        saved,
        text,
        writer,
    } = written;
    let outcome = Outcome {
        status: status_of(full),
        loaded,
        rounds,
        saved,
        writer,
    };
    Answer { outcome, text }
}

/// Reads the words and then the feed, loads the feed beside the readers, and makes the text to write.
fn reported<R: Threads + Sync, S: Source, G: Gate + Sync + 'static>(
    rt: &R,
    alloc: Global,
    words: &Words,
    source: &mut S,
    gate: &G,
) -> Result<Answer, Stop>
    ensures whole { IfOk result (λ a. IsProper a.outcome.status) }
    ensures due { IfOk result (λ a. IsDue words.now
        (S.left source.old) (S.faults source.old) (S.faults source.new)
        a.outcome.status (progress_of a.outcome) a.text.items) }
    ensures full { IfOk result (λ a. IsFullRunOf words.now (S.left source.old) a.outcome) }
    ensures of_memory { IfOk result (λ a. IsRunOfMemory words.now (S.left source.old) a.outcome) }
    ensures ended { IfOk result (λ _. HasEnded words.now (S.left source.old) (S.left source.new)) }
    ensures stopped { IfErr result (IsStopped words.now (S.left source.old)
        (S.faults source.old) (S.faults source.new)) }
    ensures proper { IfErr result IsProperStop }
    ensures answered { (S.faults source.new ≡ S.faults source.old) ⊎ IsErrOf result (stops.Answer ReadFault) }
    ensures unread { ¬ ReadsFeed (asked words.now) → source.new ≡ source.old }
    ensures reads { ReadsPieces most_bytes 65536
        (S.left source.old) (S.left source.new) (S.reads source.old) (S.reads source.new) }
    ensures one_kind { length (fault_of attr_app words.now) ≤ 1 }
    ensures ruled { IfErr result (IsRuledStop words.now) }
{
    let request = request_in(alloc, words)?;
    let ops = ops_in(alloc, source, &request)?;
    let written = run_by(rt, alloc, &request, ops.as_slice(), gate)?;
    Ok(answer_of(written))
}

/// Returns the answer of a call that stops before it has a report.
fn stopped(alloc: Global, stop: Stop) -> Result<Answer, AllocError>
    ensures { IfOk result (λ a. IsEarly stop a.outcome.status (progress_of a.outcome)
        a.text.items) }
{
    match stop {
        Stop::Memory => Err(AllocError),
        Stop::Answer(status) => {
            let text = text_in(alloc, &status)?;
            let outcome = Outcome {
                status,
                loaded: 0,
                rounds: RoundList::new(alloc),
                saved: None,
                writer: Badge::blank(),
            };
            let text = text.into_bytes();
            Ok(Answer { outcome, text })
        }
    }
}

/// Returns the answer to words and a source, for every outcome except failures of the sink.
fn answer_to<R: Threads + Sync, S: Source, G: Gate + Sync + 'static>(
    rt: &R,
    alloc: Global,
    words: &Words,
    source: &mut S,
    gate: &G,
) -> Result<Answer, AllocError>
    ensures due { IfOk result (λ a. IsDue words.now
        (S.left source.old) (S.faults source.old) (S.faults source.new)
        a.outcome.status (progress_of a.outcome) a.text.items) }
    ensures full { IfOk result (λ a. IsFullRunOf words.now (S.left source.old) a.outcome) }
    ensures of_memory { IfOk result (λ a. IsRunOfMemory words.now (S.left source.old) a.outcome) }
    ensures proper { IfOk result (λ a. IsProper a.outcome.status) }
    ensures answered { IfOk result (λ a. TellsFault (S.faults source.old) (S.faults source.new) a.outcome.status) }
    ensures ended { IfOk result (λ a. (full : Option ℕ) → EndsRun a.outcome.status full
        → HasEnded words.now (S.left source.old) (S.left source.new)) }
    ensures unread { ¬ ReadsFeed (asked words.now) → source.new ≡ source.old }
    ensures reads { ReadsPieces most_bytes 65536
        (S.left source.old) (S.left source.new) (S.reads source.old) (S.reads source.new) }
    ensures one_kind { length (fault_of attr_app words.now) ≤ 1 }
    ensures ruled { IfOk result (λ a. IsRuled words.now a.outcome.status) }
{
    match reported(rt, alloc, words, source, gate) {
        Ok(answer) => Ok(answer),
        Err(stop) => stopped(alloc, stop),
    }
}

/// Makes the whole answer, and then writes it.
fn whole_run<R: Threads + Sync, S: Source, K: Sink, G: Gate + Sync + 'static>(
    rt: &R,
    alloc: Global,
    words: &Words,
    source: &mut S,
    sink: &mut K,
    gate: &G,
) -> Outcome
    ensures answer { IsAnswer words.now
        (S.left source.old) (S.faults source.old) (S.faults source.new)
        (K.taken sink.old) (K.taken sink.new) (K.faults sink.old) (K.faults sink.new)
        result.status (progress_of result) }
    ensures full { IsFullRunOf words.now (S.left source.old) result }
    ensures of_memory { IsRunOfMemory words.now (S.left source.old) result }
    ensures proper { IsProper result.status }
    ensures read_answered { (S.faults source.new ≡ S.faults source.old) ⊎ ((result.status ≡ Status.ReadFault)
        ⊎ ((result.status ≡ Status.WriteFault) ⊎ (result.status ≡ Status.Memory))) }
    ensures write_answered { (K.faults sink.new ≡ K.faults sink.old) ⊎ (result.status ≡ Status.WriteFault) }
    ensures ended { (full : Option ℕ) → EndsRun result.status full
        → HasEnded words.now (S.left source.old) (S.left source.new) }
    ensures unread { ¬ ReadsFeed (asked words.now) → source.new ≡ source.old }
    ensures reads { ReadsPieces most_bytes 65536
        (S.left source.old) (S.left source.new) (S.reads source.old) (S.reads source.new) }
    ensures one_kind { length (fault_of attr_app words.now) ≤ 1 }
    ensures ruled { IsRuled words.now result.status }
{
    match answer_to(rt, alloc, words, source, gate) {
        Err(_) => Outcome::out_of_memory(alloc),
        Ok(answer) => match write_all(sink, answer.text.as_slice()) {
            Ok(()) => answer.outcome,
            Err(_) => Outcome {
                status: Status::WriteFault,
                loaded: answer.outcome.loaded,
                rounds: answer.outcome.rounds,
                saved: answer.outcome.saved,
                writer: answer.outcome.writer,
            },
        },
    }
}

/// The whole run of `attr`: reads the words, then the feed, and writes the report, the summary or the saved table, or
/// why there is none. It checks the words, the name of the kind, the name of the value type, the size of the store,
/// the further attributes, and the queries in order, and then the feed. The first refusal is the answer.
///
/// Statements about the bytes of a feed hold for some bytes, and for those that the source has left if they are
/// known. Statements about written bytes hold if the sink knows what it took. Exhausted memory may be the answer
/// instead of any other. Each reader is a thread, and so is a saver beside the loading. The loading stays on the caller's
/// thread; with `--readers 0` and no save beside it no thread is started. `--dense` changes no answer.
pub fn attr_main<R: Threads + Sync, S: Source, K: Sink, G: Gate + Sync + 'static>(
    rt: &R,
    alloc: Global,
    words: &Words,
    source: &mut S,
    sink: &mut K,
    gate: &G,
) -> Outcome
    // A run that ended, done or out of space at an operation: the words request it, the source gave its operations
    // and was read accordingly, and exactly its text was written.
    ensures report { (full : Option ℕ) → EndsRun result.status full
        → OfRun words.now (S.left source.old) (λ run ops. Appends (K.taken sink.old)
        (K.taken sink.new) (written run ops (progress_of result) full)) }
    ensures settings { (full : Option ℕ) → EndsRun result.status full
        → IsOkAnd (asked words.now) (IsAskedBy words.now) }
    ensures whole { (full : Option ℕ) → EndsRun result.status full
        → OfRun words.now (S.left source.old) (λ run ops.
        ReadsAsAsked run (S.left source.old) (S.left source.new)) }
    ensures loaded { (full : Option ℕ) → EndsRun result.status full
        → OfRun words.now (S.left source.old) (λ run ops.
        IsLoaded run (length ops) result.loaded full) }
    ensures rounds { (full : Option ℕ) → EndsRun result.status full
        → OfRun words.now (S.left source.old) (λ run ops.
        IsRounds run (length ops) (progress_of result)) }
    ensures after { (full : Option ℕ) → EndsRun result.status full
        → OfRun words.now (S.left source.old) (λ run ops. IsAfterwards run (progress_of result)) }
    ensures saved { (full : Option ℕ) → EndsRun result.status full
        → OfRun words.now (S.left source.old) (λ run ops.
        IsSaved run (length ops) (progress_of result)) }
    ensures history { (full : Option ℕ) → EndsRun result.status full
        → OfRun words.now (S.left source.old) (λ run ops. IsLegalHistory run ops
        (progress_of result) (history run ops (progress_of result))) }
    // The rounds of each reader are what this reader read in the one run of the memory, whose commits have the tables of the
    // operations: reader 1 is the first that was made.
    ensures of_memory { IsRunOfMemory words.now (S.left source.old) result }
    // An operation ran out of space only where the attributes refused it, or refused the commit of the batch of which it is
    // the last: then no buffer of the writer's memory is free, and exactly so many are in use and held.
    ensures full { IsFullRunOf words.now (S.left source.old) result }
    // Each buffer is in use, or held for readers.
    ensures room { (operation active held : ℕ) → result.status ≡ Status.Full operation active held
        → OfRun words.now (S.left source.old) (λ run ops. active + held ≡ run.buffers) }
    // With one attribute, the run is not small; and without `--dense`, the entries made up to that operation can fill all
    // buffers. If no reader is active while operations are loaded, no buffer is held.
    ensures owed { (operation active held : ℕ) → result.status ≡ Status.Full operation active held
        → OfRun words.now (S.left source.old) (λ run ops.
        run.dense ≡ false → length run.fields ≡ 1 → IsOwed (load_in run ops) operation result.loaded) }
    ensures large { (operation active held : ℕ) → result.status ≡ Status.Full operation active held
        → OfRun words.now (S.left source.old) (λ run ops. ¬ IsSmallRun run ops) }
    ensures quiet { (operation active held : ℕ) → result.status ≡ Status.Full operation active held
        → OfRun words.now (S.left source.old) (λ run ops. IsQuiet (readers_of run) → held ≡ 0) }

    // The words.
    ensures help { ComesExactly (AskForHelp words.now) Status.Help result.status }
    ensures usage { (cause : UsageCause) → ComesExactly (IsRefusedFor words.now cause) (Status.Usage cause) result.status }
    ensures unread { ¬ ReadsFeed (asked words.now) → source.new ≡ source.old }
    // The command finds at most one fault in the words, so there is only one answer to them.
    ensures one_kind { length (fault_of attr_app words.now) ≤ 1 }

    // The feed, which is not read if operations are made. Each read is made only if at most `most_bytes` bytes were
    // read before it, and each read but the last took at least one byte.
    ensures reads { ReadsPieces most_bytes 65536
        (S.left source.old) (S.left source.new) (S.reads source.old) (S.reads source.new) }
    ensures read_fault { result.status ≡ Status.ReadFault
        → ReadsFeed (asked words.now) × Rose (S.faults source.old) (S.faults source.new) }
    // A failed read is reported.
    ensures read_answered { (S.faults source.new ≡ S.faults source.old) ⊎ ((result.status ≡ Status.ReadFault)
        ⊎ ((result.status ≡ Status.WriteFault) ⊎ (result.status ≡ Status.Memory))) }
    ensures bad_feed { (fault : FeedFault) → result.status ≡ Status.BadFeed fault
        → ReadsFeed (asked words.now)
        × OfBytes (S.left source.old) (λ bytes. task_of words.now bytes ≡ Err (Status.BadFeed fault)) }
    ensures too_long { let cause = Status.BadFeed FeedFault.TooLong in
        IfSome (S.left source.old) (λ bytes.
        ComesExactlyOfFeed (task_of words.now bytes ≡ Err cause) cause result.status) }
    ensures bad_line { (line number : ℕ)
        → let cause = Status.BadFeed (FeedFault.Line line number) in
        IfSome (S.left source.old) (λ bytes.
        ComesExactlyOfFeed (task_of words.now bytes ≡ Err cause) cause result.status) }

    // What is written and what is left for an answer before any run, and if the sink or memory fails.
    ensures text { IsBeforeRun result.status → Appends (K.taken sink.old) (K.taken sink.new)
        (answer_text result.status) }
    ensures no_run { IsBeforeRun result.status → HasNoRun (progress_of result) }
    ensures write_fault { result.status ≡ Status.WriteFault
        → Rose (K.faults sink.old) (K.faults sink.new) }
    // A failed write is reported.
    ensures write_answered { (K.faults sink.new ≡ K.faults sink.old) ⊎ (result.status ≡ Status.WriteFault) }
    ensures front { result.status ≡ Status.WriteFault → WritesFront words.now (S.left source.old)
        (S.faults source.old) (S.faults source.new) (progress_of result)
        (K.taken sink.old) (K.taken sink.new) }
    ensures memory { result.status ≡ Status.Memory →
        Keeps (K.taken sink.old) (K.taken sink.new) × HasNoRun (progress_of result) }
    ensures proper { IsProper result.status }

    // If the words request a run and nothing fails, the run is done or out of space, or its feed is refused
    // (`bad_feed` says when), or memory is exhausted.
    ensures complete { IsOk (asked words.now)
        → ¬ Rose (S.faults source.old) (S.faults source.new)
        → ¬ Rose (K.faults sink.old) (K.faults sink.new)
        → IsEnd result.status ⊎ (IsRefusedFeed result.status ⊎ (result.status ≡ Status.Memory)) }
    // A small run with one attribute is then done.
    ensures small { IfSome (S.left source.old) (λ bytes.
        IsOkAnd (task_of words.now bytes) (λ task. IsSmallRun task.run task.ops)
        → ¬ Rose (S.faults source.old) (S.faults source.new)
        → ¬ Rose (K.faults sink.old) (K.faults sink.new)
        → (result.status ≡ Status.Done) ⊎ (result.status ≡ Status.Memory)) }
{
    settings_law();
    whole_run(rt, alloc, words, source, sink, gate)
}
