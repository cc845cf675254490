//! A run: the loading with its readers, and the last answers.
ghost use Rattle.std.specs.Prelude.{◌≡◌, ◌≤◌, ◌<◌, ◌+◌, ◌*◌, ◌^◌, length, map, slice_get, is_some, Some, IfOk, IfErr, IfSome};
ghost use Rattle.std.specs.Prelude.{if◌then◌else◌};
ghost use Rattle.std.specs.List.{AllByRecursion};
ghost use Rattle.entry_ref.specs.References.{buffer_limit, offset_limit};
ghost use Rattle.word_arena.specs.Ruled.{writer_of};
ghost use Rattle.image_format.specs.Shapes.{shape_of, types_of};
ghost use Rattle.attr_types.specs.Scores.{ask_tree};
ghost use Rattle.attr_types.specs.Lawful.{OpFits};
ghost use Rattle.attr_types.specs.declared.field.TheConstants.{MOST_FIELDS};
ghost use Rattle.attr_report.specs.Run.{run_in};
ghost use Rattle.attr_engine.specs.Rounds.{IsRunResult};
ghost use Rattle.attr_engine.specs.Happenings.{HasHistory};
ghost use Rattle.attr_engine.specs.Run.{IsGivenUp};
ghost use Rattle.attr_saver.specs.Images.{IsFirst};
ghost use Rattle.attr_engine.specs.Saver.{one_if, save_parts, IsSaveIn};
ghost use Rattle.attr_engine.specs.Steps.{parts, IsNewWriter, IsQuestionOf, LoadsInto, AreReadFrom, AreRoundsOf};
ghost use Rattle.attr_rounds.specs.Lines.{CanAsk};
ghost use Rattle.gen_core.specs.Views.{last_number};

use crate::beside::load_beside_readers;
use crate::error::EngineError;
use crate::readers::{last_answer, last_saved, read_after, take_all, take_saved};
use crate::run_result::{RunResult, Save};
use attr_io::Gate;
use attr_loader::Loaded;
use attr_report::Request;
use attr_rounds::{Asked, Round, Saving, Told};
use attr_types::{Field, Fields, Op};
use image_format::{AttrLayout, shape_of};
use std::alloc::{AllocError, Global};
use std::thread::Threads;
use word_arena::{Arena, Config, Limits, MOST_COMMITS, MOST_GENERATIONS, Writer};

/// Returns how many readers run beside the loading, and how many after it.
fn parts(after: bool, readers: u32) -> (u32, u32)
    ensures { result ≡ parts after readers }
{
    if after { (0, readers) } else { (readers, 0) }
}

fn chosen(
    after: bool,
    later: Vec<Vec<Round<Told>>>,
    first: Vec<Vec<Round<Told>>>,
) -> Vec<Vec<Round<Told>>>
    ensures { result.items ≡ (if after then later.items else first.items) }
{
    if after { later } else { first }
}

/// Whether the table is saved beside the loading, and whether after it.
fn save_parts(after: bool, save: bool) -> (bool, bool)
    ensures { result ≡ save_parts after save }
{
    if after { (false, save) } else { (save, false) }
}

fn chosen_save(after: bool, later: Option<Save>, first: Option<Save>) -> Option<Save>
    ensures { result ≡ (if after then later else first) }
{
    if after { later } else { first }
}

/// The writer after the loading, how much was loaded, the rounds of the readers beside it, and the save if one was made.
#[derive(Drop)]
pub struct LoadedFirst<const OFFSET_BITS: u32> {
    pub writer: Writer<OFFSET_BITS, AttrLayout>,
    pub loaded: Loaded,
    pub first: Vec<Vec<Round<Told>>>,
    pub saved: Option<Save>,
}

/// Loads operations beside readers, and beside a saver where the table is saved, and then joins them.
fn load_first<'a, const OFFSET_BITS: u32, R: Threads + Sync, G: Gate + Sync + 'static>(
    rt: &R,
    alloc: Global,
    writer: Writer<OFFSET_BITS, AttrLayout>,
    ops: &'a [Op],
    dense: bool,
    batch: u32,
    readers: u32,
    rounds: u32,
    question: &'a Asked<'a>,
    saving: &'a Saving<'a, G>,
    save: bool,
    gate: &'a G,
) -> Result<LoadedFirst<OFFSET_BITS>, AllocError>
    requires new { IsNewWriter question.now.fields.now writer.place.table_id (writer_of writer.place.me.0) }
    requires asks { CanAsk question.now.fields.now (length question.now.asks.now) (writer_of writer.place.me.0).sizes.shape }
    requires first { IsFirst saving.now.field.now.kind saving.now.field.now.value (writer_of writer.place.me.0).sizes.shape }
    requires seats { (writer_of writer.place.me.0).made + readers < 64 }
    requires some { 0 < batch }
    requires few { length ops.now < 2 ^ 32 }
    requires fit { AllByRecursion (OpFits question.now.fields.now) ops.now }
    ensures loads { IfOk result (λ r. LoadsInto question.now.fields.now dense batch ops.now (writer_of writer.entry.place.me.0)
        (writer_of r.writer.place.me.0) r.loaded) }
    ensures made { IfOk result (λ r. (writer_of r.writer.place.me.0).made
        ≡ (writer_of writer.entry.place.me.0).made + readers + one_if save) }
    ensures count { IfOk result (λ r. length r.first.items ≡ readers) }
    ensures rounds { IfOk result (λ r. AllByRecursion
        (λ x. AreRoundsOf question.now.counted (map ask_tree question.now.asks.now) (writer_of r.writer.place.me.0).sizes.shape
        (last_number (writer_of writer.entry.place.me.0).commits) rounds (writer_of r.writer.place.me.0).commits x.items) r.first.items) }
    ensures reads { IfOk result (λ r. AreReadFrom (writer_of r.writer.place.me.0) (writer_of writer.entry.place.me.0).made r.first.items) }
    ensures asked { IfOk result (λ r. is_some r.saved ≡ save) }
    ensures saved { IfOk result (λ r. IfSome r.saved (IsSaveIn saving.now.field.now (writer_of r.writer.place.me.0))) }
{
    let beside = load_beside_readers(
        rt, alloc, writer, ops, dense, batch, readers, rounds, question, saving, save, gate,
    )?;
    let mut writer = beside.writer;
    let first = take_all(alloc, &mut writer, beside.readings, question)?;
    let saved = take_saved(&mut writer, beside.saving, saving)?;
    Ok(LoadedFirst {
        writer,
        loaded: beside.loaded,
        first,
        saved,
    })
}

/// Images of these attributes have the first of them first. It does nothing: its contract is the law.
fn first_law(_fields: &Fields, _field: &Field)
    requires few { length _fields.now ≤ MOST_FIELDS }
    requires first { slice_get _fields.now 0 ≡ Some _field.now }
    ensures { IsFirst _field.now.kind _field.now.value (shape_of (types_of _fields.now)) }
{}

/// The greatest number of readers of a run: a memory has 64 seats, and the last answers take two.
const MOST_READERS: u32 = 62;

/// Makes a run over a writer that has committed nothing.
fn run_over<'a, const OFFSET_BITS: u32, R: Threads + Sync, G: Gate + Sync + 'static>(
    rt: &R,
    alloc: Global,
    writer: Writer<OFFSET_BITS, AttrLayout>,
    request: &Request,
    ops: &'a [Op],
    question: &'a Asked<'a>,
    saving: &'a Saving<'a, G>,
    gate: &'a G,
) -> Result<RunResult, AllocError>
    requires new { IsNewWriter request.now.fields writer.place.table_id (writer_of writer.place.me.0) }
    requires unread { (writer_of writer.place.me.0).made ≡ 0 }
    requires seats { request.now.readers ≤ 62 }
    requires buffers { (writer_of writer.place.me.0).sizes.buffers ≡ request.now.buffers }
    requires words { (writer_of writer.place.me.0).sizes.words ≡ request.now.words }
    requires question { IsQuestionOf (run_in request.now) question.now.fields.now question.now.counted (map ask_tree question.now.asks.now)
        (length question.now.asks.now) }
    requires field { slice_get request.now.fields 0 ≡ Some saving.now.field.now }
    requires some { 0 < request.now.batch }
    requires few { length ops.now < 2 ^ 32 }
    requires fit { AllByRecursion (OpFits request.now.fields) ops.now }
    ensures { IfOk result (IsRunResult (run_in request.now) ops.now) }
{
    first_law(&request.fields, saving.field);
    let (beside, behind) = parts(request.after, request.readers);
    let (save, save_behind) = save_parts(request.after, request.save);
    let loading = load_first(
        rt,
        alloc,
        writer,
        ops,
        request.dense,
        request.batch,
        beside,
        request.rounds,
        question,
        saving,
        save,
        gate,
    )?;
    let mut writer = loading.writer;
    let later = read_after(
        rt,
        alloc,
        &mut writer,
        behind,
        request.rounds,
        question,
        gate,
    )?;
    let last = last_answer(alloc, &mut writer, question)?;
    let operations = loading.loaded.operations;
    let saved = last_saved(alloc, &mut writer, saving, save_behind, operations)?;
    let rounds = chosen(request.after, later, loading.first);
    let saved = chosen_save(request.after, saved, loading.saved);
    Ok(RunResult {
        loaded: loading.loaded,
        rounds,
        last,
        saved,
        writer: writer.into_seat(),
    })
}

fn first_of(fields: &Fields) -> &Field
    requires { 0 < length fields.now }
    ensures { slice_get fields.now 0 ≡ Some result.now }
{
    match fields.as_slice() {
        [field, ..] => field,
        [] => unreachable!(),
    }
}

/// Makes a run over a new memory: its operations are loaded and committed, its readers answer beside the loading or
/// after it, and at the end everything loaded answers. It is refused only if there are too many readers or memory is
/// exhausted.
pub fn run_threads<const OFFSET_BITS: u32, R: Threads + Sync, G: Gate + Sync + 'static>(
    rt: &R,
    alloc: Global,
    request: &Request,
    ops: &[Op],
    gate: &G,
) -> Result<RunResult, EngineError>
    requires some_buffers { 1 ≤ request.now.buffers }
    requires few_buffers { request.now.buffers < buffer_limit OFFSET_BITS }
    requires some_words { 8192 ≤ request.now.words }
    requires few_words { request.now.words ≤ 65536 }
    requires offsets { request.now.words ≤ offset_limit OFFSET_BITS }
    requires product { request.now.buffers * request.now.words ≤ 67108864 }
    requires some_fields { 0 < length request.now.fields }
    requires few_fields { length request.now.fields ≤ MOST_FIELDS }
    requires some { 0 < request.now.batch }
    requires few { length ops.now < 2 ^ 32 }
    requires fit { AllByRecursion (OpFits request.now.fields) ops.now }
    ensures run_result { IfOk result (IsRunResult (run_in request.now) ops.now) }
    ensures history { IfOk result (HasHistory (run_in request.now) ops.now) }
    ensures readers { IfErr result (IsGivenUp request.now.readers) }
{
    if request.readers > MOST_READERS {
        return Err(EngineError::TooManyReaders);
    }
    let config = Config {
        buffers: request.buffers,
        words: request.words,
        shape: shape_of(&request.fields),
        limits: Limits {
            commits: MOST_COMMITS,
            generations: MOST_GENERATIONS,
        },
    };
    let (arena, token) = Arena::create(alloc, config)?;
    let writer = arena.writer(alloc, token)?;
    let question = Asked {
        fields: &request.fields,
        asks: request.asks.as_slice(),
        counted: request.make.is_some(),
    };
    let saving = Saving {
        field: first_of(&request.fields),
        gate,
    };
    let run_result = run_over::<OFFSET_BITS, R, G>(
        rt, alloc, writer, request, ops, &question, &saving, gate,
    )?;
    Ok(run_result)
}
