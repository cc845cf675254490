//! The loading, beside other tasks.
ghost use Rattle.std.specs.Prelude.{◌≡◌, ◌<◌, ◌≤◌, ◌+◌, ◌^◌, length, map, is_some, None, IfOk, IfSome, All};
ghost use Rattle.std.specs.List.{AllByRecursion, AllZip};
ghost use Rattle.word_arena.specs.Knows.{view_of};
ghost use Rattle.word_arena.specs.Ruled.{reader_of, writer_of};
ghost use Rattle.attr_rounds.specs.Lines.{CanAsk};
ghost use Rattle.image_format.specs.Shapes.{shape_of, types_of};
ghost use Rattle.attr_types.specs.Scores.{ask_tree};
ghost use Rattle.attr_types.specs.Lawful.{OpFits};
ghost use Rattle.attr_loader.specs.Loading.{CanLoad, IsAtStart, Loads};
ghost use Rattle.attr_loader.specs.Room.{HasMadeNothing};
ghost use Rattle.attr_saver.specs.Images.{IsFirst};
ghost use Rattle.attr_engine.specs.Steps.{AllFrom, HasRead, IsNewWriter, LoadsInto};
ghost use Rattle.attr_engine.specs.Saver.{one_if, GivesIfAny, HasSaved};

use crate::readers::{jobs_of, saver_of};
use crate::with_saver::run_with_saver;
use attr_io::{Gate, Task};
use attr_loader::{Attribute, LoadError, Loaded, Loading};
use attr_rounds::{Asked, Reading, Saving, Told};
use attr_types::{Fields, Op};
use entry_store::EntryStore;
use image_format::{AttrLayout, image_law};
use std::alloc::{AllocError, Global};
use std::thread::Threads;
use store_api::Store;
use word_arena::Writer;

/// The writer after the loading, how much was loaded, the rounds of the readers beside it, and the round of the saver.
#[derive(Drop)]
pub struct LoadedBeside<const OFFSET_BITS: u32> {
    pub writer: Writer<OFFSET_BITS, AttrLayout>,
    pub loaded: Loaded,
    pub readings: Vec<Result<Reading<OFFSET_BITS, AttrLayout, Told>, AllocError>>,
    pub saving: Option<Result<Reading<OFFSET_BITS, AttrLayout, Vec<u8>>, AllocError>>,
}

/// Returns attributes without documents, over a writer that has committed nothing.
fn opened<const OFFSET_BITS: u32>(
    alloc: Global,
    writer: Writer<OFFSET_BITS, AttrLayout>,
    fields: &Fields,
    dense: bool,
) -> Result<
    Attribute<OFFSET_BITS, EntryStore<OFFSET_BITS, Writer<OFFSET_BITS, AttrLayout>>>,
    AllocError,
>
    requires new { IsNewWriter fields.now writer.place.table_id (writer_of writer.place.me.0) }
    ensures fields { IfOk result (λ a. a.fields ≡ fields.now) }
    ensures dense { IfOk result (λ a. a.dense ≡ dense) }
    ensures start { IfOk result (IsAtStart ⟦<EntryStore<OFFSET_BITS, Writer<OFFSET_BITS, AttrLayout>> as Store<OFFSET_BITS>>⟧.ledger) }
    ensures work { IfOk result (λ a. (⟦<EntryStore<OFFSET_BITS, Writer<OFFSET_BITS, AttrLayout>> as Store<OFFSET_BITS>>⟧.ledger
        a.store).work
        ≡ view_of writer.entry.place.table_id (writer_of writer.entry.place.me.0)) }
    ensures plan { IfOk result (λ a. a.plan ≡ None) }
    ensures nothing { IfOk result (λ a. HasMadeNothing (⟦<EntryStore<OFFSET_BITS, Writer<OFFSET_BITS, AttrLayout>> as Store<OFFSET_BITS>>⟧.ledger
        a.store)) }
{
    image_law();
    let attribute = match Attribute::create(alloc, writer, fields, dense) {
        Ok(attribute) => attribute,
        Err(_) => return Err(AllocError),
    };
    let _ = attribute.operations();
    Ok(attribute)
}

/// Returns the writer, with all that was committed.
fn closed<const OFFSET_BITS: u32>(
    attribute: Attribute<OFFSET_BITS, EntryStore<OFFSET_BITS, Writer<OFFSET_BITS, AttrLayout>>>,
) -> Writer<OFFSET_BITS, AttrLayout>
    ensures knows { view_of result.place.table_id (writer_of result.place.me.0)
        ≡ (⟦<EntryStore<OFFSET_BITS, Writer<OFFSET_BITS, AttrLayout>> as Store<OFFSET_BITS>>⟧.ledger attribute.entry.store).work }
    ensures shape { (writer_of result.place.me.0).sizes.shape ≡ shape_of (types_of attribute.entry.fields) }
{
    let (store, _) = attribute.into_store();
    store.into_work()
}

/// Loads operations into attributes beside other tasks and one of another kind; no thread is started where there are none.
fn run_loading<
    'a,
    const OFFSET_BITS: u32,
    R: Threads + Sync,
    G: Gate + Sync,
    S: Store<OFFSET_BITS, Layout = AttrLayout> + Drop,
    T: Task<Output = B> + Send + Drop,
    B: Send + Drop,
    U: Task<Output = C> + Send + Drop,
    C: Send + Drop,
>(
    rt: &R,
    alloc: Global,
    loading: Loading<'a, OFFSET_BITS, S, G>,
    others: Vec<T>,
    saver: Option<U>,
) -> Result<(Attribute<OFFSET_BITS, S>, Loaded, Vec<B>, Option<C>), AllocError>
    requires load { CanLoad S.ledger loading.batch loading.ops.now loading.attribute }
    requires others { All T.can_run others.items }
    requires saver { IfSome saver U.can_run }
    requires left { (S.ledger loading.attribute.store).work.commits.last + length loading.ops.now
        ≤ (S.ledger loading.attribute.store).work.sizes.commits }
    ensures loads { IfOk result (λ r. Loads S.ledger loading.entry.batch loading.entry.ops.now loading.entry.attribute r.0 r.1) }
    ensures others { IfOk result (λ r. AllZip T.run_gives others.items r.2.items) }
    ensures saver { IfOk result (λ r. GivesIfAny U.run_gives saver r.3) }
{
    let (given, gives, side) = run_with_saver(rt, alloc, loading, others, saver)?;
    match given {
        Ok((attribute, loaded)) => Ok((attribute, loaded, gives, side)),
        Err(LoadError::Memory) => Err(AllocError),
        Err(LoadError::CommitsSpent) => unreachable!(),
    }
}

/// Loads operations into attributes over a writer, beside other tasks and one of another kind.
fn load_at<
    'a,
    const OFFSET_BITS: u32,
    R: Threads + Sync,
    G: Gate + Sync,
    T: Task<Output = B> + Send + Drop,
    B: Send + Drop,
    U: Task<Output = C> + Send + Drop,
    C: Send + Drop,
>(
    rt: &R,
    alloc: Global,
    writer: Writer<OFFSET_BITS, AttrLayout>,
    fields: &Fields,
    dense: bool,
    ops: &'a [Op],
    batch: u32,
    gate: &'a G,
    others: Vec<T>,
    saver: Option<U>,
) -> Result<(Writer<OFFSET_BITS, AttrLayout>, Loaded, Vec<B>, Option<C>), AllocError>
    requires new { IsNewWriter fields.now writer.place.table_id (writer_of writer.place.me.0) }
    requires some { 0 < batch }
    requires few { length ops.now < 2 ^ 32 }
    requires fit { AllByRecursion (OpFits fields.now) ops.now }
    requires others { All T.can_run others.items }
    requires saver { IfSome saver U.can_run }
    ensures table { IfOk result (λ r. r.0.place.table_id ≡ writer.entry.place.table_id) }
    ensures loads { IfOk result (λ r. LoadsInto fields.now dense batch ops.now (writer_of writer.entry.place.me.0)
        (writer_of r.0.place.me.0) r.1) }
    ensures made { IfOk result (λ r. (writer_of r.0.place.me.0).made ≡ (writer_of writer.entry.place.me.0).made) }
    ensures others { IfOk result (λ r. AllZip T.run_gives others.items r.2.items) }
    ensures saver { IfOk result (λ r. GivesIfAny U.run_gives saver r.3) }
{
    let attribute = opened(alloc, writer, fields, dense)?;
    let loading = Loading {
        alloc,
        attribute,
        ops,
        batch,
        gate,
    };
    let (attribute, loaded, gives, side) = run_loading(rt, alloc, loading, others, saver)?;
    let writer = closed(attribute);
    Ok((writer, loaded, gives, side))
}

/// Loads operations into attributes over a writer, beside readers, and beside a saver where the table is saved.
pub fn load_beside_readers<'a, const OFFSET_BITS: u32, R: Threads + Sync, G: Gate + Sync + 'static>(
    rt: &R,
    alloc: Global,
    writer: Writer<OFFSET_BITS, AttrLayout>,
    ops: &'a [Op],
    dense: bool,
    batch: u32,
    readers: u32,
    rounds: u32,
    question: &'a Asked<'a>,
    saving: &'a Saving<'a, G>,
    save: bool,
    gate: &'a G,
) -> Result<LoadedBeside<OFFSET_BITS>, AllocError>
    requires new { IsNewWriter question.now.fields.now writer.place.table_id (writer_of writer.place.me.0) }
    requires asks { CanAsk question.now.fields.now (length question.now.asks.now) (writer_of writer.place.me.0).sizes.shape }
    requires first { IsFirst saving.now.field.now.kind saving.now.field.now.value (writer_of writer.place.me.0).sizes.shape }
    requires seats { (writer_of writer.place.me.0).made + readers < 64 }
    requires some { 0 < batch }
    requires few { length ops.now < 2 ^ 32 }
    requires fit { AllByRecursion (OpFits question.now.fields.now) ops.now }
    ensures table { IfOk result (λ r. r.writer.place.table_id ≡ writer.entry.place.table_id) }
    ensures loads { IfOk result (λ r. LoadsInto question.now.fields.now dense batch ops.now (writer_of writer.entry.place.me.0)
        (writer_of r.writer.place.me.0) r.loaded) }
    ensures made { IfOk result (λ r. (writer_of r.writer.place.me.0).made
        ≡ (writer_of writer.entry.place.me.0).made + readers + one_if save) }
    ensures count { IfOk result (λ r. length r.readings.items ≡ readers) }
    ensures readings { IfOk result (λ r. AllByRecursion (λ reading. IfOk reading (λ x.
        HasRead question.now.counted (map ask_tree question.now.asks.now)
        (writer_of writer.entry.place.me.0) writer.entry.place.table_id rounds
        (reader_of x.reader.place.me.0) x.reader.place.table_id x.rounds.items)) r.readings.items) }
    ensures numbers { IfOk result (λ r. AllFrom (λ number reading. IfOk reading (λ x. (reader_of x.reader.place.me.0).number ≡ number))
        (writer_of writer.entry.place.me.0).made r.readings.items) }
    ensures asked { IfOk result (λ r. is_some r.saving ≡ save) }
    ensures saving { IfOk result (λ r. IfSome r.saving (λ given. IfOk given (λ x.
        HasSaved saving.now.field.now (writer_of writer.entry.place.me.0) writer.entry.place.table_id
        (reader_of x.reader.place.me.0) x.reader.place.table_id x.rounds.items))) }
{
    let mut writer = writer;
    let jobs = jobs_of(alloc, &mut writer, readers, rounds, question, gate)?;
    let saver = saver_of(alloc, &mut writer, saving, save);
    let (writer, loaded, readings, saving) = load_at(
        rt,
        alloc,
        writer,
        question.fields,
        dense,
        ops,
        batch,
        gate,
        jobs,
        saver,
    )?;
    Ok(LoadedBeside {
        writer,
        loaded,
        readings,
        saving,
    })
}
