//! A new memory, with its attributes and readers. It is freed with the last of these.
ghost use Rattle.std.specs.Prelude.{◌≡◌, ◌≤◌, ◌<◌, ◌+◌, ◌*◌, ◌^◌, true, false, length, nat_eq, not};
ghost use Rattle.std.specs.Prelude.{IfOk, IfNone, IfSome};
ghost use Rattle.std.specs.List.{AllByRecursion};
ghost use Rattle.image_format.specs.Shapes.{shape_of, types_of};
ghost use Rattle.attr_types.specs.declared.field.TheConstants.{MOST_FIELDS};
ghost use Rattle.arena_api.specs.Calls.{IsFresh};
ghost use Rattle.word_arena.specs.Knows.{core_sizes, view_of};
ghost use Rattle.word_arena.specs.Ruled.{api_sizes, writer_of};
ghost use Rattle.attr_c.specs.Engines.{AreNewCounts, HasNewStore, HasNothing, HasOwnReaders, IsOpened};
ghost use Rattle.attr_c.specs.Engines.{open_counts, open_dense, open_waiting};
ghost use Rattle.attr_c.specs.Opening.{bits_for, InBounds};
ghost use Rattle.attr_c.specs.Stores.{HasMemory, open_bits, open_ledger, open_memory};
ghost use Rattle.word_arena.specs.declared.config.TheConstants.{MOST_COMMITS, MOST_GENERATIONS};

use crate::state::{AnyOpen, Counts, Open, Waiting};
use crate::told::Sizes;
use attr_types::Fields;
use attribute_kinds::Attribute;
use entry_store::EntryStore;
use image_format::{AttrLayout, shape_of};
use std::alloc::{AllocError, Global};
use store_api::Store;
use word_arena::{Arena, Config, Limits, MOST_COMMITS, MOST_GENERATIONS, Writer};

/// The least number of words of a buffer.
const LEAST_WORDS: u32 = 8192;

/// The greatest number of words of a buffer.
const MOST_WORDS: u32 = 65536;

/// The greatest number of buffers where a reference has 10 bits for the buffer.
const MOST_BUFFERS: u32 = 1023;

/// The greatest number of buffers where a reference has 13 bits for the buffer.
const MOST_WIDE_BUFFERS: u32 = 8191;

/// The greatest number of words of all buffers together.
const MOST_WORDS_IN_ALL: u64 = 67_108_864;

/// The greatest number of readers.
const MOST_READERS: u32 = 64;

/// Returns a value, whose type may cross to another thread.
pub fn may_cross<T: Send>(value: T) -> T
    ensures { result ≡ value }
{
    value
}

/// Returns one more reader, with the attributes.
fn next_waiting<const OFFSET_BITS: u32>(
    writer: &mut Writer<OFFSET_BITS, AttrLayout>,
    fields: &Fields,
) -> Result<Waiting<OFFSET_BITS>, AllocError>
    requires few { length fields.now ≤ MOST_FIELDS }
    requires room { (writer_of writer.old.place.me.0).made < 64 }
    requires shape { (writer_of writer.old.place.me.0).sizes.shape ≡ shape_of (types_of fields.now) }
    requires fresh { IsFresh (view_of writer.old.place.table_id (writer_of writer.old.place.me.0)) }
    ensures shape { (writer_of writer.new.place.me.0).sizes.shape ≡ shape_of (types_of fields.now) }
    ensures fresh { IsFresh (view_of writer.new.place.table_id (writer_of writer.new.place.me.0)) }
    ensures sizes { (writer_of writer.new.place.me.0).sizes ≡ (writer_of writer.old.place.me.0).sizes }
    ensures made { (writer_of writer.new.place.me.0).made ≡ (writer_of writer.old.place.me.0).made + 1 }
    ensures table { writer.new.place.table_id ≡ writer.old.place.table_id }
    ensures own { IfOk result (λ w. (w.fields ≡ fields.now) × (w.reader.place.table_id ≡ writer.old.place.table_id)) }
{
    match writer.reader() {
        Ok(reader) => match fields.clone() {
            Ok(fields) => Ok(Waiting { fields, reader }),
            Err(_) => Err(AllocError),
        },
        Err(_) => unreachable!(),
    }
}

/// Returns this many readers, each with the attributes.
fn waiting<const OFFSET_BITS: u32>(
    alloc: Global,
    writer: &mut Writer<OFFSET_BITS, AttrLayout>,
    fields: &Fields,
    readers: u32,
) -> Result<Vec<Waiting<OFFSET_BITS>>, AllocError>
    requires few { length fields.now ≤ MOST_FIELDS }
    requires few_readers { readers ≤ 64 }
    requires none_made { (writer_of writer.old.place.me.0).made ≡ 0 }
    requires shape { (writer_of writer.old.place.me.0).sizes.shape ≡ shape_of (types_of fields.now) }
    requires fresh { IsFresh (view_of writer.old.place.table_id (writer_of writer.old.place.me.0)) }
    ensures shape { (writer_of writer.new.place.me.0).sizes.shape ≡ shape_of (types_of fields.now) }
    ensures fresh { IsFresh (view_of writer.new.place.table_id (writer_of writer.new.place.me.0)) }
    ensures sizes { (writer_of writer.new.place.me.0).sizes ≡ (writer_of writer.old.place.me.0).sizes }
    ensures readers { IfOk result (λ pool. length pool.items ≡ readers) }
    ensures made { IfOk result (λ pool. (writer_of writer.new.place.me.0).made ≡ readers) }
    ensures table { writer.new.place.table_id ≡ writer.old.place.table_id }
    ensures own { IfOk result (λ pool. AllByRecursion (λ w. (w.fields ≡ fields.now)
        × (w.reader.place.table_id ≡ writer.old.place.table_id)) pool.items) }
{
    let mut pool = Vec::new(alloc);
    for i in 0..readers {
        match next_waiting(writer, fields) {
            Ok(waiting) => match pool.push(waiting) {
                Ok(()) => (),
                Err(_) => return Err(AllocError),
            },
            Err(error) => return Err(error),
        }
    }
    Ok(pool)
}

/// Returns attributes without documents, which keep the documents of a frequent value as a bit vector if that is wanted.
fn running<const OFFSET_BITS: u32>(
    alloc: Global,
    writer: Writer<OFFSET_BITS, AttrLayout>,
    fields: &Fields,
    dense: bool,
) -> Result<
    Attribute<OFFSET_BITS, EntryStore<OFFSET_BITS, Writer<OFFSET_BITS, AttrLayout>>>,
    AllocError,
>
    requires some { 0 < length fields.now }
    requires few { length fields.now ≤ MOST_FIELDS }
    requires shape { (writer_of writer.place.me.0).sizes.shape ≡ shape_of (types_of fields.now) }
    requires fresh { IsFresh (view_of writer.place.table_id (writer_of writer.place.me.0)) }
    ensures fields { IfOk result (λ a. a.fields ≡ fields.now) }
    ensures dense { IfOk result (λ a. a.dense ≡ dense) }
    ensures nothing { IfOk result (λ a. HasNothing a.table a.committed a.operations a.committed_operations a.root a.plan) }
    ensures store { IfOk result (λ a. HasNewStore
        (⟦<EntryStore<OFFSET_BITS, Writer<OFFSET_BITS, AttrLayout>> as Store<OFFSET_BITS>>⟧.ledger a.store)) }
    ensures memory { IfOk result (λ a.
        (⟦<EntryStore<OFFSET_BITS, Writer<OFFSET_BITS, AttrLayout>> as Store<OFFSET_BITS>>⟧.ledger a.store).work
        ≡ view_of writer.entry.place.table_id (writer_of writer.entry.place.me.0)) }
{
    match Attribute::create(alloc, writer, fields, dense) {
        Ok(attribute) => {
            let _ = attribute.operations();
            Ok(attribute)
        }
        Err(_) => Err(AllocError),
    }
}

fn no_counts(sizes: &Sizes) -> Counts
    ensures { AreNewCounts sizes.now result }
{
    Counts {
        sizes: *sizes,
        skipped: 0,
        commit: 0,
        committed: 0,
        since: [0; 16],
        oldest: 0,
        is_held: 0,
    }
}

fn config_of(fields: &Fields, sizes: &Sizes) -> Config
    requires { length fields.now ≤ MOST_FIELDS }
    ensures buffers { result.buffers ≡ sizes.now.buffers }
    ensures words { result.words ≡ sizes.now.words }
    ensures shape { result.shape ≡ shape_of (types_of fields.now) }
    ensures commits { result.limits.commits ≡ MOST_COMMITS }
    ensures generations { result.limits.generations ≡ MOST_GENERATIONS }
{
    Config {
        buffers: sizes.buffers,
        words: sizes.words,
        shape: shape_of(fields),
        limits: Limits {
            commits: MOST_COMMITS,
            generations: MOST_GENERATIONS,
        },
    }
}

/// Returns the writer of a new memory, with references of 22 and 10 bits.
fn narrow_writer(alloc: Global, config: Config) -> Result<Writer<22, AttrLayout>, AllocError>
    requires some_buffers { 1 ≤ config.buffers }
    requires few_buffers { config.buffers < 1024 }
    requires some_words { 8192 ≤ config.words }
    requires few_words { config.words ≤ 65536 }
    requires product { config.buffers * config.words ≤ 67108864 }
    requires generations { config.limits.generations < 2 ^ 48 }
    ensures shape { IfOk result (λ w. (writer_of w.place.me.0).sizes.shape ≡ config.shape) }
    ensures fresh { IfOk result (λ w. IsFresh (view_of w.place.table_id (writer_of w.place.me.0))) }
    ensures sizes { IfOk result (λ w. (writer_of w.place.me.0).sizes ≡ core_sizes 22 config) }
    ensures none_made { IfOk result (λ w. (writer_of w.place.me.0).made ≡ 0) }
{
    let (arena, token) = Arena::<22, AttrLayout>::create(alloc, config)?;
    arena.writer(alloc, token)
}

/// The same with references of 19 and 13 bits.
fn wide_writer(alloc: Global, config: Config) -> Result<Writer<19, AttrLayout>, AllocError>
    requires some_buffers { 1 ≤ config.buffers }
    requires few_buffers { config.buffers < 8192 }
    requires some_words { 8192 ≤ config.words }
    requires few_words { config.words ≤ 65536 }
    requires product { config.buffers * config.words ≤ 67108864 }
    requires generations { config.limits.generations < 2 ^ 48 }
    ensures shape { IfOk result (λ w. (writer_of w.place.me.0).sizes.shape ≡ config.shape) }
    ensures fresh { IfOk result (λ w. IsFresh (view_of w.place.table_id (writer_of w.place.me.0))) }
    ensures sizes { IfOk result (λ w. (writer_of w.place.me.0).sizes ≡ core_sizes 19 config) }
    ensures none_made { IfOk result (λ w. (writer_of w.place.me.0).made ≡ 0) }
{
    let (arena, token) = Arena::<19, AttrLayout>::create(alloc, config)?;
    arena.writer(alloc, token)
}

/// Returns attributes without documents, and readers of them.
fn opened_over<const OFFSET_BITS: u32>(
    alloc: Global,
    writer: Writer<OFFSET_BITS, AttrLayout>,
    fields: Fields,
    sizes: &Sizes,
) -> Result<Open<OFFSET_BITS, EntryStore<OFFSET_BITS, Writer<OFFSET_BITS, AttrLayout>>>, AllocError>
    requires some { 0 < length fields }
    requires few { length fields ≤ MOST_FIELDS }
    requires shape { (writer_of writer.place.me.0).sizes.shape ≡ shape_of (types_of fields) }
    requires fresh { IsFresh (view_of writer.place.table_id (writer_of writer.place.me.0)) }
    requires few_readers { sizes.now.readers ≤ 64 }
    requires none_made { (writer_of writer.place.me.0).made ≡ 0 }
    ensures fields { IfOk result (λ o. o.fields ≡ fields) }
    ensures readers { IfOk result (λ o. length o.pool.items ≡ sizes.now.readers) }
    ensures made { IfOk result (λ o.
        (⟦<EntryStore<OFFSET_BITS, Writer<OFFSET_BITS, AttrLayout>> as Store<OFFSET_BITS>>⟧.ledger o.attribute.store).work.made
        ≡ sizes.now.readers) }
    ensures own { IfOk result (λ o. AllByRecursion (λ w. (w.fields ≡ o.fields) × (w.reader.place.table_id
        ≡ (⟦<EntryStore<OFFSET_BITS, Writer<OFFSET_BITS, AttrLayout>> as Store<OFFSET_BITS>>⟧.ledger o.attribute.store).work.home))
        o.pool.items) }
    ensures dense { IfOk result (λ o. o.attribute.dense ≡ not (nat_eq sizes.now.dense 0)) }
    ensures nothing { IfOk result (λ o. HasNothing o.attribute.table o.attribute.committed o.attribute.operations
        o.attribute.committed_operations o.attribute.root o.attribute.plan) }
    ensures counts { IfOk result (λ o. AreNewCounts sizes.now o.counts) }
    ensures memory { IfOk result (λ o.
        (⟦<EntryStore<OFFSET_BITS, Writer<OFFSET_BITS, AttrLayout>> as Store<OFFSET_BITS>>⟧.ledger o.attribute.store).work.sizes
        ≡ api_sizes (writer_of writer.entry.place.me.0).sizes) }
    ensures store { IfOk result (λ o. HasNewStore
        (⟦<EntryStore<OFFSET_BITS, Writer<OFFSET_BITS, AttrLayout>> as Store<OFFSET_BITS>>⟧.ledger o.attribute.store)) }
{
    let mut writer = writer;
    let pool = match waiting(alloc, &mut writer, &fields, sizes.readers) {
        Ok(pool) => pool,
        Err(error) => return Err(error),
    };
    match running(alloc, writer, &fields, sizes.dense != 0) {
        Ok(attribute) => Ok(Open {
            fields,
            attribute,
            pool,
            counts: no_counts(sizes),
        }),
        Err(error) => Err(error),
    }
}

/// Returns attributes without documents over a new memory with references of 22 and 10 bits, and its readers.
fn narrow_open(
    alloc: Global,
    config: Config,
    fields: Fields,
    sizes: &Sizes,
) -> Result<AnyOpen, AllocError>
    requires some { 0 < length fields }
    requires few { length fields ≤ MOST_FIELDS }
    requires some_buffers { 1 ≤ config.buffers }
    requires few_buffers { config.buffers < 1024 }
    requires some_words { 8192 ≤ config.words }
    requires few_words { config.words ≤ 65536 }
    requires product { config.buffers * config.words ≤ 67108864 }
    requires generations { config.limits.generations < 2 ^ 48 }
    requires shape { config.shape ≡ shape_of (types_of fields) }
    requires few_readers { sizes.now.readers ≤ 64 }
    ensures opened { IfOk result (IsOpened fields) }
    ensures readers { IfOk result (λ o. open_waiting o ≡ sizes.now.readers) }
    ensures made { IfOk result (λ o. (open_ledger o).work.made ≡ sizes.now.readers) }
    ensures own { IfOk result HasOwnReaders }
    ensures dense { IfOk result (λ o. open_dense o ≡ not (nat_eq sizes.now.dense 0)) }
    ensures counts { IfOk result (λ o. AreNewCounts sizes.now (open_counts o)) }
    ensures memory { IfOk result (λ o. HasMemory config.buffers config.words config.limits.commits config.limits.generations
        (open_memory o)) }
    ensures bits { IfOk result (λ o. open_bits o ≡ 22) }
{
    match narrow_writer(alloc, config) {
        Ok(writer) => match opened_over(alloc, writer, fields, sizes) {
            Ok(inner) => Ok(AnyOpen::Narrow(inner)),
            Err(error) => Err(error),
        },
        Err(error) => Err(error),
    }
}

/// The same with references of 19 and 13 bits.
fn wide_open(
    alloc: Global,
    config: Config,
    fields: Fields,
    sizes: &Sizes,
) -> Result<AnyOpen, AllocError>
    requires some { 0 < length fields }
    requires few { length fields ≤ MOST_FIELDS }
    requires some_buffers { 1 ≤ config.buffers }
    requires few_buffers { config.buffers < 8192 }
    requires some_words { 8192 ≤ config.words }
    requires few_words { config.words ≤ 65536 }
    requires product { config.buffers * config.words ≤ 67108864 }
    requires generations { config.limits.generations < 2 ^ 48 }
    requires shape { config.shape ≡ shape_of (types_of fields) }
    requires few_readers { sizes.now.readers ≤ 64 }
    ensures opened { IfOk result (IsOpened fields) }
    ensures readers { IfOk result (λ o. open_waiting o ≡ sizes.now.readers) }
    ensures made { IfOk result (λ o. (open_ledger o).work.made ≡ sizes.now.readers) }
    ensures own { IfOk result HasOwnReaders }
    ensures dense { IfOk result (λ o. open_dense o ≡ not (nat_eq sizes.now.dense 0)) }
    ensures counts { IfOk result (λ o. AreNewCounts sizes.now (open_counts o)) }
    ensures memory { IfOk result (λ o. HasMemory config.buffers config.words config.limits.commits config.limits.generations
        (open_memory o)) }
    ensures bits { IfOk result (λ o. open_bits o ≡ 19) }
{
    match wide_writer(alloc, config) {
        Ok(writer) => match opened_over(alloc, writer, fields, sizes) {
            Ok(inner) => Ok(AnyOpen::Wide(inner)),
            Err(error) => Err(error),
        },
        Err(error) => Err(error),
    }
}

/// Whether an engine may have these sizes.
fn are_in_bounds(sizes: &Sizes) -> bool
    ensures yes { result ≡ true → InBounds sizes.now }
    ensures no { result ≡ false → InBounds sizes.now → ⊥ }
{
    if sizes.buffers < 1
        || sizes.words < LEAST_WORDS
        || sizes.words > MOST_WORDS
        || sizes.readers > MOST_READERS
    {
        return false;
    }
    if u64::from(sizes.buffers) * u64::from(sizes.words) > MOST_WORDS_IN_ALL {
        return false;
    }
    if sizes.wide == 0 {
        sizes.buffers <= MOST_BUFFERS
    } else {
        sizes.buffers <= MOST_WIDE_BUFFERS
    }
}

/// Returns attributes without documents over a new memory of these sizes, and its readers.
fn opened_within(alloc: Global, fields: Fields, sizes: &Sizes) -> Result<AnyOpen, AllocError>
    requires some { 0 < length fields }
    requires few { length fields ≤ MOST_FIELDS }
    requires bounds { InBounds sizes.now }
    ensures opened { IfOk result (IsOpened fields) }
    ensures readers { IfOk result (λ o. open_waiting o ≡ sizes.now.readers) }
    ensures made { IfOk result (λ o. (open_ledger o).work.made ≡ sizes.now.readers) }
    ensures own { IfOk result HasOwnReaders }
    ensures dense { IfOk result (λ o. open_dense o ≡ not (nat_eq sizes.now.dense 0)) }
    ensures counts { IfOk result (λ o. AreNewCounts sizes.now (open_counts o)) }
    ensures memory { IfOk result (λ o. HasMemory sizes.now.buffers sizes.now.words MOST_COMMITS MOST_GENERATIONS (open_memory o)) }
    ensures bits { IfOk result (λ o. open_bits o ≡ bits_for sizes.now) }
{
    let config = config_of(&fields, sizes);
    if sizes.wide == 0 {
        narrow_open(alloc, config, fields, sizes)
    } else {
        wide_open(alloc, config, fields, sizes)
    }
}

/// Returns attributes without documents over a new memory of these sizes, and its readers. Returns `None` if the
/// sizes are out of bounds.
pub fn opened_in_bounds(
    alloc: Global,
    fields: Fields,
    sizes: &Sizes,
) -> Result<Option<AnyOpen>, AllocError>
    requires some { 0 < length fields }
    requires few { length fields ≤ MOST_FIELDS }
    ensures opened { IfOk result (λ found. IfSome found (IsOpened fields)) }
    ensures readers { IfOk result (λ found. IfSome found (λ o. open_waiting o ≡ sizes.now.readers)) }
    ensures made { IfOk result (λ found. IfSome found (λ o. (open_ledger o).work.made ≡ sizes.now.readers)) }
    ensures own { IfOk result (λ found. IfSome found HasOwnReaders) }
    ensures dense { IfOk result (λ found. IfSome found (λ o. open_dense o ≡ not (nat_eq sizes.now.dense 0))) }
    ensures counts { IfOk result (λ found. IfSome found (λ o. AreNewCounts sizes.now (open_counts o))) }
    ensures memory { IfOk result (λ found. IfSome found (λ o. HasMemory sizes.now.buffers sizes.now.words MOST_COMMITS
        MOST_GENERATIONS (open_memory o))) }
    ensures bits { IfOk result (λ found. IfSome found (λ o. open_bits o ≡ bits_for sizes.now)) }
    ensures bounds { IfOk result (λ found. IfSome found (λ _. InBounds sizes.now)) }
    ensures refused { IfOk result (λ found. IfNone found (InBounds sizes.now → ⊥)) }
{
    if !are_in_bounds(sizes) {
        return Ok(None);
    }
    match opened_within(alloc, fields, sizes) {
        Ok(inner) => Ok(Some(inner)),
        Err(error) => Err(error),
    }
}
