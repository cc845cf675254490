//! What C calls to open, to close, and to hand readers out.
ghost use Rattle.std.specs.Prelude.{◌≡◌, ◌≢◌, [], ◌∷◌, ◌++◌, true, false, Err, IfErr, IfNone, IfOk, IfSome, None, OnOk};
ghost use Rattle.std.specs.Str.{IsUtf8};
ghost use Rattle.word_arena.specs.Ruled.{reader_of};
ghost use Rattle.attr_c.specs.Attributes.{fields_in};
ghost use Rattle.attr_c.specs.Engines.{open_counts, KeepsAttributes, KeepsTables, KeepsWaiting};
ghost use Rattle.attr_c.specs.Opening.{InBounds, Opens, OpensEngine, RefusesOpening};
ghost use Rattle.attr_c.specs.Seats.{place_bits, HasNoReader, IsForeign, IsOwn, IsReaderOf, OpensSeat, TakesBack, TakesReader};
ghost use Rattle.attr_c.specs.Stores.{open_bits};
ghost use Rattle.attr_c.specs.declared.codes.TheConstants.{ATTRIBUTES, BOUNDS, LOST, MEMORY, NO_READER, NO_TEXT, OK};

use crate::attributes::fields_in;
use crate::codes::{BOUNDS, LOST, MEMORY, NO_READER, NO_TEXT, OK};
use crate::handles::{HeldEngine, HeldSeat, OpenedEngine, OpenedSeat};
use crate::opening::{may_cross, opened_in_bounds};
use crate::seat::{Seat, SeatState, reader_of};
use crate::state::{AnyOpen, AnyReader, Engine, Waiting};
use crate::told::Sizes;
use std::alloc::Global;

/// A box of a value, or the code of a refusal.
fn boxed<T: Drop>(alloc: Global, value: T) -> Result<Box<T>, i32>
    ensures made { IfOk result (λ made. made.value ≡ value) }
    ensures memory { IfErr result (λ code. code ≡ MEMORY) }
{
    match Box::new(alloc, value) {
        Ok(made) => Ok(made),
        Err(_) => Err(MEMORY),
    }
}

fn engine_of(alloc: Global, opened: AnyOpen) -> Result<Box<Engine>, i32>
    ensures made { IfOk result (λ engine. engine.value.inner ≡ opened) }
    ensures memory { IfErr result (λ code. code ≡ MEMORY) }
{
    boxed(alloc, Engine { inner: opened })
}

/// An engine over a new memory, which has no document; or the code of a refusal.
fn new_engine(alloc: Global, text: &str, sizes: &Sizes, place: &mut u64) -> Result<Box<Engine>, i32>
    ensures made { IfOk result (λ engine. Opens text.now sizes.now engine.value) }
    ensures refused { IfErr result (RefusesOpening text.now sizes.now place.new) }
    ensures no_place { OnOk result (place.new ≡ place.old) }
    ensures place { IfErr result (λ code. code ≢ ATTRIBUTES → code ≢ MEMORY → place.new ≡ place.old) }
{
    let fields = match fields_in(alloc, text) {
        Ok(fields) => fields,
        Err(error) => {
            *place = error.number();
            return Err(error.code());
        }
    };
    let inner = match opened_in_bounds(alloc, fields, sizes) {
        Ok(Some(inner)) => may_cross(inner),
        Ok(None) => return Err(BOUNDS),
        Err(_) => return Err(MEMORY),
    };
    engine_of(alloc, inner)
}

/// Opens an engine of the attributes that a text names.
#[unsafe(no_mangle)]
pub extern "C" fn attr_open(
    alloc: Global,
    attributes: &[u8],
    sizes: &Sizes,
    out: &mut OpenedEngine,
    place: &mut u64,
) -> i32
    ensures opened { result ≡ OK → OpensEngine attributes.now sizes.now out.new.value }
    ensures left { result ≢ OK → out.new ≡ out.old }
    ensures text { result ≢ NO_TEXT → IsUtf8 attributes.now }
    ensures no_text { result ≡ NO_TEXT → IsUtf8 attributes.now → ⊥ }
    ensures broken { result ≡ ATTRIBUTES → fields_in attributes.now ≡ Err place.new }
    ensures place { result ≢ ATTRIBUTES → result ≢ MEMORY → place.new ≡ 0 }
    ensures bounds { result ≡ BOUNDS → InBounds sizes.now → ⊥ }
    ensures others { result ≢ OK → result ≢ NO_TEXT → result ≢ ATTRIBUTES → result ≢ BOUNDS → result ≡ MEMORY }
{
    *place = 0;
    let Ok(text) = str::from_utf8(attributes) else {
        return NO_TEXT;
    };
    match new_engine(alloc, text, sizes, place) {
        Ok(engine) => {
            *out = OpenedEngine::new(engine);
            OK
        }
        Err(code) => code,
    }
}

/// Gives up the attributes and their writer. The memory of the words stays, and readers go on.
#[unsafe(no_mangle)]
pub extern "C" fn attr_close(alloc: Global, at: HeldEngine) {
    drop(at.into_box(alloc));
}

/// Whether each reader was given away.
fn has_no_reader(inner: &AnyOpen) -> bool
    ensures yes { result ≡ true → HasNoReader inner.now }
    ensures no { result ≡ false → HasNoReader inner.now → ⊥ }
{
    match inner {
        AnyOpen::Narrow(inner) => inner.pool.is_empty(),
        AnyOpen::Wide(inner) => inner.pool.is_empty(),
    }
}

/// A reader that was not given away yet.
fn next_reader(inner: &mut AnyOpen) -> Option<AnyReader>
    ensures taken { IfSome result (TakesReader inner.old inner.new) }
    ensures none { IfNone result (HasNoReader inner.old) }
    ensures left { IfNone result (inner.new ≡ inner.old) }
    ensures keeps { KeepsTables inner.old inner.new }
    ensures same { KeepsAttributes inner.old inner.new }
    ensures counts { open_counts inner.new ≡ open_counts inner.old }
{
    match inner {
        AnyOpen::Narrow(inner) => {
            if inner.pool.is_empty() {
                return None;
            }
            Some(AnyReader::Narrow(inner.pool.take_last()))
        }
        AnyOpen::Wide(inner) => {
            if inner.pool.is_empty() {
                return None;
            }
            Some(AnyReader::Wide(inner.pool.take_last()))
        }
    }
}

/// Gives up a reader that is not one of the engine's.
fn lost<const OFFSET_BITS: u32>(waiting: Waiting<OFFSET_BITS>) -> i32
    ensures code { result ≡ LOST }
    ensures bits { (reader_of waiting.entry.reader.place.me.0).sizes.offset_bits ≡ OFFSET_BITS }
{
    drop(waiting);
    LOST
}

/// Puts a reader after those that are to be given away.
fn put_last<const OFFSET_BITS: u32>(
    pool: &mut Vec<Waiting<OFFSET_BITS>>,
    waiting: Waiting<OFFSET_BITS>,
) -> i32
    ensures last { result ≡ OK → pool.new.items ≡ pool.old.items ++ waiting.entry ∷ [] }
    ensures left { result ≢ OK → pool.new.items ≡ pool.old.items }
    ensures code { result ≢ OK → result ≡ MEMORY }
    ensures bits { (reader_of waiting.entry.reader.place.me.0).sizes.offset_bits ≡ OFFSET_BITS }
{
    match pool.push(waiting) {
        Ok(()) => OK,
        Err(_) => MEMORY,
    }
}

/// Puts a reader back to those that are to be given away.
fn put_back(inner: &mut AnyOpen, reader: AnyReader) -> i32
    ensures returned { result ≡ OK → TakesReader inner.new inner.old reader }
    ensures lost { result ≡ LOST → IsForeign inner.old (SeatState.Free reader) }
    ensures own { result ≢ LOST → place_bits (SeatState.Free reader) ≡ open_bits inner.old }
    ensures others { result ≢ OK → result ≢ LOST → result ≡ MEMORY }
    ensures left { result ≢ OK → KeepsWaiting inner.old inner.new }
    ensures keeps { KeepsTables inner.old inner.new }
    ensures same { KeepsAttributes inner.old inner.new }
    ensures counts { open_counts inner.new ≡ open_counts inner.old }
{
    match (inner, reader) {
        (AnyOpen::Narrow(inner), AnyReader::Narrow(waiting)) => put_last(&mut inner.pool, waiting),
        (AnyOpen::Narrow(_), AnyReader::Wide(waiting)) => lost(waiting),
        (AnyOpen::Wide(inner), AnyReader::Wide(waiting)) => put_last(&mut inner.pool, waiting),
        (AnyOpen::Wide(_), AnyReader::Narrow(waiting)) => lost(waiting),
    }
}

/// Hands out a reader.
#[unsafe(no_mangle)]
pub extern "C" fn attr_reader_open(alloc: Global, at: &mut HeldEngine, out: &mut OpenedSeat) -> i32
    ensures opened { result ≡ OK → OpensSeat at.old.value.inner at.new.value.inner out.new.value }
    ensures left { result ≢ OK → out.new ≡ out.old }
    ensures none { result ≡ NO_READER → HasNoReader at.old.value.inner }
    ensures some { result ≢ NO_READER → HasNoReader at.old.value.inner → ⊥ }
    ensures others { result ≢ OK → result ≢ NO_READER → result ≡ MEMORY }
    ensures kept { result ≢ OK → at.new.value ≡ at.old.value }
    ensures keeps { KeepsTables at.old.value.inner at.new.value.inner }
    ensures same { KeepsAttributes at.old.value.inner at.new.value.inner }
    ensures counts { open_counts at.new.value.inner ≡ open_counts at.old.value.inner }
{
    let engine = at.get_mut();
    if has_no_reader(&engine.inner) {
        return NO_READER;
    }
    let Ok(mut seat) = Box::new(alloc, may_cross(Seat::new(alloc))) else {
        return MEMORY;
    };
    let Some(reader) = next_reader(&mut engine.inner) else {
        return NO_READER;
    };
    seat.place = Some(SeatState::Free(reader));
    *out = OpenedSeat::new(seat);
    OK
}

/// The reader of a handle, without a guard.
fn reader_in(alloc: Global, at: HeldSeat) -> Option<AnyReader>
    ensures some { IfSome result (IsReaderOf at.value.place) }
    ensures none { IfNone result (at.value.place ≡ None) }
{
    let Seat { place, .. } = Box::into_inner(at.into_box(alloc));
    match place {
        Some(place) => Some(reader_of(place)),
        None => None,
    }
}

/// Takes a reader back, to be handed out again.
#[unsafe(no_mangle)]
pub extern "C" fn attr_reader_return(alloc: Global, at: &mut HeldEngine, seat: HeldSeat) -> i32
    ensures returned { result ≡ OK → TakesBack at.old.value.inner at.new.value.inner seat.value.place }
    ensures lost { result ≡ LOST → IfSome seat.value.place (IsForeign at.old.value.inner) }
    ensures own { result ≢ LOST → IsOwn at.old.value.inner seat.value.place }
    ensures others { result ≢ OK → result ≢ LOST → result ≡ MEMORY }
    ensures left { result ≢ OK → KeepsWaiting at.old.value.inner at.new.value.inner }
    ensures keeps { KeepsTables at.old.value.inner at.new.value.inner }
    ensures same { KeepsAttributes at.old.value.inner at.new.value.inner }
    ensures counts { open_counts at.new.value.inner ≡ open_counts at.old.value.inner }
{
    let reader = reader_in(alloc, seat);
    let engine = at.get_mut();
    match reader {
        Some(reader) => put_back(&mut engine.inner, reader),
        None => LOST,
    }
}

/// Gives up a reader for good.
#[unsafe(no_mangle)]
pub extern "C" fn attr_reader_close(alloc: Global, at: HeldSeat) {
    drop(reader_in(alloc, at));
}
