//! The save of a commit: a question of a reader, and the task that asks it once.
ghost use Rattle.std.specs.Prelude.{◌≡◌, length, IfOk};
ghost use Rattle.word_arena.specs.Ruled.{reader_of};
ghost use Rattle.image_format.specs.Images.{operations_at, IsLawfulImage};
ghost use Rattle.attr_saver.specs.Bytes.{saved_bytes};
ghost use Rattle.attr_saver.specs.Images.{image_save, IsFirst};
ghost use Rattle.attr_rounds.specs.Rounds.{MakesRounds};
ghost use Rattle.attr_rounds.specs.Saves.{operations_of, saves_of};

use crate::Question;
use crate::rounds::{Reading, go_round};
use arena_api::Frozen;
use attr_io::{Failed, Gate, Point, Sink, Task};
use attr_saver::{SaveError, save, saved_size};
use attr_types::{Field, Kind, ValueType};
use entry_ref::EntryRef;
use image_format::AttrLayout;
use std::alloc::{AllocError, Global};
use word_arena::Reader;

/// Bytes in memory, with room that was asked for. Where they outgrow it and memory is refused, the write fails.
#[derive(Drop)]
struct Room {
    bytes: Vec<u8>,
    faults: u64,
}

impl Sink for Room {
    ghost use Rattle.std.specs.Prelude.{Some};

    ghost taken = { λ s. Some s.bytes.items };

    ghost faults = { λ s. s.faults };

    fn write(&mut self, piece: &[u8]) -> Result<usize, Failed> {
        match self.bytes.extend_from_slice(piece) {
            Ok(()) => Ok(piece.len()),
            Err(_) => {
                self.faults = self.faults.saturating_add(1);
                Err(Failed)
            }
        }
    }
}

/// The bytes of the save of an image, in memory.
pub fn saved_image<const OFFSET_BITS: u32, F: Frozen<OFFSET_BITS>>(
    alloc: Global,
    frozen: &mut F,
    root: EntryRef<OFFSET_BITS>,
    kind: Kind,
    value_type: ValueType,
) -> Result<Vec<u8>, AllocError>
    requires first { IsFirst kind value_type (F.shape frozen.old) }
    requires image { IsLawfulImage (F.shape frozen.old) (F.records frozen.old) root }
    ensures bytes { IfOk result (λ bytes. bytes.items
        ≡ saved_bytes (image_save kind value_type (F.shape frozen.old) (F.records frozen.old) root.entry)) }
    ensures same { frozen.new ≡ frozen.old }
{
    let size = saved_size(frozen, root, kind, value_type) as usize;
    let mut room = Room {
        bytes: Vec::with_capacity(alloc, size)?,
        faults: 0,
    };
    match save(frozen, root, kind, value_type, &mut room) {
        Ok(()) => Ok(room.bytes),
        Err(SaveError::WriteFault) => Err(AllocError),
    }
}

/// What a saver asks of an image: the save of its first attribute. The gate is passed before and after it, while the
/// guard is held, as by round 0 of reader 0.
#[derive(Drop)]
pub struct Saving<'a, G> {
    pub field: &'a Field,
    pub gate: &'a G,
}

impl<'a, const OFFSET_BITS: u32, G: Gate> Question<OFFSET_BITS, AttrLayout> for Saving<'a, G> {
    type Answer = Vec<u8>;

    ghost operations = { λ shape m root. operations_at m root };

    ghost answers = { λ saving shape m root bytes. bytes.items
        ≡ saved_bytes (image_save saving.field.now.kind saving.field.now.value shape m root) };

    ghost fits = { λ saving shape. IsFirst saving.field.now.kind saving.field.now.value shape };

    fn operations<F: Frozen<OFFSET_BITS>>(&self, frozen: &mut F, root: EntryRef<OFFSET_BITS>) -> u32
        requires lawful { IsLawfulImage (F.shape frozen.old) (F.records frozen.old) root }
        ensures count { result ≡ operations_at (F.records frozen.old) root.entry }
        ensures same { frozen.new ≡ frozen.old }
    {
        operations_in(frozen, root)
    }

    fn answer<F: Frozen<OFFSET_BITS>>(
        &self,
        alloc: Global,
        frozen: &mut F,
        root: EntryRef<OFFSET_BITS>,
    ) -> Result<Vec<u8>, AllocError>
        requires fits { IsFirst self.now.field.now.kind self.now.field.now.value (F.shape frozen.old) }
        requires lawful { IsLawfulImage (F.shape frozen.old) (F.records frozen.old) root }
        ensures answer { IfOk result (λ bytes. bytes.items
            ≡ saved_bytes (image_save self.now.field.now.kind self.now.field.now.value
            (F.shape frozen.old) (F.records frozen.old) root.entry)) }
        ensures same { frozen.new ≡ frozen.old }
    {
        self.gate.pass(Point::RoundStart {
            reader: 0,
            round: 0,
        });
        let operations = operations_in(frozen, root);
        let bytes = saved_image(alloc, frozen, root, self.field.kind, self.field.value);
        self.gate.pass(Point::RoundEnd {
            reader: 0,
            round: 0,
            operations,
        });
        bytes
    }
}

/// Returns the number of operations of an image.
fn operations_in<const OFFSET_BITS: u32, F: Frozen<OFFSET_BITS>>(
    frozen: &mut F,
    root: EntryRef<OFFSET_BITS>,
) -> u32
    requires image { IsLawfulImage (F.shape frozen.old) (F.records frozen.old) root }
    ensures count { result ≡ operations_at (F.records frozen.old) root.entry }
    ensures same { frozen.new ≡ frozen.old }
{
    if root.valid() {
        frozen.word(root, 0) as u32
    } else {
        0
    }
}

/// One save by a reader, under one guard, as a task: the first round of reader 0, which passes the gate before its guard and after it.
#[derive(Drop)]
pub struct Saver<'a, const OFFSET_BITS: u32, G> {
    pub alloc: Global,
    pub reader: Reader<OFFSET_BITS, AttrLayout>,
    pub saving: &'a Saving<'a, G>,
}

impl<'a, const OFFSET_BITS: u32, G: Gate> Task for Saver<'a, OFFSET_BITS, G> {
    type Output = Result<Reading<OFFSET_BITS, AttrLayout, Vec<u8>>, AllocError>;

    ghost can_run = { λ saver. IsFirst saver.saving.now.field.now.kind saver.saving.now.field.now.value
        (reader_of saver.reader.place.me.0).sizes.shape };

    ghost run_gives = { λ saver result. IfOk result (λ r.
        MakesRounds operations_of (saves_of saver.saving.now.field.now) IsLawfulImage (reader_of saver.reader.place.me.0)
        (reader_of r.reader.place.me.0) r.rounds.items
        × (length r.rounds.items ≡ 1) × (r.reader.place.table_id ≡ saver.reader.place.table_id)) };

    fn run(self) -> Result<Reading<OFFSET_BITS, AttrLayout, Vec<u8>>, AllocError> {
        let Saver {
            alloc,
            reader,
            saving,
        } = self;
        go_round(alloc, reader, 0, 1, saving, saving.gate)
    }
}
