//! The plan of a compaction: its victim, the key that it visited last, and whether old copies may be in the victim.

ghost use Rattle.std.specs.Prelude.{◌≡◌, ◌⊎◌, ◌<◌, ◌≤◌, ◌||◌, false, if◌then◌else◌};
ghost use Rattle.std.specs.declared.cmp.Ordering.TheVariants.{Less};
ghost use Rattle.attr_compaction.specs.Places.{first_place, is_start, next_stage, place_after, place_cmp, HasKey, IsPast};
ghost use Rattle.attr_compaction.specs.declared.plan.PlanKey.TheVariants as keys;

use attr_types::Value;
use std::marker::Model;

/// The phase of the keys of an attribute's dictionary, which are the records of its values.
pub const KEYS: u32 = 0;

/// The phase of the documents with their items.
pub const DOCUMENTS: u32 = 1;

/// The phase of the posting lists of the values.
pub const LISTS: u32 = 2;

/// The phase of the nodes of the dictionary, and then of the tree of documents.
pub const NODES: u32 = 3;

/// The number of phases. As a phase it is after all keys.
pub const PHASES: u32 = 4;

/// What a step of a compaction visits: a value in the dictionary, a document, or a document in the list of a value (0
/// for a list that is a single record).
#[derive(Drop)]
pub enum PlanKey {
    /// Before the first key of a phase.
    Start,
    Value(Value),
    Doc(u32),
    Pair(Value, u32),
}

/// A phase of an attribute.
#[derive(Clone, Copy, Drop)]
struct Stage {
    field: u32,
    phase: u32,
}

/// The place of a compaction that empties one buffer. All keys up to it were visited. It only moves forward.
///
/// It also keeps whether a key was visited whose old record may be in use in the buffer and belong to no attribute.
#[derive(Drop)]
pub struct Plan {
    victim: u32,
    fields: u32,
    stage: Stage,
    next_key: PlanKey,
    copied: bool,
}

impl Model for Plan {
    ghost use Rattle.attr_compaction.specs.Places.{IsPlanPlace, PlanView};

    ghost Value = { PlanView };

    ghost view = { λ p. record {
      victim = p.victim;
      fields = p.fields;
      place = record { stage = p.stage; key = p.next_key };
      copied = p.copied;
    } };

    ghost invariant = { λ p. IsPlanPlace p.fields (record { stage = p.stage; key = p.next_key }) };
}

impl Plan {
    /// Returns the plan before the first key of the first of `fields` attributes, for a compaction of this buffer.
    pub fn start(victim: u32, fields: u32) -> Plan
        requires { 0 < fields }
        ensures victim { result.victim ≡ victim }
        ensures fields { result.fields ≡ fields }
        ensures place { result.place ≡ first_place }
        ensures copied { result.copied ≡ false }
    {
        Plan {
            victim,
            fields,
            stage: Stage {
                field: 0,
                phase: KEYS,
            },
            next_key: PlanKey::Start,
            copied: false,
        }
    }

    /// Returns the buffer that is emptied.
    pub fn victim(&self) -> u32
        ensures { result ≡ self.now.victim }
    {
        self.victim
    }

    /// Returns the attribute of the place.
    pub fn field(&self) -> u32
        ensures field { result ≡ self.now.place.stage.field }
        ensures below { result < self.now.fields }
    {
        self.stage.field
    }

    /// Returns the phase of the place, or `PHASES` if all keys were visited.
    pub fn phase(&self) -> u32
        ensures phase { result ≡ self.now.place.stage.phase }
        ensures most { result ≤ PHASES }
    {
        self.stage.phase
    }

    /// Returns the last visited key of the phase.
    pub fn key(&self) -> &PlanKey
        ensures key { result.now ≡ self.now.place.key }
        ensures of_phase { HasKey self.now.place.stage.phase self.now.place.key }
    {
        &self.next_key
    }

    /// Returns whether an old copy of a visited key may be left in the buffer: `next` was told so of one key at least.
    pub fn has_copied(&self) -> bool
        ensures { result ≡ self.now.copied }
    {
        self.copied
    }

    /// Moves the place to `done`, a visited key after it. If `done` is `Start`, the phase has no further key, and the
    /// place moves before the first key of the next phase, or of the next attribute after the last phase. After the
    /// last attribute it is past all keys. `copies` says whether the old record of `done` may be in use still.
    pub fn next(&mut self, done: PlanKey, copies: bool)
        requires phase { self.old.place.stage.phase < PHASES }
        requires done { (done ≡ keys.Start) ⊎ IsPast self.old.place done }
        ensures victim { self.new.victim ≡ self.old.victim }
        ensures fields { self.new.fields ≡ self.old.fields }
        ensures place { self.new.place ≡ place_after self.old.fields self.old.place done }
        ensures rises { place_cmp self.old.place self.new.place ≡ Less }
        ensures copied { self.new.copied ≡ (copies || self.old.copied) }
    {
        let stage = stage_after(self.fields, self.stage, is_start(&done));
        self.stage = stage;
        self.next_key = done;
        self.copied = copies | self.copied;
    }
}

/// Returns whether the key is `Start`.
fn is_start(key: &PlanKey) -> bool
    ensures { result ≡ is_start key.now }
{
    match key {
        PlanKey::Start => true,
        PlanKey::Value(_) => false,
        PlanKey::Doc(_) => false,
        PlanKey::Pair(_, _) => false,
    }
}

/// Returns the same phase, or the next one if it is over.
fn stage_after(fields: u32, stage: Stage, is_over: bool) -> Stage
    requires { stage.field < fields }
    ensures { result ≡ (if is_over then next_stage fields stage else stage) }
{
    if !is_over {
        return stage;
    }
    if stage.phase < NODES {
        return Stage {
            field: stage.field,
            phase: stage.phase + 1,
        };
    }
    if stage.field + 1 < fields {
        return Stage {
            field: stage.field + 1,
            phase: KEYS,
        };
    }
    Stage {
        field: stage.field,
        phase: PHASES,
    }
}
