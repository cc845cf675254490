//! One operation on attributes in a store and on the plain table.
ghost use Rattle.std.specs.Prelude.{◌≡◌, ◌<◌, ◌≤◌, length, IfOk};
ghost use Rattle.arena_api.specs.Calls.{IsFresh};
ghost use Rattle.image_format.specs.Shapes.{shape_of, types_of};
ghost use Rattle.attr_types.specs.declared.field.TheConstants.{MOST_FIELDS};

use arena_api::{Frozen, Work};
use attr_types::{Applied, Fields, Op, fits};
use attribute_kinds::{AttrError, Attribute, Published, committed_work};
use entry_store::EntryStore;
use image_format::{AttrLayout, shape_of};
use mem_work::MemWork;
use plain_model::PlainTable;
use std::alloc::{AllocError, Global};
use std::collections::BTreeMap;
use store_api::Store;
use test_kit::NotedWork;

/// A memory without readers, with a copy of the stored words of each record.
pub type Memory = NotedWork<22, MemWork<22, AttrLayout>>;

/// Attributes over a memory without readers.
pub type Kinds = Attribute<22, EntryStore<22, Memory>>;

/// A work that may keep notes of what was stored in it.
pub trait Noted {
    /// Returns the words last stored at each reference, if they were kept.
    fn notes(&self) -> Option<&BTreeMap<u32, Vec<u64>>>;
}

impl<const OFFSET_BITS: u32, W: Work<OFFSET_BITS>> Noted for NotedWork<OFFSET_BITS, W> {
    fn notes(&self) -> Option<&BTreeMap<u32, Vec<u64>>> {
        self.records()
    }
}

/// The result of an operation.
#[derive(Clone, Copy)]
pub enum Answer {
    Applied(Applied),
    /// Refused for lack of a buffer.
    Full,
    /// Refused for a reason that cannot occur.
    Odd,
}

/// The result of a commit.
#[derive(Clone, Copy)]
pub enum Committed {
    /// Made with this many operations.
    At { operations: u32 },
    /// Refused for lack of a buffer.
    Full,
    /// Refused for a reason that cannot occur.
    Odd,
}

/// Creates a memory of `buffers` buffers with 8,192 words each, with or without notes of what is stored in it.
fn new_memory(
    alloc: Global,
    fields: &Fields,
    buffers: u32,
    noting: bool,
) -> Result<Memory, AllocError>
    requires few { length fields.now ≤ MOST_FIELDS }
    requires buffers { 1 ≤ buffers }
    requires fit { buffers ≤ 1000 }
    ensures shape { IfOk result (λ w. ⟦<NotedWork<22, MemWork<22, AttrLayout>> as Frozen<22>>⟧.shape w ≡ shape_of (types_of fields.now)) }
    ensures fresh { IfOk result (λ w. IsFresh (⟦<NotedWork<22, MemWork<22, AttrLayout>> as Work<22>>⟧.knows w)) }
{
    let work = MemWork::create(alloc, buffers, 8192, shape_of(fields))?;
    Ok(NotedWork::new(alloc, work, noting))
}

/// Creates attributes without documents, in `buffers` buffers of 8,192 words, with or without bit vectors.
pub fn new_attribute(
    alloc: Global,
    fields: &Fields,
    buffers: u32,
    noting: bool,
    dense: bool,
) -> Result<Kinds, AllocError>
    requires some { 0 < length fields.now }
    requires few { length fields.now ≤ MOST_FIELDS }
    requires buffers { 1 ≤ buffers }
    requires fit { buffers ≤ 1000 }
    ensures fields { IfOk result (λ a. a.fields ≡ fields.now) }
{
    let work = new_memory(alloc, fields, buffers, noting)?;
    match Attribute::create(alloc, work, fields, dense) {
        Ok(attribute) => Ok(attribute),
        Err(_) => Err(AllocError),
    }
}

/// Returns a copy of the fields.
fn copied_fields(fields: &Fields) -> Result<Fields, AllocError>
    ensures { IfOk result (λ own. own ≡ fields.now) }
{
    Ok(fields.clone()?)
}

/// Returns a plain table without documents.
pub fn new_plain(alloc: Global, fields: &Fields) -> Result<PlainTable, AllocError>
    ensures fields { IfOk result (λ p. p.fields ≡ fields.now) }
{
    let own = copied_fields(fields)?;
    Ok(PlainTable::new(alloc, own))
}

/// Applies an operation to attributes.
pub fn apply_one<const OFFSET_BITS: u32, S: Store<OFFSET_BITS, Layout = AttrLayout>>(
    alloc: Global,
    attribute: &mut Attribute<OFFSET_BITS, S>,
    fields: &Fields,
    op: &Op,
) -> Result<Answer, AllocError>
    requires same { attribute.old.fields ≡ fields.now }
    ensures same { attribute.new.fields ≡ fields.now }
{
    if !fits(fields, op) {
        return Ok(Answer::Odd);
    }
    if attribute.operations() == u32::MAX {
        return Ok(Answer::Odd);
    }
    match attribute.apply(alloc, op) {
        Ok(applied) => Ok(Answer::Applied(applied)),
        Err(AttrError::Full { .. }) => Ok(Answer::Full),
        Err(AttrError::CommitsSpent { .. }) => Ok(Answer::Odd),
        Err(AttrError::Memory) => Err(AllocError),
    }
}

/// Applies an operation to the plain table. Returns `None` if it does not fit.
pub fn apply_plain(
    alloc: Global,
    plain: &mut PlainTable,
    fields: &Fields,
    op: Op,
) -> Result<Option<Applied>, AllocError>
    requires same { plain.old.fields ≡ fields.now }
    ensures same { plain.new.fields ≡ fields.now }
{
    if !fits(fields, &op) {
        return Ok(None);
    }
    Ok(Some(plain.apply(alloc, op)?))
}

/// Commits the attributes.
pub fn commit_one<const OFFSET_BITS: u32, S: Store<OFFSET_BITS, Layout = AttrLayout>>(
    attribute: &mut Attribute<OFFSET_BITS, S>,
    fields: &Fields,
) -> Result<Committed, AllocError>
    requires same { attribute.old.fields ≡ fields.now }
    ensures same { attribute.new.fields ≡ fields.now }
{
    match attribute.commit() {
        Ok(info) => Ok(Committed::At {
            operations: info.operations,
        }),
        Err(AttrError::Full { .. }) => Ok(Committed::Full),
        Err(AttrError::CommitsSpent { .. }) => Ok(Committed::Odd),
        Err(AttrError::Memory) => Err(AllocError),
    }
}

/// Returns the memory of attributes, with all that was committed, and the last commit.
pub fn close(attribute: Kinds, fields: &Fields) -> (Memory, Published<22>)
    requires same { attribute.fields ≡ fields.now }
{
    let (store, published) = attribute.into_store();
    let work = committed_work(store, fields, published.root);
    (work, published)
}
