//! What the handles hold.
ghost use Rattle.std.specs.Prelude.{◌≡◌, ◌≤◌, length};
ghost use Rattle.image_format.specs.Shapes.{shape_of, types_of};
ghost use Rattle.attr_types.specs.declared.field.TheConstants.{MOST_FIELDS};
ghost use Rattle.word_arena.specs.Ruled.{reader_of};

use crate::told::Sizes;
use attr_types::Fields;
use attribute_kinds::Attribute;
use entry_store::EntryStore;
use image_format::AttrLayout;
use store_api::Store;
use word_arena::{Reader, Writer};

/// The store of attributes over a running memory, with references of 22 and 10 bits.
pub type Narrow = EntryStore<22, Writer<22, AttrLayout>>;

/// The same with references of 19 and 13 bits.
pub type Wide = EntryStore<19, Writer<19, AttrLayout>>;

/// A reader with the attributes for its asks.
#[derive(Drop)]
pub struct Waiting<const OFFSET_BITS: u32> {
    pub fields: Fields,
    pub reader: Reader<OFFSET_BITS, AttrLayout>,
    ghost few: { length fields ≤ MOST_FIELDS },
    ghost shaped: { (reader_of reader.place.me.0).sizes.shape ≡ shape_of (types_of fields) },
}

/// Counts for a monitor.
#[derive(Clone, Copy, Drop)]
pub struct Counts {
    pub sizes: Sizes,
    pub skipped: u64,
    pub commit: u32,
    pub committed: u32,
    /// The last commit at the time when each hold became the newest.
    pub since: [u32; 16],
    pub oldest: u32,
    pub is_held: u32,
}

/// The attributes, and the readers that are still to be handed out.
#[derive(Drop)]
pub struct Open<const OFFSET_BITS: u32, S: Store<OFFSET_BITS, Layout = AttrLayout>> {
    pub fields: Fields,
    pub attribute: Attribute<OFFSET_BITS, S>,
    pub pool: Vec<Waiting<OFFSET_BITS>>,
    pub counts: Counts,
    ghost same: { attribute.fields ≡ fields },
}

/// The attributes, by the width of references.
#[derive(Drop)]
pub enum AnyOpen {
    Narrow(Open<22, Narrow>),
    Wide(Open<19, Wide>),
}

/// A reader of either width.
#[derive(Drop)]
pub enum AnyReader {
    Narrow(Waiting<22>),
    Wide(Waiting<19>),
}

/// What the writer's handle holds.
#[derive(Drop)]
pub struct Engine {
    pub inner: AnyOpen,
}
