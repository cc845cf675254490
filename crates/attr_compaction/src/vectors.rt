//! Lists that are bit vectors.
ghost use Rattle.std.specs.Prelude.{◌≡◌, ◌<◌, ◌+◌, ◌*◌, ◌^◌, true, false, nat_lt, IfSome};
ghost use Rattle.std.specs.List.{find};
ghost use Rattle.std.specs.Option.{option_map};
ghost use Rattle.image_format.specs.Postings.{list_form};
ghost use Rattle.posting_store.specs.Lists.{is_vector, IsList, IsPlain};
ghost use Rattle.posting_store.specs.Moves.{form_docs};
ghost use Rattle.attr_compaction.specs.PhaseKeys.{first_item};

use crate::numbers::{first_number, number_past};
use arena_api::Frozen;
use entry_ref::EntryRef;
use image_format::{BLOCK_DOCUMENTS, FIRST_VECTOR};

/// Returns whether a list is a bit vector, by its word.
pub fn is_vector(list: u64) -> bool
    ensures vector { result ≡ is_vector list }
    ensures plain { result ≡ false → IsPlain list }
{
    list >= FIRST_VECTOR
}

/// Returns the root of a list that is a bit vector.
pub fn vector_root<const OFFSET_BITS: u32, F: Frozen<OFFSET_BITS>>(
    frozen: &F,
    list: u64,
) -> EntryRef<OFFSET_BITS>
    requires list { IsList (F.records frozen.now) list }
    requires vector { is_vector list ≡ true }
    ensures { list ≡ FIRST_VECTOR + result }
{
    let _ = frozen;
    EntryRef::from_raw((list - FIRST_VECTOR) as u32)
}

/// Returns the number with which the documents of a block begin.
fn first_of(block: Option<u32>) -> Option<u32>
    requires { IfSome block (λ k. k < 2 ^ 20) }
    ensures { result ≡ option_map (λ k. BLOCK_DOCUMENTS * k) block }
{
    match block {
        Some(number) => Some(number * BLOCK_DOCUMENTS as u32),
        None => None,
    }
}

/// Returns the first block of a bit vector, in the form of a key.
pub fn first_block<const OFFSET_BITS: u32, F: Frozen<OFFSET_BITS>>(
    frozen: &mut F,
    list: u64,
) -> Option<u32>
    requires list { IsList (F.records frozen.old) list }
    requires vector { is_vector list ≡ true }
    ensures first { result ≡ first_item (form_docs (F.records frozen.old) (list_form list)) }
    ensures same { frozen.new ≡ frozen.old }
{
    let root = vector_root(frozen, list);
    let block = first_number(frozen, root);
    first_of(block)
}

/// Returns the first block of a bit vector that begins above a document, in the form of a key.
pub fn block_past<const OFFSET_BITS: u32, F: Frozen<OFFSET_BITS>>(
    frozen: &mut F,
    list: u64,
    doc: u32,
) -> Option<u32>
    requires list { IsList (F.records frozen.old) list }
    requires vector { is_vector list ≡ true }
    ensures next { result ≡ find (nat_lt doc) (form_docs (F.records frozen.old) (list_form list)) }
    ensures same { frozen.new ≡ frozen.old }
{
    let root = vector_root(frozen, list);
    let block = number_past(frozen, root, doc / BLOCK_DOCUMENTS as u32);
    first_of(block)
}
