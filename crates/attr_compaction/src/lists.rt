//! The keys of one posting list, whatever its form.

ghost use Rattle.std.specs.Prelude.{◌≡◌, ◌<◌, ◌/◌, ◌%◌, true, false, nat_lt};
ghost use Rattle.std.specs.List.{find};
ghost use Rattle.image_format.specs.Postings.{list_form};
ghost use Rattle.posting_store.specs.Lists.{IsList, IsPlain};
ghost use Rattle.posting_store.specs.Moves.{form_docs};
ghost use Rattle.attr_compaction.specs.PhaseKeys.{first_item};

use crate::numbers::{first_number, number_past};
use crate::vectors::{block_past, first_block, is_vector};
use arena_api::Frozen;
use entry_ref::EntryRef;

/// Returns whether a list is a single record.
fn is_short(list: u64) -> bool
    ensures even { result ≡ true → list % 2 ≡ 0 }
    ensures odd { result ≡ false → list % 2 ≡ 1 }
{
    list % 2 == 0
}

/// Returns the root of a list that is a tree.
fn root_of<const OFFSET_BITS: u32>(list: u64) -> EntryRef<OFFSET_BITS>
    requires { IsPlain list }
    ensures { result ≡ list / 2 }
{
    EntryRef::from_raw((list / 2) as u32)
}

/// Returns the first document of a list that is no bit vector, in the form of a key: 0 if it is a single record.
fn first_plain<const OFFSET_BITS: u32, F: Frozen<OFFSET_BITS>>(
    frozen: &mut F,
    list: u64,
) -> Option<u32>
    requires list { IsList (F.records frozen.old) list }
    requires plain { IsPlain list }
    requires some { 0 < list }
    ensures first { result ≡ first_item (form_docs (F.records frozen.old) (list_form list)) }
    ensures same { frozen.new ≡ frozen.old }
{
    if is_short(list) {
        return Some(0);
    }
    first_number(frozen, root_of(list))
}

/// Returns the first document above another one of a list that is no bit vector, in the form of a key.
fn past_plain<const OFFSET_BITS: u32, F: Frozen<OFFSET_BITS>>(
    frozen: &mut F,
    list: u64,
    doc: u32,
) -> Option<u32>
    requires list { IsList (F.records frozen.old) list }
    requires plain { IsPlain list }
    requires some { 0 < list }
    ensures next { result ≡ find (nat_lt doc) (form_docs (F.records frozen.old) (list_form list)) }
    ensures same { frozen.new ≡ frozen.old }
{
    if is_short(list) {
        return None;
    }
    number_past(frozen, root_of(list), doc)
}

/// Returns the first document of a list in the form of a key: 0 if the list is a single record, and the number with
/// which the first block begins if it is a bit vector.
pub fn first_in_list<const OFFSET_BITS: u32, F: Frozen<OFFSET_BITS>>(
    frozen: &mut F,
    list: u64,
) -> Option<u32>
    requires list { IsList (F.records frozen.old) list }
    requires some { 0 < list }
    ensures first { result ≡ first_item (form_docs (F.records frozen.old) (list_form list)) }
    ensures same { frozen.new ≡ frozen.old }
{
    if is_vector(list) {
        return first_block(frozen, list);
    }
    first_plain(frozen, list)
}

/// Returns the first document of a list above another one, in the form of a key.
pub fn past_in_list<const OFFSET_BITS: u32, F: Frozen<OFFSET_BITS>>(
    frozen: &mut F,
    list: u64,
    doc: u32,
) -> Option<u32>
    requires list { IsList (F.records frozen.old) list }
    requires some { 0 < list }
    ensures next { result ≡ find (nat_lt doc) (form_docs (F.records frozen.old) (list_form list)) }
    ensures same { frozen.new ≡ frozen.old }
{
    if is_vector(list) {
        return block_past(frozen, list, doc);
    }
    past_plain(frozen, list, doc)
}
