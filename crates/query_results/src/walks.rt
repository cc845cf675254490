//! A walk along the documents of an attribute, which finds document after document.
ghost use Rattle.std.specs.Prelude.{◌≡◌, true};
ghost use Rattle.tree_read.specs.Pairs.{lookup};
ghost use Rattle.tree_read.specs.Trees.{tree_pairs};
ghost use Rattle.doc_vector.specs.Documents.{beside_document, IsDocumentMap};
ghost use Rattle.query_results.specs.Walks.{IsBefore, IsPast, IsWalk};

use arena_api::Frozen;
use attr_types::Doc;
use doc_vector::walk_from;
use entry_ref::EntryRef;
use frozen_btree::Cursor;
use std::marker::Model;

/// How many documents a walk passes one by one before it searches from the root.
const MOST_STEPS: u32 = 16;

/// A walk along the documents of an attribute. It is fastest if the sought documents ascend.
#[derive(Drop)]
pub struct Walk<const OFFSET_BITS: u32> {
    cursor: Cursor<OFFSET_BITS>,
    // this document and later ones are found after the cursor
    from: u32,
}

impl<const OFFSET_BITS: u32> Model for Walk<OFFSET_BITS> {
    ghost use Rattle.query_results.specs.Walks.{WalkView};

    ghost Value = { WalkView };

    ghost view = { λ w. record { cursor = w.cursor; from = w.from } };
}

/// Returns a walk at the first document.
pub fn walk_of<const OFFSET_BITS: u32, F: Frozen<OFFSET_BITS>>(
    frozen: &mut F,
    root: EntryRef<OFFSET_BITS>,
) -> Walk<OFFSET_BITS>
    requires { IsDocumentMap (F.records frozen.old) root }
    ensures walk { IsWalk (F.records frozen.old) root.entry result }
    ensures same { frozen.new ≡ frozen.old }
{
    Walk {
        cursor: Cursor::first(frozen, root),
        from: 0,
    }
}

/// Moves past documents that are below this one, but not past many. Returns whether all of them are passed.
fn pass_near<const OFFSET_BITS: u32, F: Frozen<OFFSET_BITS>>(
    frozen: &mut F,
    root: EntryRef<OFFSET_BITS>,
    cursor: &mut Cursor<OFFSET_BITS>,
    doc: u32,
) -> bool
    requires { IsBefore (F.records frozen.old) root doc cursor.old }
    ensures before { IsBefore (F.records frozen.old) root.entry doc cursor.new }
    ensures past { result ≡ true → IsPast (F.records frozen.old) doc cursor.new }
    ensures same { frozen.new ≡ frozen.old }
{
    let _ = root;
    let mut steps = 0;
    while steps < MOST_STEPS {
        if cursor.at_end() {
            return true;
        }
        if cursor.key() >= u64::from(doc) {
            return true;
        }
        cursor.next(frozen);
        steps += 1;
    }
    false
}

/// Moves past documents as `pass_near` does, if those before `from` are passed already. Returns whether the document
/// that follows is not below this one.
fn pass_from<const OFFSET_BITS: u32, F: Frozen<OFFSET_BITS>>(
    frozen: &mut F,
    root: EntryRef<OFFSET_BITS>,
    cursor: &mut Cursor<OFFSET_BITS>,
    from: u32,
    doc: Doc,
) -> bool
    requires { IsBefore (F.records frozen.old) root from cursor.old }
    ensures before { result ≡ true → IsBefore (F.records frozen.old) root.entry doc cursor.new }
    ensures past { result ≡ true → IsPast (F.records frozen.old) doc cursor.new }
    ensures same { frozen.new ≡ frozen.old }
{
    let number = doc.number();
    if from > number {
        return false;
    }
    pass_near(frozen, root, cursor, number)
}

/// Moves to the first document that is not below this one, by a search from the root. It is a function of its own so that
/// a step that does not need it clears no cursor.
#[inline(never)]
fn search_root<const OFFSET_BITS: u32, F: Frozen<OFFSET_BITS>>(
    frozen: &mut F,
    root: EntryRef<OFFSET_BITS>,
    cursor: &mut Cursor<OFFSET_BITS>,
    doc: Doc,
)
    requires { IsDocumentMap (F.records frozen.old) root }
    ensures before { IsBefore (F.records frozen.old) root.entry doc cursor.new }
    ensures past { IsPast (F.records frozen.old) doc cursor.new }
    ensures same { frozen.new ≡ frozen.old }
{
    let place = walk_from(frozen, root, doc);
    *cursor = place;
}

/// Moves to the first document that is not below this one: step by step if it is near, or from the root.
fn move_cursor<const OFFSET_BITS: u32, F: Frozen<OFFSET_BITS>>(
    frozen: &mut F,
    root: EntryRef<OFFSET_BITS>,
    cursor: &mut Cursor<OFFSET_BITS>,
    from: u32,
    doc: Doc,
)
    requires map { IsDocumentMap (F.records frozen.old) root }
    requires before { IsBefore (F.records frozen.old) root from cursor.old }
    ensures before { IsBefore (F.records frozen.old) root.entry doc cursor.new }
    ensures past { IsPast (F.records frozen.old) doc cursor.new }
    ensures same { frozen.new ≡ frozen.old }
{
    if pass_from(frozen, root, cursor, from, doc) {
        return;
    }
    search_root(frozen, root, cursor, doc);
}

/// Moves to the first document that is not below this one.
fn move_to<const OFFSET_BITS: u32, F: Frozen<OFFSET_BITS>>(
    frozen: &mut F,
    root: EntryRef<OFFSET_BITS>,
    walk: &mut Walk<OFFSET_BITS>,
    doc: Doc,
)
    requires map { IsDocumentMap (F.records frozen.old) root }
    requires walk { IsWalk (F.records frozen.old) root walk.old }
    ensures walk { IsWalk (F.records frozen.old) root.entry walk.new }
    ensures from { walk.new.from ≡ doc }
    ensures past { IsPast (F.records frozen.old) doc walk.new.cursor }
    ensures same { frozen.new ≡ frozen.old }
{
    let number = doc.number();
    let from = walk.from;
    walk.from = number;
    move_cursor(frozen, root, &mut walk.cursor, from, doc);
}

/// Returns the reference of a document that is found at a position, or nowhere.
fn found_at<const OFFSET_BITS: u32, F: Frozen<OFFSET_BITS>>(
    frozen: &mut F,
    root: EntryRef<OFFSET_BITS>,
    cursor: &Cursor<OFFSET_BITS>,
    doc: Doc,
) -> Option<EntryRef<OFFSET_BITS>>
    requires map { IsDocumentMap (F.records frozen.old) root }
    requires before { IsBefore (F.records frozen.old) root doc cursor.now }
    requires past { IsPast (F.records frozen.old) doc cursor.now }
    ensures reference { result ≡ lookup (beside_document doc) (tree_pairs (F.records frozen.old) root.entry) }
    ensures same { frozen.new ≡ frozen.old }
{
    let _ = frozen;
    let _ = root;
    if cursor.at_end() {
        return None;
    }
    if cursor.key() != u64::from(doc.number()) {
        return None;
    }
    Some(EntryRef::from_raw(cursor.value() as u32))
}

/// Returns the reference of a document's items, or 0 if it has none. Returns `None` if the document does not exist.
pub fn find<const OFFSET_BITS: u32, F: Frozen<OFFSET_BITS>>(
    frozen: &mut F,
    root: EntryRef<OFFSET_BITS>,
    walk: &mut Walk<OFFSET_BITS>,
    doc: Doc,
) -> Option<EntryRef<OFFSET_BITS>>
    requires map { IsDocumentMap (F.records frozen.old) root }
    requires walk { IsWalk (F.records frozen.old) root walk.old }
    ensures reference { result ≡ lookup (beside_document doc) (tree_pairs (F.records frozen.old) root.entry) }
    ensures walk { IsWalk (F.records frozen.old) root.entry walk.new }
    ensures same { frozen.new ≡ frozen.old }
{
    move_to(frozen, root, walk, doc);
    found_at(frozen, root, &walk.cursor, doc)
}
