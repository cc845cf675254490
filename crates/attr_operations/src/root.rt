//! The root record of a commit: the number of operations, and the roots of each attribute's two trees.
ghost use Rattle.std.specs.Prelude.{◌≡◌, ◌<◌, ◌≤◌, ◌∷◌, ℕ, [], true, false, length, IfOk, IfErr, OnErr};
ghost use Rattle.image_format.specs.Words.{class_of};
ghost use Rattle.attr_types.specs.declared.field.TheConstants.{MOST_FIELDS};
ghost use Rattle.store_api.specs.Calls.{Refuses};
ghost use Rattle.store_api.specs.Parts.{Owns, entries};
ghost use Rattle.store_api.specs.Units.{MayDo, MakesAtMost};
ghost use Rattle.array_store.specs.Adding.{MakesOneOf};
ghost use Rattle.array_store.specs.Roots.{MakesRootRecord, root_entries};
ghost use Rattle.attr_operations.specs.Calls.{KeepsStore, LeavesEntries};
ghost use Rattle.attr_operations.specs.Commits.{IsForWidth, RefusesRoot, roots_listed};

use array_store::{class_law, turn_root};
use arrayvec::ArrayVec;
use attr_field::FieldRoots;
use entry_ref::EntryRef;
use store_api::{Store, StoreError};

/// The greatest number of words in a root record: the operations, and two roots for each of eight attributes.
const MOST_ROOT_WORDS: usize = 17;

/// Returns the words of a root record.
fn root_words<const OFFSET_BITS: u32>(
    roots: &[FieldRoots<OFFSET_BITS>],
    operations: u32,
) -> ArrayVec<u64, MOST_ROOT_WORDS>
    requires { length roots.now ≤ MOST_FIELDS }
    ensures { result.items ≡ operations ∷ roots_listed roots.now }
{
    let mut words = ArrayVec::new();
    words.push(operations as u64);
    for i in 0..roots.len() {
        let root = roots[i];
        words.push(root.documents.raw() as u64);
        words.push(root.dictionary.raw() as u64);
    }
    words
}

/// Makes the root record of these roots, and drops the previous one, if any.
fn record_roots<const OFFSET_BITS: u32, S: Store<OFFSET_BITS>>(
    store: &mut S,
    roots: &[FieldRoots<OFFSET_BITS>],
    operations: u32,
    before: EntryRef<OFFSET_BITS>,
) -> Result<EntryRef<OFFSET_BITS>, StoreError>
    requires unit { (S.ledger store.old).unit ≡ true }
    requires few { length roots.now ≤ MOST_FIELDS }
    requires owns { Owns (S.ledger store.old) (S.records store.old) (entries (root_entries before) ∷ []) }
    ensures makes { IfOk result (MakesRootRecord OFFSET_BITS (S.ledger store.old) (S.ledger store.new) (S.records store.old)
        (S.records store.new)
        (operations ∷ roots_listed roots.now) before.entry) }
    ensures refuses { IfErr result (Refuses (S.ledger store.old) (S.ledger store.new)
        (class_of (length (operations ∷ roots_listed roots.now)))) }
    ensures none_made { OnErr result ((c w : ℕ) → MakesAtMost c 0 ((S.ledger store.old).of_width w) ((S.ledger store.new).of_width w)) }
    ensures counts { MakesOneOf (class_of (length (operations ∷ roots_listed roots.now))) (S.ledger store.old) (S.ledger store.new) }
    ensures may { MayDo (S.ledger store.old) (S.ledger store.new) }
{
    let words = root_words(roots, operations);
    turn_root(store, &words, before)
}

/// Makes a root record in place of the previous one, in a unit of its own.
#[tactic(none)]
pub fn root_unit<const OFFSET_BITS: u32, S: Store<OFFSET_BITS>>(
    store: &mut S,
    roots: &[FieldRoots<OFFSET_BITS>],
    operations: u32,
    before: EntryRef<OFFSET_BITS>,
) -> Result<EntryRef<OFFSET_BITS>, StoreError>
    requires unit { (S.ledger store.old).unit ≡ false }
    requires few { length roots.now ≤ MOST_FIELDS }
    requires owns { Owns (S.ledger store.old) (S.records store.old) (entries (root_entries before) ∷ []) }
    ensures makes { IfOk result (MakesRootRecord OFFSET_BITS (S.ledger store.old) (S.ledger store.new) (S.records store.old)
        (S.records store.new)
        (operations ∷ roots_listed roots.now) before.entry) }
    ensures left { OnErr result (LeavesEntries (S.ledger store.old) (S.ledger store.new) (S.records store.old) (S.records store.new)) }
    ensures refused { IfErr result (RefusesRoot (S.ledger store.old) (S.ledger store.new)) }
    ensures width { IfErr result (IsForWidth (class_of (length (operations ∷ roots_listed roots.now)))) }
    ensures counts { MakesOneOf (class_of (length (operations ∷ roots_listed roots.now))) (S.ledger store.old) (S.ledger store.new) }
    ensures keeps { KeepsStore (S.ledger store.old) (S.ledger store.new) }
{
    class_law();
    store.begin();
    match record_roots(store, roots, operations, before) {
        Ok(root) => {
            store.accept();
            Ok(root)
        }
        Err(error) => {
            store.undo();
            Err(error)
        }
    }
}
