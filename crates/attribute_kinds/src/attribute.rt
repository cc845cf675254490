//! The attributes of a collection in one store: operations, commits and steps of compaction.

ghost use Rattle.std.specs.Prelude.{◌≡◌, ℕ, ◌<◌, ◌≤◌, ◌+◌, ◌-◌, ◌*◌, ◌^◌, [], None, true, false, length};
ghost use Rattle.std.specs.Prelude.{IfOk, IfErr, OnOk, OnErr, Ok, Err, replicate};
ghost use Rattle.entry_ref.specs.Images.{words_at};
ghost use Rattle.arena_api.specs.Calls.{IsFresh, told_after};
ghost use Rattle.arena_api.specs.Works.{last_image};
ghost use Rattle.attr_types.specs.declared.applied.Applied.TheVariants.{Skipped};
ghost use Rattle.image_format.specs.Images.{IsLawfulImage, table_of, operations_at};
ghost use Rattle.image_format.specs.Shapes.{shape_of, types_of};
ghost use Rattle.image_format.specs.Words.{class_of};
ghost use Rattle.array_store.specs.Adding.{MakesOneOf};
ghost use Rattle.store_api.specs.Ledgers.{no_counts};
ghost use Rattle.store_api.specs.Usages.{IsUsage};
ghost use Rattle.attr_types.specs.Lawful.{OpFits};
ghost use Rattle.attr_types.specs.Table.{after_op};
ghost use Rattle.attr_types.specs.declared.field.TheConstants.{MOST_FIELDS};
ghost use Rattle.attr_operations.specs.Fields.{no_roots};
ghost use Rattle.attr_operations.specs.Calls.{KeepsStore, LeavesEntries};
ghost use Rattle.attribute_kinds.specs.Calls.{applied_to, RefusesOperation};
ghost use Rattle.attribute_kinds.specs.Calls.{RefusesCommit, CommitsImage, HasCommit, IsForRoot};
ghost use Rattle.attr_operations.specs.Counts.{MakesOperation};
ghost use Rattle.attribute_kinds.specs.Counts.{HasNoVectors, LacksBuffers, NamesWidth, SparesOf};
ghost use Rattle.attribute_kinds.specs.GivingUp.{GivesUp, KeepsPlan};
ghost use Rattle.attribute_kinds.specs.Compacting.{CompactsTo, IsIdle, RefusesStep};
ghost use Rattle.compaction_steps.specs.Compactions.{KeepsStoreBut};
ghost use Rattle.compaction_steps.specs.Counts.{MakesKeys};
ghost use Rattle.attribute_kinds.specs.declared.answers.Compacted.TheVariants.{Idle};

use crate::answers::{AttrError, CommitInfo, Compacted, Published, has_finished, refusal, told};
use arena_api::{Frozen, Work};
use attr_compaction::Plan;
use attr_field::{FieldRoots, field_law};
use attr_operations::{commit_attributes, step};
use attr_types::{Applied, Fields, Op};
use compaction_steps::{compact, give_up, same_law, step_law};
use entry_ref::EntryRef;
use entry_store::{EntryStore, NoMemory};
use image_format::AttrLayout;
use std::alloc::{AllocError, Global};
use std::marker::Model;
use store_api::{Store, Usage};

/// The attributes of a collection, at most eight, in a store of their own. Each operation is applied as a whole or
/// not at all, and the applied operations are committed as one image.
#[derive(Drop)]
pub struct Attribute<const OFFSET_BITS: u32, S: Store<OFFSET_BITS, Layout = AttrLayout>> {
    store: S,
    fields: Fields,
    /// Whether bit vectors are wanted.
    dense: bool,
    roots: Vec<FieldRoots<OFFSET_BITS>>,
    operations: u32,
    last: Published<OFFSET_BITS>,
    plan: Option<Plan>,
    /// Whether an emptied buffer waits for its commit.
    waits: bool,
}

impl<const OFFSET_BITS: u32, S: Store<OFFSET_BITS, Layout = AttrLayout>> Model
    for Attribute<OFFSET_BITS, S> {
    ghost use Rattle.entry_ref.specs.Images.{words_at};
    ghost use Rattle.arena_api.specs.Works.{last_image};
    ghost use Rattle.image_format.specs.Images.{table_of};
    ghost use Rattle.image_format.specs.Shapes.{shape_of, types_of};
    ghost use Rattle.attr_operations.specs.Fields.{trees_of};
    ghost use Rattle.attribute_kinds.specs.Standing.{IsAttribute};
    ghost use Rattle.attr_operations.specs.Views.{table_at};
    ghost use Rattle.attribute_kinds.specs.Views.{AttributeView};

    ghost Value = { AttributeView S };

    ghost view = { λ a. record {
      store = a.store;
      fields = a.fields;
      dense = a.dense;
      trees = trees_of a.fields a.roots.items;
      table = table_at (S.records a.store) (trees_of a.fields a.roots.items);
      operations = a.operations;
      root = a.last.root;
      committed = table_of (shape_of (types_of a.fields)) (words_at (last_image (S.ledger a.store).work.commits)) a.last.root;
      committed_operations = a.last.operations;
      plan = a.plan;
    } };

    ghost invariant = { λ a. IsAttribute a.dense (S.ledger a.store) (S.records a.store) a.fields a.roots.items
        a.last.root a.last.commit a.last.operations a.plan a.waits };
}

impl<const OFFSET_BITS: u32, W: Work<OFFSET_BITS, Layout = AttrLayout>> Attribute<
    OFFSET_BITS,
    EntryStore<OFFSET_BITS, W>,
> {
    /// Creates attributes without documents, over a work in which nothing is committed or handed out. With `dense` the
    /// documents of a frequent value are a bit vector, except in weighted sets.
    #[tactic(none)]
    pub fn create(alloc: Global, work: W, fields: &Fields, dense: bool) -> Result<Self, NoMemory<W>>
        requires some { 0 < length fields.now }
        requires few { length fields.now ≤ MOST_FIELDS }
        requires shape { W.shape work ≡ shape_of (types_of fields.now) }
        requires fresh { IsFresh (W.knows work) }
        ensures fields { IfOk result (λ a. a.fields ≡ fields.now) }
        ensures dense { IfOk result (λ a. a.dense ≡ dense) }
        ensures table { IfOk result (λ a. a.table ≡ []) }
        ensures operations { IfOk result (λ a. a.operations ≡ 0) }
        ensures root { IfOk result (λ a. a.root ≡ 0) }
        ensures plan { IfOk result (λ a. a.plan ≡ None) }
        ensures work { IfOk result (λ a. (⟦<EntryStore<OFFSET_BITS, W> as Store<OFFSET_BITS>>⟧.ledger a.store).work ≡ W.knows work) }
        ensures counts { IfOk result (λ a. (width : ℕ)
            → (⟦<EntryStore<OFFSET_BITS, W> as Store<OFFSET_BITS>>⟧.ledger a.store).of_width width ≡ no_counts) }
        ensures left { IfErr result (λ e. e.work ≡ work) }
    {
        field_law();
        let Ok(own) = copied_fields(fields) else {
            return Err(NoMemory { work });
        };
        let Ok(roots) = empty_roots(alloc, fields.len()) else {
            return Err(NoMemory { work });
        };
        let store = EntryStore::create(alloc, work)?;
        Ok(Attribute {
            store,
            fields: own,
            dense,
            roots,
            operations: 0,
            last: Published {
                root: EntryRef::from_raw(0),
                commit: 0,
                operations: 0,
            },
            plan: None,
            waits: false,
        })
    }

    /// Returns the work, with all that was committed, and the last commit.
    #[tactic(none)]
    pub fn into_work(self) -> (W, Published<OFFSET_BITS>)
        ensures knows { W.knows result.0 ≡ (⟦<EntryStore<OFFSET_BITS, W> as Store<OFFSET_BITS>>⟧.ledger self.store).work }
        ensures shape { W.shape result.0 ≡ shape_of (types_of self.fields) }
        ensures root { result.1.root ≡ self.root }
        ensures commit { result.1.commit ≡ (W.knows result.0).commits.last }
        ensures operations { result.1.operations ≡ self.committed_operations }
        ensures lawful { IsLawfulImage (shape_of (types_of self.fields)) (W.records result.0) self.root }
        ensures table { table_of (shape_of (types_of self.fields)) (W.records result.0) self.root ≡ self.committed }
        ensures published { operations_at (W.records result.0) self.root ≡ self.committed_operations }
    {
        (self.store.into_work(), self.last)
    }
}

impl<const OFFSET_BITS: u32, S: Store<OFFSET_BITS, Layout = AttrLayout>> Attribute<OFFSET_BITS, S> {
    /// Returns the store, with all that was committed, and the last commit.
    #[tactic(none)]
    pub fn into_store(self) -> (S, Published<OFFSET_BITS>)
        ensures store { result.0 ≡ self.store }
        ensures shape { S.shape result.0 ≡ shape_of (types_of self.fields) }
        ensures root { result.1.root ≡ self.root }
        ensures number { result.1.commit ≡ (S.ledger result.0).work.commits.last }
        ensures operations { result.1.operations ≡ self.committed_operations }
        ensures commit { HasCommit (S.ledger result.0) self.fields result.1.root self.committed self.committed_operations }
    {
        (self.store, self.last)
    }

    /// Returns the number of operations applied so far, including skipped ones.
    pub fn operations(&self) -> u32
        ensures operations { result ≡ self.now.operations }
        ensures commit { HasCommit (S.ledger self.now.store) self.now.fields self.now.root
            self.now.committed self.now.committed_operations }
        ensures unit { (S.ledger self.now.store).unit ≡ false }
    {
        self.operations
    }

    /// Returns how many buffers and words of the store are in use. It goes over all buffers.
    pub fn usage(&self) -> Usage
        ensures { IsUsage OFFSET_BITS (S.ledger self.now.store) result }
    {
        self.store.usage()
    }

    /// Applies an operation to the attributes, or skips it. If it is refused, everything is as it was, and the call
    /// may be repeated.
    #[tactic(none)]
    pub fn apply(&mut self, alloc: Global, op: &Op) -> Result<Applied, AttrError>
        requires room { self.old.operations < 2 ^ 32 - 1 }
        requires fits { OpFits self.old.fields op.now }
        ensures table { OnOk result (self.new.table ≡ after_op self.old.fields self.old.table op.now) }
        ensures applied { IfOk result (λ applied. applied ≡ applied_to self.old.fields self.old.table op.now) }
        ensures operations { OnOk result (self.new.operations ≡ self.old.operations + 1) }
        ensures skips { result ≡ Ok Skipped → self.new ≡ record self.old { operations = self.old.operations + 1 } }
        ensures left { OnErr result (self.new ≡ record self.old { store = self.new.store }) }
        ensures entries { OnErr result (LeavesEntries (S.ledger self.old.store) (S.ledger self.new.store)
            (S.records self.old.store) (S.records self.new.store)) }
        ensures refused { IfErr result (RefusesOperation (S.ledger self.old.store) (S.ledger self.new.store)) }
        ensures counts { MakesOperation self.old.dense (S.ledger self.old.store) (S.ledger self.new.store) self.old.fields
            self.old.table op.now }
        ensures spares { IfErr result (SparesOf self.old.dense (S.ledger self.new.store) self.old.fields self.old.table op.now) }
        ensures widths { IfErr result (NamesWidth self.old.dense self.old.fields self.old.table op.now) }
        ensures room { IfErr result (LacksBuffers self.old.dense (S.ledger self.old.store) self.old.fields self.old.table op.now) }
        ensures keeps { KeepsStore (S.ledger self.old.store) (S.ledger self.new.store) }
        ensures fields { self.new.fields ≡ self.old.fields }
        ensures dense { self.new.dense ≡ self.old.dense }
        ensures root { self.new.root ≡ self.old.root }
        ensures committed { self.new.committed ≡ self.old.committed }
        ensures published { self.new.committed_operations ≡ self.old.committed_operations }
        ensures plan { self.new.plan ≡ self.old.plan }
    {
        field_law();
        step_law::<OFFSET_BITS, S>();
        match step(
            alloc,
            &mut self.store,
            self.fields.as_slice(),
            &self.roots,
            op,
            self.dense,
        ) {
            Ok(Some(roots)) => {
                self.roots = roots;
                self.operations += 1;
                Ok(Applied::Changed)
            }
            Ok(None) => {
                self.operations += 1;
                Ok(Applied::Skipped)
            }
            Err(error) => Err(refusal(error)),
        }
    }

    /// Commits the table and the number of operations. If it is refused, everything is as it was, and the call may be
    /// repeated.
    #[tactic(none)]
    pub fn commit(&mut self) -> Result<CommitInfo, AttrError>
        ensures commits { IfOk result (CommitsImage OFFSET_BITS (S.ledger self.old.store) (S.ledger self.new.store)
            (last_image (S.ledger self.new.store).work.commits)) }
        ensures number { IfOk result (λ info. info.commit ≡ (S.ledger self.old.store).work.commits.last + 1) }
        ensures counts { IfOk result (λ info. info.operations ≡ self.old.operations) }
        ensures makes { MakesOneOf (class_of (1 + 2 * length self.old.fields)) (S.ledger self.old.store) (S.ledger self.new.store) }
        ensures trees { self.new.trees ≡ self.old.trees }
        ensures committed { OnOk result (self.new.committed ≡ self.old.table) }
        ensures published { OnOk result (self.new.committed_operations ≡ self.old.operations) }
        ensures told { OnOk result ((S.ledger self.new.store).work.told
            ≡ told_after (S.ledger self.old.store).work.told (last_image (S.ledger self.new.store).work.commits)) }
        ensures table { self.new.table ≡ self.old.table }
        ensures operations { self.new.operations ≡ self.old.operations }
        ensures fields { self.new.fields ≡ self.old.fields }
        ensures dense { self.new.dense ≡ self.old.dense }
        ensures plan { self.new.plan ≡ self.old.plan }
        ensures left { OnErr result (self.new ≡ record self.old { store = self.new.store }) }
        ensures entries { OnErr result (LeavesEntries (S.ledger self.old.store) (S.ledger self.new.store)
            (S.records self.old.store) (S.records self.new.store)) }
        ensures keeps { OnErr result (KeepsStore (S.ledger self.old.store) (S.ledger self.new.store)) }
        ensures refused { IfErr result (RefusesCommit (S.ledger self.old.store) (S.ledger self.new.store)) }
        ensures width { IfErr result (IsForRoot self.old.fields) }
        ensures spent { (S.ledger self.old.store).work.commits.last ≡ (S.ledger self.old.store).work.sizes.commits
            → result ≡ Err (AttrError.CommitsSpent (S.ledger self.old.store).work.commits.last) }
    {
        if self.store.commits_left() == 0 {
            return Err(AttrError::CommitsSpent {
                commit: self.last.commit,
            });
        }
        same_law();
        field_law();
        let fields = self.fields.as_slice();
        match commit_attributes(
            &mut self.store,
            fields,
            &self.roots,
            self.operations,
            self.last.root,
        ) {
            Ok(made) => {
                self.last = Published {
                    root: made.0,
                    commit: made.1.commit,
                    operations: self.operations,
                };
                self.waits = false;
                Ok(CommitInfo {
                    commit: made.1.commit,
                    operations: self.operations,
                    advance: made.1.advance,
                    oldest: made.1.oldest,
                })
            }
            Err(error) => Err(refusal(error)),
        }
    }

    /// Visits `keys` keys of the compaction in progress, or of one that it begins: everything that belongs to a key
    /// is moved out of the victim. The table does not change. If the first key is refused, each entry is as it was,
    /// and the compaction stays begun.
    #[tactic(none)]
    pub fn compact_step(&mut self, alloc: Global, keys: u32) -> Result<Compacted, AttrError>
        ensures steps { IfOk result (CompactsTo OFFSET_BITS S.ledger S.records self.old self.new keys) }
        ensures refuses { IfErr result (RefusesStep OFFSET_BITS S.ledger S.records self.old self.new) }
        ensures idle { IsIdle OFFSET_BITS (S.ledger self.old.store) self.old.plan → result ≡ Ok Idle }
        ensures makes { MakesKeys (HasNoVectors self.old.dense self.old.table) self.old.fields self.old.table (S.ledger self.old.store)
            (S.ledger self.new.store) keys }
        ensures keeps { KeepsStoreBut (S.ledger self.old.store) (S.ledger self.new.store) }
        ensures table { self.new.table ≡ self.old.table }
        ensures operations { self.new.operations ≡ self.old.operations }
        ensures fields { self.new.fields ≡ self.old.fields }
        ensures dense { self.new.dense ≡ self.old.dense }
        ensures root { self.new.root ≡ self.old.root }
        ensures committed { self.new.committed ≡ self.old.committed }
        ensures published { self.new.committed_operations ≡ self.old.committed_operations }
    {
        if self.waits {
            return Ok(Compacted::Idle);
        }
        let before = self.plan.take();
        let (plan, step) = compact(
            alloc,
            &mut self.store,
            self.fields.as_slice(),
            &mut self.roots,
            self.last.root,
            before,
            keys,
        );
        self.plan = plan;
        self.waits = has_finished(&step);
        told(step)
    }

    /// Gives the compaction in progress up, if it has copied no value's record: its victim is used again. Returns whether
    /// it was given up. If not, nothing changes.
    #[tactic(none)]
    pub fn give_up(&mut self) -> bool
        ensures gives { result ≡ true → GivesUp S.ledger self.old self.new }
        ensures keeps { result ≡ false → KeepsPlan S.ledger self.old self.new }
        ensures records { S.records self.new.store ≡ S.records self.old.store }
        ensures left { self.new ≡ record self.old { store = self.new.store; plan = self.new.plan } }
    {
        let Some(plan) = self.plan.take() else {
            return false;
        };
        let after = give_up(
            &mut self.store,
            self.fields.as_slice(),
            &self.roots,
            self.last.root,
            plan,
        );
        let gone = after.is_none();
        self.plan = after;
        gone
    }
}

/// Returns the roots of fields without documents.
fn empty_roots<const OFFSET_BITS: u32>(
    alloc: Global,
    count: usize,
) -> Result<Vec<FieldRoots<OFFSET_BITS>>, AllocError>
    ensures { IfOk result (λ roots. roots.items ≡ replicate count no_roots) }
{
    let empty = FieldRoots {
        documents: EntryRef::from_raw(0),
        dictionary: EntryRef::from_raw(0),
    };
    vec![in alloc; empty; count]
}

/// Returns a copy of the fields.
fn copied_fields(fields: &Fields) -> Result<Fields, AllocError>
    ensures { IfOk result (λ own. own ≡ fields.now) }
{
    Ok(fields.clone()?)
}

/// Returns the work of a store whose records are those of the last commit.
#[tactic(none)]
pub fn committed_work<const OFFSET_BITS: u32, W: Work<OFFSET_BITS, Layout = AttrLayout>>(
    store: EntryStore<OFFSET_BITS, W>,
    fields: &Fields,
    root: EntryRef<OFFSET_BITS>,
) -> W
    requires lawful { IsLawfulImage (shape_of (types_of fields.now))
        (words_at (last_image (⟦<EntryStore<OFFSET_BITS, W> as Store<OFFSET_BITS>>⟧.ledger store).work.commits)) root }
    ensures knows { W.knows result ≡ (⟦<EntryStore<OFFSET_BITS, W> as Store<OFFSET_BITS>>⟧.ledger store).work }
    ensures shape { W.shape result ≡ ⟦<EntryStore<OFFSET_BITS, W> as Frozen<OFFSET_BITS>>⟧.shape store }
    ensures image { IsLawfulImage (shape_of (types_of fields.now)) (W.records result) root.entry }
    ensures table { table_of (shape_of (types_of fields.now)) (W.records result) root.entry ≡ table_of (shape_of (types_of fields.now))
        (words_at (last_image (⟦<EntryStore<OFFSET_BITS, W> as Store<OFFSET_BITS>>⟧.ledger store).work.commits)) root.entry }
    ensures published { operations_at (W.records result) root.entry ≡ operations_at
        (words_at (last_image (⟦<EntryStore<OFFSET_BITS, W> as Store<OFFSET_BITS>>⟧.ledger store).work.commits)) root.entry }
{
    let _ = fields;
    let _ = root;
    store.into_work()
}
