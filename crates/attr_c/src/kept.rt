//! A reader under a guard. Its commit stays readable until the guard is released.
ghost use Rattle.std.specs.Prelude.{◌≡◌, ◌<◌, ◌≤◌, pos, length, map, unwrap_or, IfOk};
ghost use Rattle.std.specs.List.{filter_map};
ghost use Rattle.gen_core.specs.Events.{released};
ghost use Rattle.word_arena.specs.Ruled.{reader_of, seen_number};
ghost use Rattle.attr_types.specs.Scores.{ask_tree, answer_on};
ghost use Rattle.attr_types.specs.declared.field.TheConstants.{MOST_FIELDS};
ghost use Rattle.query_results.specs.Longs.{presence};
ghost use Rattle.result_model.specs.Groups.{terms};
ghost use Rattle.result_model.specs.Orders.{sorted};
ghost use Rattle.result_model.specs.Totals.{number_of, totals};
ghost use Rattle.result_model.specs.Values.{documents_from};
ghost use Rattle.attr_c.specs.Copies.{documents_of};
ghost use Rattle.attr_c.specs.Grouping.{groups_by};
ghost use Rattle.attr_c.specs.Said.{said, items_of, save_of_table};
ghost use Rattle.attr_c.specs.Sorting.{best_on};
ghost use Rattle.attr_c.specs.Kept.{operations_of, table_in, IsGuardOf};

use crate::answer::Answer;
use crate::best_scores::best_at;
use crate::grouping::answer_groups;
use crate::guarding::guarded;
use crate::reading::{answer_at, field_items, operations_in, saved_at};
use crate::sorting::answer_sorted;
use crate::state::Waiting;
use crate::totalling::answer_totals;
use attr_types::{Ask, Doc, DocList, Fields, Items, Leaf, ScoreList};
use image_format::AttrLayout;
use query_results::{documents_from, terms, write_longs};
use result_model::{Direction, Groups, Totals};
use std::alloc::{AllocError, Global};
use std::marker::Model;
use word_arena::Guarded;

/// A reader under a guard, with the attributes for its asks.
#[derive(Drop)]
pub struct Kept<const OFFSET_BITS: u32> {
    fields: Fields,
    guard: Guarded<OFFSET_BITS, AttrLayout>,
}

impl<const OFFSET_BITS: u32> Model for Kept<OFFSET_BITS> {
    ghost use Rattle.word_arena.specs.Ruled.{reader_of};
    ghost use Rattle.attr_c.specs.Kept.{KeptView, IsKept};

    ghost Value = { KeptView };

    ghost view = { λ k. record { fields = k.fields; home = k.guard.place.table_id; reader = reader_of k.guard.place.me.0 } };

    ghost invariant = { λ k. IsKept k.fields (reader_of k.guard.place.me.0) };
}

impl<const OFFSET_BITS: u32> Kept<OFFSET_BITS> {
    /// Takes a guard of the last commit.
    pub fn new(waiting: Waiting<OFFSET_BITS>) -> Kept<OFFSET_BITS>
        ensures fields { result.fields ≡ waiting.entry.fields }
        ensures home { result.home ≡ waiting.entry.reader.place.table_id }
        ensures guard { IsGuardOf (reader_of waiting.entry.reader.place.me.0) result.reader }
    {
        let Waiting { fields, reader } = waiting;
        let guard = guarded(reader);
        Kept { fields, guard }
    }

    /// Releases the guard.
    pub fn release(self) -> Waiting<OFFSET_BITS>
        ensures fields { result.fields ≡ self.entry.fields }
        ensures home { result.reader.place.table_id ≡ self.entry.home }
        ensures idle { reader_of result.reader.place.me.0 ≡ released self.entry.reader }
    {
        let Kept { fields, guard } = self;
        let reader = guard.release();
        Waiting { fields, reader }
    }

    pub fn fields(&self) -> &Fields
        ensures fields { result.now ≡ self.now.fields }
        ensures few { length result.now ≤ MOST_FIELDS }
    {
        &self.fields
    }

    /// Returns the number of the commit.
    pub fn commit(&self) -> u32
        ensures { result ≡ seen_number self.now.reader }
    {
        self.guard.commit()
    }

    /// The number of operations in the commit.
    pub fn operations(&mut self) -> u32
        ensures count { result ≡ operations_of self.old }
        ensures same { self.new ≡ self.old }
    {
        let root = self.guard.root();
        operations_in(&mut self.guard, root)
    }

    /// Returns the answer of the commit.
    pub fn answer(&mut self, alloc: Global, ask: &Ask) -> Result<Answer, AllocError>
        ensures answer { IfOk result (λ answer. said answer ≡ answer_on (ask_tree ask.now) (table_in self.old)) }
        ensures same { self.new ≡ self.old }
    {
        let root = self.guard.root();
        answer_at(alloc, &mut self.guard, root, &self.fields, ask)
    }

    /// Returns the documents of an answer by their values at the commit, in the attribute with this number: `count` of them
    /// after the first `first`.
    pub fn sorted(
        &mut self,
        alloc: Global,
        answer: &Answer,
        field: u32,
        direction: Direction,
        first: usize,
        count: usize,
    ) -> Result<DocList, AllocError>
        ensures sorted { IfOk result (λ list. list ≡ sorted field direction (documents_of answer.now) first count (table_in self.old)) }
        ensures same { self.new ≡ self.old }
    {
        let root = self.guard.root();
        answer_sorted(
            alloc,
            &mut self.guard,
            root,
            &self.fields,
            answer,
            field,
            direction,
            first,
            count,
        )
    }

    /// Returns the totals of the numbers that the documents of an answer have at the commit, in the attribute with this
    /// number.
    pub fn totals(
        &mut self,
        alloc: Global,
        answer: &Answer,
        field: u32,
    ) -> Result<Totals, AllocError>
        ensures totals { IfOk result (λ found. found ≡ totals field (documents_of answer.now) (table_in self.old)) }
        ensures same { self.new ≡ self.old }
    {
        let root = self.guard.root();
        answer_totals(alloc, &mut self.guard, root, &self.fields, answer, field)
    }

    /// Returns the `count` best scores that the commit has for an ask.
    pub fn best(&mut self, alloc: Global, ask: &Ask, count: usize) -> Result<ScoreList, AllocError>
        ensures best { IfOk result (λ list. list ≡ best_on (ask_tree ask.now) count (table_in self.old)) }
        ensures same { self.new ≡ self.old }
    {
        let root = self.guard.root();
        best_at(alloc, &mut self.guard, root, &self.fields, ask, count)
    }

    /// Writes the numbers that documents have at the commit, in the attribute with this number, and which have one.
    /// Returns how many have one.
    pub fn longs(
        &mut self,
        field: u32,
        documents: &[u32],
        numbers: &mut [i64],
        present: &mut [u8],
    ) -> usize
        requires numbers { length numbers.old ≡ length documents.now }
        requires present { length present.old ≡ length documents.now }
        ensures numbers { numbers.new ≡ map (λ document. unwrap_or (number_of field (table_in self.old) document) (pos 0)) documents.now }
        ensures present { present.new ≡ map (λ document. presence (number_of field (table_in self.old) document)) documents.now }
        ensures count { result ≡ length (filter_map (number_of field (table_in self.old)) documents.now) }
        ensures same { self.new ≡ self.old }
    {
        let root = self.guard.root();
        write_longs(
            &mut self.guard,
            root,
            &self.fields,
            field,
            documents,
            numbers,
            present,
        )
    }

    /// Returns the groups of the documents of an answer by their values at the commit, in the attribute with this number: the first
    /// `most`, by value or by count.
    pub fn groups(
        &mut self,
        alloc: Global,
        answer: &Answer,
        field: u32,
        by_count: bool,
        most: usize,
    ) -> Result<Groups, AllocError>
        ensures groups { IfOk result (λ list. list ≡ groups_by by_count field (documents_of answer.now) most (table_in self.old)) }
        ensures same { self.new ≡ self.old }
    {
        let root = self.guard.root();
        answer_groups(
            alloc,
            &mut self.guard,
            root,
            &self.fields,
            answer,
            field,
            by_count,
            most,
        )
    }

    /// Returns the values that meet a leaf at the commit, in the attribute with this number, each with how many documents have it: the
    /// first `most`, ascending.
    pub fn terms(
        &mut self,
        alloc: Global,
        field: u32,
        leaf: &Leaf,
        most: usize,
    ) -> Result<Groups, AllocError>
        ensures terms { IfOk result (λ list. list ≡ terms field leaf.now most (table_in self.old)) }
        ensures same { self.new ≡ self.old }
    {
        let root = self.guard.root();
        terms(
            alloc,
            &mut self.guard,
            root,
            &self.fields,
            field,
            leaf,
            most,
        )
    }

    /// Returns the documents of the commit that are not below `first`, ascending: at most `most`.
    pub fn documents(
        &mut self,
        alloc: Global,
        first: u32,
        most: usize,
    ) -> Result<DocList, AllocError>
        ensures documents { IfOk result (λ docs. docs ≡ documents_from first most (table_in self.old)) }
        ensures same { self.new ≡ self.old }
    {
        let root = self.guard.root();
        documents_from(alloc, &mut self.guard, root, &self.fields, first, most)
    }

    /// Returns the items of a document at the commit, in the attribute with this number, or `None` if the document
    /// does not exist.
    pub fn items(
        &mut self,
        alloc: Global,
        field: u32,
        doc: Doc,
    ) -> Result<Option<Items>, AllocError>
        ensures items { field < length self.old.fields → IfOk result (λ found. found ≡ items_of field doc (table_in self.old)) }
        ensures same { self.new ≡ self.old }
    {
        let root = self.guard.root();
        field_items(alloc, &mut self.guard, root, &self.fields, field, doc)
    }

    /// Returns the bytes of a save of the first attribute at the commit.
    pub fn saved(&mut self, alloc: Global) -> Result<Vec<u8>, AllocError>
        ensures bytes { IfOk result (λ bytes. bytes.items ≡ save_of_table self.old.fields (operations_of self.old) (table_in self.old)) }
        ensures same { self.new ≡ self.old }
    {
        let root = self.guard.root();
        saved_at(alloc, &mut self.guard, root, &self.fields)
    }
}
