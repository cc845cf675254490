//! The asks of a run, answered at one commit as lines of text or as counts.

ghost use Rattle.std.specs.Prelude.{◌≡◌, length, map, IfOk};
ghost use Rattle.attr_rounds.specs.Lines.{CanAsk, TellsTable};
ghost use Rattle.image_format.specs.Images.{operations_at, table_of, IsLawfulImage};
ghost use Rattle.attr_types.specs.Scores.{ask_tree};

use crate::Question;
use crate::lines::{operations_in, push_lines};
use arena_api::Frozen;
use attr_types::{Ask, Fields};
use entry_ref::EntryRef;
use image_format::AttrLayout;
use query_eval::documents;
use std::alloc::{AllocError, Global};

/// The asks of a run over these attributes, answered in full or by the number of documents.
#[derive(Drop)]
pub struct Asked<'a> {
    pub fields: &'a Fields,
    pub asks: &'a [Ask],
    pub counted: bool,
}

/// The answers of an image: its number of documents, and a line for each answer.
#[derive(Drop)]
pub struct Told {
    pub documents: u32,
    pub lines: String,
}

impl<'a, const OFFSET_BITS: u32> Question<OFFSET_BITS, AttrLayout> for Asked<'a> {
    type Answer = Told;

    ghost operations = { λ shape m root. operations_at m root };

    ghost answers = { λ asked shape m root told. TellsTable asked.counted (map ask_tree asked.asks.now) (table_of shape m root) told };

    ghost fits = { λ asked shape. CanAsk asked.fields.now (length asked.asks.now) shape };

    fn operations<F: Frozen<OFFSET_BITS>>(&self, frozen: &mut F, root: EntryRef<OFFSET_BITS>) -> u32
        requires lawful { IsLawfulImage (F.shape frozen.old) (F.records frozen.old) root }
        ensures count { result ≡ operations_at (F.records frozen.old) root.entry }
        ensures same { frozen.new ≡ frozen.old }
    {
        operations_in(frozen, root)
    }

    fn answer<F: Frozen<OFFSET_BITS>>(
        &self,
        alloc: Global,
        frozen: &mut F,
        root: EntryRef<OFFSET_BITS>,
    ) -> Result<Told, AllocError>
        requires fits { CanAsk self.now.fields.now (length self.now.asks.now) (F.shape frozen.old) }
        requires lawful { IsLawfulImage (F.shape frozen.old) (F.records frozen.old) root }
        ensures answer { IfOk result (TellsTable self.now.counted (map ask_tree self.now.asks.now)
            (table_of (F.shape frozen.old) (F.records frozen.old) root.entry)) }
        ensures same { frozen.new ≡ frozen.old }
    {
        let documents = documents(frozen, root);
        let mut lines = String::new(alloc);
        push_lines(
            alloc,
            frozen,
            root,
            self.fields,
            self.asks,
            self.counted,
            &mut lines,
        )?;
        Ok(Told { documents, lines })
    }
}
