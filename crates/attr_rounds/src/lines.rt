//! The lines of the answers of an image.
ghost use Rattle.std.specs.Prelude.{◌≡◌, ◌≤◌, ◌<◌, ◌++◌, ◌^◌, length, map, OnOk, string_bytes};
ghost use Rattle.attr_rounds.specs.Lines.{line_of, lines_from};
ghost use Rattle.image_format.specs.Images.{operations_at, table_of, IsLawfulImage};
ghost use Rattle.image_format.specs.Shapes.{shape_of, types_of};
ghost use Rattle.attr_types.specs.Scores.{ask_tree, answer_on, documents, scored};
ghost use Rattle.attr_types.specs.declared.field.TheConstants.{MOST_FIELDS};

use arena_api::Frozen;
use attr_report::{push_count, push_documents, push_scores};
use attr_types::{Ask, Doc, Fields, Score};
use entry_ref::EntryRef;
use query_eval::{hits, scores};
use std::alloc::{AllocError, Global};

/// Returns the number of operations of an image.
pub fn operations_in<const OFFSET_BITS: u32, F: Frozen<OFFSET_BITS>>(
    frozen: &mut F,
    root: EntryRef<OFFSET_BITS>,
) -> u32
    requires image { IsLawfulImage (F.shape frozen.old) (F.records frozen.old) root }
    ensures count { result ≡ operations_at (F.records frozen.old) root.entry }
    ensures same { frozen.new ≡ frozen.old }
{
    if root.valid() {
        frozen.word(root, 0) as u32
    } else {
        0
    }
}

fn push_docs(text: &mut String, counted: bool, number: u64, docs: &[Doc]) -> Result<(), AllocError>
    ensures { OnOk result (string_bytes text.new ≡ string_bytes text.old ++ line_of counted number (documents docs.now)) }
{
    if counted {
        push_count(text, number, docs.len())
    } else {
        push_documents(text, number, docs)
    }
}

fn push_scored(
    text: &mut String,
    counted: bool,
    number: u64,
    list: &[Score],
) -> Result<(), AllocError>
    ensures { OnOk result (string_bytes text.new ≡ string_bytes text.old ++ line_of counted number (scored list.now)) }
{
    if counted {
        push_count(text, number, list.len())
    } else {
        push_scores(text, number, list)
    }
}

fn push_answer<const OFFSET_BITS: u32, F: Frozen<OFFSET_BITS>>(
    alloc: Global,
    frozen: &mut F,
    root: EntryRef<OFFSET_BITS>,
    fields: &Fields,
    ask: &Ask,
    counted: bool,
    number: u64,
    text: &mut String,
) -> Result<(), AllocError>
    requires few { length fields.now ≤ MOST_FIELDS }
    requires shape { F.shape frozen.old ≡ shape_of (types_of fields.now) }
    requires image { IsLawfulImage (F.shape frozen.old) (F.records frozen.old) root }
    ensures line { OnOk result (string_bytes text.new ≡ string_bytes text.old
        ++ line_of counted number (answer_on (ask_tree ask.now) (table_of (F.shape frozen.old) (F.records frozen.old) root.entry))) }
    ensures same { frozen.new ≡ frozen.old }
{
    match ask {
        Ask::Hits(query) => {
            let docs = hits(alloc, frozen, root, fields, query)?;
            push_docs(text, counted, number, docs.as_slice())
        }
        Ask::Dot { field, parts } => {
            let list = scores(alloc, frozen, root, fields, *field, parts)?;
            push_scored(text, counted, number, list.as_slice())
        }
    }
}

/// Writes a line for each ask: its answer at an image, or the number of documents of the answer.
pub fn push_lines<const OFFSET_BITS: u32, F: Frozen<OFFSET_BITS>>(
    alloc: Global,
    frozen: &mut F,
    root: EntryRef<OFFSET_BITS>,
    fields: &Fields,
    asks: &[Ask],
    counted: bool,
    text: &mut String,
) -> Result<(), AllocError>
    requires few { length fields.now ≤ MOST_FIELDS }
    requires shape { F.shape frozen.old ≡ shape_of (types_of fields.now) }
    requires image { IsLawfulImage (F.shape frozen.old) (F.records frozen.old) root }
    requires small { length asks.now < 2 ^ 63 }
    ensures lines { OnOk result (string_bytes text.new ≡ string_bytes text.old
        ++ lines_from counted 1 (map ask_tree asks.now) (table_of (F.shape frozen.old) (F.records frozen.old) root.entry)) }
    ensures same { frozen.new ≡ frozen.old }
{
    let mut number: u64 = 1;
    for ask in asks {
        push_answer(alloc, frozen, root, fields, ask, counted, number, text)?;
        number += 1;
    }
    Ok(())
}
