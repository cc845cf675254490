//! The save of an image, written from its records.
ghost use Rattle.std.specs.Prelude.{◌≡◌, ◌<◌, ◌≤◌, ◌++◌, ◌^◌, length, slice_index, OnOk, OnErr};
ghost use Rattle.std.specs.Io.KnownBytes.{Appends};
ghost use Rattle.std.specs.Int.{w32, to_be_bytes};
ghost use Rattle.std.specs.List.{flat_map};
ghost use Rattle.image_format.specs.Images.{root_words, IsLawfulImage};
ghost use Rattle.attr_io.specs.Bytes.{AppendsFront};
ghost use Rattle.attr_io.specs.Faults.{CountsFaults};
ghost use Rattle.tree_read.specs.Trees.{tree_pairs};
ghost use Rattle.attr_saver.specs.Bytes.{document_bytes, form_bytes, head_bytes, saved_bytes};
ghost use Rattle.attr_saver.specs.Images.{image_save, IsFirst};
ghost use Rattle.attr_saver.specs.Stored.{documents_of, AreStored, Writes};

use crate::error::SaveError;
use crate::reader::MAGIC;
use crate::sizing::HEAD;
use crate::stored_documents::{documents_size, write_documents};
use crate::stored_values::put;
use crate::writing::{kind_byte, type_byte};
use arena_api::Frozen;
use attr_io::{Failed, Sink};
use attr_types::{Kind, ValueType};
use entry_ref::EntryRef;
use tree_read::total;

/// Writes the kind and value type of a save.
fn write_form<K: Sink>(sink: &mut K, kind: Kind, value_type: ValueType) -> Result<(), Failed>
    ensures { Writes (K.taken sink.old) (K.taken sink.new) (K.faults sink.old) (K.faults sink.new) result (form_bytes kind value_type) }
{
    put(sink, MAGIC)?;
    put(sink, &[kind_byte(kind), type_byte(value_type)])
}

/// Writes two numbers.
fn write_numbers<K: Sink>(sink: &mut K, one: u32, other: u32) -> Result<(), Failed>
    ensures { Writes (K.taken sink.old) (K.taken sink.new) (K.faults sink.old) (K.faults sink.new) result
        (to_be_bytes w32 one ++ to_be_bytes w32 other) }
{
    put(sink, &one.to_be_bytes())?;
    put(sink, &other.to_be_bytes())
}

/// Writes the fields before the documents.
fn write_head<K: Sink>(
    sink: &mut K,
    kind: Kind,
    value_type: ValueType,
    operations: u32,
    documents: u32,
) -> Result<(), Failed>
    ensures { Writes (K.taken sink.old) (K.taken sink.new) (K.faults sink.old) (K.faults sink.new) result
        (head_bytes kind value_type operations documents) }
{
    write_form(sink, kind, value_type)?;
    write_numbers(sink, operations, documents)
}

/// Writes a save of the documents of a tree, after `operations` operations.
fn write_save<const OFFSET_BITS: u32, F: Frozen<OFFSET_BITS>, K: Sink>(
    frozen: &mut F,
    tree: EntryRef<OFFSET_BITS>,
    kind: Kind,
    value_type: ValueType,
    operations: u32,
    sink: &mut K,
) -> Result<(), Failed>
    requires { AreStored kind value_type (F.records frozen.old) tree }
    ensures writes { Writes (K.taken sink.old) (K.taken sink.new) (K.faults sink.old) (K.faults sink.new) result
        (head_bytes kind value_type operations (length (tree_pairs (F.records frozen.old) tree.entry))
        ++ flat_map (document_bytes kind)
        (documents_of kind value_type (F.records frozen.old) (tree_pairs (F.records frozen.old) tree.entry))) }
    ensures same { frozen.new ≡ frozen.old }
{
    let documents = total(frozen, tree);
    write_head(sink, kind, value_type, operations, documents)?;
    write_documents(frozen, kind, value_type, tree, sink)
}

/// Returns a word of the root record, or 0 if there is none.
fn root_word<const OFFSET_BITS: u32, F: Frozen<OFFSET_BITS>>(
    frozen: &mut F,
    root: EntryRef<OFFSET_BITS>,
    i: u32,
) -> u32
    requires there { 0 < root → i < length (F.records frozen.old root) }
    requires small { slice_index (root_words (F.records frozen.old) root) i < 2 ^ 32 }
    ensures word { result ≡ slice_index (root_words (F.records frozen.old) root.entry) i }
    ensures same { frozen.new ≡ frozen.old }
{
    if root.valid() {
        frozen.word(root, i) as u32
    } else {
        0
    }
}

/// Writes a save of the first attribute of an image.
fn write_image<const OFFSET_BITS: u32, F: Frozen<OFFSET_BITS>, K: Sink>(
    frozen: &mut F,
    root: EntryRef<OFFSET_BITS>,
    kind: Kind,
    value_type: ValueType,
    sink: &mut K,
) -> Result<(), Failed>
    requires first { IsFirst kind value_type (F.shape frozen.old) }
    requires image { IsLawfulImage (F.shape frozen.old) (F.records frozen.old) root }
    ensures writes { Writes (K.taken sink.old) (K.taken sink.new) (K.faults sink.old) (K.faults sink.new) result
        (saved_bytes (image_save kind value_type (F.shape frozen.old) (F.records frozen.old) root.entry)) }
    ensures same { frozen.new ≡ frozen.old }
{
    let operations = root_word(frozen, root, 0);
    let tree = EntryRef::from_raw(root_word(frozen, root, 1));
    write_save(frozen, tree, kind, value_type, operations, sink)
}

/// Writes a save of the first attribute of an image, which has this kind and value type. Allocates no memory.
pub fn save<const OFFSET_BITS: u32, F: Frozen<OFFSET_BITS>, K: Sink>(
    frozen: &mut F,
    root: EntryRef<OFFSET_BITS>,
    kind: Kind,
    value: ValueType,
    sink: &mut K,
) -> Result<(), SaveError>
    requires first { IsFirst kind value (F.shape frozen.old) }
    requires image { IsLawfulImage (F.shape frozen.old) (F.records frozen.old) root }
    ensures whole { OnOk result (Appends (K.taken sink.old) (K.taken sink.new)
        (saved_bytes (image_save kind value (F.shape frozen.old) (F.records frozen.old) root.entry))) }
    ensures front { OnErr result (AppendsFront (K.taken sink.old) (K.taken sink.new)
        (saved_bytes (image_save kind value (F.shape frozen.old) (F.records frozen.old) root.entry))) }
    // The only refusal is a failed write.
    ensures cause { CountsFaults (K.faults sink.old) (K.faults sink.new) result }
    ensures same { frozen.new ≡ frozen.old }
{
    write_image(frozen, root, kind, value, sink)?;
    Ok(())
}

/// Returns the number of bytes of a save of the first attribute of an image, which has this kind and value type.
pub fn saved_size<const OFFSET_BITS: u32, F: Frozen<OFFSET_BITS>>(
    frozen: &mut F,
    root: EntryRef<OFFSET_BITS>,
    kind: Kind,
    value: ValueType,
) -> u64
    requires first { IsFirst kind value (F.shape frozen.old) }
    requires image { IsLawfulImage (F.shape frozen.old) (F.records frozen.old) root }
    ensures size { result
        ≡ length (saved_bytes (image_save kind value (F.shape frozen.old) (F.records frozen.old) root.entry)) }
    ensures same { frozen.new ≡ frozen.old }
{
    let tree = EntryRef::from_raw(root_word(frozen, root, 1));
    HEAD as u64 + documents_size(frozen, kind, value, tree)
}
