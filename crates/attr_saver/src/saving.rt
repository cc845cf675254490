//! The bytes of a save.

ghost use Rattle.std.specs.Prelude.{◌≡◌, IfOk, Ok};
ghost use Rattle.attr_saver.specs.Bytes.{saved_bytes};
ghost use Rattle.attr_saver.specs.Fields.{read_of};
ghost use Rattle.attr_saver.specs.Lawful.{AreLawfulDocuments, first_column, save_of};

use crate::sizing::table_size;
use crate::writing::{push_documents, push_head};
use attr_types::{Doc, FieldItems, Kind, ValueType};
use std::alloc::{AllocError, Global};
use std::collections::BTreeMap;

/// Returns the bytes of a save of the first attribute, of this kind and value type, after `operations` operations.
pub fn saved_in(
    alloc: Global,
    kind: Kind,
    value: ValueType,
    operations: u32,
    documents: &BTreeMap<Doc, FieldItems>,
) -> Result<Vec<u8>, AllocError>
    requires { AreLawfulDocuments kind value (first_column documents.now.entries) }
    ensures bytes { IfOk result (λ bytes. bytes.items
        ≡ saved_bytes (save_of kind value operations documents.now.entries)) }
    // What was saved can be read again.
    ensures again { IfOk result (λ bytes. read_of bytes.items
        ≡ Ok (save_of kind value operations documents.now.entries)) }
{
    let mut bytes = Vec::with_capacity(alloc, table_size(kind, value, documents))?;
    push_head(&mut bytes, kind, value, operations, documents.len() as u32)?;
    push_documents(&mut bytes, kind, documents)?;
    Ok(bytes)
}
