//! The next key of a phase, and the first of the phase after it.

ghost use Rattle.std.specs.Prelude.{◌≡◌, ◌<◌, IfOk};
ghost use Rattle.attr_compaction.specs.declared.plan.TheConstants.{PHASES};
ghost use Rattle.doc_vector.specs.Documents.{IsDocumentMap};
ghost use Rattle.value_index.specs.Indexes.{IsIndex};
ghost use Rattle.attr_compaction.specs.PhaseKeys.{key_past, node_phase_keys, phase_keys, HasType};

use crate::documents::document_after;
use crate::pairs::pair_after;
use crate::values::value_after;
use crate::{DOCUMENTS, KEYS, LISTS, PlanKey};
use arena_api::Frozen;
use attr_types::ValueType;
use entry_ref::EntryRef;
use std::alloc::{AllocError, Global};

/// Returns the first key of the last phase after another one: a value, or, if there is none, a document.
#[tactic(none)]
fn node_after<const OFFSET_BITS: u32, F: Frozen<OFFSET_BITS>>(
    alloc: Global,
    frozen: &mut F,
    value_type: ValueType,
    documents: EntryRef<OFFSET_BITS>,
    dictionary: EntryRef<OFFSET_BITS>,
    key: &PlanKey,
) -> Result<Option<PlanKey>, AllocError>
    requires documents { IsDocumentMap (F.records frozen.old) documents }
    requires index { IsIndex value_type (F.records frozen.old) dictionary }
    requires typed { HasType value_type key.now }
    ensures next { IfOk result (λ found. found
        ≡ key_past key.now (node_phase_keys value_type (F.records frozen.old) documents.entry dictionary.entry)) }
    ensures same { frozen.new ≡ frozen.old }
{
    let next = value_after(alloc, frozen, value_type, dictionary, key)?;
    match next {
        Some(value) => Ok(Some(value)),
        None => Ok(document_after(frozen, documents, key)),
    }
}

/// Returns the first key of a phase of a compaction after another one, from the trees of an attribute.
#[tactic(none)]
pub fn next_key<const OFFSET_BITS: u32, F: Frozen<OFFSET_BITS>>(
    alloc: Global,
    frozen: &mut F,
    value_type: ValueType,
    documents: EntryRef<OFFSET_BITS>,
    dictionary: EntryRef<OFFSET_BITS>,
    phase: u32,
    key: &PlanKey,
) -> Result<Option<PlanKey>, AllocError>
    requires documents { IsDocumentMap (F.records frozen.old) documents }
    requires index { IsIndex value_type (F.records frozen.old) dictionary }
    requires phase { phase < PHASES }
    requires typed { HasType value_type key.now }
    ensures next { IfOk result (λ found. found
        ≡ key_past key.now (phase_keys value_type (F.records frozen.old) documents.entry dictionary.entry phase)) }
    ensures same { frozen.new ≡ frozen.old }
{
    if phase == KEYS {
        return value_after(alloc, frozen, value_type, dictionary, key);
    }
    if phase == DOCUMENTS {
        return Ok(document_after(frozen, documents, key));
    }
    if phase == LISTS {
        return pair_after(alloc, frozen, value_type, dictionary, key);
    }
    node_after(alloc, frozen, value_type, documents, dictionary, key)
}
