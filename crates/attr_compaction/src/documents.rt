//! The keys of the document phase: one document after another.

ghost use Rattle.std.specs.Prelude.{◌≡◌};
ghost use Rattle.std.specs.Option.{option_map};
ghost use Rattle.attr_compaction.specs.declared.plan.PlanKey.TheVariants as keys;
ghost use Rattle.doc_vector.specs.Documents.{IsDocumentMap};
ghost use Rattle.attr_compaction.specs.PhaseKeys.{document_keys, key_past};

use crate::PlanKey;
use crate::numbers::{first_number, number_past};
use arena_api::Frozen;
use entry_ref::EntryRef;

/// Returns the key of a document.
fn document_key(number: Option<u32>) -> Option<PlanKey>
    ensures { result ≡ option_map (λ doc. keys.Doc doc) number }
{
    match number {
        Some(doc) => Some(PlanKey::Doc(doc)),
        None => None,
    }
}

/// Returns the first document after a key.
#[tactic(none)]
pub fn document_after<const OFFSET_BITS: u32, F: Frozen<OFFSET_BITS>>(
    frozen: &mut F,
    root: EntryRef<OFFSET_BITS>,
    key: &PlanKey,
) -> Option<PlanKey>
    requires { IsDocumentMap (F.records frozen.old) root }
    ensures next { result ≡ key_past key.now (document_keys (F.records frozen.old) root.entry) }
    ensures same { frozen.new ≡ frozen.old }
{
    match key {
        PlanKey::Start => document_key(first_number(frozen, root)),
        PlanKey::Value(_) => document_key(first_number(frozen, root)),
        PlanKey::Doc(doc) => document_key(number_past(frozen, root, *doc)),
        PlanKey::Pair(_, _) => None,
    }
}
