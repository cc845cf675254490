//! Laws of the two moves of documents. Each function does nothing; its contract is the law.
ghost use Rattle.compaction_moves.specs.DocumentsCleared.{ItemsAreCleared, ItemsCanMove, MapIsCleared, NodesCanMove};

use attr_field::documents_law;
use store_api::Store;
use value_index::key_law;

/// After a document's items are moved out of the victim, everything up to that document is cleared.
#[tactic(none)]
pub fn items_law<const OFFSET_BITS: u32, S: Store<OFFSET_BITS>>()
    ensures { ItemsAreCleared S.Home }
{}

/// After the nodes on the way to a document are moved out of the victim, everything up to that document is cleared.
#[tactic(none)]
pub fn map_law<const OFFSET_BITS: u32, S: Store<OFFSET_BITS>>()
    ensures { MapIsCleared S.Home }
{}

/// The knowledge of a plan about an attribute meets the conditions of the moves of its documents.
#[tactic(none)]
pub fn can_law<const OFFSET_BITS: u32, S: Store<OFFSET_BITS>>()
    ensures items { ItemsCanMove S.Home }
    ensures nodes { NodesCanMove S.Home }
{
    documents_law();
    key_law();
}
