//! Moving one key of an attribute out of the buffer that a compaction empties.
//!
//! In an index, the record of a value, its list, or the nodes on its path are copied if they lie in that buffer.
//!
//! In an attribute, what belongs to one key of a phase is copied if it lies in that buffer.
//!
//! The laws say what a compaction has cleared of its victim, by the place of its plan: which keys were visited, and
//! what each move clears.
#![tactic(auto)]

mod cleared_documents;
mod document_moving;
mod document_nodes;
mod field_documents;
mod field_moving;
mod index;
mod index_keys;
mod index_nodes;
mod indexes;
mod laws;
mod lists;
mod lying;
mod visits;

pub use cleared_documents::{can_law, items_law, map_law};
pub use document_moving::move_items;
pub use document_nodes::move_document_nodes;
pub use field_moving::move_one;
pub use index::{keys_law, leaves_law, moved_law};
pub use index_keys::move_key;
pub use index_nodes::move_nodes;
pub use laws::cleared_law;
pub use lists::move_list;
pub use lying::items_lie;
pub use visits::visited_law;
