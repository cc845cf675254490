//! One attribute of a collection in a store: the items of its documents, and the index of their values.
#![tactic(auto)]

mod changing;
mod comparing;
mod documents_changing;
mod documents_laws;
mod documents_reading;
mod keys;
mod laws;
mod making;
mod reading;
mod roots;
mod steps;
mod weights;

pub use changing::{put, remove};
pub use documents_changing::{remove_document, set_document};
pub use documents_laws::documents_law;
pub use documents_reading::{document_items, read_item, read_items};
pub use keys::keys_of;
pub use laws::field_law;
pub use reading::items;
pub use roots::FieldRoots;
