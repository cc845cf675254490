//! Saves the first attribute of an image or of a table as bytes, and reads such bytes.
#![tactic(auto)]

mod document;
mod error;
mod images;
mod laws;
mod loading;
mod reader;
mod saved;
mod saving;
mod sizing;
mod stored_documents;
mod stored_items;
mod stored_values;
mod value;
mod writing;

pub use error::{LoadError, SaveError};
pub use images::{save, saved_size};
pub use laws::{column_law, image_save_law, saved_law};
pub use loading::read_saved;
pub use saved::{Saved, SavedDocument, SavedTable};
pub use saving::saved_in;
