//! Loads operations into attributes in batches, with a commit after each batch.
//!
//! Also how much space a run needs: bounds on what its operations, commits and compactions make, and what follows from
//! them for the buffers of a store.
#![tactic(auto)]

mod batch;
mod error;
mod laws;
mod loaded;
mod loader;
mod loading;

pub use attribute_kinds::Attribute;
pub use error::LoadError;
pub use laws::{example_law, room_law};
pub use loaded::{Loaded, NoRoom};
pub use loader::load;
pub use loading::Loading;
