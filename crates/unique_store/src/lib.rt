//! Values in a store, each in a record of its own: longs as their 64 bits, texts by their bytes.
#![tactic(auto)]

mod adding;
mod bytes;
mod comparing;
mod laws;
mod reading;

pub use adding::add;
pub use comparing::compare;
pub use laws::value_law;
pub use reading::get;
