//! The whole run of `attr`: from the words of its command line and the bytes of its feed to the bytes that it writes.
//!
//! It can also make operations from a number, instead of reading a feed.
#![tactic(auto)]

mod draw;
mod feed;
mod laws;
mod made_laws;
mod make;
mod outcome;
mod program;
mod request;
mod run;
mod stop;
mod texts;
mod value;
mod words;

pub use laws::settings_law;
pub use made_laws::made_law;
pub use make::make_ops;
pub use outcome::{FeedFault, Outcome, Status, UsageCause, exit_of};
pub use program::run_program;
pub use run::attr_main;
pub use words::Words;
