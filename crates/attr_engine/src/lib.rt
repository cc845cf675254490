//! A run over the running memory: operations are loaded and committed while readers answer.
#![tactic(auto)]

mod beside;
mod engine;
mod error;
mod laws;
mod readers;
mod run;
mod run_result;
mod saving;
mod with_saver;
mod writing;
mod written;

pub use attr_loader::NoRoom;
pub use engine::run_and_write;
pub use error::EngineError;
pub use laws::run_result_law;
pub use run::run_threads;
pub use run_result::{RunResult, Save};
pub use word_arena::Watched;
pub use written::Written;
