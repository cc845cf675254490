//! One writer and many readers over the words of one atomic table.
#![tactic(auto)]

mod arena;
mod buffers;
mod config;
mod holds;
mod laws;
mod plays;
mod reader;
mod rule;
mod seats;
mod steps;
mod words;
mod work;
mod writer;

pub use arena::{Arena, Token};
pub use config::{Config, Limits, MOST_COMMITS, MOST_GENERATIONS};
pub use laws::one_run_law;
pub use reader::{Again, Aimed, Guarded, Reader};
pub use rule::Watched;
pub use steps::Steps;
pub use work::Home;
pub use writer::{NoSeat, Writer};
