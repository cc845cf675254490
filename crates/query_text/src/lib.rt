//! The text of a query word, and what it asks for.
//!
//! `specs/Grammar.antt` is the grammar: the one text of each word, and the answer to each text. A text is read in two
//! passes. The first scans its bytes, with one machine for queries and one for dot products. It allocates no memory
//! and finds every refusal. The second pass builds the ask, a query of at most 32 levels.
#![tactic(auto)]

mod asks;
mod dot;
mod list;
mod mode;
mod name;
mod read;
mod survey;

pub use asks::{grammar_law, parse_ask, parse_query};
