//! Dot products: scanned, then read.

pub mod read;
pub mod survey;
