//! Tests of trees over their public calls, as selected by rows of standard input: how nodes are filled, where keys
//! are found, many changes beside a sorted list, trees that are built at once or touched, a full store, and equal
//! keys with different words. A wrong row is printed.
#![tactic(auto)]

mod changes;
mod example;
mod keys;
mod of_build;
mod of_touch;
mod rows;
mod steps;
mod tens;
mod texts;
mod trees;

use std::io;

fn main(rt: HostRuntime) -> io::Result<()> {
    rows::compare(&rt)
}
