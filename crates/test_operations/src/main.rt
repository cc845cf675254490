//! Random operations on attributes in a store beside the plain table, and the forms of lists, by rows of standard
//! input. A wrong row is printed.
#![tactic(auto)]

mod counts;
mod forms;
mod image;
mod lines;
mod make;
mod rows;
mod run;
mod turn;
mod values;
mod worked;

use std::io;

fn main(rt: HostRuntime) -> io::Result<()> {
    rows::compare(&rt)
}
