//! Compactions of attributes in a store beside the plain table, as selected by rows of standard input. A wrong row is
//! printed.
#![tactic(auto)]

mod census;
mod course;
mod ended;
mod memory;
mod outcome;
mod rows;
mod run;
mod script;
mod steps;
mod table;
mod turn;
mod values;
mod watch;
mod watched;

use std::io;

fn main(rt: HostRuntime) -> io::Result<()> {
    rows::compare(&rt)
}
