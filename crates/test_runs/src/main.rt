//! Runs of `attr_main` that show what the program cannot: the buffers of a full store and the places of refused words, devices that fail at a
//! call, readers held at the gate, rounds that are not written, a save beside a load that is held; and sources and sinks alone.
//! (`tests/rows/` has the rows of the program.) A wrong case is printed.
#![tactic(auto)]

mod devices;
mod program;
mod rows;
mod run;
mod saved;
mod saver;
mod traffic;
mod turns;

use std::io;

fn main(rt: HostRuntime) -> io::Result<()> {
    rows::compare(&rt, &rt)?;
    devices::compare(&rt, &rt)?;
    saved::compare(&rt)?;
    traffic::compare(&rt)?;
    program::compare(&rt, &rt)?;
    turns::compare(&rt, &rt)?;
    saver::compare(&rt, &rt)
}
